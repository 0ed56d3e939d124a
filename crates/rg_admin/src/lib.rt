// The administration: what it holds, and how a command changes it.
#![tactic(auto)]

mod admin;
mod change;
mod counting;
mod download;
mod lists;
mod logs;
mod lookups;
mod numbered;
mod places;
mod planning;
mod putting;
mod recorder;
mod reply;
mod served;
mod start;
mod touches;
mod view;

pub use admin::Admin;
pub use recorder::{Recorder, Unkept};
pub use start::StartFault;
