// A plugin that follows an administration: it publishes what its rounds settle at, keeps it for a restart, and decides by it.
#![tactic(auto)]

mod board;
mod cause;
mod plugin;
mod remote;
mod threads;

pub use board::Board;
pub use plugin::Plugin;
pub use remote::{Administration, TcpAdministration};
pub use threads::{Post, Start, Worker, run};
