// What is published for decisions: one publisher, and passes that decide by what was published last.
#![tactic(auto)]

mod history;
mod pass;
mod publisher;
mod shown;

pub use history::Publication;
pub use pass::{Pass, Told};
pub use publisher::{Publications, Publisher, begin};
pub use rg_engine::{Engine, numbered};
