// A service that keeps what it administers: the words, the configuration, the records that are asked again, and the links.
#![tactic(auto)]

mod configuration;
mod file_keeper;
mod opening;
mod pages;
mod program;
mod serving;
mod watch;
mod words;

pub use opening::Keeping;
pub use program::{out_of_memory, refused, start};
pub use serving::{Ended, serve_kept};
pub use watch::Watch;
