// What the threads of a service share: a queue of links, a clock, why no more changes are taken, and what runs beside the workers.
#![tactic(auto)]

mod halt;
mod queue;
mod shared_clock;
mod watcher;

pub use halt::{Halt, HaltCause};
pub use queue::{Queue, Waiting};
pub use shared_clock::SharedClock;
pub use watcher::Watcher;
