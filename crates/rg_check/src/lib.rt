// Every bad line of a script of a command, with its cause in words.
#![tactic(auto)]

mod checker;
mod command;
mod kind;
mod laws;
mod machine;
mod meanings;
mod own;
mod program;
mod reasons;
mod spelling;
mod words;

pub use command::Command;
pub use laws::scripts_end_at_first;
pub use machine::{out_of_memory, refused, start};
pub use meanings::meaning;
pub use program::check;
