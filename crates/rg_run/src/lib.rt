// The program: words and a script in, a text and a status out.
#![tactic(auto)]

mod command;
mod machine;
mod program;

pub use command::Command;
pub use machine::{out_of_memory, start};
pub use program::run;
