// The words of `rangerd-plugin`, and the plugin over the machine.
#![tactic(auto)]

mod program;
mod words;

pub use program::{out_of_memory, refused, start};
