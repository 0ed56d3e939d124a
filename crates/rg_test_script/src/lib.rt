// Tests of policies: a script of `replay` whose comments say what is expected of the lines before them.
#![tactic(auto)]

mod command;
mod expecting;
mod form;
mod laws;
mod outcome;
mod printing;
mod program;
mod testing;

pub use form::Form;
pub use laws::tested_as_replayed;
pub use program::{out_of_memory, refused, start, test};
