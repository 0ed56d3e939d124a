// What the plugin of a service sees, asked of an administration and printed as a script of facts.
#![tactic(auto)]

mod program;
mod viewing;
mod words;

pub use program::{out_of_memory, refused, start};
pub use viewing::view;
