// The command `keep`: a script of an administration whose commands are kept.
#![tactic(auto)]

mod keeping;
mod line;
mod lines;
mod script;
mod stage;

pub use keeping::Keeping;
pub use line::{KeepLine, read_keep_line};
pub use script::keep_script;
