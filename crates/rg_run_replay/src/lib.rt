// The command `replay`: a script of facts, or of an administration that is running with its publications and one pass.
#![tactic(auto)]

mod replay;
mod running;

pub use replay::{Published, Replay, Stage, publish};
pub use running::Running;
