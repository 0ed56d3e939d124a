// A recorder over a keeper: it follows the list that it finds while the records are asked again, and adds to it from then on.
#![tactic(auto)]

mod coming;
mod configured;
mod list_recorder;

pub use coming::Coming;
pub use configured::Configured;
pub use list_recorder::{ListRecorder, Unopened, recorder_of};
