// What makes facts unsound.
#![tactic(auto)]

mod causes;
mod definitions;
mod ids;
mod noting;
mod policies;
mod prepared;
mod tag_rows;
mod unsound;
mod zones;

pub use causes::{facts_fault, sound_without_cause, unsound_causes};
pub use unsound::Unsound;
