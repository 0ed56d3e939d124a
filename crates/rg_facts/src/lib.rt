// The facts that decisions rest on, and the flow of a decision over whatever policies are asked.
#![tactic(auto)]

mod best;
mod choice;
mod decision;
mod facts;
mod framing;
mod laws;
mod masks;
mod outcome;
mod paths;
mod setting;
mod texts;

pub use best::{Best, Candidate, Pass};
pub use choice::Choice;
pub use decision::{Access, Answer, Decision, ItemPlace, MaskText, Verdict};
pub use facts::Facts;
pub use framing::frame_of;
pub use laws::{
    choices_only_beside_allowed, effects_are_local, idle_policies_may_go, order_plays_no_part,
    tag_policy_stands_in_both_cells,
};
pub use outcome::Outcome;
pub use setting::Setting;
pub use texts::Published;
