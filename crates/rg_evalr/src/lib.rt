// One policy compiled: whether it is in play for a request, its effect, and the row filter or mask that it offers.
#![tactic(auto)]

mod compile;
mod evaluator;
mod frame;
mod granted;
mod item;
mod rules;

pub use evaluator::Evaluator;
pub use frame::{Effect, Frame, Side, def_of};
pub use rg_cond::TimeZones;
pub use rg_items::is_custom;
pub use rules::policy_fault;
