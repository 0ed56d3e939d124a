// Why a request is decided as it is: its zone, roles and tags, and how each policy stands to it.
#![tactic(auto)]

mod cells;
mod choosing;
mod explainer;
mod explanation;
mod laws;
mod parts;
mod telling;
mod zoning;

pub use explainer::Explainer;
pub use explanation::{Explanation, HeldBy, InZone, TaggedBy, Told};
pub use laws::{
    chosen_policies_are_told, deciding_cell_is_told, decision_is_told, holding_roles_have_a_reason,
    told_in_play_takes_part, zone_is_told_with_its_map,
};
