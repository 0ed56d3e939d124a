// Whether the resources of a policy, a zone or a tag row match the resource of a request.
#![tactic(auto)]

mod compile;
mod laws;
mod level;
mod map;
mod matcher;
mod policy_rules;
mod reach;
mod rules;

pub use laws::{
    fitting_policy_matches, hit_is_decided, lies_is_decided, same_maps_lie_alike,
    some_lies_is_decided,
};
pub use matcher::Matcher;
pub use policy_rules::{policy_levels_fit, policy_values_fit};
pub use reach::Reach;
pub use rules::{all_levels_fit, all_values_fit, levels_fit, tagged_fit, values_fit};
