// Who may administer a policy: administrators, those of its zone, and those to whom policies that cover it delegate.
#![tactic(auto)]

mod accesses;
mod actor;
mod authority;
mod candidates;
mod covering;
mod delegation;
mod filing;
mod laws;
mod listing;
mod lookups;
mod reading;
mod rules;

pub use authority::{may_administer, may_see};
pub use laws::{
    administrators_may_everything, covered_policy_may_be_administered, covering_policy_lies_on_all,
    more_delegation_keeps_authority, rising_ids_are_in_order,
};
pub use listing::policies_seen;
pub use rules::authority_fault;
