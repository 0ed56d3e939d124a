// One link of a plugin served: decisions, and how it stands.
#![tactic(auto)]

mod asks;
mod link;
mod message;
mod standing;

pub use link::Desk;
pub use rg_link::Deciding;
pub use standing::Standing;
