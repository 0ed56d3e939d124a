// Tagged resources, their rule, and what a tag says of itself.
#![tactic(auto)]

mod attributes;
mod row;
mod rules;

pub use attributes::attribute;
pub use rg_policy::Tag;
pub use row::TagRow;
pub use rules::tags_fit;
