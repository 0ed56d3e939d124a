// Whether an ask is in key order, so that what is printed of it is read again as itself.
#![tactic(auto)]

mod ask;
mod lists;
mod ordered;
mod policies;
mod rows;

pub use ask::is_in_key_order;
