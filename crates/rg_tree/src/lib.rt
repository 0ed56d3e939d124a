// Values under numbers, in a tree of which an edit gives a new one that shares all but a path with the old one; and the
// hashes of texts, by which they are placed there.
#![tactic(auto)]

mod edit;
mod hash;
mod tree;

pub use hash::{hash_of, hash_of_state, step};
pub use tree::{Placed, Tree};
