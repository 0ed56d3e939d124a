// Entries under keys, found by the prefixes of a text; each edit gives a trie that shares with the old one all but a path.
#![tactic(auto)]

mod blocks;
mod bucket;
mod counting;
mod lengths;
mod order;
mod origin;
mod pair;
mod prefix;
mod seek;
mod seen;
mod trie;
mod walk;

pub use pair::{Filed, Pair};
pub use trie::Trie;
pub use walk::Walk;
