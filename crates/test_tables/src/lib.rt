// What the tables of several test programs share: bytes as their rows write them, workers without hooks, and keepers in memory.
#![tactic(auto)]

mod hooks;
mod keepers;
mod notation;

pub use hooks::no_hooks;
pub use keepers::{
    add_record, both_ways, calls_before, failing_keeper, keeper_of, text_of, way_of,
};
pub use notation::{spelled, written};
