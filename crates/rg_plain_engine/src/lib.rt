// The plain engine: every request is asked of every policy.
#![tactic(auto)]

mod building;
mod plain;

pub use plain::Plain;
