// One machine that threads call by turns. The history of its calls is kept in proofs alone.
#![tactic(auto)]

mod exchange;
pub mod laws;
mod machine;
mod rule;
mod seats;
mod steps;
mod turn;

pub use machine::Machine;
pub use rule::Entry;
pub use seats::{Past, Seat};
pub use turn::Turn;
