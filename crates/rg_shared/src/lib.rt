// A large value that several lists hold, and that is copied in none of them.
#![tactic(auto)]

mod shared;

pub use shared::Shared;
