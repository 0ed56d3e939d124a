// How a plugin stands, printed for whoever watches over it.
#![tactic(auto)]

mod cause;
mod health;
mod text;

pub use cause::Cause;
pub use health::Health;
pub use text::print_health;
