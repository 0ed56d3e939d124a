// The engine that decides for one service, and moves with its deltas.
#![tactic(auto)]

mod asking;
mod engine;
mod fault;
mod lists;
mod serials;
mod sets;
mod setup;
mod sharing;

pub use engine::Engine;
pub use fault::ApplyFault;
pub use serials::numbered;
pub use sharing::engine_may_be_shared;
