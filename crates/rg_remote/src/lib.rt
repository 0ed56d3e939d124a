// An administration that is asked over a link for what a plugin downloads.
#![tactic(auto)]

mod fault;
mod remote;
mod target;

pub use fault::AskFault;
pub use remote::Remote;
