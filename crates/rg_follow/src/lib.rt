// A plugin that follows an administration: downloads until nothing changes any more, and of which moment what it has then is the view.
#![tactic(auto)]

mod asking;
mod fault;
mod laws;
mod rounds;

pub use fault::FollowFault;
pub use laws::{rounds_go_on, settled_is_a_view};
pub use rounds::{begin, renew, settle};
