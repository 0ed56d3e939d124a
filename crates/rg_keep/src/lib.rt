// Kept administration: each accepted command that changes the state goes to a keeper before its reply, and what the keeper
// holds is reopened as the administration that it was.
#![tactic(auto)]

mod kept_admin;
mod laws;
mod reopen;

pub use kept_admin::{KeptAdmin, KeptReply, Stopped};
pub use laws::{acknowledged_commands_are_kept, lists_are_reopened};
pub use reopen::{ReopenCause, ReopenFault};
