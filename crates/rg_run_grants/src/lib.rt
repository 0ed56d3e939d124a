// The command `grants`: a script of an administration with grants.
#![tactic(auto)]

mod granting;
mod grants;
mod line;

pub use grants::Grants;
pub use line::{Change, GrantLine, read_grant_line};
