// What is asked of an administration with grants and revokes.
use crate::row::GrantRow;
use rg_base::Text;
use rg_cmd::Ask;

/// A command, a grant or a revoke, of an actor who is named by a user's name.
#[derive(Drop)]
pub enum GrantAsk {
    Plain(Ask),
    /// The row's subjects are to have its accesses by its policy.
    Grant { actor: Text, row: GrantRow },
    /// The row's subjects are to have its accesses by its policy no longer.
    Revoke { actor: Text, row: GrantRow },
}
