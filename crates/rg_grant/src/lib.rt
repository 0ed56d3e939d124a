// Accesses granted and revoked: a row becomes the change of one policy, which is one step of the administration.
#![tactic(auto)]

mod ask;
mod desk;
mod forms;
mod laws;
mod matching;
mod planning;
mod read;
mod row;
mod taking;

pub use ask::GrantAsk;
pub use desk::GrantDesk;
pub use laws::{
    granting_policies_allow, grants_are_in_force, revokes_take_all, rows_have_one_policy,
    second_grants_change_no_verdict, taking_is_exact, taking_keeps_order,
};
pub use read::read_grant;
pub use rg_admin::{Admin, StartFault};
pub use row::GrantRow;
