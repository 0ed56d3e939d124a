// Role membership: which users each role holds, by itself or by the roles that it names.
#![tactic(auto)]

mod bits;
mod chart;
mod fault;
pub mod laws;
mod membership;
mod reach;
mod row;
mod search;
mod walk;

pub use fault::{RoleFault, role_fault};
pub use membership::Roles;
pub use row::RoleRow;
