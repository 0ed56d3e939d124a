// Policies and tag rows, each compiled and filed, so that a resource finds those that may lie on it.
#![tactic(auto)]

mod compilers;
mod filling;
mod held;
mod marks;
mod moving;
mod pages;
mod plan;
mod policies;
mod row_visits;
mod rows;
mod sharing;
mod shelf;
mod sides;
mod slots;
mod visits;

pub use policies::PolicySet;
pub use row_visits::{CompiledRow, RowVisits};
pub use rows::RowSet;
pub use sharing::sets_may_be_shared;
pub use visits::{Compiled, Visits};
