// Who may do what with a resource: one row for each named user, group and role, and for all others.
#![tactic(auto)]

mod ask;
mod asker;
mod asking;
mod laws;
mod members;
mod named;
mod order;
mod print;
mod read;
mod reporting;
mod row;
mod stranger;

pub use ask::ReportAsk;
pub use laws::{
    names_stand_once, others_are_decided_alike, rows_are_complete, rows_are_decisions,
    strangers_are_unnamed,
};
pub use print::print_row;
pub use read::read_report;
pub use reporting::report;
pub use row::{ReportRow, SubjectKind};
