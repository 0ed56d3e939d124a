// The command `report`: a script of facts, and of what is asked about them.
#![tactic(auto)]

mod report;

pub use report::Reports;
