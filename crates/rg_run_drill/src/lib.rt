// The drill: its workload carried out by an administration with its plugin, and what was counted.
#![tactic(auto)]

mod answers;
mod drill;
mod preparing;
mod report;
mod totals;

pub use drill::carry_out;
pub use report::add_report;
pub use totals::Totals;
