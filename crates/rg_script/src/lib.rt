// Scripts: what their lines ask, and why a line is bad.
#![tactic(auto)]

mod cause;
mod line;
mod lines;
mod word;

pub use cause::{Cause, Place, explain_line};
pub use line::{Line, LineFault, actor_of, read_line};
pub use lines::{split_line, split_word};
pub use rg_cmd_wire::print_reply;
pub use rg_facts_check::facts_fault;
