// A script, read to its end and worked line by line, whatever the command; and how a run ends.
#![tactic(auto)]

mod auditing;
mod current;
mod hooked;
mod judging;
mod lines;
mod printing;
mod reading;
mod script;
mod status;
mod work;
mod writing;

pub use current::decide_now;
pub use hooked::{HookedWorker, follow_hooked};
pub use judging::{Decider, judge};
pub use lines::{Worked, Worker, follow, name_bad_line};
pub use printing::{add_decision, add_reply};
pub use rg_script::{LineFault, split_line};
pub use script::read_script;
pub use status::Status;
pub use work::{work_script, work_script_hooked};
pub use writing::write_all;
