// One link served: its messages are answered one after another.
#![tactic(auto)]

mod audit;
mod calls;
mod coming;
mod decisions;
mod laws;
mod link;
mod message;
mod report;
mod setting;
mod writing;

pub use coming::{Coming, next_message};
pub use decisions::answer_decision;
pub use laws::{answers_are_one, lines_are_held};
pub use link::{answer_link, serve_link};
pub use report::{LinkFault, Report};
pub use setting::{Deciding, Setting};
pub use writing::{refuse, send};
