// Scripts explained: for each decision of a script that is wanted why it is as it is.
#![tactic(auto)]

mod explaining;
mod laws;
mod machine;
mod options;
mod program;
mod words;

pub use explaining::Explaining;
pub use laws::explained_as_replayed;
pub use machine::{out_of_memory, refused, start};
pub use options::{Form, Options, Style, Wanted};
pub use program::explain;
