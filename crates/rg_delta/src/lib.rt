// The changes of a service, as its logs keep them and as they are applied.
#![tactic(auto)]

mod apply;
mod births;
mod by_id;
mod edit;
mod fates;
mod log;
mod plain;
mod sides;
mod touch;

pub use by_id::Id;
pub use edit::{Edit, Identified};
pub use log::{DeltaLog, Since};
pub use plain::apply_plain;
pub use sides::{policy_edits, row_edits};
pub use touch::Touch;
