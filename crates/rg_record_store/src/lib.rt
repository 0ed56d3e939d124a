// Where the records of an administration are kept: the port, a keeper in memory, and one over a database.
#![tactic(auto)]

mod keeper;
mod mem_keeper;
mod sql_keeper;

pub use keeper::{Keeper, KeeperFault};
pub use mem_keeper::{FailingCall, MemKeeper};
pub use sql_keeper::SqlKeeper;
