// Asks in JSON: the records of kept administration, printed and read.
#![tactic(auto)]

mod keeping;
mod key;
mod orderly;
mod print;
mod read;

pub use keeping::is_keeping;
pub use orderly::{commands_are_in_order, json_is_orderly};
pub use print::print_ask;
pub use read::read_ask;
