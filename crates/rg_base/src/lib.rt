// What every other crate stands on: numbers with names, text, lists that may run out of memory, and counted work.
#![tactic(auto)]

mod among;
mod copies;
mod name_index;
mod named;
mod numbers;
mod pair;
mod seq;
mod steps;
mod tally;
mod text;

pub use among::any_among;
pub use copies::TryCopy;
pub use name_index::NameIndex;
pub use named::{Named, all_names_distinct, find_named, is_named, names_distinct, place_named};
pub use numbers::{Failed, Moment, NoMemory, PolicyId, Serial, Version};
pub use pair::{Pair, value_of};
pub use seq::Seq;
pub use steps::{Counted, Ledger, Silent, StepKind, Steps};
pub use tally::Tally;
pub use text::{Text, char_count, folded_char, is_among, is_empty, is_name, same_text, split_char};
