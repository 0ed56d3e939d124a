// JSON by tables of fields: the first fault of a text with its path, the parts of records, and what is printed for them.
// Text is read and printed by serde_json alone.
#![tactic(auto)]

mod fault;
mod fields;
mod lists;
mod members;
mod name;
mod read;
mod shape;
mod texts;
mod walk;

pub use fault::{WireFault, WireKind};
pub use fields::{
    bool_at, find, find_or, i64_at, is_filled, text_at, text_in, text_or_at, truth_word_at, u64_at,
};
pub use lists::{MemberReader, Reader, list_at, list_in, map_at, map_in, optional_at, record_at};
pub use members::{ToJson, put, put_value, text_of};
pub use name::Name;
pub use read::{judge, read_as};
pub use shape::{Field, Form, Keys, Kind, Need, Table};
pub use texts::json_of;
