// Messages of HTTP/1.1 in a stream of bytes, and the bytes of responses.
#![tactic(auto)]

mod fields;
mod framer;
mod heads;
mod inbox;
mod laws;
mod message;
mod parts;
mod print;
mod rules;
mod unjudged;
mod writing;

pub use fields::{FieldName, count, first_value};
pub use framer::Framer;
pub use inbox::Inbox;
pub use laws::{each_stream_reads, judged_stays_judged, messages_are_one};
pub use message::{End, FrameFault, Message, Next, Response};
pub use parts::bytes_of;
pub use print::print_response;
pub use rules::{FIELD_LIMIT, asks_close, is_coded, is_length, number};
pub use writing::write_whole;
