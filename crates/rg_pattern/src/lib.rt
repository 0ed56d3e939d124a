// Patterns of resource values: matching, the pattern of what lies below, overlap, covering, literal prefixes.
#![tactic(auto)]

mod atoms;
mod covering;
mod laws;
mod matching;
mod overlap;
mod parse;
mod pattern;
mod values;

pub use atoms::{Atom, Pattern, PatternFault};
pub use laws::{
    covers_is_decided, covers_keeps_stands, overlap_is_decided, overlap_is_symmetric,
    prefix_begins_text, reads_from_the_left, stands_is_decided, twin_keeps, twin_stands_below,
    user_is_read_alike, user_plays_no_part,
};
pub use values::{pattern_of, value_fits, value_patterns};
