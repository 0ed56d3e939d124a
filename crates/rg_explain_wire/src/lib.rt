// Explanations in JSON, and in words.
#![tactic(auto)]

mod key;
mod listing;
mod names;
mod place;
mod policies;
mod print;
mod reasons;
mod request;
mod words;

pub use print::print_explanation;
pub use words::print_words;
