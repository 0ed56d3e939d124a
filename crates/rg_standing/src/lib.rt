// Why one policy is in play for a request or isn't, and which of its items match.
#![tactic(auto)]

mod hits;
mod items;
mod laws;
mod maps;
mod members;
mod question;
mod reason;
mod standing;

pub use laws::{
    member_is_told_where_named, subject_is_told_where_named, told_in_play_where_it_is,
    told_item_is_first, told_standing_gives_effect,
};
pub use maps::resources_lie;
pub use members::member_of;
pub use question::Question;
pub use reason::{Match, Matches, Miss, Standing, Subject};
