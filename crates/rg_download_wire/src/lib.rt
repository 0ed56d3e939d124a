// What a plugin downloads, read; and facts, printed.
#![tactic(auto)]

mod facts_text;
mod law;
mod part_law;
mod parts;
mod read;

pub use facts_text::print_facts;
pub use law::facts_read_again;
pub use part_law::{policies_read_again, roles_read_again, tags_read_again};
pub use read::{read_policy_part, read_role_part, read_tag_part};
