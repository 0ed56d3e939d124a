// The JSON of the administration: commands, services, users and configurations, read; rows, replies and what a plugin
// downloads, printed.
#![tactic(auto)]

mod changes_text;
mod command;
mod command_name;
mod def_text;
mod download_text;
mod maps;
mod read;
mod reply_key;
mod reply_text;
mod rows;
mod rows_text;

pub use download_text::{print_policy_part, print_role_part, print_tag_part};
pub use read::{read_command, read_config, read_service, read_user};
pub use reply_key::ReplyKey;
pub use reply_text::{print_kept, print_policies, print_refusal, print_reply};
