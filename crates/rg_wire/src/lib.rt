// The records in JSON: tables of their fields, readers that name the first fault, and printers.
#![tactic(auto)]

mod audit_text;
mod decision_text;
mod definition;
mod facts;
mod key;
mod law;
mod policy;
mod policy_text;
mod read;
mod record;
mod request;
mod rows;
mod tables;
mod wire;
mod writing;

pub use audit_text::print_audit;
pub use decision_text::{access_word, print_decision};
pub use key::Key;
pub use law::read_again;
pub use policy_text::{print_policy, resources_json};
pub use read::{
    read_def, read_facts, read_policy, read_request, read_role, read_tag_row, read_zone,
};
pub use record::Record;
pub use rg_json::{WireFault, WireKind, json_of};
pub use wire::Wire;
