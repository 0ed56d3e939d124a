// The records of the administration: what is asked of it, what it answers, what it holds, and what a plugin downloads.
#![tactic(auto)]

mod ask;
mod changes;
mod config;
mod download;
mod lookups;
mod rule;
mod state;

pub use ask::{AdminCommand, AdminReply, Ask};
pub use changes::{CREATED, DELETED, Log, LogEntry, PolicyChange, TagChange, UPDATED};
pub use config::Config;
pub use download::{
    Download, Part, PolicyDelta, PolicyPart, PolicyWhole, RoleDelta, RolePart, RoleWhole, TagDelta,
    TagPart, TagWhole,
};
pub use lookups::{def_at, def_of, has_def, is_tag, is_tag_service, service_at};
pub use rule::Rule;
pub use state::{ServiceRow, State, UserRow};
