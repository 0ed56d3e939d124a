// Service definitions: their records, their rules, the paths of their levels, and what an access type grants.
#![tactic(auto)]

mod accesses;
mod ancestors;
mod check;
mod laws;
mod level_paths;
mod path_questions;
mod pathed;
mod service_def;

pub use accesses::{access_type_of, expand, grants};
pub use ancestors::{is_above, mandatory_named};
pub use check::{DefFault, check_def, tag_name};
pub use laws::{above_is_decided, levels_lie_on_paths, paths_are_all};
pub use level_paths::{level_of, lies_on};
pub use path_questions::Paths;
pub use pathed::PathedDef;
pub use service_def::{AccessType, ConditionDef, Level, MaskType, ServiceDef};
