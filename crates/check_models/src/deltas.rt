// The deltas of a download.
use rg_cmd::{PolicyDelta, RoleDelta, TagDelta};

/// A delta of each part.
#[derive(Drop)]
pub(crate) struct Deltas {
    pub(crate) policies: PolicyDelta,
    pub(crate) tags: TagDelta,
    pub(crate) roles: RoleDelta,
}
