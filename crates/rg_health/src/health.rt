// How a plugin stands.
use crate::cause::Cause;
use rg_base::{Serial, Version};

/// How a plugin stands: what it decides by, and how its rounds went.
#[derive(Clone, Copy, Debug, PartialEq, Eq)]
pub struct Health {
    /// The number of the newest publication.
    pub serial: Serial,
    pub policy_version: Version,
    pub tag_version: Version,
    pub role_version: Version,
    /// How many seconds ago a round settled last; None where none has since the start, so that it decides by what it kept.
    pub settled: Option<u64>,
    /// Why the last round failed; None where it settled, or none has ended yet.
    pub fault: Option<Cause>,
}
