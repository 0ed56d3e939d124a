// What is to be granted or revoked.
use rg_base::{Seq, Text};
use rg_policy::PolicyResource;

/// Accesses to the resources of one map, for some subjects (Ranger's GrantRevokeRequest).
pub struct GrantRow {
    pub service: Text,
    /// The name of a security zone, or empty.
    pub zone: Text,
    pub resources: Seq<PolicyResource>,
    pub users: Seq<Text>,
    pub groups: Seq<Text>,
    pub roles: Seq<Text>,
    /// The names of access types.
    pub accesses: Seq<Text>,
    /// Whether a grant lets the subjects administer what the resources cover. A revoke doesn't look at it.
    pub delegate: bool,
}

impl Drop for GrantRow {
    fn drop(self) {
        let Self {
            service: _,
            zone: _,
            resources: _,
            users: _,
            groups: _,
            roles: _,
            accesses: _,
            delegate: _,
        } = self;
    }
}
