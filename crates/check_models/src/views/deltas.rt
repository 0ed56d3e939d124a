// The deltas of a download.
use crate::deltas::Deltas;
use rg_base::{Seq, Version};
use rg_cmd::{
    Download, PolicyDelta, PolicyPart, RoleDelta, RolePart, RoleWhole, TagDelta, TagPart,
};
use rg_facts::Facts;
use std::alloc::Global;

/// None where the part is whole.
fn policy_delta(alloc: Global, version: Version, part: PolicyPart) -> Option<PolicyDelta> {
    match part {
        PolicyPart::Unchanged => {
            return Some(PolicyDelta {
                from: version,
                to: version,
                changes: Seq::new(alloc),
                zones: None,
            });
        }
        PolicyPart::Delta(delta) => return Some(delta),
        PolicyPart::Whole(whole) => {
            drop(whole);
            return None;
        }
    }
}

/// None where the part is whole.
fn tag_delta(alloc: Global, version: Version, part: TagPart) -> Option<TagDelta> {
    match part {
        TagPart::Unchanged => {
            return Some(TagDelta {
                from: version,
                to: version,
                changes: Seq::new(alloc),
            });
        }
        TagPart::Delta(delta) => return Some(delta),
        TagPart::Whole(whole) => {
            drop(whole);
            return None;
        }
    }
}

/// Whole roles are a delta too.
fn role_delta(version: Version, part: RolePart) -> RoleDelta {
    match part {
        RolePart::Unchanged => {
            return RoleDelta {
                from: version,
                to: version,
                roles: None,
            };
        }
        RolePart::Whole(RoleWhole { version: to, roles }) => {
            return RoleDelta {
                from: version,
                to,
                roles: Some(roles),
            };
        }
    }
}

/// The deltas of a download that was asked for from the versions of this view; None where policies or tag rows are whole.
pub(crate) fn deltas_of(alloc: Global, facts: &Facts, download: Download) -> Option<Deltas> {
    let Download {
        seq: _,
        policies,
        tags,
        roles,
    } = download;
    let policies = policy_delta(alloc, facts.policy_version, policies)?;
    let tags = tag_delta(alloc, facts.tag_version, tags)?;
    let roles = role_delta(facts.role_version, roles);
    Some(Deltas {
        policies,
        tags,
        roles,
    })
}
