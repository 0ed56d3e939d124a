// What a service's plugin downloads.
ghost use Rattle.std.specs.Prelude.{◌≡◌, IfOk};

use crate::changes::{PolicyChange, TagChange};
use rg_base::{NoMemory, Seq, TryCopy, Version};
use rg_defs::ServiceDef;
use rg_policy::{Policy, TimeZoneRow};
use rg_roles::RoleRow;
use rg_shared::Shared;
use rg_tags::TagRow;
use rg_zone_rules::ZoneRow;
use std::alloc::Global;

/// What a download has a version of.
#[derive(Clone, Copy, Debug, PartialEq, Eq)]
pub enum Part {
    Policies,
    Tags,
    Roles,
}

/// The changes of a service's policies and of its tag service's, from one version to another.
pub struct PolicyDelta {
    pub from: Version,
    pub to: Version,
    pub changes: Seq<PolicyChange>,
    /// All zones, where one of the changes was of a zone.
    pub zones: Option<Seq<ZoneRow>>,
}

impl Drop for PolicyDelta {
    fn drop(self) {
        let Self {
            from: _,
            to: _,
            changes: _,
            zones: _,
        } = self;
    }
}

/// The changes of a service's tag rows, from one version to another.
#[derive(Drop)]
pub struct TagDelta {
    pub from: Version,
    pub to: Version,
    pub changes: Seq<TagChange>,
}

/// The change of the roles, from one version to another.
#[derive(Drop)]
pub struct RoleDelta {
    pub from: Version,
    pub to: Version,
    /// All roles, where some role changed.
    pub roles: Option<Seq<RoleRow>>,
}

/// All that the policy version of a service speaks of.
#[derive(Drop)]
pub struct PolicyWhole {
    pub version: Version,
    /// Whether a request that no policy decides is left undetermined, and not denied.
    pub fallback: bool,
    pub def: ServiceDef,
    /// The definition of the tag service, where the service has one.
    pub tag_def: Option<ServiceDef>,
    pub policies: Seq<Shared<Policy>>,
    pub tag_policies: Seq<Shared<Policy>>,
    pub zones: Seq<ZoneRow>,
    pub time_zones: Seq<TimeZoneRow>,
}

/// All tag rows of a service.
#[derive(Drop)]
pub struct TagWhole {
    pub version: Version,
    pub rows: Seq<TagRow>,
}

/// All roles.
#[derive(Drop)]
pub struct RoleWhole {
    pub version: Version,
    pub roles: Seq<RoleRow>,
}

#[derive(Drop)]
pub enum PolicyPart {
    Unchanged,
    Delta(PolicyDelta),
    Whole(PolicyWhole),
}

#[derive(Drop)]
pub enum TagPart {
    Unchanged,
    Delta(TagDelta),
    Whole(TagWhole),
}

#[derive(Drop)]
pub enum RolePart {
    Unchanged,
    Whole(RoleWhole),
}

/// What changed of a service from three versions on.
#[derive(Drop)]
pub struct Download {
    /// How many entries the history had before the download.
    pub seq: u64,
    pub policies: PolicyPart,
    pub tags: TagPart,
    pub roles: RolePart,
}

impl TryCopy for PolicyDelta {
    fn try_copy(&self, alloc: Global) -> Result<PolicyDelta, NoMemory> {
        Ok(PolicyDelta {
            from: self.from,
            to: self.to,
            changes: self.changes.try_copy(alloc)?,
            zones: self.zones.try_copy(alloc)?,
        })
    }
}

impl TryCopy for TagDelta {
    fn try_copy(&self, alloc: Global) -> Result<TagDelta, NoMemory> {
        Ok(TagDelta {
            from: self.from,
            to: self.to,
            changes: self.changes.try_copy(alloc)?,
        })
    }
}

impl TryCopy for RoleDelta {
    fn try_copy(&self, alloc: Global) -> Result<RoleDelta, NoMemory> {
        Ok(RoleDelta {
            from: self.from,
            to: self.to,
            roles: self.roles.try_copy(alloc)?,
        })
    }
}

// A copy of the whole is made in parts, so that few things are let go where memory is refused.

fn copy_defs(
    alloc: Global,
    whole: &PolicyWhole,
) -> Result<(ServiceDef, Option<ServiceDef>), NoMemory>
    ensures { IfOk result (λ defs. (defs.0 ≡ whole.now.def) × (defs.1 ≡ whole.now.tag_def)) }
{
    let def = whole.def.try_copy(alloc)?;
    let tag_def = whole.tag_def.try_copy(alloc)?;
    Ok((def, tag_def))
}

fn copy_policies(
    alloc: Global,
    whole: &PolicyWhole,
) -> Result<(Seq<Shared<Policy>>, Seq<Shared<Policy>>), NoMemory>
    ensures { IfOk result (λ lists. (lists.0 ≡ whole.now.policies)
        × (lists.1 ≡ whole.now.tag_policies)) }
{
    let policies = whole.policies.try_copy(alloc)?;
    let tag_policies = whole.tag_policies.try_copy(alloc)?;
    Ok((policies, tag_policies))
}

impl TryCopy for PolicyWhole {
    fn try_copy(&self, alloc: Global) -> Result<PolicyWhole, NoMemory> {
        let (def, tag_def) = copy_defs(alloc, self)?;
        let (policies, tag_policies) = copy_policies(alloc, self)?;
        let zones = self.zones.try_copy(alloc)?;
        let time_zones = self.time_zones.try_copy(alloc)?;
        Ok(PolicyWhole {
            version: self.version,
            fallback: self.fallback,
            def,
            tag_def,
            policies,
            tag_policies,
            zones,
            time_zones,
        })
    }
}

impl TryCopy for TagWhole {
    fn try_copy(&self, alloc: Global) -> Result<TagWhole, NoMemory> {
        Ok(TagWhole {
            version: self.version,
            rows: self.rows.try_copy(alloc)?,
        })
    }
}

impl TryCopy for RoleWhole {
    fn try_copy(&self, alloc: Global) -> Result<RoleWhole, NoMemory> {
        Ok(RoleWhole {
            version: self.version,
            roles: self.roles.try_copy(alloc)?,
        })
    }
}

impl TryCopy for PolicyPart {
    fn try_copy(&self, alloc: Global) -> Result<PolicyPart, NoMemory> {
        match self {
            PolicyPart::Unchanged => Ok(PolicyPart::Unchanged),
            PolicyPart::Delta(delta) => Ok(PolicyPart::Delta(delta.try_copy(alloc)?)),
            PolicyPart::Whole(whole) => Ok(PolicyPart::Whole(whole.try_copy(alloc)?)),
        }
    }
}

impl TryCopy for TagPart {
    fn try_copy(&self, alloc: Global) -> Result<TagPart, NoMemory> {
        match self {
            TagPart::Unchanged => Ok(TagPart::Unchanged),
            TagPart::Delta(delta) => Ok(TagPart::Delta(delta.try_copy(alloc)?)),
            TagPart::Whole(whole) => Ok(TagPart::Whole(whole.try_copy(alloc)?)),
        }
    }
}

impl TryCopy for RolePart {
    fn try_copy(&self, alloc: Global) -> Result<RolePart, NoMemory> {
        match self {
            RolePart::Unchanged => Ok(RolePart::Unchanged),
            RolePart::Whole(whole) => Ok(RolePart::Whole(whole.try_copy(alloc)?)),
        }
    }
}

impl TryCopy for Download {
    fn try_copy(&self, alloc: Global) -> Result<Download, NoMemory> {
        Ok(Download {
            seq: self.seq,
            policies: self.policies.try_copy(alloc)?,
            tags: self.tags.try_copy(alloc)?,
            roles: self.roles.try_copy(alloc)?,
        })
    }
}
