// Everything that decisions for one service rest on.
ghost use Rattle.std.specs.Prelude.{◌≡◌, IfOk};

use rg_base::{NoMemory, Seq, Text, TryCopy, Version};
use rg_defs::ServiceDef;
use rg_policy::{Policy, TimeZoneRow};
use rg_roles::RoleRow;
use rg_shared::Shared;
use rg_tags::TagRow;
use rg_zone_rules::ZoneRow;
use std::alloc::Global;

/// What is known of one service: its definition, policies, zones, roles and tags (Ranger's ServicePolicies with its
/// ServiceTags).
pub struct Facts {
    pub service: Text,
    /// Whether a request that no policy decides is left undetermined, and not denied.
    pub fallback: bool,
    pub def: ServiceDef,
    /// The definition of the tag service, where the service has one.
    pub tag_def: Option<ServiceDef>,
    pub policies: Seq<Shared<Policy>>,
    pub tag_policies: Seq<Shared<Policy>>,
    pub zones: Seq<ZoneRow>,
    pub roles: Seq<RoleRow>,
    pub tag_rows: Seq<TagRow>,
    pub time_zones: Seq<TimeZoneRow>,
    pub policy_version: Version,
    pub tag_version: Version,
    pub role_version: Version,
}

/// Letting facts go is one call.
impl Drop for Facts {
    fn drop(self) {
        let Self {
            service: _,
            fallback: _,
            def: _,
            tag_def: _,
            policies: _,
            tag_policies: _,
            zones: _,
            roles: _,
            tag_rows: _,
            time_zones: _,
            policy_version: _,
            tag_version: _,
            role_version: _,
        } = self;
    }
}

// A copy is made in parts, so that few things are let go where memory is refused.

fn copy_defs(alloc: Global, facts: &Facts) -> Result<(ServiceDef, Option<ServiceDef>), NoMemory>
    ensures { IfOk result (λ defs. (defs.0 ≡ facts.now.def) × (defs.1 ≡ facts.now.tag_def)) }
{
    let def = facts.def.try_copy(alloc)?;
    let tag_def = facts.tag_def.try_copy(alloc)?;
    Ok((def, tag_def))
}

fn copy_policies(
    alloc: Global,
    facts: &Facts,
) -> Result<(Seq<Shared<Policy>>, Seq<Shared<Policy>>), NoMemory>
    ensures { IfOk result (λ lists. (lists.0 ≡ facts.now.policies)
        × (lists.1 ≡ facts.now.tag_policies)) }
{
    let policies = facts.policies.try_copy(alloc)?;
    let tag_policies = facts.tag_policies.try_copy(alloc)?;
    Ok((policies, tag_policies))
}

fn copy_subjects(alloc: Global, facts: &Facts) -> Result<(Seq<ZoneRow>, Seq<RoleRow>), NoMemory>
    ensures { IfOk result (λ lists. (lists.0 ≡ facts.now.zones) × (lists.1 ≡ facts.now.roles)) }
{
    let zones = facts.zones.try_copy(alloc)?;
    let roles = facts.roles.try_copy(alloc)?;
    Ok((zones, roles))
}

fn copy_rows(alloc: Global, facts: &Facts) -> Result<(Seq<TagRow>, Seq<TimeZoneRow>), NoMemory>
    ensures { IfOk result (λ lists. (lists.0 ≡ facts.now.tag_rows)
        × (lists.1 ≡ facts.now.time_zones)) }
{
    let tag_rows = facts.tag_rows.try_copy(alloc)?;
    let time_zones = facts.time_zones.try_copy(alloc)?;
    Ok((tag_rows, time_zones))
}

impl TryCopy for Facts {
    fn try_copy(&self, alloc: Global) -> Result<Facts, NoMemory> {
        let service = self.service.try_copy(alloc)?;
        let (def, tag_def) = copy_defs(alloc, self)?;
        let (policies, tag_policies) = copy_policies(alloc, self)?;
        let (zones, roles) = copy_subjects(alloc, self)?;
        let (tag_rows, time_zones) = copy_rows(alloc, self)?;
        Ok(Facts {
            service,
            fallback: self.fallback,
            def,
            tag_def,
            policies,
            tag_policies,
            zones,
            roles,
            tag_rows,
            time_zones,
            policy_version: self.policy_version,
            tag_version: self.tag_version,
            role_version: self.role_version,
        })
    }
}
