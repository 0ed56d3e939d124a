// What an administration holds.
ghost use Rattle.std.specs.Prelude.{◌≡◌, IfOk};

use rg_base::{Named, NoMemory, Seq, Text, TryCopy, Version};
use rg_defs::ServiceDef;
use rg_policy::{Policy, TimeZoneRow};
use rg_roles::RoleRow;
use rg_shared::Shared;
use rg_tags::TagRow;
use rg_zone_rules::ZoneRow;
use std::alloc::Global;

/// A service (RangerService).
pub struct ServiceRow {
    pub name: Text,
    /// The name of its definition.
    pub def: Text,
    /// The name of its tag service, or empty.
    pub tag_service: Text,
    /// Whether a request that no policy decides is left undetermined, and not denied.
    pub fallback: bool,
}

impl Drop for ServiceRow {
    fn drop(self) {
        let Self {
            name: _,
            def: _,
            tag_service: _,
            fallback: _,
        } = self;
    }
}

/// A user with the groups that the user belongs to.
#[derive(Drop)]
pub struct UserRow {
    pub name: Text,
    pub groups: Seq<Text>,
}

/// Everything that is administered but for the services' versions and logs. All lists are in order of creation.
pub struct State {
    /// The names of the users who may do everything.
    pub admins: Seq<Text>,
    pub users: Seq<UserRow>,
    pub time_zones: Seq<TimeZoneRow>,
    pub defs: Seq<ServiceDef>,
    pub services: Seq<ServiceRow>,
    pub policies: Seq<Shared<Policy>>,
    pub zones: Seq<ZoneRow>,
    pub roles: Seq<RoleRow>,
    pub tag_rows: Seq<TagRow>,
    /// The service whose plugin this is.
    pub plugin: Text,
    /// The id of the next policy, one more than the greatest that was given.
    pub next_id: i64,
    /// How many entries its history has.
    pub count: u64,
    /// The version of the roles, which all services share.
    pub role_version: Version,
}

impl Drop for State {
    fn drop(self) {
        let Self {
            admins: _,
            users: _,
            time_zones: _,
            defs: _,
            services: _,
            policies: _,
            zones: _,
            roles: _,
            tag_rows: _,
            plugin: _,
            next_id: _,
            count: _,
            role_version: _,
        } = self;
    }
}

impl Named for ServiceRow {
    ghost named = { λ row. row.name };

    fn name(&self) -> &str {
        self.name.as_str()
    }
}

impl Named for UserRow {
    ghost named = { λ row. row.name };

    fn name(&self) -> &str {
        self.name.as_str()
    }
}

impl TryCopy for ServiceRow {
    fn try_copy(&self, alloc: Global) -> Result<ServiceRow, NoMemory> {
        Ok(ServiceRow {
            name: self.name.try_copy(alloc)?,
            def: self.def.try_copy(alloc)?,
            tag_service: self.tag_service.try_copy(alloc)?,
            fallback: self.fallback,
        })
    }
}

impl TryCopy for UserRow {
    fn try_copy(&self, alloc: Global) -> Result<UserRow, NoMemory> {
        Ok(UserRow {
            name: self.name.try_copy(alloc)?,
            groups: self.groups.try_copy(alloc)?,
        })
    }
}

// A copy of a state is made in parts, so that few things are let go where memory is refused.

fn copy_services(
    alloc: Global,
    state: &State,
) -> Result<(Seq<ServiceDef>, Seq<ServiceRow>, Seq<TimeZoneRow>), NoMemory>
    ensures { IfOk result (λ lists. (lists.0 ≡ state.now.defs)
        × (lists.1 ≡ state.now.services) × (lists.2 ≡ state.now.time_zones)) }
{
    let defs = state.defs.try_copy(alloc)?;
    let services = state.services.try_copy(alloc)?;
    let time_zones = state.time_zones.try_copy(alloc)?;
    Ok((defs, services, time_zones))
}

fn copy_policies(
    alloc: Global,
    state: &State,
) -> Result<(Seq<Shared<Policy>>, Seq<TagRow>), NoMemory>
    ensures { IfOk result (λ lists. (lists.0 ≡ state.now.policies)
        × (lists.1 ≡ state.now.tag_rows)) }
{
    let policies = state.policies.try_copy(alloc)?;
    let tag_rows = state.tag_rows.try_copy(alloc)?;
    Ok((policies, tag_rows))
}

fn copy_subjects(
    alloc: Global,
    state: &State,
) -> Result<(Seq<Text>, Seq<UserRow>, Seq<ZoneRow>, Seq<RoleRow>), NoMemory>
    ensures { IfOk result (λ lists. (lists.0 ≡ state.now.admins) × (lists.1 ≡ state.now.users)
        × (lists.2 ≡ state.now.zones) × (lists.3 ≡ state.now.roles)) }
{
    let admins = state.admins.try_copy(alloc)?;
    let users = state.users.try_copy(alloc)?;
    let zones = state.zones.try_copy(alloc)?;
    let roles = state.roles.try_copy(alloc)?;
    Ok((admins, users, zones, roles))
}

impl TryCopy for State {
    fn try_copy(&self, alloc: Global) -> Result<State, NoMemory> {
        let (defs, services, time_zones) = copy_services(alloc, self)?;
        let (policies, tag_rows) = copy_policies(alloc, self)?;
        let (admins, users, zones, roles) = copy_subjects(alloc, self)?;
        let plugin = self.plugin.try_copy(alloc)?;
        Ok(State {
            admins,
            users,
            time_zones,
            defs,
            services,
            policies,
            zones,
            roles,
            tag_rows,
            plugin,
            next_id: self.next_id,
            count: self.count,
            role_version: self.role_version,
        })
    }
}
