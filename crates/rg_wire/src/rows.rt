// The rows of roles, zones and tags, read.
ghost use Rattle.std.specs.Prelude.{◌≡◌, IfOk};
ghost use Rattle.serde_json.specs.View.{view};
ghost use Rattle.rg_wire.specs.Records.{subjects_of, tag_row_for};

use crate::key::Key;
use crate::policy::resources_at;
use crate::wire::{Members, Wire};
use rg_base::{NoMemory, Seq, Text, TryCopy};
use rg_json::{MemberReader, Reader, i64_at, list_at, list_in, map_at, map_in, text_at};
use rg_policy::{Tag, TimeZoneRow};
use rg_roles::RoleRow;
use rg_tags::TagRow;
use rg_zone_rules::{Subjects, ZoneLevel, ZoneRow, ZoneService};
use serde_json::Value;
use std::alloc::Global;

impl Reader<RoleRow> for Wire {
    ghost use Rattle.rg_json.specs.Own.{Whatever};
    ghost use Rattle.rg_wire.specs.Records.{role_of};

    ghost reading = { λ w. role_of };

    ghost owned = { Whatever };

    #[tactic(auto, unfolding(crate::specs::Records::role_of))]
    fn read(&self, alloc: Global, value: &Value) -> Result<RoleRow, NoMemory> {
        Ok(RoleRow {
            name: text_at(alloc, value, Key::Name)?,
            users: list_at(alloc, &Members, value, Key::Users)?,
            groups: list_at(alloc, &Members, value, Key::Groups)?,
            roles: list_at(alloc, &Members, value, Key::Roles)?,
        })
    }
}

impl MemberReader<ZoneLevel> for Wire {
    ghost use Rattle.rg_json.specs.Own.{Whatever};
    ghost use Rattle.rg_wire.specs.Records.{zone_level_of};

    ghost member_reading = { λ w. zone_level_of };

    ghost member_owned = { Whatever };

    #[tactic(auto, unfolding(crate::specs::Records::zone_level_of))]
    fn read_member(&self, alloc: Global, key: &str, value: &Value) -> Result<ZoneLevel, NoMemory> {
        Ok(ZoneLevel {
            level: Text::copy_of(alloc, key)?,
            values: list_in(alloc, self, value)?,
        })
    }
}

/// A resource map of a zone.
impl Reader<Seq<ZoneLevel>> for Wire {
    ghost use Rattle.rg_json.specs.Fields.{map_of};
    ghost use Rattle.rg_json.specs.Own.{Whatever};
    ghost use Rattle.rg_wire.specs.Records.{zone_level_of};

    ghost reading = { λ w. map_of zone_level_of };

    ghost owned = { Whatever };

    fn read(&self, alloc: Global, value: &Value) -> Result<Seq<ZoneLevel>, NoMemory> {
        map_in(alloc, self, value)
    }
}

impl MemberReader<ZoneService> for Wire {
    ghost use Rattle.rg_json.specs.Own.{Whatever};
    ghost use Rattle.rg_wire.specs.Records.{zone_service_of};

    ghost member_reading = { λ w. zone_service_of };

    ghost member_owned = { Whatever };

    #[tactic(auto, unfolding(crate::specs::Records::zone_service_of))]
    fn read_member(
        &self,
        alloc: Global,
        key: &str,
        value: &Value,
    ) -> Result<ZoneService, NoMemory> {
        Ok(ZoneService {
            service: Text::copy_of(alloc, key)?,
            resources: list_at(alloc, self, value, Key::Resources)?,
        })
    }
}

#[tactic(auto, unfolding(crate::specs::Records::subjects_of))]
fn subjects_at(
    alloc: Global,
    value: &Value,
    users: Key,
    groups: Key,
    roles: Key,
) -> Result<Subjects, NoMemory>
    ensures { IfOk result (λ s. s ≡ subjects_of users groups roles (view value.now)) }
{
    Ok(Subjects {
        users: list_at(alloc, &Wire, value, users)?,
        groups: list_at(alloc, &Wire, value, groups)?,
        roles: list_at(alloc, &Wire, value, roles)?,
    })
}

impl Reader<ZoneRow> for Wire {
    ghost use Rattle.rg_json.specs.Own.{Whatever};
    ghost use Rattle.rg_wire.specs.Records.{zone_of};

    ghost reading = { λ w. zone_of };

    ghost owned = { Whatever };

    #[tactic(auto, unfolding(crate::specs::Records::zone_of))]
    fn read(&self, alloc: Global, value: &Value) -> Result<ZoneRow, NoMemory> {
        Ok(ZoneRow {
            name: text_at(alloc, value, Key::Name)?,
            services: map_at(alloc, self, value, Key::Services)?,
            tag_services: list_at(alloc, self, value, Key::TagServices)?,
            admins: subjects_at(
                alloc,
                value,
                Key::AdminUsers,
                Key::AdminUserGroups,
                Key::AdminRoles,
            )?,
            auditors: subjects_at(
                alloc,
                value,
                Key::AuditUsers,
                Key::AuditUserGroups,
                Key::AuditRoles,
            )?,
        })
    }
}

impl Reader<Tag> for Wire {
    ghost use Rattle.rg_json.specs.Own.{Whatever};
    ghost use Rattle.rg_wire.specs.Records.{tag_of};

    ghost reading = { λ w. tag_of };

    ghost owned = { Whatever };

    #[tactic(auto, unfolding(crate::specs::Records::tag_of))]
    fn read(&self, alloc: Global, value: &Value) -> Result<Tag, NoMemory> {
        Ok(Tag {
            kind: text_at(alloc, value, Key::Type)?,
            attributes: map_at(alloc, self, value, Key::Attributes)?,
        })
    }
}

/// A tag row of this service, whatever service it names.
#[tactic(auto, unfolding(crate::specs::Records::tag_row_for))]
fn tag_row_for(alloc: Global, value: &Value, service: Text) -> Result<TagRow, NoMemory>
    ensures { IfOk result (λ row. row ≡ tag_row_for service (view value.now)) }
{
    Ok(TagRow {
        id: i64_at(value, Key::Id, 0),
        service,
        resources: resources_at(alloc, value, Key::ResourceElements)?,
        tags: list_at(alloc, &Wire, value, Key::Tags)?,
    })
}

/// Reads tag rows of this service, whatever service they name.
#[derive(Drop)]
pub(crate) struct OfService {
    pub service: Text,
}

impl Reader<TagRow> for OfService {
    ghost use Rattle.rg_json.specs.Own.{Whatever};
    ghost use Rattle.rg_wire.specs.Records.{tag_row_for};

    ghost reading = { λ rows. tag_row_for rows.service };

    ghost owned = { Whatever };

    fn read(&self, alloc: Global, value: &Value) -> Result<TagRow, NoMemory> {
        tag_row_for(alloc, value, self.service.try_copy(alloc)?)
    }
}

impl Reader<TagRow> for Wire {
    ghost use Rattle.rg_json.specs.Own.{Whatever};
    ghost use Rattle.rg_wire.specs.Records.{tag_row_of};

    ghost reading = { λ w. tag_row_of };

    ghost owned = { Whatever };

    #[tactic(auto, unfolding(crate::specs::Records::tag_row_of))]
    fn read(&self, alloc: Global, value: &Value) -> Result<TagRow, NoMemory> {
        let service = text_at(alloc, value, Key::ServiceName)?;
        tag_row_for(alloc, value, service)
    }
}

impl Reader<TimeZoneRow> for Wire {
    ghost use Rattle.rg_json.specs.Own.{Whatever};
    ghost use Rattle.rg_wire.specs.Records.{time_zone_of};

    ghost reading = { λ w. time_zone_of };

    ghost owned = { Whatever };

    #[tactic(auto, unfolding(crate::specs::Records::time_zone_of))]
    fn read(&self, alloc: Global, value: &Value) -> Result<TimeZoneRow, NoMemory> {
        Ok(TimeZoneRow {
            name: text_at(alloc, value, Key::Name)?,
            rule: text_at(alloc, value, Key::Rule)?,
        })
    }
}
