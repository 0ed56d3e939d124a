// Roles, zones, tag rows and time zones, printed.
ghost use Rattle.std.specs.Prelude.{◌≡◌, IfOk, map};
ghost use Rattle.serde_json.specs.View.{view};
ghost use Rattle.rg_json.specs.Printing.{list_data};
ghost use Rattle.rg_cmd_wire.specs.PrintedRows.{zone_map_data};

use crate::def_text::pairs_json;
use crate::maps::map_json;
use crate::reply_key::ReplyKey::{self, Wire};
use rg_base::{NoMemory, Seq, Text};
use rg_json::{Name, ToJson, put, put_value};
use rg_policy::{Tag, TimeZoneRow};
use rg_roles::RoleRow;
use rg_tags::TagRow;
use rg_wire::{Key, resources_json};
use rg_zone_rules::{ZoneLevel, ZoneRow, ZoneService};
use serde_json::{Map, Value};
use std::alloc::Global;

impl ToJson<ReplyKey> for RoleRow {
    ghost use Rattle.rg_cmd_wire.specs.PrintedRows.{role_data};

    ghost printing = { role_data };

    #[tactic(auto, unfolding(crate::specs::PrintedRows::role_data))]
    fn json(&self, alloc: Global) -> Result<Value, NoMemory> {
        let mut members = Map::new(alloc);
        put(alloc, &mut members, Wire(Key::Name), &self.name)?;
        put(alloc, &mut members, Wire(Key::Users), &self.users)?;
        put(alloc, &mut members, Wire(Key::Groups), &self.groups)?;
        put(alloc, &mut members, Wire(Key::Roles), &self.roles)?;
        Ok(Value::Object(members))
    }
}

impl ToJson<ReplyKey> for ZoneLevel {
    ghost use Rattle.rg_cmd_wire.specs.PrintedRows.{zone_level_data};

    ghost printing = { zone_level_data };

    fn json(&self, alloc: Global) -> Result<Value, NoMemory> {
        <Seq<Text> as ToJson<ReplyKey>>::json(&self.values, alloc)
    }
}

#[tactic(auto, unfolding(crate::specs::PrintedRows::zone_map_data))]
fn zone_map_json(alloc: Global, levels: &Seq<ZoneLevel>) -> Result<Value, NoMemory>
    ensures { IfOk result (λ v. view v ≡ zone_map_data levels.now) }
{
    map_json(alloc, levels)
}

/// The resource maps.
fn zone_maps(alloc: Global, resources: &[Seq<ZoneLevel>]) -> Result<Vec<Value>, NoMemory>
    ensures { IfOk result (λ vs. map view vs.items ≡ map zone_map_data resources.now) }
{
    let mut made = Vec::new(alloc);
    for levels in resources {
        made.push(zone_map_json(alloc, levels)?)?;
    }
    Ok(made)
}

#[tactic(auto, unfolding(rg_json::specs::Printing::list_data))]
fn zone_maps_json(alloc: Global, resources: &Seq<Seq<ZoneLevel>>) -> Result<Value, NoMemory>
    ensures { IfOk result (λ v. view v ≡ list_data zone_map_data resources.now) }
{
    Ok(Value::Array(zone_maps(alloc, resources.as_slice())?))
}

impl ToJson<ReplyKey> for ZoneService {
    ghost use Rattle.rg_cmd_wire.specs.PrintedRows.{zone_service_data};

    ghost printing = { zone_service_data };

    #[tactic(auto, unfolding(crate::specs::PrintedRows::zone_service_data))]
    fn json(&self, alloc: Global) -> Result<Value, NoMemory> {
        let mut members = Map::new(alloc);
        let resources = zone_maps_json(alloc, &self.resources)?;
        put_value(alloc, &mut members, Wire(Key::Resources).name(), resources)?;
        Ok(Value::Object(members))
    }
}

impl ToJson<ReplyKey> for ZoneRow {
    ghost use Rattle.rg_cmd_wire.specs.PrintedRows.{zone_data};

    ghost printing = { zone_data };

    #[tactic(auto, unfolding(crate::specs::PrintedRows::zone_data))]
    fn json(&self, alloc: Global) -> Result<Value, NoMemory> {
        let mut members = Map::new(alloc);
        let (admins, auditors) = (&self.admins, &self.auditors);
        put(alloc, &mut members, Wire(Key::Name), &self.name)?;
        let services = map_json(alloc, &self.services)?;
        put_value(alloc, &mut members, Wire(Key::Services).name(), services)?;
        put(
            alloc,
            &mut members,
            Wire(Key::TagServices),
            &self.tag_services,
        )?;
        put(alloc, &mut members, Wire(Key::AdminUsers), &admins.users)?;
        put(
            alloc,
            &mut members,
            Wire(Key::AdminUserGroups),
            &admins.groups,
        )?;
        put(alloc, &mut members, Wire(Key::AdminRoles), &admins.roles)?;
        put(alloc, &mut members, Wire(Key::AuditUsers), &auditors.users)?;
        put(
            alloc,
            &mut members,
            Wire(Key::AuditUserGroups),
            &auditors.groups,
        )?;
        put(alloc, &mut members, Wire(Key::AuditRoles), &auditors.roles)?;
        Ok(Value::Object(members))
    }
}

impl ToJson<ReplyKey> for Tag {
    ghost use Rattle.rg_cmd_wire.specs.PrintedRows.{tag_data};

    ghost printing = { tag_data };

    #[tactic(auto, unfolding(crate::specs::PrintedRows::tag_data))]
    fn json(&self, alloc: Global) -> Result<Value, NoMemory> {
        let mut members = Map::new(alloc);
        put(alloc, &mut members, Wire(Key::Type), &self.kind)?;
        let attributes = pairs_json(alloc, &self.attributes)?;
        put_value(
            alloc,
            &mut members,
            Wire(Key::Attributes).name(),
            attributes,
        )?;
        Ok(Value::Object(members))
    }
}

impl ToJson<ReplyKey> for TagRow {
    ghost use Rattle.rg_cmd_wire.specs.PrintedRows.{tag_row_data};

    ghost printing = { tag_row_data };

    #[tactic(auto, unfolding(crate::specs::PrintedRows::tag_row_data))]
    fn json(&self, alloc: Global) -> Result<Value, NoMemory> {
        let mut members = Map::new(alloc);
        put(alloc, &mut members, Wire(Key::Id), &self.id)?;
        put(alloc, &mut members, Wire(Key::ServiceName), &self.service)?;
        let resources = resources_json(alloc, &self.resources)?;
        put_value(
            alloc,
            &mut members,
            Wire(Key::ResourceElements).name(),
            resources,
        )?;
        put(alloc, &mut members, Wire(Key::Tags), &self.tags)?;
        Ok(Value::Object(members))
    }
}

impl ToJson<ReplyKey> for TimeZoneRow {
    ghost use Rattle.rg_cmd_wire.specs.PrintedRows.{time_zone_data};

    ghost printing = { time_zone_data };

    #[tactic(auto, unfolding(crate::specs::PrintedRows::time_zone_data))]
    fn json(&self, alloc: Global) -> Result<Value, NoMemory> {
        let mut members = Map::new(alloc);
        put(alloc, &mut members, Wire(Key::Name), &self.name)?;
        put(alloc, &mut members, Wire(Key::Rule), &self.rule)?;
        Ok(Value::Object(members))
    }
}
