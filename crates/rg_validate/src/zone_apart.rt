// Whether a zone stays apart from the others (rule Z6).
ghost use Rattle.std.specs.Prelude.{◌≡◌, IfOk, true};
ghost use Rattle.std.specs.List.{list_all, list_any};
ghost use Rattle.rg_zone_rules.specs.Rules.{entry_values_fit, service_names};
ghost use Rattle.rg_zones.specs.Entries.{entries_overlap};
ghost use Rattle.rg_cmd.specs.Lookups.{def_of};
ghost use Rattle.rg_validate.specs.Apart.{meets_entry, meets_zone};
ghost use Rattle.rg_validate.specs.Definitions.{under};
ghost use Rattle.rg_validate.specs.Valid.{IsValid};
ghost use Rattle.rg_validate.specs.Zones.{zone_is_apart, zone_services_fit, zone_values_suit};

use crate::def_index::{DefIndex, find_indexed};
use rg_base::{NameIndex, NoMemory, place_named};
use rg_cmd::State;
use rg_zone_rules::{ZoneRow, ZoneService};
use rg_zones::{entries_overlap, zone_overlap_is_symmetric, zones_apart_by_pairs};
use std::alloc::Global;

/// Whether the entries of two zones for one service overlap.
fn meets_at(
    alloc: Global,
    defs: &DefIndex,
    entry: &ZoneService,
    other: &ZoneService,
) -> Result<bool, NoMemory>
    requires values { entry_values_fit entry.now ≡ true }
    requires other_values { entry_values_fit other.now ≡ true }
    ensures { IfOk result (λ meets. meets ≡ under (def_of defs.now other.now.service)
        (λ def. entries_overlap def entry.now other.now)) }
{
    let Some(def) = defs.def_of(&other.service) else {
        return Ok(false);
    };
    entries_overlap(alloc, entry, other, def)
}

/// Whether the zone, which lists these services, lists that of the other's entry, and overlaps it there.
fn meets_entry(
    alloc: Global,
    defs: &DefIndex,
    zone: &ZoneRow,
    listed: &NameIndex,
    other: &ZoneService,
) -> Result<bool, NoMemory>
    requires values { zone_values_suit zone.now ≡ true }
    requires listed { listed.now ≡ service_names zone.now }
    requires other_values { entry_values_fit other.now ≡ true }
    ensures { IfOk result (λ meets. meets ≡ meets_entry defs.now zone.now other.now) }
{
    match find_indexed(listed, zone.services.as_slice(), other.service.as_str()) {
        Some(entry) => meets_at(alloc, defs, entry, other),
        None => Ok(false),
    }
}

/// Whether it overlaps the other zone for some service that both list.
fn meets_zone(
    alloc: Global,
    defs: &DefIndex,
    zone: &ZoneRow,
    listed: &NameIndex,
    other: &ZoneRow,
) -> Result<bool, NoMemory>
    requires values { zone_values_suit zone.now ≡ true }
    requires listed { listed.now ≡ service_names zone.now }
    requires other_values { zone_values_suit other.now ≡ true }
    ensures { IfOk result (λ meets. meets ≡ meets_zone defs.now zone.now other.now) }
{
    for entry in other.services.as_slice() {
        if meets_entry(alloc, defs, zone, listed, entry)? {
            return Ok(true);
        }
    }
    Ok(false)
}

/// Whether it overlaps one of the others.
fn meets_some(
    alloc: Global,
    defs: &DefIndex,
    zone: &ZoneRow,
    listed: &NameIndex,
    others: &[ZoneRow],
) -> Result<bool, NoMemory>
    requires values { zone_values_suit zone.now ≡ true }
    requires listed { listed.now ≡ service_names zone.now }
    requires other_values { list_all zone_values_suit others.now ≡ true }
    ensures { IfOk result (λ meets. meets ≡ list_any (meets_zone defs.now zone.now) others.now) }
{
    for other in others {
        if meets_zone(alloc, defs, zone, listed, other)? {
            return Ok(true);
        }
    }
    Ok(false)
}

/// Whether no two zones overlap for any service, with this one in its place (rule Z6). No two do as they are, so it is
/// compared with each of the others, and with each of these where both list one service. It takes memory for the names of
/// the services.
pub fn zone_is_apart(alloc: Global, state: &State, zone: &ZoneRow) -> Result<bool, NoMemory>
    requires valid { IsValid state.now }
    requires services { zone_services_fit state.now zone.now ≡ true }
    requires values { zone_values_suit zone.now ≡ true }
    ensures { IfOk result (λ apart. apart ≡ zone_is_apart state.now zone.now) }
{
    zone_overlap_is_symmetric();
    zones_apart_by_pairs();
    let listed = NameIndex::build(alloc, zone.services.as_slice())?;
    let defs = DefIndex::of(alloc, state, zone.services.len())?;
    let zones = state.zones.as_slice();
    let Some(place) = place_named(zones, zone.name.as_str()) else {
        return Ok(!meets_some(alloc, &defs, zone, &listed, zones)?);
    };
    if meets_some(alloc, &defs, zone, &listed, &zones[..place])? {
        return Ok(false);
    }
    Ok(!meets_some(alloc, &defs, zone, &listed, &zones[place + 1..])?)
}
