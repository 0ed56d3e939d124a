// The rules of zones, one by one.
ghost use Rattle.std.specs.Prelude.{◌≡◌, ◌&&◌, IfOk, false, filter, length, map, not};
ghost use Rattle.std.specs.List.{list_all, list_any};
ghost use Rattle.std.specs.Str.{bytes_eq, chars};
ghost use Rattle.rg_base.specs.Texts.{all_distinct, is_among};
ghost use Rattle.rg_defs.specs.PathTests.{on_one_path};
ghost use Rattle.rg_defs.specs.Rules.{has_level};
ghost use Rattle.rg_pattern.specs.Reading.{value_fits};
ghost use Rattle.rg_resmatch.specs.Rules.{levels_fit};
ghost use Rattle.rg_zone_rules.specs.Rules.{all_maps_fit, entry_levels_fit, entry_values_fit, is_some_level, is_zone_of, level_values_fit, listing_fits, lists_each_once, lists_service, map_levels_fit, map_values_fit, maps_fit, policy_zone_fits, services_fit, subjects_exist, tag_policy_zone_fits, zone_levels_fit, zone_values_fit};
ghost use Rattle.rg_zone_rules.specs.Zones.{is_for, zone_resources};
ghost use Rattle.rg_zone_rules.specs.declared.row.ZoneLevel.{ZoneLevel};

use crate::row::{ZoneLevel, ZoneRow, ZoneService};
use rg_base::{
    NameIndex, Named, NoMemory, Seq, Text, is_among, is_empty, is_named, names_distinct, same_text,
};
use rg_defs::{Level, PathedDef};
use rg_pattern::value_fits;
use rg_policy::Policy;
use std::alloc::Global;

/// Whether the entry of a zone is for the service.
pub fn is_for(service: &str, entry: &ZoneService) -> bool
    ensures { result ≡ is_for (chars service.now) entry.now }
{
    same_text(entry.service.as_str(), service)
}

fn any_is_for(service: &str, entries: &[ZoneService]) -> bool
    ensures { result ≡ list_any (is_for (chars service.now)) entries.now }
{
    entries.iter().any(|entry| is_for(service, entry))
}

fn times_listed(service: &str, entries: &[ZoneService]) -> usize
    ensures { result ≡ length (filter (is_for (chars service.now)) entries.now) }
{
    entries
        .iter()
        .filter(|entry| is_for(service, entry))
        .count()
}

fn times_tagged(service: &str, names: &[Text]) -> usize
    ensures { result ≡ length (filter (λ t. bytes_eq t (chars service.now)) names.now) }
{
    names
        .iter()
        .filter(|name| same_text(name.as_str(), service))
        .count()
}

/// Whether the zone lists the service, among its tag services where it is a tag service, else among its services.
pub fn lists_service(is_tag: bool, service: &str, zone: &ZoneRow) -> bool
    ensures { result ≡ lists_service is_tag (chars service.now) zone.now }
{
    if is_tag {
        is_among(service, zone.tag_services.as_slice())
    } else {
        any_is_for(service, zone.services.as_slice())
    }
}

/// Whether the zone lists the service at most once, and only among the tag services where it is a tag service, else
/// only among the services (rule Z2 for one service).
pub fn listing_fits(is_tag: bool, service: &str, zone: &ZoneRow) -> bool
    ensures { result ≡ listing_fits is_tag (chars service.now) zone.now }
{
    let listed = times_listed(service, zone.services.as_slice());
    let tagged = times_tagged(service, zone.tag_services.as_slice());
    if is_tag {
        listed == 0 && tagged <= 1
    } else {
        listed <= 1 && tagged == 0
    }
}

/// Whether none of the things has a name that is there.
fn none_there<T: Named>(names: &NameIndex, things: &[T]) -> bool
    ensures { result ≡ list_all (λ x. not (is_among (T.named x) names.now)) things.now }
{
    things.iter().all(|thing| !names.contains(thing.name()))
}

/// Whether each of the things has a name that is there.
fn all_there<T: Named>(names: &NameIndex, things: &[T]) -> bool
    ensures { result ≡ list_all (λ x. is_among (T.named x) names.now) things.now }
{
    things.iter().all(|thing| names.contains(thing.name()))
}

/// Whether no service is listed twice, no tag service is, and none is listed as both (the last part of rule Z2). It
/// takes memory for the names.
pub fn lists_each_once(alloc: Global, zone: &ZoneRow) -> Result<bool, NoMemory>
    ensures { IfOk result (λ once. once ≡ lists_each_once zone.now) }
{
    let tag_services = zone.tag_services.as_slice();
    let services = NameIndex::build(alloc, zone.services.as_slice())?;
    let tagged = NameIndex::build(alloc, tag_services)?;
    Ok(services.are_distinct() && tagged.are_distinct() && none_there(&services, tag_services))
}

/// Whether each service is among these, which aren't of definition `tag`, each tag service among those, which are,
/// and none is listed twice (rule Z2). It takes memory for the names.
pub fn services_fit(
    alloc: Global,
    services: &NameIndex,
    tag_services: &NameIndex,
    zone: &ZoneRow,
) -> Result<bool, NoMemory>
    ensures { IfOk result (λ fit. fit ≡ services_fit services.now tag_services.now zone.now) }
{
    let exist = all_there(services, zone.services.as_slice())
        && all_there(tag_services, zone.tag_services.as_slice());
    if !exist {
        return Ok(false);
    }
    lists_each_once(alloc, zone)
}

fn are_levels(known: &[Level], levels: &[ZoneLevel]) -> bool
    ensures { result ≡ list_all (λ (l : ZoneLevel). has_level known.now l.level) levels.now }
{
    levels
        .iter()
        .all(|level| is_named(known, level.level.as_str()))
}

/// Whether these are distinct levels of the definition on one path. That they are its levels is asked first, so that
/// the work isn't quadratic in their number.
fn lie_on_a_path(def: &PathedDef, levels: &[ZoneLevel]) -> bool
    ensures { result
        ≡ (list_all (λ (l : ZoneLevel). has_level def.now.levels.items l.level) levels.now
        && all_distinct (λ (l m : ZoneLevel). bytes_eq m.level l.level) levels.now
        && on_one_path def.now.levels.items (map (λ (l : ZoneLevel). l.level) levels.now)) }
{
    are_levels(def.paths.levels(), levels)
        && names_distinct(levels)
        && def.paths.on_one_path(levels)
}

fn is_some_level(levels: &[ZoneLevel]) -> bool
    ensures { result ≡ is_some_level levels.now }
{
    match levels {
        [] => false,
        _ => true,
    }
}

#[tactic(auto, using(crate::proofs::Levels::levels_alike))]
fn levels_fit(def: &PathedDef, levels: &[ZoneLevel]) -> bool
    ensures { result ≡ levels_fit def.now false (zone_resources def.now levels.now) }
{
    is_some_level(levels) && lie_on_a_path(def, levels)
}

fn map_levels_fit(def: &PathedDef, map: &Seq<ZoneLevel>) -> bool
    ensures { result ≡ map_levels_fit def.now map.now }
{
    levels_fit(def, map.as_slice())
}

fn each_map_levels_fit(def: &PathedDef, maps: &[Seq<ZoneLevel>]) -> bool
    ensures { result ≡ list_all (map_levels_fit def.now) maps.now }
{
    maps.iter().all(|map| map_levels_fit(def, map))
}

/// Whether the service has a map in the zone, and the levels of each map are distinct ones of the definition on one
/// path (rule Z3 for one service of a zone).
pub fn entry_levels_fit(def: &PathedDef, entry: &ZoneService) -> bool
    ensures { result ≡ entry_levels_fit def.now entry.now }
{
    match entry.resources.as_slice() {
        [] => false,
        maps => each_map_levels_fit(def, maps),
    }
}

/// Whether the service has a map wherever the zone lists it, and the levels of each map are distinct ones of the
/// definition on one path (rule Z3 for one service).
pub fn zone_levels_fit(def: &PathedDef, service: &str, zone: &ZoneRow) -> bool
    ensures { result ≡ zone_levels_fit (chars service.now) def.now zone.now }
{
    zone.services.as_slice().iter().all(|entry| !is_for(service, entry)
        || entry_levels_fit(def, entry))
}

fn values_fit(values: &[Text]) -> bool
    ensures { result ≡ list_all value_fits values.now }
{
    values.iter().all(|value| value_fits(value.as_str()))
}

fn level_values_fit(level: &ZoneLevel) -> bool
    ensures { result ≡ level_values_fit level.now }
{
    match level.values.as_slice() {
        [] => false,
        values => values_fit(values),
    }
}

fn map_values_fit(map: &Seq<ZoneLevel>) -> bool
    ensures { result ≡ map_values_fit map.now }
{
    map.as_slice().iter().all(level_values_fit)
}

/// Whether each level of the service's maps in the zone has a value, and only patterns of 1 to 256 characters without
/// `{USER}` (rule Z4 for one service of a zone).
pub fn entry_values_fit(entry: &ZoneService) -> bool
    ensures { result ≡ entry_values_fit entry.now }
{
    entry.resources.as_slice().iter().all(map_values_fit)
}

/// Whether each level of the service's maps in the zone has a value, and only patterns of 1 to 256 characters without
/// `{USER}` (rule Z4 for one service).
pub fn zone_values_fit(service: &str, zone: &ZoneRow) -> bool
    ensures { result ≡ zone_values_fit (chars service.now) zone.now }
{
    zone.services
        .as_slice()
        .iter()
        .all(|entry| !is_for(service, entry) || entry_values_fit(entry))
}

/// Whether the zone passes Z3 and Z4 for the service.
pub fn maps_fit(def: &PathedDef, service: &str, zone: &ZoneRow) -> bool
    ensures { result ≡ maps_fit (chars service.now) def.now zone.now }
{
    zone_levels_fit(def, service, zone) && zone_values_fit(service, zone)
}

/// Whether each of the zones passes Z3 and Z4 for the service.
pub fn all_maps_fit(def: &PathedDef, service: &str, zones: &[ZoneRow]) -> bool
    ensures { result ≡ all_maps_fit (chars service.now) def.now zones.now }
{
    zones.iter().all(|zone| maps_fit(def, service, zone))
}

/// Whether each role of the zone's admins and auditors is among these (rule Z5).
pub fn subjects_exist(roles: &NameIndex, zone: &ZoneRow) -> bool
    ensures { result ≡ subjects_exist roles.now zone.now }
{
    all_there(roles, zone.admins.roles.as_slice())
        && all_there(roles, zone.auditors.roles.as_slice())
}

fn is_zone_of(is_tag: bool, service: &str, name: &str, zone: &ZoneRow) -> bool
    ensures { result ≡ is_zone_of is_tag (chars service.now) (chars name.now) zone.now }
{
    same_text(zone.name.as_str(), name) && lists_service(is_tag, service, zone)
}

fn some_zone_of(is_tag: bool, service: &str, name: &str, zones: &[ZoneRow]) -> bool
    ensures { result ≡ list_any (is_zone_of is_tag (chars service.now) (chars name.now)) zones.now }
{
    zones
        .iter()
        .any(|zone| is_zone_of(is_tag, service, name, zone))
}

/// Whether the policy has no zone, or that of one of these zones which lists the service, a tag service among its tag
/// services (rule V14).
pub fn policy_zone_fits(is_tag: bool, service: &str, zones: &[ZoneRow], policy: &Policy) -> bool
    ensures { result ≡ policy_zone_fits is_tag (chars service.now) zones.now policy.now }
{
    let name = policy.zone.as_str();
    is_empty(name) || some_zone_of(is_tag, service, name, zones)
}

/// Whether the tag policy has no zone, or that of one of these zones (rule V14 of a tag policy in facts).
pub fn tag_policy_zone_fits(zones: &[ZoneRow], policy: &Policy) -> bool
    ensures { result ≡ tag_policy_zone_fits zones.now policy.now }
{
    let name = policy.zone.as_str();
    is_empty(name) || is_named(zones, name)
}
