// Security zones, as the service `hive` sees them. Each zone is JSON, and a `+` parts zones. A key `N#NAME` stands for NAME, so that a
// service or a level can come twice, or before one that is less.
//
// `place|ZONES|ELEMENTS`: the place of the zone in which the resource lies.
// `rules|ZONE`: whether the zone lists `hive` as a service and as a tag service, whether that listing fits in the one case and in the
// other, whether the levels of its maps for `hive` fit, and the values, and both.
// `services|ZONE`: whether its services fit where `hive` and `kafka` are services, and `pii` and `geo` tag services.
// `subjects|ZONE`: whether the roles of its admins and auditors are there where `hr` and `it` are.
// `named|NAME|ZONES`: whether the zone of this name is one of `hive` as a service, and as a tag service, and whether a tag policy may
// name it.
// `pair|ZONES`: the least pair of places that overlap.
// `overlaps|ZONE|ZONES`: whether the zone overlaps one of the others.
// `copy|ZONE`: what a delta prints of a copy.
use super::asked::resource;
use super::{Table, yes_or_no};
use crate::reading;
use rg_base::{NameIndex, NoMemory, Seq, Text, TryCopy, Version};
use rg_cmd::{PolicyDelta, PolicyPart};
use rg_cmd_wire::print_policy_part;
use rg_defs::{PathedDef, ServiceDef};
use rg_zone_rules::{
    ZoneLevel, ZoneRow, ZoneService, all_maps_fit, listing_fits, lists_service, maps_fit,
    policy_zone_fits, services_fit, subjects_exist, tag_policy_zone_fits, zone_levels_fit,
    zone_values_fit,
};
use rg_zones::{ZoneMap, overlapping, overlaps_any};
use std::alloc::Global;

/// Databases with tables and columns, or functions; urls; hosts.
const HIVE: &str =
    r#"{"name":"hive","resources":[{"name":"database","level":10,"mandatory":true,"excludesSupported":true},{"name":"url","level":10,"recursiveSupported":true,"matcherOptions":{"ignoreCase":false}},{"name":"table","level":20,"parent":"database","excludesSupported":true},{"name":"udf","level":20,"parent":"database","excludesSupported":true},{"name":"column","level":30,"parent":"table","excludesSupported":true},{"name":"host","level":10,"matcherOptions":{"wildCard":false,"ignoreCase":false}}],"accessTypes":[{"name":"select"}]}"#;

// ---- zones as they are written

/// What a key stands for.
fn meant(alloc: Global, key: &Text) -> Result<Text, NoMemory> {
    let key = key.as_str();
    let (_, name) = key.split_once('#').unwrap_or(("", key));
    Text::copy_of(alloc, name)
}

fn levels_meant(alloc: Global, map: &Seq<ZoneLevel>) -> Result<Seq<ZoneLevel>, NoMemory> {
    let mut levels = Seq::new(alloc);
    for level in map.as_slice() {
        levels.add(ZoneLevel {
            level: meant(alloc, &level.level)?,
            values: level.values.try_copy(alloc)?,
        })?;
    }
    Ok(levels)
}

fn entry_meant(alloc: Global, entry: &ZoneService) -> Result<ZoneService, NoMemory> {
    let mut resources = Seq::new(alloc);
    for map in entry.resources.as_slice() {
        resources.add(levels_meant(alloc, map)?)?;
    }
    Ok(ZoneService {
        service: meant(alloc, &entry.service)?,
        resources,
    })
}

fn services_meant(alloc: Global, written: &Seq<ZoneService>) -> Result<Seq<ZoneService>, NoMemory> {
    let mut services = Seq::new(alloc);
    for entry in written.as_slice() {
        services.add(entry_meant(alloc, entry)?)?;
    }
    Ok(services)
}

fn zone(alloc: Global, written: &str) -> Result<ZoneRow, NoMemory> {
    let mut zone = reading::zone(alloc, written)?;
    zone.services = services_meant(alloc, &zone.services)?;
    Ok(zone)
}

fn zones(alloc: Global, written: &str) -> Result<Seq<ZoneRow>, NoMemory> {
    let mut zones = Seq::new(alloc);
    if written.is_empty() {
        return Ok(zones);
    }
    for part in written.split('+') {
        zones.add(zone(alloc, part)?)?;
    }
    Ok(zones)
}

/// The parts of a row that has two.
fn parts(asked: &str) -> (&str, &str) {
    asked.split_once('|').unwrap_or((asked, ""))
}

// ---- answers

fn told(alloc: Global, is_so: bool) -> Result<String, NoMemory> {
    Ok(String::from_str(alloc, yes_or_no(is_so))?)
}

fn index(alloc: Global, names: &[&str]) -> Result<NameIndex, NoMemory> {
    let mut list = Seq::new(alloc);
    for name in names {
        list.add(Text::copy_of(alloc, name)?)?;
    }
    NameIndex::build(alloc, list.as_slice())
}

fn services(alloc: Global, asked: &str) -> Result<String, NoMemory> {
    let zone = zone(alloc, asked)?;
    let known = index(alloc, &["hive", "kafka"])?;
    let tagging = index(alloc, &["pii", "geo"])?;
    told(alloc, services_fit(alloc, &known, &tagging, &zone)?)
}

fn subjects(alloc: Global, asked: &str) -> Result<String, NoMemory> {
    let zone = zone(alloc, asked)?;
    let known = index(alloc, &["hr", "it"])?;
    told(alloc, subjects_exist(&known, &zone))
}

fn named(alloc: Global, asked: &str) -> Result<String, NoMemory> {
    let (name, written) = parts(asked);
    let zones = zones(alloc, written)?;
    let zones = zones.as_slice();
    let policy = format!(in alloc; "{{\"zoneName\":\"{name}\"}}")?;
    let policy = reading::policy(alloc, policy.as_str())?;
    let by_service = yes_or_no(policy_zone_fits(false, "hive", zones, &policy));
    let by_tag_service = yes_or_no(policy_zone_fits(true, "hive", zones, &policy));
    let of_tag_policy = yes_or_no(tag_policy_zone_fits(zones, &policy));
    Ok(format!(in alloc; "{by_service} {by_tag_service} {of_tag_policy}")?)
}

/// A copy of the zone.
fn copies(alloc: Global, asked: &str) -> Result<Seq<ZoneRow>, NoMemory> {
    let zone = zone(alloc, asked)?;
    let mut copies = Seq::new(alloc);
    copies.add(zone.try_copy(alloc)?)?;
    Ok(copies)
}

fn copy(alloc: Global, asked: &str) -> Result<String, NoMemory> {
    let zones = copies(alloc, asked)?;
    let part = PolicyPart::Delta(PolicyDelta {
        from: Version(1),
        to: Version(2),
        changes: Seq::new(alloc),
        zones: Some(zones),
    });
    let printed = print_policy_part(alloc, &part)?;
    Ok(String::from_str(alloc, printed.as_str())?)
}

/// The service's definition.
#[derive(Drop)]
pub(super) struct ZoneTable {
    hive: ServiceDef,
}

impl ZoneTable {
    pub(super) fn start(alloc: Global) -> Result<ZoneTable, NoMemory> {
        let hive = reading::definition(alloc, HIVE)?;
        Ok(ZoneTable { hive })
    }

    /// The zones made ready, which pass their rules.
    fn map(&self, alloc: Global, zones: &[ZoneRow]) -> Result<ZoneMap, NoMemory> {
        let paths = reading::paths(alloc, &self.hive)?;
        let hive = PathedDef {
            def: &self.hive,
            paths: &paths,
        };
        if !all_maps_fit(&hive, "hive", zones) {
            return Err(NoMemory);
        }
        ZoneMap::build(alloc, zones, "hive", &self.hive)
    }

    fn place(&self, alloc: Global, asked: &str) -> Result<String, NoMemory> {
        let (written, elements) = parts(asked);
        let zones = zones(alloc, written)?;
        let resource = resource(alloc, elements)?;
        let map = self.map(alloc, zones.as_slice())?;
        match map.zone_of(&resource) {
            Some(place) => Ok(format!(in alloc; "{place}")?),
            None => Ok(String::from_str(alloc, "none")?),
        }
    }

    fn rules(&self, alloc: Global, asked: &str) -> Result<String, NoMemory> {
        let zone = zone(alloc, asked)?;
        let paths = reading::paths(alloc, &self.hive)?;
        let hive = PathedDef {
            def: &self.hive,
            paths: &paths,
        };
        let listed = yes_or_no(lists_service(false, "hive", &zone));
        let tagged = yes_or_no(lists_service(true, "hive", &zone));
        let listing = yes_or_no(listing_fits(false, "hive", &zone));
        let tag_listing = yes_or_no(listing_fits(true, "hive", &zone));
        let levels = yes_or_no(zone_levels_fit(&hive, "hive", &zone));
        let values = yes_or_no(zone_values_fit("hive", &zone));
        let maps = yes_or_no(maps_fit(&hive, "hive", &zone));
        Ok(format!(in alloc; "{listed} {tagged} {listing} {tag_listing} {levels} {values} {maps}")?)
    }

    fn pair(&self, alloc: Global, asked: &str) -> Result<String, NoMemory> {
        let zones = zones(alloc, asked)?;
        let zones = zones.as_slice();
        let paths = reading::paths(alloc, &self.hive)?;
        let hive = PathedDef {
            def: &self.hive,
            paths: &paths,
        };
        if !all_maps_fit(&hive, "hive", zones) {
            return Err(NoMemory);
        }
        match overlapping(alloc, zones, "hive", &self.hive)? {
            Some((first, second)) => Ok(format!(in alloc; "{first} {second}")?),
            None => Ok(String::from_str(alloc, "none")?),
        }
    }

    fn overlaps(&self, alloc: Global, asked: &str) -> Result<String, NoMemory> {
        let (written, others) = parts(asked);
        let zone = zone(alloc, written)?;
        let others = zones(alloc, others)?;
        let others = others.as_slice();
        let paths = reading::paths(alloc, &self.hive)?;
        let hive = PathedDef {
            def: &self.hive,
            paths: &paths,
        };
        if !maps_fit(&hive, "hive", &zone) || !all_maps_fit(&hive, "hive", others) {
            return Err(NoMemory);
        }
        told(
            alloc,
            overlaps_any(alloc, &zone, others, "hive", &self.hive)?,
        )
    }
}

impl Table for ZoneTable {
    fn answer(&mut self, alloc: Global, word: &str, asked: &str) -> Result<String, NoMemory> {
        match word {
            "place" => self.place(alloc, asked),
            "rules" => self.rules(alloc, asked),
            "services" => services(alloc, asked),
            "subjects" => subjects(alloc, asked),
            "named" => named(alloc, asked),
            "pair" => self.pair(alloc, asked),
            "overlaps" => self.overlaps(alloc, asked),
            "copy" => copy(alloc, asked),
            _ => Err(NoMemory),
        }
    }
}
