// The resource maps of a zone as those of policies.
ghost use Rattle.std.specs.Prelude.{◌≡◌, ◌++◌, IfOk, map, option_map};
ghost use Rattle.rg_base.specs.Listed.{listed};
ghost use Rattle.rg_zone_rules.specs.Zones.{entry_maps, is_recursive, resource_map, zone_maps, zone_resource, zone_resources};
ghost use Rattle.std.specs.Str.{chars};

use rg_base::{NoMemory, Seq, TryCopy};
use rg_defs::{Level, ServiceDef, level_of};
use rg_policy::{PolicyResource, ResourceMap};
use rg_zone_rules::{ZoneLevel, ZoneRow, ZoneService, is_for};
use std::alloc::Global;

pub(crate) fn is_recursive(level: Option<&Level>) -> bool
    ensures { result ≡ is_recursive (option_map (λ l. l.now) level.entry) }
{
    match level {
        Some(level) => level.recursive,
        None => false,
    }
}

fn zone_resource(
    alloc: Global,
    def: &ServiceDef,
    level: &ZoneLevel,
) -> Result<PolicyResource, NoMemory>
    ensures { IfOk result (λ r. r ≡ zone_resource def.now level.now) }
{
    Ok(PolicyResource {
        level: level.level.try_copy(alloc)?,
        values: level.values.try_copy(alloc)?,
        excludes: false,
        recursive: is_recursive(level_of(def, level.level.as_str())),
    })
}

fn zone_resources(
    alloc: Global,
    def: &ServiceDef,
    levels: &[ZoneLevel],
) -> Result<Seq<PolicyResource>, NoMemory>
    ensures { IfOk result (λ list. list ≡ listed (zone_resources def.now levels.now)) }
{
    let mut resources = Seq::new(alloc);
    for level in levels {
        resources.add(zone_resource(alloc, def, level)?)?;
    }
    Ok(resources)
}

/// The maps, and these after them.
fn with_maps(
    alloc: Global,
    def: &ServiceDef,
    mut maps: Vec<ResourceMap>,
    written: &[Seq<ZoneLevel>],
) -> Result<Vec<ResourceMap>, NoMemory>
    ensures { IfOk result (λ v. v.items ≡ maps.items ++ map (resource_map def.now) written.now) }
{
    for levels in written {
        let levels = zone_resources(alloc, def, levels.as_slice())?;
        maps.push(ResourceMap { levels })?;
    }
    Ok(maps)
}

/// The maps, and those of the entry after them where it is for the service.
fn with_entry(
    alloc: Global,
    def: &ServiceDef,
    service: &str,
    maps: Vec<ResourceMap>,
    entry: &ZoneService,
) -> Result<Vec<ResourceMap>, NoMemory>
    ensures { IfOk result (λ v. v.items
        ≡ maps.items ++ map (resource_map def.now) (entry_maps (chars service.now) entry.now)) }
{
    if !is_for(service, entry) {
        return Ok(maps);
    }
    with_maps(alloc, def, maps, entry.resources.as_slice())
}

/// What is matched of the zone: its maps for the service, as those of policies.
pub fn zone_maps(
    alloc: Global,
    def: &ServiceDef,
    service: &str,
    zone: &ZoneRow,
) -> Result<Vec<ResourceMap>, NoMemory>
    ensures { IfOk result (λ v. v.items ≡ zone_maps (chars service.now) def.now zone.now) }
{
    let mut maps = Vec::new(alloc);
    for entry in zone.services.as_slice() {
        maps = with_entry(alloc, def, service, maps, entry)?;
    }
    Ok(maps)
}
