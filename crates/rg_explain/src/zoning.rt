// The zone in which a resource lies, with the first of its maps that reaches down to it.
ghost use Rattle.std.specs.Prelude.{◌≡◌, IfOk, option_map};
ghost use Rattle.std.specs.List.{position_from};
ghost use Rattle.rg_explain.specs.Explaining.{in_zone, map_place};
ghost use Rattle.rg_explain.specs.Parts.{reaches};

use crate::explanation::InZone;
use rg_base::{NoMemory, TryCopy};
use rg_defs::{PathedDef, Paths};
use rg_facts::Facts;
use rg_policy::{AccessRequest, Element, ResourceMap};
use rg_resmatch::Reach;
use rg_standing::resources_lie;
use rg_zone_rules::ZoneRow;
use rg_zones::zone_maps;
use std::alloc::Global;

/// Whether the map reaches down to what is asked about, whoever asks.
fn reaches(
    alloc: Global,
    def: &PathedDef,
    elements: &[Element],
    map: &ResourceMap,
) -> Result<bool, NoMemory>
    ensures { IfOk result (λ b. b ≡ reaches def.now elements.now map.now) }
{
    let levels = map.levels.as_slice();
    resources_lie(alloc, def, levels, Reach::Down, elements, "")
}

/// The place of the first map that does.
fn first_reaching(
    alloc: Global,
    def: &PathedDef,
    elements: &[Element],
    maps: &[ResourceMap],
) -> Result<Option<usize>, NoMemory>
    ensures { IfOk result
        (λ place. place ≡ position_from (reaches def.now elements.now) 0 maps.now) }
{
    for (place, map) in maps.iter().enumerate() {
        if reaches(alloc, def, elements, map)? {
            return Ok(Some(place));
        }
    }
    Ok(None)
}

/// The place, among the zone's maps for the service, of the first that reaches down to the request's resource.
fn map_place(
    alloc: Global,
    facts: &Facts,
    paths: &Paths,
    request: &AccessRequest,
    zone: &ZoneRow,
) -> Result<Option<usize>, NoMemory>
    requires { paths.now ≡ facts.now.def.levels.items }
    ensures { IfOk result (λ place. place ≡ map_place facts.now request.now zone.now) }
{
    let maps = zone_maps(alloc, &facts.def, facts.service.as_str(), zone)?;
    let elements = request.resource.elements.as_slice();
    let def = PathedDef {
        def: &facts.def,
        paths,
    };
    first_reaching(alloc, &def, elements, maps.as_slice())
}

/// The zone with that place. The paths are those of the definition of the facts.
pub(crate) fn in_zone(
    alloc: Global,
    facts: &Facts,
    paths: &Paths,
    request: &AccessRequest,
    zone: Option<&ZoneRow>,
) -> Result<Option<InZone>, NoMemory>
    requires { paths.now ≡ facts.now.def.levels.items }
    ensures { let found = option_map (λ z. z.now) zone.entry in
        IfOk result (λ told. told ≡ option_map (in_zone facts.now request.now) found) }
{
    match zone {
        Some(zone) => Ok(Some(InZone {
            zone: zone.name.try_copy(alloc)?,
            map: map_place(alloc, facts, paths, request, zone)?,
        })),
        None => Ok(None),
    }
}
