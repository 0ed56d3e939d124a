// In which zone the resource of a request lies.
ghost use Rattle.std.specs.Prelude.{◌≡◌, ◌<◌, IfOk, IfSome, List, None, length, position, true};
ghost use Rattle.std.specs.Str.{chars};
ghost use Rattle.rg_defs.specs.Rules.{def_fault};
ghost use Rattle.rg_policy.specs.declared.request.Element.{Element};
ghost use Rattle.rg_zones.specs.Matched.{AreMatched, is_matched, rows_of};
ghost use Rattle.rg_zones.specs.Places.{AreNamed, after_id, least_place, passes_at, zone_forms};
ghost use Rattle.rg_zone_rules.specs.Rules.{all_maps_fit, maps_fit};
ghost use Rattle.rg_zone_rules.specs.Zones.{in_zone, zone_of};

use crate::filed::{is_below, place_of, zone_forms};
use crate::resources::zone_maps;
use rg_base::{NoMemory, Steps, Text};
use rg_defs::ServiceDef;
use rg_index::{Candidates, Index};
use rg_policy::Resource;
use rg_resmatch::{Matcher, Reach};
use rg_zone_rules::ZoneRow;
use std::alloc::Global;
use std::marker::Model;
use std::snapshot::Snapshot;

/// The most zones whose places are all 32-bit numbers.
const MOST_ZONES: usize = 1 << 32;

/// A zone with the matcher of its maps for the service.
#[derive(Drop)]
struct MatchedZone {
    matcher: Matcher,
    /// Which only contracts see.
    row: Snapshot<ZoneRow>,
}

impl Model for MatchedZone {
    ghost use Rattle.rg_zones.specs.Matched.{RowMatching};

    ghost Value = { RowMatching };

    ghost view = { λ z. record { matching = z.matcher; row = z.row.value } };
}

/// The zones of one service, compiled. Contracts see what they were built from.
pub struct ZoneMap {
    zones: Vec<MatchedZone>,
    /// Their maps, with the places as ids.
    index: Index,
    service: Text,
    /// Which only contracts see.
    def: Snapshot<ServiceDef>,
}

impl Drop for ZoneMap {
    fn drop(self) {
        let Self {
            zones: _,
            index: _,
            service: _,
            def: _,
        } = self;
    }
}

impl Model for ZoneMap {
    ghost use Rattle.std.specs.Prelude.{◌≡◌, ◌≤◌, length};
    ghost use Rattle.rg_zones.specs.Matched.{AreMatched, rows_of};
    ghost use Rattle.rg_zones.specs.Places.{zone_forms};
    ghost use Rattle.rg_zones.specs.Zoning.{Zoning};

    ghost Value = { Zoning };

    ghost view = { λ m. record {
      zones = rows_of m.zones.items;
      service = m.service;
      def = m.def.value;
    } };

    ghost invariant = { λ m. (length m.zones.items ≤ 4294967296)
        × AreMatched m.service m.def.value m.zones.items
        × (m.index ≡ record { def = m.def.value; forms = zone_forms m.service m.def.value 0 (rows_of m.zones.items) }) };
}

fn compile_zone(
    alloc: Global,
    def: &ServiceDef,
    service: &str,
    zone: &ZoneRow,
) -> Result<MatchedZone, NoMemory>
    requires fit { maps_fit (chars service.now) def.now zone.now ≡ true }
    ensures row { IfOk result (λ m. m.row ≡ zone.now) }
    ensures matched { IfOk result (λ m. (elements : List Element)
        → is_matched elements m ≡ in_zone (chars service.now) def.now elements zone.now) }
{
    let maps = zone_maps(alloc, def, service, zone)?;
    let matcher = Matcher::compile(alloc, def, maps.as_slice(), Reach::Down)?;
    Ok(MatchedZone {
        matcher,
        row: Snapshot::of(zone),
    })
}

fn compile_zones(
    alloc: Global,
    def: &ServiceDef,
    service: &str,
    zones: &[ZoneRow],
) -> Result<Vec<MatchedZone>, NoMemory>
    requires fit { all_maps_fit (chars service.now) def.now zones.now ≡ true }
    ensures rows { IfOk result (λ v. rows_of v.items ≡ zones.now) }
    ensures matched { IfOk result (λ v. AreMatched (chars service.now) def.now v.items) }
{
    let mut compiled = Vec::new(alloc);
    for zone in zones {
        let matched = compile_zone(alloc, def, service, zone)?;
        compiled.push(matched)?;
    }
    Ok(compiled)
}

#[tactic(auto, using(crate::proofs::Stars::no_user))]
fn is_matched(zone: &MatchedZone, resource: &Resource) -> bool
    ensures { result ≡ is_matched resource.now.elements.items zone.now }
{
    let mut steps = Steps::silent();
    zone.matcher.matches(resource, "", &mut steps)
}

fn is_matched_at(zones: &[MatchedZone], place: usize, resource: &Resource) -> bool
    ensures { result ≡ passes_at (is_matched resource.now.elements.items) zones.now place }
{
    match zones.get(place) {
        Some(zone) => is_matched(zone, resource),
        None => false,
    }
}

/// The place that is meant by the id, where it is below the best so far and the resource lies in its zone.
fn after_id(
    zones: &[MatchedZone],
    resource: &Resource,
    best: Option<usize>,
    id: i64,
) -> Option<usize>
    ensures { result ≡ after_id (is_matched resource.now.elements.items) zones.now best id }
{
    let Some(place) = place_of(id) else {
        return best;
    };
    if is_below(place, best) && is_matched_at(zones, place, resource) {
        Some(place)
    } else {
        best
    }
}

/// The least place of a candidate in whose zone the resource lies. A zone that comes twice is asked once.
fn least_place(
    zones: &[MatchedZone],
    resource: &Resource,
    candidates: Candidates<'_>,
) -> Option<usize>
    ensures { result
        ≡ least_place (is_matched resource.now.elements.items) zones.now candidates.entry }
{
    let mut candidates = candidates;
    let mut least = None;
    while let Some(id) = candidates.next() {
        least = after_id(zones, resource, least, id);
    }
    least
}

/// The first zone in which the resource lies, where the candidates name each such zone.
fn first_place(
    zones: &[MatchedZone],
    resource: &Resource,
    candidates: Candidates<'_>,
) -> Option<usize>
    requires { AreNamed (is_matched resource.now.elements.items) zones.now candidates }
    ensures first { result ≡ position (is_matched resource.now.elements.items) zones.now }
    ensures within { IfSome result (λ place. place < length zones.now) }
{
    least_place(zones, resource, candidates)
}

/// The maps of the zones, filed under their places.
fn index_of(
    alloc: Global,
    def: &ServiceDef,
    service: &str,
    zones: &[ZoneRow],
) -> Result<Index, NoMemory>
    requires lawful { def_fault def.now ≡ None }
    requires fit { all_maps_fit (chars service.now) def.now zones.now ≡ true }
    ensures { IfOk result (λ x. x ≡ record {
      def = def.now;
      forms = zone_forms (chars service.now) def.now 0 zones.now;
    }) }
{
    let forms = zone_forms(alloc, def, service, zones)?;
    let mut steps = Steps::silent();
    Index::build(alloc, def, &forms, &mut steps)
}

impl ZoneMap {
    /// The zones, each resource map read once. Only the maps for the service count. [`all_maps_fit`](crate::all_maps_fit)
    /// is the test of the second condition. It also answers want of memory for more than `2^32` zones, whose
    /// places no `u32` holds.
    pub fn build(
        alloc: Global,
        zones: &[ZoneRow],
        service: &str,
        def: &ServiceDef,
    ) -> Result<ZoneMap, NoMemory>
        requires lawful { def_fault def.now ≡ None }
        requires fit { all_maps_fit (chars service.now) def.now zones.now ≡ true }
        ensures { IfOk result
            (λ m. m ≡ record { zones = zones.now; service = chars service.now; def = def.now }) }
    {
        if MOST_ZONES < zones.len() {
            return Err(NoMemory);
        }
        let service = Text::copy_of(alloc, service)?;
        let compiled = compile_zones(alloc, def, service.as_str(), zones)?;
        let index = index_of(alloc, def, service.as_str(), zones)?;
        Ok(ZoneMap {
            zones: compiled,
            index,
            service,
            def: Snapshot::of(def),
        })
    }

    /// The least place of a zone in which the resource lies, None where it lies in none. It takes no memory.
    pub fn zone_of(&self, resource: &Resource) -> Option<u32>
        ensures { result
            ≡ zone_of self.now.service self.now.def self.now.zones resource.now.elements.items }
    {
        let place = first_place(&self.zones, resource, self.index.candidates(resource))?;
        Some(place as u32)
    }
}
