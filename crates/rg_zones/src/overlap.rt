// Which zones overlap.
ghost use Rattle.std.specs.Prelude.{◌≡◌, ◌<◌, ◌≤◌, ◌^◌, IfOk, List, None, Option, ℕ, fold, length, map, true};
ghost use Rattle.std.specs.List.{Contains, list_all, list_any, range_with_len};
ghost use Rattle.std.specs.Str.{chars};
ghost use Rattle.rg_trie.specs.declared.pair.Pair.{Pair};
ghost use Rattle.rg_trie.specs.Walked.{entries_under};
ghost use Rattle.rg_zones.specs.Best.{better, is_less, ordered};
ghost use Rattle.rg_zones.specs.Entries.{entries_overlap};
ghost use Rattle.rg_zones.specs.Candidates.{AreFiled, HoldsFirst, across, beside, beside_all, filed_as, found_under, maps_of, meet_at, same_anchor};
ghost use Rattle.rg_zone_rules.specs.Overlap.{IsLeastOverlap, at_pair, first_overlap, pairs_from, place_pairs, some_meet, zone_patterns, zone_scalars, zones_overlap};
ghost use Rattle.rg_zone_rules.specs.Rules.{all_maps_fit, entry_values_fit, maps_fit};
ghost use Rattle.rg_zone_rules.specs.declared.row.ZoneRow.{ZoneRow};

use crate::filing::FiledZone;
use crate::laws::compiled_overlap_is_decided;
use crate::meeting::some_meet;
use crate::zone_patterns::{CompiledZone, compile_entry};
use rg_base::{NoMemory, Steps, Text};
use rg_defs::{Paths, ServiceDef};
use rg_trie::{Filed, Trie};
use rg_zone_rules::{ZoneRow, ZoneService};
use std::alloc::Global;

/// Whether the zones at these places overlap.
fn meet_at(
    alloc: Global,
    paths: &Paths,
    zones: &[FiledZone],
    pair: (usize, usize),
) -> Result<bool, NoMemory>
    ensures { IfOk result (λ b. b ≡ meet_at paths.now zones.now pair) }
{
    let Some(zone) = zones.get(pair.0) else {
        return Ok(false);
    };
    let Some(other) = zones.get(pair.1) else {
        return Ok(false);
    };
    some_meet(alloc, paths, &zone.maps, &other.maps)
}

fn is_less(pair: (usize, usize), best: Option<(usize, usize)>) -> bool
    ensures { result ≡ is_less pair best }
{
    match best {
        Some(best) => pair.0 < best.0 || (pair.0 == best.0 && pair.1 < best.1),
        None => true,
    }
}

/// The pair, where it is less than the best so far and its zones overlap; else the best so far.
fn better(
    alloc: Global,
    paths: &Paths,
    zones: &[FiledZone],
    best: Option<(usize, usize)>,
    pair: (usize, usize),
) -> Result<Option<(usize, usize)>, NoMemory>
    ensures { IfOk result (λ o. o ≡ better (meet_at paths.now zones.now) best pair) }
{
    if !is_less(pair, best) {
        return Ok(best);
    }
    if meet_at(alloc, paths, zones, pair)? {
        return Ok(Some(pair));
    }
    Ok(best)
}

fn same_anchor_at(zones: &[FiledZone], first: usize, second: usize) -> bool
    ensures { result ≡ at_pair same_anchor zones.now (first, second) }
{
    let Some(zone) = zones.get(first) else {
        return false;
    };
    let Some(other) = zones.get(second) else {
        return false;
    };
    zone.same_anchor(other)
}

fn across(
    alloc: Global,
    paths: &Paths,
    zones: &[FiledZone],
    best: Option<(usize, usize)>,
    first: usize,
    second: usize,
) -> Result<Option<(usize, usize)>, NoMemory>
    ensures { IfOk result
        (λ o. o ≡ across (meet_at paths.now zones.now) zones.now best (first, second)) }
{
    if same_anchor_at(zones, first, second) {
        return Ok(best);
    }
    better(alloc, paths, zones, best, (first, second))
}

#[tactic(auto, using(crate::proofs::Pairs::range_first, crate::proofs::Pairs::range_none))]
fn across_from(
    alloc: Global,
    paths: &Paths,
    zones: &[FiledZone],
    mut best: Option<(usize, usize)>,
    first: usize,
) -> Result<Option<(usize, usize)>, NoMemory>
    requires { first < length zones.now }
    ensures { IfOk result (λ o. o ≡ fold (across (meet_at paths.now zones.now) zones.now) best
        (pairs_from (length zones.now) first)) }
{
    for second in first + 1..zones.len() {
        best = across(alloc, paths, zones, best, first, second)?;
    }
    Ok(best)
}

/// The zones that aren't filed at one level, compared in pairs.
#[tactic(auto, using(crate::proofs::Pairs::fold_pairs, crate::proofs::Pairs::range_none))]
fn all_across(
    alloc: Global,
    paths: &Paths,
    zones: &[FiledZone],
) -> Result<Option<(usize, usize)>, NoMemory>
    ensures { IfOk result (λ o. o ≡ fold (across (meet_at paths.now zones.now) zones.now) None
        (place_pairs (length zones.now))) }
{
    let mut best = None;
    for first in 0..zones.len() {
        best = across_from(alloc, paths, zones, best, first)?;
    }
    Ok(best)
}

fn ordered(one: usize, other: usize) -> (usize, usize)
    ensures { result ≡ ordered one other }
{
    if one < other {
        (one, other)
    } else {
        (other, one)
    }
}

fn beside(
    alloc: Global,
    paths: &Paths,
    zones: &[FiledZone],
    best: Option<(usize, usize)>,
    place: usize,
    found: Filed,
) -> Result<Option<(usize, usize)>, NoMemory>
    ensures { IfOk result (λ o. o ≡ beside (meet_at paths.now zones.now) place best found) }
{
    let other = found.place as usize;
    if place == other {
        return Ok(best);
    }
    better(alloc, paths, zones, best, ordered(place, other))
}

#[tactic(auto, using(rg_trie::proofs::Orders::folded_off))]
fn beside_found(
    alloc: Global,
    paths: &Paths,
    zones: &[FiledZone],
    trie: &Trie,
    mut best: Option<(usize, usize)>,
    place: usize,
    key: &Text,
) -> Result<Option<(usize, usize)>, NoMemory>
    ensures { IfOk result (λ o. o ≡ fold
        (beside (meet_at paths.now zones.now) place) best (entries_under key.now trie.now)) }
{
    let mut walk = trie.walk(key.as_str(), false);
    while let Some(found) = walk.next() {
        best = beside(alloc, paths, zones, best, place, found)?;
    }
    Ok(best)
}

fn beside_keys(
    alloc: Global,
    paths: &Paths,
    zones: &[FiledZone],
    trie: &Trie,
    mut best: Option<(usize, usize)>,
    place: usize,
    keys: &[Text],
) -> Result<Option<(usize, usize)>, NoMemory>
    ensures { IfOk result (λ o. o ≡ fold
        (beside (meet_at paths.now zones.now) place) best (found_under trie.now keys.now)) }
{
    for key in keys {
        best = beside_found(alloc, paths, zones, trie, best, place, key)?;
    }
    Ok(best)
}

/// The zone at the place, compared with those that are filed under what its keys begin with.
fn beside_all(
    alloc: Global,
    paths: &Paths,
    zones: &[FiledZone],
    trie: &Trie,
    best: Option<(usize, usize)>,
    place: usize,
) -> Result<Option<(usize, usize)>, NoMemory>
    ensures { IfOk result
        (λ o. o ≡ beside_all (meet_at paths.now zones.now) trie.now zones.now best place) }
{
    match zones.get(place) {
        Some(zone) => beside_keys(alloc, paths, zones, trie, best, place, &zone.keys),
        None => Ok(best),
    }
}

#[tactic(auto, using(crate::proofs::Pairs::range_first, crate::proofs::Pairs::range_none))]
fn all_beside(
    alloc: Global,
    paths: &Paths,
    zones: &[FiledZone],
    trie: &Trie,
    mut best: Option<(usize, usize)>,
) -> Result<Option<(usize, usize)>, NoMemory>
    ensures { IfOk result (λ o. o ≡ fold (beside_all (meet_at paths.now zones.now)
        trie.now zones.now) best (range_with_len 0 (length zones.now))) }
{
    for place in 0..zones.len() {
        best = beside_all(alloc, paths, zones, trie, best, place)?;
    }
    Ok(best)
}

/// The trie with the zone at the place under each of the keys.
fn with_keys(alloc: Global, mut trie: Trie, keys: &[Text], place: u32) -> Result<Trie, NoMemory>
    ensures kept { IfOk result (λ t. (p : Pair) → Contains trie p → Contains t p) }
    ensures filed { IfOk result (λ t. (key : List ℕ)
        → Contains keys.now key → Contains t (filed_as key place)) }
{
    let mut steps = Steps::silent();
    for key in keys {
        trie = trie.insert(alloc, key.as_str(), Filed { id: 0, place }, &mut steps)?;
    }
    Ok(trie)
}

/// The zones under their keys.
fn trie_of(alloc: Global, zones: &[FiledZone]) -> Result<Trie, NoMemory>
    ensures { IfOk result (λ t. HoldsFirst t zones.now (length zones.now)) }
{
    let mut trie = Trie::empty(alloc);
    for (place, zone) in zones.iter().enumerate() {
        let Ok(place) = u32::try_from(place) else {
            return Err(NoMemory);
        };
        trie = with_keys(alloc, trie, &zone.keys, place)?;
    }
    Ok(trie)
}

/// The zones, in order.
fn file_zones(
    alloc: Global,
    service: &str,
    def: &ServiceDef,
    paths: &Paths,
    zones: &[ZoneRow],
) -> Result<Vec<FiledZone>, NoMemory>
    requires { all_maps_fit (chars service.now) def.now zones.now ≡ true }
    ensures exact { IfOk result
        (λ v. maps_of v.items ≡ map (zone_patterns (chars service.now) def.now) zones.now) }
    ensures scalars { IfOk result (λ v. list_all zone_scalars (maps_of v.items) ≡ true) }
    ensures filed { IfOk result (λ v. AreFiled paths.now v.items) }
{
    let mut filed = Vec::new(alloc);
    for zone in zones {
        let compiled = CompiledZone::compile(alloc, service, def, zone)?;
        let zone = FiledZone::of(alloc, paths.levels(), compiled)?;
        filed.push(zone)?;
    }
    Ok(filed)
}

/// The places in 32 bits. More zones than these can count count as too many for memory.
fn in_words(pair: Option<(usize, usize)>) -> Result<Option<(u32, u32)>, NoMemory>
    ensures { IfOk result (λ o. o ≡ pair) }
{
    let Some((first, second)) = pair else {
        return Ok(None);
    };
    match (u32::try_from(first), u32::try_from(second)) {
        (Ok(first), Ok(second)) => Ok(Some((first, second))),
        _ => Err(NoMemory),
    }
}

/// As `overlapping`, over the computed test alone.
fn first_overlap(
    alloc: Global,
    zones: &[ZoneRow],
    service: &str,
    def: &ServiceDef,
) -> Result<Option<(u32, u32)>, NoMemory>
    requires fit { all_maps_fit (chars service.now) def.now zones.now ≡ true }
    ensures test { IfOk result (λ o. o ≡ first_overlap (chars service.now) def.now zones.now) }
    ensures scalars { IfOk result (λ o. list_all zone_scalars
        (map (zone_patterns (chars service.now) def.now) zones.now) ≡ true) }
{
    let paths = Paths::of(alloc, def)?;
    let filed = file_zones(alloc, service, def, &paths, zones)?;
    let trie = trie_of(alloc, &filed)?;
    let across = all_across(alloc, &paths, &filed)?;
    let pair = all_beside(alloc, &paths, &filed, &trie, across)?;
    let words = in_words(pair)?;
    Ok(words)
}

/// The least pair of places, the first smaller, of zones such that some resource of the service lies in both; None
/// where no two zones overlap. The pairs are ordered by the first place and then by the second. Each value is read
/// once. Zones that are filed at one level are compared only where a literal prefix of the one begins one of the
/// other.
pub fn overlapping(
    alloc: Global,
    zones: &[ZoneRow],
    service: &str,
    def: &ServiceDef,
) -> Result<Option<(u32, u32)>, NoMemory>
    requires fit { all_maps_fit (chars service.now) def.now zones.now ≡ true }
    ensures exact { IfOk result (λ o. IsLeastOverlap (chars service.now) def.now zones.now o) }
    ensures test { IfOk result (λ o. o ≡ first_overlap (chars service.now) def.now zones.now) }
{
    compiled_overlap_is_decided();
    let pair = first_overlap(alloc, zones, service, def)?;
    Ok(pair)
}

/// Whether the zone overlaps the other, over what it is compiled to.
fn meets(
    alloc: Global,
    paths: &Paths,
    zone: &CompiledZone,
    other: &ZoneRow,
    service: &str,
    def: &ServiceDef,
) -> Result<bool, NoMemory>
    requires { maps_fit (chars service.now) def.now other.now ≡ true }
    ensures { IfOk result (λ b. b
        ≡ some_meet paths.now zone.now (zone_patterns (chars service.now) def.now other.now)) }
{
    let other = CompiledZone::compile(alloc, service, def, other)?;
    some_meet(alloc, paths, &zone.maps, &other.maps)
}

/// Whether the zone overlaps one of the others, over what it is compiled to.
fn meets_any(
    alloc: Global,
    paths: &Paths,
    zone: &CompiledZone,
    others: &[ZoneRow],
    service: &str,
    def: &ServiceDef,
) -> Result<bool, NoMemory>
    requires { all_maps_fit (chars service.now) def.now others.now ≡ true }
    ensures { IfOk result (λ b. b ≡ list_any (λ (other : ZoneRow). some_meet paths.now zone.now
        (zone_patterns (chars service.now) def.now other)) others.now) }
{
    for other in others {
        if meets(alloc, paths, zone, other, service, def)? {
            return Ok(true);
        }
    }
    Ok(false)
}

/// Whether some resource of the service lies in the zone and in one of the others (rule Z6 for one zone). It takes
/// memory for two zones at a time.
pub fn overlaps_any(
    alloc: Global,
    zone: &ZoneRow,
    others: &[ZoneRow],
    service: &str,
    def: &ServiceDef,
) -> Result<bool, NoMemory>
    requires fit { maps_fit (chars service.now) def.now zone.now ≡ true }
    requires all_fit { all_maps_fit (chars service.now) def.now others.now ≡ true }
    ensures { IfOk result
        (λ b. b ≡ list_any (zones_overlap (chars service.now) def.now zone.now) others.now) }
{
    let paths = Paths::of(alloc, def)?;
    let zone = CompiledZone::compile(alloc, service, def, zone)?;
    let any = meets_any(alloc, &paths, &zone, others, service, def)?;
    Ok(any)
}

/// Whether some resource of a service lies in what two zones list for it, each in an entry (rule Z6 for two entries).
pub fn entries_overlap(
    alloc: Global,
    entry: &ZoneService,
    other: &ZoneService,
    def: &ServiceDef,
) -> Result<bool, NoMemory>
    requires values { entry_values_fit entry.now ≡ true }
    requires other_values { entry_values_fit other.now ≡ true }
    ensures { IfOk result (λ b. b ≡ entries_overlap def.now entry.now other.now) }
{
    let paths = Paths::of(alloc, def)?;
    let maps = compile_entry(alloc, def, entry)?;
    let others = compile_entry(alloc, def, other)?;
    let any = some_meet(alloc, &paths, &maps, &others)?;
    Ok(any)
}
