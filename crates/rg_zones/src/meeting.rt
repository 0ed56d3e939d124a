// Whether some resource lies on a map of each of two zones.
ghost use Rattle.std.specs.Prelude.{◌≡◌, ◌&&◌, ◌∷◌, [], IfOk};
ghost use Rattle.std.specs.List.{list_all, list_any};
ghost use Rattle.rg_defs.specs.declared.service_def.Level.{Level};
ghost use Rattle.rg_pattern.specs.Tests.{overlaps};
ghost use Rattle.rg_zone_rules.specs.Overlap.{all_meet, levels_meet, needed_names, needs_none, patterns_meet, patterns_overlap, reaches, share_levels, some_meet};

use crate::zone_patterns::{CompiledLevel, CompiledMap, PlainPattern};
use rg_base::{NoMemory, same_text};
use rg_defs::{Level, Paths};
use std::alloc::Global;
use std::slice;

fn overlaps_some(
    alloc: Global,
    pattern: &PlainPattern,
    others: &[PlainPattern],
    fold: bool,
) -> Result<bool, NoMemory>
    ensures { IfOk result (λ b. b ≡ list_any (overlaps fold pattern.now) others.now) }
{
    for other in others {
        if pattern.overlap(alloc, other, fold)? {
            return Ok(true);
        }
    }
    Ok(false)
}

fn patterns_overlap(
    alloc: Global,
    patterns: &[PlainPattern],
    others: &[PlainPattern],
    fold: bool,
) -> Result<bool, NoMemory>
    ensures { IfOk result (λ b. b ≡ patterns_overlap fold patterns.now others.now) }
{
    for pattern in patterns {
        if overlaps_some(alloc, pattern, others, fold)? {
            return Ok(true);
        }
    }
    Ok(false)
}

/// Whether the two are no one level, or one that a resource in both maps can leave out or have a value for.
fn levels_meet(
    alloc: Global,
    level: &CompiledLevel,
    other: &CompiledLevel,
) -> Result<bool, NoMemory>
    ensures { IfOk result (λ b. b ≡ levels_meet level.now other.now) }
{
    if !same_text(level.name.as_str(), other.name.as_str())
        || (level.lists_star && other.lists_star)
    {
        return Ok(true);
    }
    patterns_overlap(alloc, &level.patterns, &other.patterns, level.fold)
}

fn meets_each(
    alloc: Global,
    level: &CompiledLevel,
    others: &[CompiledLevel],
) -> Result<bool, NoMemory>
    ensures { IfOk result (λ b. b ≡ list_all (levels_meet level.now) others.now) }
{
    for other in others {
        if !levels_meet(alloc, level, other)? {
            return Ok(false);
        }
    }
    Ok(true)
}

fn all_meet(
    alloc: Global,
    ones: &[CompiledLevel],
    others: &[CompiledLevel],
) -> Result<bool, NoMemory>
    ensures { IfOk result (λ b. b ≡ all_meet ones.now others.now) }
{
    for level in ones {
        if !meets_each(alloc, level, others)? {
            return Ok(false);
        }
    }
    Ok(true)
}

fn needs_none(map: &CompiledMap) -> bool
    ensures { result ≡ needs_none map.now }
{
    map.levels.iter().all(|level| level.lists_star)
}

/// Whether the map's levels and those that the other needs lie on one path.
#[tactic(auto, using(crate::proofs::Joining::each_itself))]
fn reaches_needed(paths: &Paths, map: &CompiledMap, other: &CompiledMap) -> bool
    ensures { result ≡ reaches paths.now map.now (needed_names other.now) }
{
    paths.both_on_one_path(map.levels.as_slice(), other.needed.as_slice())
}

/// Whether the map's levels and this one lie on one path.
fn reaches(paths: &Paths, map: &CompiledMap, level: &Level) -> bool
    ensures { result ≡ reaches paths.now map.now (level.now.name ∷ []) }
{
    paths.both_on_one_path(map.levels.as_slice(), slice::from_ref(level))
}

fn both_reach(paths: &Paths, map: &CompiledMap, other: &CompiledMap, level: &Level) -> bool
    ensures { result ≡ (reaches paths.now map.now (level.now.name ∷ [])
        && reaches paths.now other.now (level.now.name ∷ [])) }
{
    reaches(paths, map, level) && reaches(paths, other, level)
}

fn share_one(levels: &[Level], paths: &Paths, map: &CompiledMap, other: &CompiledMap) -> bool
    ensures { result ≡ list_any (λ (l : Level). reaches paths.now map.now (l.name ∷ [])
        && reaches paths.now other.now (l.name ∷ [])) levels.now }
{
    levels
        .iter()
        .any(|level| both_reach(paths, map, other, level))
}

/// Whether a resource that names what both maps need, or any one level where they need none, can lie on a path
/// with the levels of each.
fn share_levels(paths: &Paths, map: &CompiledMap, other: &CompiledMap) -> bool
    ensures { result ≡ share_levels paths.now map.now other.now }
{
    if needs_none(map) && needs_none(other) {
        share_one(paths.levels(), paths, map, other)
    } else {
        reaches_needed(paths, map, other) && reaches_needed(paths, other, map)
    }
}

fn maps_meet(
    alloc: Global,
    paths: &Paths,
    map: &CompiledMap,
    other: &CompiledMap,
) -> Result<bool, NoMemory>
    ensures { IfOk result (λ b. b ≡ patterns_meet paths.now map.now other.now) }
{
    if !share_levels(paths, map, other) {
        return Ok(false);
    }
    all_meet(alloc, &map.levels, &other.levels)
}

fn meets_some(
    alloc: Global,
    paths: &Paths,
    map: &CompiledMap,
    others: &[CompiledMap],
) -> Result<bool, NoMemory>
    ensures { IfOk result (λ b. b ≡ list_any (patterns_meet paths.now map.now) others.now) }
{
    for other in others {
        if maps_meet(alloc, paths, map, other)? {
            return Ok(true);
        }
    }
    Ok(false)
}

pub(crate) fn some_meet(
    alloc: Global,
    paths: &Paths,
    maps: &[CompiledMap],
    others: &[CompiledMap],
) -> Result<bool, NoMemory>
    ensures { IfOk result (λ b. b ≡ some_meet paths.now maps.now others.now) }
{
    for map in maps {
        if meets_some(alloc, paths, map, others)? {
            return Ok(true);
        }
    }
    Ok(false)
}
