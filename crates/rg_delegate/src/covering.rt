// Whether the maps of one policy cover those of another.
ghost use Rattle.std.specs.Prelude.{◌≡◌, IfOk, List};
ghost use Rattle.std.specs.List.{list_all, list_any};
ghost use Rattle.rg_resmatch.specs.Tests.{is_open};
ghost use Rattle.rg_delegate.specs.Compiled.{LevelForm, form_covered, form_covers, form_map_covered, form_map_covers, form_maps_cover, form_values_cover, is_form_shared_or_open};
ghost use Rattle.rg_delegate.specs.Covering.{equals, some_covers};

use crate::filing::filed_cover;
use crate::reading::{ReadLevel, ReadMap};
use rg_base::{Named, NoMemory, find_named, is_among, is_named};
use rg_pattern::Pattern;
use rg_policy::PolicyResource;
use rg_same_resources::{same_flag, same_texts};
use std::alloc::Global;

/// Where one of two lists has at most so many values, each of them is looked at for each of the other's.
const FEW: usize = 64;

fn some_covers(patterns: &[Pattern], other: &Pattern, fold: bool) -> bool
    ensures { result ≡ some_covers fold patterns.now other.now }
{
    patterns.iter().any(|pattern| pattern.covers(other, fold))
}

fn all_by_scan(m: &ReadLevel, n: &ReadLevel) -> bool
    ensures { result ≡ form_values_cover m.now n.now }
{
    n.patterns
        .iter()
        .all(|pattern| some_covers(&m.patterns, pattern, m.fold))
}

/// Where both have many values, by those of the first that begin as one of the second does.
fn values_cover(alloc: Global, m: &ReadLevel, n: &ReadLevel) -> Result<bool, NoMemory>
    ensures { IfOk result (λ b. b ≡ form_values_cover m.now n.now) }
{
    if m.patterns.len() <= FEW || n.patterns.len() <= FEW {
        return Ok(all_by_scan(m, n));
    }
    filed_cover(alloc, &m.patterns, &n.patterns, m.fold)
}

/// Whether the two are equal up to the order and repeats of values.
fn equals(alloc: Global, m: &PolicyResource, n: &PolicyResource) -> Result<bool, NoMemory>
    ensures { IfOk result (λ b. b ≡ equals m.now n.now) }
{
    if !same_flag(m.excludes, n.excludes) {
        return Ok(false);
    }
    if !same_flag(m.recursive, n.recursive) {
        return Ok(false);
    }
    same_texts(alloc, m.values.as_slice(), n.values.as_slice())
}

/// Whether the resource isn't excluding and has the written value `*`.
#[tactic(auto, using(crate::proofs::Words::words))]
fn is_open(resource: &PolicyResource) -> bool
    ensures { result ≡ is_open resource.now }
{
    !resource.excludes && is_among("*", resource.values.as_slice())
}

/// Whether of two resources of one level the first covers the second.
fn level_covers(alloc: Global, m: &ReadLevel, n: &ReadLevel) -> Result<bool, NoMemory>
    ensures { IfOk result (λ b. b ≡ form_covers m.now n.now) }
{
    if !m.written.excludes && !n.written.excludes {
        return values_cover(alloc, m, n);
    }
    if equals(alloc, m.written, n.written)? {
        return Ok(true);
    }
    Ok(is_open(m.written))
}

fn level_covered(alloc: Global, m: &[ReadLevel], n: &ReadLevel) -> Result<bool, NoMemory>
    ensures { IfOk result (λ b. b ≡ form_covered m.now n.now) }
{
    let Some(level) = find_named(m, n.name()) else {
        return Ok(false);
    };
    let covered = level_covers(alloc, level, n)?;
    Ok(covered)
}

fn all_covered(alloc: Global, m: &[ReadLevel], n: &[ReadLevel]) -> Result<bool, NoMemory>
    ensures { IfOk result (λ b. b ≡ list_all (form_covered m.now) n.now) }
{
    for level in n {
        if !level_covered(alloc, m, level)? {
            return Ok(false);
        }
    }
    Ok(true)
}

fn is_shared_or_open(n: &[ReadLevel], level: &ReadLevel) -> bool
    ensures { result ≡ is_form_shared_or_open n.now level.now }
{
    is_named(n, level.name()) || is_open(level.written)
}

fn all_shared_or_open(n: &[ReadLevel], m: &[ReadLevel]) -> bool
    ensures { result ≡ list_all (is_form_shared_or_open n.now) m.now }
{
    m.iter().all(|level| is_shared_or_open(n, level))
}

/// Whether the levels of the first map cover those of the second.
fn map_covers(alloc: Global, m: &[ReadLevel], n: &[ReadLevel]) -> Result<bool, NoMemory>
    ensures { IfOk result (λ b. b ≡ form_map_covers m.now n.now) }
{
    if !all_covered(alloc, m, n)? {
        return Ok(false);
    }
    Ok(all_shared_or_open(n, m))
}

fn map_covered(alloc: Global, maps: &[ReadMap], n: &[ReadLevel]) -> Result<bool, NoMemory>
    ensures { IfOk result (λ b. b ≡ form_map_covered maps.now n.now) }
{
    for map in maps {
        if map_covers(alloc, &map.levels, n)? {
            return Ok(true);
        }
    }
    Ok(false)
}

/// Whether each of the other maps is covered by one of these.
pub(crate) fn maps_cover(
    alloc: Global,
    maps: &[ReadMap],
    others: &[ReadMap],
) -> Result<bool, NoMemory>
    ensures { IfOk result (λ b. b ≡ form_maps_cover maps.now others.now) }
{
    for other in others {
        if !map_covered(alloc, maps, &other.levels)? {
            return Ok(false);
        }
    }
    Ok(true)
}
