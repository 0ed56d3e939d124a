// The paths of a definition's levels.
ghost use Rattle.std.specs.Prelude.{◌≡◌, ◌+◌, IfOk, map, option_map, reverse};
ghost use Rattle.std.specs.List.{list_any};
ghost use Rattle.std.specs.Str.{chars};
ghost use Rattle.rg_base.specs.Listed.{listed};
ghost use Rattle.rg_defs.specs.Paths.{level_of, parent_of, place_of};
ghost use Rattle.rg_defs.specs.PathTests.{climb, first_paths, has_name, is_leaf, is_some_place, lies_on, path_to, paths_of};

use crate::service_def::{Level, ServiceDef};
use rg_base::{NoMemory, Seq, find_named, place_named, same_text};
use std::alloc::Global;

/// The definition's level of this name, None where it has none.
pub fn level_of<'a>(def: &'a ServiceDef, name: &str) -> Option<&'a Level>
    ensures { option_map (λ l. l.now) result ≡ level_of def.now (chars name.now) }
{
    find_named(def.levels.as_slice(), name)
}

/// The place of the parent of the level at this place, None for a root.
pub(crate) fn parent_of(levels: &[Level], place: usize) -> Option<usize>
    ensures { result ≡ parent_of levels.now place }
{
    match levels.get(place) {
        Some(level) => place_named(levels, level.parent.as_str()),
        None => None,
    }
}

/// From the root down, where these places lead from a level up.
fn turned(mut upwards: Vec<u32>) -> Seq<u32>
    ensures { result ≡ listed (reverse upwards.items) }
{
    upwards.reverse();
    Seq::from_vec(upwards)
}

/// The place as paths keep it. Memory for a list with more places than that is refused.
fn kept_place(place: usize) -> Result<u32, NoMemory>
    ensures { IfOk result (λ kept. kept ≡ place) }
{
    if place <= u32::MAX as usize {
        Ok(place as u32)
    } else {
        Err(NoMemory)
    }
}

/// From the root down to this place.
fn path_to(alloc: Global, levels: &[Level], place: usize) -> Result<Seq<u32>, NoMemory>
    ensures { IfOk result (λ path. path ≡ listed (path_to levels.now place)) }
{
    let mut upwards: Vec<u32> = Vec::new(alloc);
    let mut at = Some(place);
    'climb: for _ in (0..levels.len()).rev() {
        let Some(here) = at else {
            return Ok(turned(upwards));
        };
        upwards.push(kept_place(here)?)?;
        at = parent_of(levels, here);
    }
    Ok(turned(upwards))
}

fn is_place(place: usize, other: Option<usize>) -> bool
    ensures { result ≡ is_some_place place other }
{
    match other {
        Some(other) => other == place,
        None => false,
    }
}

/// Whether no level has the one at this place as its parent.
fn is_leaf(levels: &[Level], place: usize) -> bool
    ensures { result ≡ is_leaf levels.now place }
{
    !has_child(levels, place)
}

fn has_child(levels: &[Level], place: usize) -> bool
    ensures { result
        ≡ list_any (λ (l : Level). is_some_place place (place_of levels.now l.parent)) levels.now }
{
    levels.iter().any(|level| is_place(place, place_named(levels, level.parent.as_str())))
}

/// The paths so far, with that to this place where it is a leaf.
#[tactic(auto, using(crate::proofs::Climbs::first_paths_leaf, crate::proofs::Climbs::first_paths_other))]
fn with_path(
    alloc: Global,
    mut list: Seq<Seq<u32>>,
    levels: &[Level],
    place: usize,
) -> Result<Seq<Seq<u32>>, NoMemory>
    requires { list ≡ listed (first_paths levels.now place) }
    ensures { IfOk result (λ list. list ≡ listed (first_paths levels.now (place + 1))) }
{
    if !is_leaf(levels, place) {
        return Ok(list);
    }
    list.add(path_to(alloc, levels, place)?)?;
    Ok(list)
}

/// The paths from a root to a leaf, as places of levels, in the order of the places of their leaves.
#[tactic(auto, using(crate::proofs::Climbs::all_paths))]
pub(crate) fn paths(alloc: Global, levels: &[Level]) -> Result<Seq<Seq<u32>>, NoMemory>
    ensures { IfOk result (λ list. list ≡ listed (map listed (paths_of levels.now))) }
{
    let mut list = Seq::new(alloc);
    for place in 0..levels.len() {
        list = with_path(alloc, list, levels, place)?;
    }
    Ok(list)
}

pub(crate) fn has_name(levels: &[Level], name: &str, place: usize) -> bool
    ensures { result ≡ has_name levels.now (chars name.now) place }
{
    match levels.get(place) {
        Some(level) => same_text(level.name.as_str(), name),
        None => false,
    }
}

/// Whether a level of this name lies on the path.
pub fn lies_on(levels: &[Level], path: &[u32], name: &str) -> bool
    ensures { result ≡ lies_on levels.now path.now (chars name.now) }
{
    path.iter()
        .any(|place| has_name(levels, name, *place as usize))
}
