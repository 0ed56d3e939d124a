// Whether the resource maps of a policy lie on what is asked about, and what keeps them out.
ghost use Rattle.std.specs.Prelude.{◌≡◌, ◌++◌, ◌&&◌, IfOk, List, ℕ, map, not, option_map};
ghost use Rattle.std.specs.List.{find, list_all, list_any};
ghost use Rattle.std.specs.Str.{chars};
ghost use Rattle.rg_base.specs.Listed.{listed};
ghost use Rattle.rg_policy.specs.declared.policy.PolicyResource.{PolicyResource as Named};
ghost use Rattle.rg_policy.specs.declared.request.Element.{Element};
ghost use Rattle.rg_resmatch.specs.Tests.{is_some_element, lies, may_name, meets, names_level, some_lies, value_at};
ghost use Rattle.rg_resmatch.specs.declared.reach.Reach.TheVariants.{Exact};
ghost use Rattle.rg_standing.specs.Hits.{first_beyond, first_unmatched, is_near, map_near, miss_by, miss_of};

use crate::hits::{level_hit, meets};
use crate::reason::Miss;
use rg_base::{NoMemory, Seq, TryCopy, is_named};
use rg_defs::{PathedDef, ServiceDef};
use rg_policy::{Element, PolicyResource, ResourceMap};
use rg_resmatch::Reach;
use std::alloc::Global;

/// Whether some level of the map is named by what is asked about, and hit.
fn map_near(
    alloc: Global,
    def: &ServiceDef,
    user: &str,
    elements: &[Element],
    map: &ResourceMap,
) -> Result<bool, NoMemory>
    ensures { IfOk result (λ b. b ≡ map_near def.now (chars user.now) elements.now map.now) }
{
    for resource in map.levels.as_slice() {
        if level_hit(alloc, def, user, elements, resource)? {
            return Ok(true);
        }
    }
    Ok(false)
}

/// Whether some level of some map is.
pub(crate) fn is_near(
    alloc: Global,
    def: &ServiceDef,
    user: &str,
    elements: &[Element],
    maps: &[ResourceMap],
) -> Result<bool, NoMemory>
    ensures { IfOk result (λ b. b ≡ is_near def.now (chars user.now) elements.now maps.now) }
{
    for map in maps {
        if map_near(alloc, def, user, elements, map)? {
            return Ok(true);
        }
    }
    Ok(false)
}

/// The first level that doesn't match.
fn first_unmatched<'a>(
    alloc: Global,
    def: &ServiceDef,
    user: &str,
    elements: &[Element],
    resources: &'a [PolicyResource],
) -> Result<Option<&'a PolicyResource>, NoMemory>
    ensures { IfOk result (λ o. option_map (λ r. r.now) o
        ≡ first_unmatched def.now (chars user.now) elements.now resources.now) }
{
    for resource in resources {
        if !meets(alloc, def, user, elements, resource)? {
            return Ok(Some(resource));
        }
    }
    Ok(None)
}

/// The first element on a level that the map lacks.
fn first_beyond<'a>(resources: &[PolicyResource], elements: &'a [Element]) -> Option<&'a Element>
    ensures { option_map (λ e. e.now) result ≡ first_beyond resources.now elements.now }
{
    elements
        .iter()
        .find(|element| !is_named(resources, element.level.as_str()))
}

fn is_some_element(elements: &[Element]) -> bool
    ensures { result ≡ is_some_element elements.now }
{
    match elements {
        [] => false,
        _ => true,
    }
}

/// Whether the element is on a level of the resources, or what lies below is reached too.
fn may_name(reach: Reach, resources: &[PolicyResource], element: &Element) -> bool
    ensures { result ≡ may_name reach resources.now element.now }
{
    match reach {
        Reach::Exact => is_named(resources, element.level.as_str()),
        Reach::Down => true,
    }
}

fn all_may_name(reach: Reach, resources: &[PolicyResource], elements: &[Element]) -> bool
    ensures { result ≡ list_all (may_name reach resources.now) elements.now }
{
    elements
        .iter()
        .all(|element| may_name(reach, resources, element))
}

/// Whether each resource is met by the element of its level, and each element may be named.
#[tactic(auto, using(crate::proofs::Tests::all_by_first))]
fn all_met(
    alloc: Global,
    def: &ServiceDef,
    resources: &[PolicyResource],
    reach: Reach,
    elements: &[Element],
    user: &str,
) -> Result<bool, NoMemory>
    ensures { IfOk result (λ b. b
        ≡ (list_all (λ (r : Named). meets def.now (chars user.now) r (value_at elements.now r.level)) resources.now
        && list_all (may_name reach resources.now) elements.now)) }
{
    match first_unmatched(alloc, def, user, elements, resources)? {
        Some(_) => Ok(false),
        None => Ok(all_may_name(reach, resources, elements)),
    }
}

/// Whether the resources lie on these elements, asked by the user.
pub fn resources_lie(
    alloc: Global,
    def: &PathedDef,
    resources: &[PolicyResource],
    reach: Reach,
    elements: &[Element],
    user: &str,
) -> Result<bool, NoMemory>
    ensures { IfOk result
        (λ b. b ≡ lies def.now resources.now reach elements.now (chars user.now)) }
{
    if !(is_some_element(elements) && def.paths.both_on_one_path(resources, elements)) {
        return Ok(false);
    }
    all_met(alloc, def.def, resources, reach, elements, user)
}

/// Whether some map lies on what is asked about.
pub(crate) fn some_lies(
    alloc: Global,
    def: &PathedDef,
    maps: &[ResourceMap],
    elements: &[Element],
    user: &str,
) -> Result<bool, NoMemory>
    ensures { IfOk result
        (λ b. b ≡ some_lies def.now maps.now Exact elements.now (chars user.now)) }
{
    for map in maps {
        let levels = map.levels.as_slice();
        if resources_lie(alloc, def, levels, Reach::Exact, elements, user)? {
            return Ok(true);
        }
    }
    Ok(false)
}

fn miss_by(
    alloc: Global,
    unmatched: Option<&PolicyResource>,
    beyond: Option<&Element>,
) -> Result<Miss, NoMemory>
    ensures { IfOk result (λ m. m ≡ miss_by
        (option_map (λ r. r.now) unmatched.entry) (option_map (λ e. e.now) beyond.entry)) }
{
    match (unmatched, beyond) {
        (Some(resource), _) => Ok(Miss::Level(resource.level.try_copy(alloc)?)),
        (None, Some(element)) => Ok(Miss::Beyond(element.level.try_copy(alloc)?)),
        (None, None) => Ok(Miss::Apart),
    }
}

/// What keeps out a map.
fn miss_of(
    alloc: Global,
    def: &ServiceDef,
    user: &str,
    elements: &[Element],
    map: &ResourceMap,
) -> Result<Miss, NoMemory>
    ensures { IfOk result (λ m. m ≡ miss_of def.now (chars user.now) elements.now map.now) }
{
    let levels = map.levels.as_slice();
    let unmatched = first_unmatched(alloc, def, user, elements, levels)?;
    miss_by(alloc, unmatched, first_beyond(levels, elements))
}

/// What keeps out each map.
pub(crate) fn misses(
    alloc: Global,
    def: &ServiceDef,
    user: &str,
    elements: &[Element],
    maps: &[ResourceMap],
) -> Result<Seq<Miss>, NoMemory>
    ensures { IfOk result
        (λ list. list ≡ listed (map (miss_of def.now (chars user.now) elements.now) maps.now)) }
{
    let mut list = Seq::new(alloc);
    for map in maps {
        list.add(miss_of(alloc, def, user, elements, map)?)?;
    }
    Ok(list)
}
