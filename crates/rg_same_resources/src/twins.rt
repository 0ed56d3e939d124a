// Policies that are for the same resources at the same time.
ghost use Rattle.std.specs.Prelude.{◌≡◌, ◌&&◌, IfOk, take};
ghost use Rattle.std.specs.List.{list_any};
ghost use Rattle.std.specs.Str.{bytes_eq};
ghost use Rattle.rg_policy.specs.Maps.{maps_of};
ghost use Rattle.rg_same_resources.specs.Twins.{each_among, each_map_in, each_resource_in, has_map, is_twin, same_flag, same_kind, same_levels, same_maps, same_place, same_resource, same_schedule, same_schedules, same_texts};

use rg_base::{NameIndex, NoMemory, Text, is_among, same_text};
use rg_items::all_among;
use rg_policy::{Policy, PolicyResource, ResourceMap, ScheduleText};
use std::alloc::Global;

/// Lists of more texts than these are compared by an index of their texts.
const FEW: usize = 16;

/// Whether the policies are of one service and one zone, or of none.
pub fn same_place(policy: &Policy, other: &Policy) -> bool
    ensures { result ≡ same_place policy.now other.now }
{
    same_text(other.service.as_str(), policy.service.as_str())
        && same_text(other.zone.as_str(), policy.zone.as_str())
}

/// Whether both are set, or neither.
pub fn same_flag(one: bool, other: bool) -> bool
    ensures { result ≡ same_flag one other }
{
    if one { other } else { !other }
}

fn each_among(texts: &[Text], others: &[Text]) -> bool
    ensures { result ≡ each_among texts.now others.now }
{
    texts.iter().all(|text| is_among(text.as_str(), others))
}

/// Whether the first text, where there is one, is among the others.
fn first_among(texts: &[Text], others: &[Text]) -> bool
    ensures { result ≡ each_among (take 1 texts.now) others.now }
{
    match texts.first() {
        Some(text) => is_among(text.as_str(), others),
        None => true,
    }
}

fn same_many_texts(alloc: Global, texts: &[Text], others: &[Text]) -> Result<bool, NoMemory>
    ensures { IfOk result (λ same. same ≡ same_texts texts.now others.now) }
{
    let other_names = NameIndex::build(alloc, others)?;
    if !all_among(&other_names, texts) {
        return Ok(false);
    }
    let names = NameIndex::build(alloc, texts)?;
    Ok(all_among(&names, others))
}

/// Whether the lists have the same texts, whatever their order and repeats. What differs in its first text takes no memory.
pub fn same_texts(alloc: Global, texts: &[Text], others: &[Text]) -> Result<bool, NoMemory>
    ensures { IfOk result (λ same. same ≡ same_texts texts.now others.now) }
{
    if !first_among(texts, others) || !first_among(others, texts) {
        return Ok(false);
    }
    if texts.len() <= FEW && others.len() <= FEW {
        return Ok(each_among(texts, others) && each_among(others, texts));
    }
    same_many_texts(alloc, texts, others)
}

/// Whether the resources are of one level, with the same flags.
fn same_flags(resource: &PolicyResource, other: &PolicyResource) -> bool
    ensures { result ≡ (bytes_eq other.now.level resource.now.level
        && (same_flag resource.now.excludes other.now.excludes
        && same_flag resource.now.recursive other.now.recursive)) }
{
    same_text(other.level.as_str(), resource.level.as_str())
        && (same_flag(resource.excludes, other.excludes)
            && same_flag(resource.recursive, other.recursive))
}

fn same_resource(
    alloc: Global,
    resource: &PolicyResource,
    other: &PolicyResource,
) -> Result<bool, NoMemory>
    ensures { IfOk result (λ same. same ≡ same_resource resource.now other.now) }
{
    if !same_flags(resource, other) {
        return Ok(false);
    }
    same_texts(alloc, resource.values.as_slice(), other.values.as_slice())
}

fn some_same_resource(
    alloc: Global,
    resource: &PolicyResource,
    others: &[PolicyResource],
) -> Result<bool, NoMemory>
    ensures { IfOk result (λ same. same ≡ list_any (same_resource resource.now) others.now) }
{
    for other in others {
        if same_resource(alloc, resource, other)? {
            return Ok(true);
        }
    }
    Ok(false)
}

/// Whether each of the resources is among the others. They stand in byte order of their levels, in which `column` and `catalog` come
/// before what tells policies apart, so the last ones are compared first.
#[tactic(auto, using(crate::proofs::Ends::ends))]
fn each_resource_in(
    alloc: Global,
    resources: &[PolicyResource],
    others: &[PolicyResource],
) -> Result<bool, NoMemory>
    ensures { IfOk result (λ all. all ≡ each_resource_in resources.now others.now) }
{
    let mut rest = resources;
    'resources: while let Some((resource, earlier)) = rest.split_last() {
        if !some_same_resource(alloc, resource, others)? {
            return Ok(false);
        }
        rest = earlier;
    }
    Ok(true)
}

/// Whether each resource of either list is in the other, with the same flags and the same values.
pub fn same_levels(
    alloc: Global,
    resources: &[PolicyResource],
    others: &[PolicyResource],
) -> Result<bool, NoMemory>
    ensures { IfOk result (λ same. same ≡ same_levels resources.now others.now) }
{
    if !each_resource_in(alloc, resources, others)? {
        return Ok(false);
    }
    each_resource_in(alloc, others, resources)
}

fn among_maps(
    alloc: Global,
    maps: &[ResourceMap],
    resources: &[PolicyResource],
) -> Result<bool, NoMemory>
    ensures { IfOk result (λ has. has ≡ has_map maps.now resources.now) }
{
    for map in maps {
        if same_levels(alloc, resources, map.levels.as_slice())? {
            return Ok(true);
        }
    }
    Ok(false)
}

/// Whether one of the policy's maps has the same levels, flags and values.
fn has_map(alloc: Global, policy: &Policy, resources: &[PolicyResource]) -> Result<bool, NoMemory>
    ensures { IfOk result (λ has. has ≡ has_map (maps_of policy.now) resources.now) }
{
    if same_levels(alloc, resources, policy.resources.as_slice())? {
        return Ok(true);
    }
    among_maps(alloc, policy.additional.as_slice(), resources)
}

fn all_in(alloc: Global, maps: &[ResourceMap], policy: &Policy) -> Result<bool, NoMemory>
    ensures { IfOk result (λ all. all ≡ each_map_in maps.now (maps_of policy.now)) }
{
    for map in maps {
        if !has_map(alloc, policy, map.levels.as_slice())? {
            return Ok(false);
        }
    }
    Ok(true)
}

/// Whether each map of the policy is the same as some map of the other.
fn each_map_in(alloc: Global, policy: &Policy, other: &Policy) -> Result<bool, NoMemory>
    ensures { IfOk result (λ all. all ≡ each_map_in (maps_of policy.now) (maps_of other.now)) }
{
    if !has_map(alloc, other, policy.resources.as_slice())? {
        return Ok(false);
    }
    all_in(alloc, policy.additional.as_slice(), other)
}

fn same_maps(alloc: Global, policy: &Policy, other: &Policy) -> Result<bool, NoMemory>
    ensures { IfOk result (λ same. same ≡ same_maps (maps_of policy.now) (maps_of other.now)) }
{
    if !each_map_in(alloc, policy, other)? {
        return Ok(false);
    }
    each_map_in(alloc, other, policy)
}

fn same_schedule(one: &ScheduleText, other: &ScheduleText) -> bool
    ensures { result ≡ same_schedule one.now other.now }
{
    same_text(one.start_time.as_str(), other.start_time.as_str())
        && (same_text(one.end_time.as_str(), other.end_time.as_str())
            && (same_text(one.time_zone.as_str(), other.time_zone.as_str())
                && same_flag(one.recurring, other.recurring)))
}

/// Whether the schedules are written alike, one by one.
fn same_schedules(schedules: &[ScheduleText], others: &[ScheduleText]) -> bool
    ensures { result ≡ same_schedules schedules.now others.now }
{
    let mut rest = others;
    for schedule in schedules {
        let Some((other, later)) = rest.split_first() else {
            return false;
        };
        if !same_schedule(schedule, other) {
            return false;
        }
        rest = later;
    }
    rest.is_empty()
}

fn same_kind(policy: &Policy, other: &Policy) -> bool
    ensures { result ≡ same_kind policy.now other.now }
{
    same_place(policy, other)
        && (other.policy_type == policy.policy_type
            && (other.priority == policy.priority
                && same_schedules(policy.schedules.as_slice(), other.schedules.as_slice())))
}

/// Whether the other policy is enabled, has the same service, zone, type, priority and schedules, and the same maps.
/// Maps that differ in a level, a flag or a first value take no memory.
pub fn is_twin(alloc: Global, policy: &Policy, other: &Policy) -> Result<bool, NoMemory>
    ensures { IfOk result (λ twin. twin ≡ is_twin policy.now other.now) }
{
    if !other.enabled || !same_kind(policy, other) {
        return Ok(false);
    }
    same_maps(alloc, policy, other)
}
