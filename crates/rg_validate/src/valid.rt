// Whether a state is valid, as the rules ask.
ghost use Rattle.std.specs.Prelude.{◌≡◌, ◌↔◌, IfOk, IsTrue, true};
ghost use Rattle.std.specs.List.{list_all, list_any};
ghost use Rattle.std.specs.Ordering.{int_eq};
ghost use Rattle.rg_base.specs.Texts.{all_distinct};
ghost use Rattle.rg_policy.specs.declared.policy.Policy.{Policy};
ghost use Rattle.rg_tags.specs.declared.row.TagRow.{TagRow};
ghost use Rattle.rg_cmd.specs.Lookups.{def_of};
ghost use Rattle.rg_validate.specs.Definitions.{policy_suits, under};
ghost use Rattle.rg_validate.specs.Users.{time_zones_read};
ghost use Rattle.rg_validate.specs.Valid.{IsValid, are_distinct, definition_valid, policy_valid, service_valid, tag_row_valid, zone_valid};
ghost use Rattle.rg_validate.specs.ValidTest.{state_valid};
ghost use Rattle.rg_validate.specs.Zones.{are_apart, are_apart_for};

use crate::definitions::policy_suits;
use crate::existence::definition_exists;
use crate::policies::{policy_schedules_read, policy_subjects_fit, zone_fits};
use crate::services::tag_service_fits;
use crate::tags::{tagged_resources_fit, tagged_service_fits};
use crate::users::time_zones_read;
use crate::zones::{zone_levels_suit, zone_services_fit, zone_subjects_exist, zone_values_suit};
use rg_base::{NoMemory, PolicyId, Text, all_names_distinct};
use rg_cmd::{ServiceRow, State, def_of};
use rg_defs::{DefFault, PathedDef, Paths, ServiceDef, check_def};
use rg_items::priority_fits;
use rg_policy::Policy;
use rg_roles::role_fault;
use rg_shared::Shared;
use rg_tags::{TagRow, tags_fit};
use rg_zone_rules::ZoneRow;
use rg_zones::overlapping;
use std::alloc::Global;

fn definition_valid(alloc: Global, def: &ServiceDef) -> Result<bool, NoMemory>
    ensures { IfOk result (λ valid. valid ≡ definition_valid def.now) }
{
    match check_def(alloc, def) {
        Ok(()) => Ok(true),
        Err(DefFault::Rule(_)) => Ok(false),
        Err(DefFault::NoMemory) => Err(NoMemory),
    }
}

fn definitions_valid(alloc: Global, defs: &[ServiceDef]) -> Result<bool, NoMemory>
    ensures { IfOk result (λ valid. valid ≡ list_all definition_valid defs.now) }
{
    for def in defs {
        if !definition_valid(alloc, def)? {
            return Ok(false);
        }
    }
    Ok(true)
}

fn service_valid(state: &State, row: &ServiceRow) -> bool
    ensures { result ≡ service_valid state.now row.now }
{
    definition_exists(state, &row.def) && tag_service_fits(state, row)
}

fn services_valid(state: &State) -> bool
    ensures { result ≡ list_all (service_valid state.now) state.now.services.items }
{
    let services = state.services.as_slice();
    services.iter().all(|row| service_valid(state, row))
}

/// Whether the policy passes V3, V5 to V9 and V11 under the definition of its service.
fn suits_service(alloc: Global, state: &State, policy: &Policy) -> Result<bool, NoMemory>
    ensures { IfOk result (λ suits. suits
        ≡ under (def_of state.now policy.now.service) (λ def. policy_suits def policy.now)) }
{
    let Some(def) = def_of(state, &policy.service) else {
        return Ok(false);
    };
    let paths = Paths::of(alloc, def)?;
    Ok(policy_suits(&PathedDef { def, paths: &paths }, policy))
}

fn policy_valid(alloc: Global, state: &State, policy: &Policy) -> Result<bool, NoMemory>
    requires zones { time_zones_read state.now ≡ true }
    ensures { IfOk result (λ valid. valid ≡ policy_valid state.now policy.now) }
{
    if !suits_service(alloc, state, policy)? || !priority_fits(policy) {
        return Ok(false);
    }
    if !policy_subjects_fit(alloc, state, policy)? {
        return Ok(false);
    }
    let read = policy_schedules_read(alloc, state, policy)?;
    Ok(read && zone_fits(state, policy))
}

fn policies_valid(alloc: Global, state: &State) -> Result<bool, NoMemory>
    requires zones { time_zones_read state.now ≡ true }
    ensures { IfOk result
        (λ valid. valid ≡ list_all (policy_valid state.now) state.now.policies.items) }
{
    for policy in state.policies.as_slice() {
        if !policy_valid(alloc, state, policy)? {
            return Ok(false);
        }
    }
    Ok(true)
}

fn zone_valid(alloc: Global, state: &State, zone: &ZoneRow) -> Result<bool, NoMemory>
    ensures { IfOk result (λ valid. valid ≡ zone_valid state.now zone.now) }
{
    if !zone_services_fit(alloc, state, zone)? || !zone_levels_suit(alloc, state, zone)? {
        return Ok(false);
    }
    let exist = zone_subjects_exist(alloc, state, zone)?;
    Ok(zone_values_suit(zone) && exist)
}

fn zones_valid(alloc: Global, state: &State) -> Result<bool, NoMemory>
    ensures { IfOk result (λ valid. valid ≡ list_all (zone_valid state.now) state.now.zones.items) }
{
    for zone in state.zones.as_slice() {
        if !zone_valid(alloc, state, zone)? {
            return Ok(false);
        }
    }
    Ok(true)
}

#[tactic(auto, unfolding(crate::specs::Zones::are_apart_for), using(crate::proofs::Apart::all_maps_fit_at))]
fn are_apart_for(alloc: Global, state: &State, service: &Text) -> Result<bool, NoMemory>
    requires zones { list_all (zone_valid state.now) state.now.zones.items ≡ true }
    ensures { IfOk result
        (λ apart. apart ≡ are_apart_for state.now state.now.zones.items service.now) }
{
    let Some(def) = def_of(state, service) else {
        return Ok(false);
    };
    let zones = state.zones.as_slice();
    Ok(overlapping(alloc, zones, service.as_str(), def)?.is_none())
}

#[tactic(auto, unfolding(crate::specs::Zones::are_apart))]
fn are_apart(alloc: Global, state: &State) -> Result<bool, NoMemory>
    requires zones { list_all (zone_valid state.now) state.now.zones.items ≡ true }
    ensures { IfOk result (λ apart. apart ≡ are_apart state.now state.now.zones.items) }
{
    for service in state.services.as_slice() {
        if !are_apart_for(alloc, state, &service.name)? {
            return Ok(false);
        }
    }
    Ok(true)
}

fn tag_row_valid(alloc: Global, state: &State, row: &TagRow) -> Result<bool, NoMemory>
    ensures { IfOk result (λ valid. valid ≡ tag_row_valid state.now row.now) }
{
    if !tagged_service_fits(state, row) || !tagged_resources_fit(alloc, state, row)? {
        return Ok(false);
    }
    Ok(tags_fit(row.tags.as_slice()))
}

fn tag_rows_valid(alloc: Global, state: &State) -> Result<bool, NoMemory>
    ensures { IfOk result
        (λ valid. valid ≡ list_all (tag_row_valid state.now) state.now.tag_rows.items) }
{
    for row in state.tag_rows.as_slice() {
        if !tag_row_valid(alloc, state, row)? {
            return Ok(false);
        }
    }
    Ok(true)
}

fn some_has_id(policies: &[Shared<Policy>], policy: &Policy) -> bool
    ensures { result ≡ list_any (λ (q : Policy). int_eq policy.now.id.0 q.id.0) policies.now }
{
    let id = policy.id;
    policies.iter().any(|other| same_id(id, other))
}

fn same_id(id: PolicyId, other: &Policy) -> bool
    ensures { result ≡ int_eq id.0 other.now.id.0 }
{
    id.0 == other.id.0
}

/// The work is quadratic in the number of policies.
fn policy_ids_distinct(policies: &[Shared<Policy>]) -> bool
    ensures { result ≡ all_distinct (λ (p q : Policy). int_eq p.id.0 q.id.0) policies.now }
{
    let mut rest = policies;
    while let Some((policy, later)) = rest.split_first() {
        if some_has_id(later, policy) {
            return false;
        }
        rest = later;
    }
    true
}

fn same_row_id(id: i64, other: &TagRow) -> bool
    ensures { result ≡ int_eq id other.now.id }
{
    id == other.id
}

fn some_has_row_id(rows: &[TagRow], row: &TagRow) -> bool
    ensures { result ≡ list_any (λ (other : TagRow). int_eq row.now.id other.id) rows.now }
{
    let id = row.id;
    rows.iter().any(|other| same_row_id(id, other))
}

/// The work is quadratic in the number of rows.
fn tag_row_ids_distinct(rows: &[TagRow]) -> bool
    ensures { result ≡ all_distinct (λ (a b : TagRow). int_eq a.id b.id) rows.now }
{
    let mut rest = rows;
    while let Some((row, later)) = rest.split_first() {
        if some_has_row_id(later, row) {
            return false;
        }
        rest = later;
    }
    true
}

/// Whether no two definitions, services, zones or users have one name, and no two policies or tag rows one id.
fn are_distinct(alloc: Global, state: &State) -> Result<bool, NoMemory>
    ensures { IfOk result (λ distinct. distinct ≡ are_distinct state.now) }
{
    if !all_names_distinct(alloc, state.defs.as_slice())? {
        return Ok(false);
    }
    if !all_names_distinct(alloc, state.services.as_slice())? {
        return Ok(false);
    }
    if !all_names_distinct(alloc, state.zones.as_slice())? {
        return Ok(false);
    }
    if !all_names_distinct(alloc, state.users.as_slice())? {
        return Ok(false);
    }
    Ok(
        policy_ids_distinct(state.policies.as_slice())
            && tag_row_ids_distinct(state.tag_rows.as_slice()),
    )
}

fn state_valid(alloc: Global, state: &State) -> Result<bool, NoMemory>
    ensures { IfOk result (λ valid. valid ≡ state_valid state.now) }
{
    if !definitions_valid(alloc, state.defs.as_slice())? || !time_zones_read(alloc, state)? {
        return Ok(false);
    }
    if !services_valid(state) || !policies_valid(alloc, state)? {
        return Ok(false);
    }
    if !zones_valid(alloc, state)? || !are_apart(alloc, state)? {
        return Ok(false);
    }
    if !tag_rows_valid(alloc, state)? {
        return Ok(false);
    }
    let fault = role_fault(alloc, state.roles.as_slice())?;
    let distinct = are_distinct(alloc, state)?;
    Ok(fault.is_none() && distinct)
}

/// Whether the state is valid, which `first_fault` asks of it. The work is quadratic in the numbers of policies and of
/// tag rows.
pub fn is_valid(alloc: Global, state: &State) -> Result<bool, NoMemory>
    ensures exact { IfOk result (λ valid. IsTrue valid ↔ IsValid state.now) }
{
    state_valid(alloc, state)
}
