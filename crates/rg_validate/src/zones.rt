// The rules of zones.
ghost use Rattle.std.specs.Prelude.{◌≡◌, ◌&&◌, ◌||◌, IfOk, filter, map, not, true};
ghost use Rattle.std.specs.List.{list_all, list_any};
ghost use Rattle.std.specs.Str.{bytes_eq};
ghost use Rattle.rg_policy.specs.declared.policy.Policy.{Policy};
ghost use Rattle.rg_zone_rules.specs.Rules.{entry_levels_fit, entry_values_fit};
ghost use Rattle.rg_zone_rules.specs.declared.row.ZoneService.{ZoneService};
ghost use Rattle.rg_cmd.specs.Lookups.{def_of};
ghost use Rattle.rg_validate.specs.Definitions.{under};
ghost use Rattle.rg_validate.specs.Zones.{plain_services, tag_services, zone_is_unused, zone_keeps, zone_keeps_policies, zone_levels_suit, zone_services_fit, zone_subjects_exist, zone_values_suit};

use crate::def_index::DefIndex;
use crate::definitions::names_with;
use rg_base::{NameIndex, NoMemory, Text, TryCopy, same_text};
use rg_cmd::{State, is_tag, is_tag_service};
use rg_defs::{PathedDef, Paths, tag_name};
use rg_policy::Policy;
use rg_shared::Shared;
use rg_zone_rules::{
    ZoneRow, ZoneService, entry_levels_fit, entry_values_fit, lists_service, services_fit,
    subjects_exist,
};
use std::alloc::Global;

/// The names of the services of another definition than `tag`.
fn plain_names(alloc: Global, state: &State) -> Result<Vec<Text>, NoMemory>
    ensures { IfOk result (λ names. names.items ≡ plain_services state.now) }
{
    let mut names = Vec::new(alloc);
    for row in state.services.as_slice() {
        if !is_tag(&row.def) {
            names.push(row.name.try_copy(alloc)?)?;
        }
    }
    Ok(names)
}

fn plain_services(alloc: Global, state: &State) -> Result<NameIndex, NoMemory>
    ensures { IfOk result (λ names. names ≡ plain_services state.now) }
{
    let names = plain_names(alloc, state)?;
    let index = NameIndex::build(alloc, names.as_slice())?;
    Ok(index)
}

fn tag_services(alloc: Global, state: &State) -> Result<NameIndex, NoMemory>
    ensures { IfOk result (λ names. names ≡ tag_services state.now) }
{
    let names = names_with(alloc, state, tag_name())?;
    let index = NameIndex::build(alloc, names.as_slice())?;
    Ok(index)
}

/// Whether each service exists and isn't a tag service, each tag service exists and is one, and none is listed twice
/// (rule Z2). It takes memory for the names of the services.
pub fn zone_services_fit(alloc: Global, state: &State, zone: &ZoneRow) -> Result<bool, NoMemory>
    ensures { IfOk result (λ fit. fit ≡ zone_services_fit state.now zone.now) }
{
    let plain = plain_services(alloc, state)?;
    let tagged = tag_services(alloc, state)?;
    let fit = services_fit(alloc, &plain, &tagged, zone)?;
    Ok(fit)
}

fn entry_levels_suit(alloc: Global, defs: &DefIndex, entry: &ZoneService) -> Result<bool, NoMemory>
    ensures { IfOk result (λ suit. suit
        ≡ under (def_of defs.now entry.now.service) (λ def. entry_levels_fit def entry.now)) }
{
    let Some(def) = defs.def_of(&entry.service) else {
        return Ok(false);
    };
    let paths = Paths::of(alloc, def)?;
    Ok(entry_levels_fit(&PathedDef { def, paths: &paths }, entry))
}

fn levels_suit(alloc: Global, defs: &DefIndex, zone: &ZoneRow) -> Result<bool, NoMemory>
    ensures { IfOk result (λ suit. suit ≡ zone_levels_suit defs.now zone.now) }
{
    for entry in zone.services.as_slice() {
        if !entry_levels_suit(alloc, defs, entry)? {
            return Ok(false);
        }
    }
    Ok(true)
}

/// Whether each service has a resource map, and the levels of each map are distinct ones of its definition on one path
/// (rule Z3).
pub fn zone_levels_suit(alloc: Global, state: &State, zone: &ZoneRow) -> Result<bool, NoMemory>
    ensures { IfOk result (λ suit. suit ≡ zone_levels_suit state.now zone.now) }
{
    let defs = DefIndex::of(alloc, state, zone.services.len())?;
    let suit = levels_suit(alloc, &defs, zone)?;
    Ok(suit)
}

/// Whether each level has a value, and only patterns without `{USER}` (rule Z4).
pub fn zone_values_suit(zone: &ZoneRow) -> bool
    ensures { result ≡ zone_values_suit zone.now }
{
    zone.services
        .as_slice()
        .iter()
        .all(|entry| entry_values_fit(entry))
}

/// Whether each role of the admins and auditors exists (rule Z5). It takes memory for the names of the roles.
pub fn zone_subjects_exist(alloc: Global, state: &State, zone: &ZoneRow) -> Result<bool, NoMemory>
    ensures { IfOk result (λ exist. exist ≡ zone_subjects_exist state.now zone.now) }
{
    let roles = NameIndex::build(alloc, state.roles.as_slice())?;
    Ok(subjects_exist(&roles, zone))
}

fn zone_keeps(state: &State, zone: &ZoneRow, policy: &Policy) -> bool
    ensures { result ≡ zone_keeps state.now zone.now policy.now }
{
    !same_text(policy.zone.as_str(), zone.name.as_str())
        || lists_service(
            is_tag_service(state, &policy.service),
            policy.service.as_str(),
            zone,
        )
}

/// Whether every policy with this zone's name has its service among the zone's (rule Z7).
pub fn zone_keeps_policies(state: &State, zone: &ZoneRow) -> bool
    ensures { result ≡ zone_keeps_policies state.now zone.now }
{
    let policies = state.policies.as_slice();
    policies
        .iter()
        .all(|policy| zone_keeps(state, zone, policy))
}

fn some_policy_in(policies: &[Shared<Policy>], zone: &Text) -> bool
    ensures { result ≡ list_any (λ (p : Policy). bytes_eq p.zone zone.now) policies.now }
{
    policies
        .iter()
        .any(|policy| same_text(policy.zone.as_str(), zone.as_str()))
}

/// Whether no policy has this zone's name (rule Z8).
pub fn zone_is_unused(state: &State, name: &Text) -> bool
    ensures { result ≡ zone_is_unused state.now name.now }
{
    !some_policy_in(state.policies.as_slice(), name)
}
