// What a new form of a definition must keep of what stands under it.
ghost use Rattle.std.specs.Prelude.{◌≡◌, ◌||◌, IfOk, None, not};
ghost use Rattle.std.specs.List.{list_all};
ghost use Rattle.std.specs.Str.{chars};
ghost use Rattle.rg_base.specs.Texts.{is_among};
ghost use Rattle.rg_policy.specs.declared.policy.Policy.{Policy};
ghost use Rattle.rg_resmatch.specs.Rules.{tagged_fit};
ghost use Rattle.rg_tags.specs.declared.row.TagRow.{TagRow};
ghost use Rattle.rg_validate.specs.Definitions.{definition_suits, names_with, policy_suits, services_suit, zones_suit};

use rg_base::{NameIndex, NoMemory, Text, TryCopy, same_text};
use rg_cmd::State;
use rg_cond::conditions_compile;
use rg_defs::{PathedDef, Paths, ServiceDef};
use rg_items::{entries_fit, lists_fit, outcomes_fit, type_fits};
use rg_policy::Policy;
use rg_resmatch::{policy_levels_fit, policy_values_fit, tagged_fit};
use rg_shared::Shared;
use rg_tags::TagRow;
use rg_zone_rules::{ZoneRow, all_maps_fit};
use rg_zones::overlapping;
use std::alloc::Global;

/// The names of the services of this definition.
pub(crate) fn names_with(alloc: Global, state: &State, def: &str) -> Result<Vec<Text>, NoMemory>
    ensures { IfOk result (λ names. names.items ≡ names_with state.now (chars def.now)) }
{
    let mut names = Vec::new(alloc);
    for row in state.services.as_slice() {
        if same_text(row.def.as_str(), def) {
            names.push(row.name.try_copy(alloc)?)?;
        }
    }
    Ok(names)
}

/// Whether the policy passes V3, V5 to V9 and V11 under the definition.
pub(crate) fn policy_suits(def: &PathedDef, policy: &Policy) -> bool
    ensures { result ≡ policy_suits def.now policy.now }
{
    type_fits(def.def, policy)
        && (policy_levels_fit(def, policy)
            && (policy_values_fit(def.def, policy)
                && (lists_fit(policy)
                    && (entries_fit(def.def, policy)
                        && (conditions_compile(def.def, policy)
                            && outcomes_fit(def.def, policy))))))
}

fn policies_suit(def: &PathedDef, services: &NameIndex, policies: &[Shared<Policy>]) -> bool
    ensures { result ≡ list_all (λ (p : Policy). not (is_among p.service services.now)
        || policy_suits def.now p) policies.now }
{
    policies.iter().all(|policy| !services.contains(policy.service.as_str())
        || policy_suits(def, policy))
}

fn tag_rows_suit(def: &PathedDef, services: &NameIndex, rows: &[TagRow]) -> bool
    ensures { result ≡ list_all (λ (row : TagRow). not (is_among row.service services.now)
        || tagged_fit def.now row.resources.items) rows.now }
{
    rows.iter().all(|row| !services.contains(row.service.as_str())
        || tagged_fit(def, row.resources.as_slice()))
}

fn zones_suit(
    alloc: Global,
    def: &PathedDef,
    zones: &[ZoneRow],
    service: &Text,
) -> Result<bool, NoMemory>
    ensures { IfOk result (λ suit. suit ≡ zones_suit def.now zones.now service.now) }
{
    if !all_maps_fit(def, service.as_str(), zones) {
        return Ok(false);
    }
    Ok(overlapping(alloc, zones, service.as_str(), def.def)?.is_none())
}

fn all_zones_suit(
    alloc: Global,
    def: &PathedDef,
    zones: &[ZoneRow],
    services: &[Text],
) -> Result<bool, NoMemory>
    ensures { IfOk result (λ suit. suit ≡ list_all (zones_suit def.now zones.now) services.now) }
{
    for service in services {
        if !zones_suit(alloc, def, zones, service)? {
            return Ok(false);
        }
    }
    Ok(true)
}

/// As `definition_suits`, for services of these names.
fn all_suit(
    alloc: Global,
    state: &State,
    def: &PathedDef,
    services: &[Text],
) -> Result<bool, NoMemory>
    ensures { IfOk result (λ suit. suit ≡ services_suit state.now def.now services.now) }
{
    let names = NameIndex::build(alloc, services)?;
    if !policies_suit(def, &names, state.policies.as_slice()) {
        return Ok(false);
    }
    if !tag_rows_suit(def, &names, state.tag_rows.as_slice()) {
        return Ok(false);
    }
    all_zones_suit(alloc, def, state.zones.as_slice(), services)
}

/// The same. It takes memory for the paths.
fn services_suit(
    alloc: Global,
    state: &State,
    def: &ServiceDef,
    services: &[Text],
) -> Result<bool, NoMemory>
    ensures { IfOk result (λ suit. suit ≡ services_suit state.now def.now services.now) }
{
    let paths = Paths::of(alloc, def)?;
    let def = PathedDef { def, paths: &paths };
    let suit = all_suit(alloc, state, &def, services)?;
    Ok(suit)
}

/// Whether every policy, zone and tag row of services of the definition's name passes V3, V5 to V9, V11, Z3, Z4, Z6
/// and G2 under it (rule C1). Policies and tag rows are gone over once.
#[tactic(auto, unfolding(crate::specs::Definitions::definition_suits))]
pub fn definition_suits(alloc: Global, state: &State, def: &ServiceDef) -> Result<bool, NoMemory>
    ensures { IfOk result (λ suit. suit ≡ definition_suits state.now def.now) }
{
    let services = names_with(alloc, state, def.name.as_str())?;
    let suit = services_suit(alloc, state, def, services.as_slice())?;
    Ok(suit)
}
