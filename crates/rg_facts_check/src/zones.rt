// What is wrong with zones.
ghost use Rattle.std.specs.Prelude.{◌≡◌, ◌++◌, ℕ, true, None, not, IfOk, OnOk, option_map, position};
ghost use Rattle.std.specs.Str.{chars};
ghost use Rattle.rg_facts.specs.Sound.{is_tag_def};
ghost use Rattle.rg_roles.specs.Members.{names_of};
ghost use Rattle.rg_zone_rules.specs.Overlap.{first_overlap};
ghost use Rattle.rg_zone_rules.specs.Rules.{all_maps_fit, listing_fits, subjects_exist, zone_levels_fit, zone_values_fit};
ghost use Rattle.rg_facts_check.specs.Causes.{first_zone, overlap_cause, present, zone_causes, zone_row_causes};
ghost use Rattle.rg_facts_check.specs.declared.unsound.Unsound.TheVariants as unsound;

use crate::definitions::is_tag_def;
use crate::noting::note;
use crate::prepared::Prepared;
use crate::unsound::Unsound;
use rg_base::{NameIndex, NoMemory};
use rg_defs::PathedDef;
use rg_facts::Facts;
use rg_zone_rules::{ZoneRow, listing_fits, subjects_exist, zone_levels_fit, zone_values_fit};
use rg_zones::overlapping;
use std::alloc::Global;

/// The rule of this number fails for the zone at this place.
fn of_zone(rule: u8, place: Option<usize>) -> Option<Unsound>
    ensures { result ≡ option_map (λ place. unsound.Zone place rule) place }
{
    match place {
        Some(place) => Some(Unsound::Zone(place, rule)),
        None => None,
    }
}

fn unfit_listing(is_tag: bool, service: &str, zones: &[ZoneRow]) -> Option<usize>
    ensures { result ≡ position (λ z. not (listing_fits is_tag (chars service.now) z)) zones.now }
{
    zones
        .iter()
        .position(|zone| !listing_fits(is_tag, service, zone))
}

fn listing_cause(prepared: &Prepared) -> Option<Unsound>
    ensures { result ≡ first_zone 2
        (listing_fits (is_tag_def prepared.now.def) prepared.now.service) prepared.now.zones.items }
{
    let facts = prepared.facts();
    let is_tag = is_tag_def(&facts.def);
    of_zone(
        2,
        unfit_listing(is_tag, facts.service.as_str(), facts.zones.as_slice()),
    )
}

fn unknown_subjects(roles: &NameIndex, zones: &[ZoneRow]) -> Option<usize>
    ensures { result ≡ position (λ z. not (subjects_exist roles.now z)) zones.now }
{
    zones.iter().position(|zone| !subjects_exist(roles, zone))
}

fn subject_cause(prepared: &Prepared) -> Option<Unsound>
    ensures { result ≡ first_zone 5
        (subjects_exist (names_of prepared.now.roles.items)) prepared.now.zones.items }
{
    of_zone(
        5,
        unknown_subjects(prepared.roles(), prepared.facts().zones.as_slice()),
    )
}

fn unfit_levels(def: &PathedDef, service: &str, zones: &[ZoneRow]) -> Option<usize>
    ensures { result
        ≡ position (λ z. not (zone_levels_fit (chars service.now) def.now z)) zones.now }
{
    zones
        .iter()
        .position(|zone| !zone_levels_fit(def, service, zone))
}

fn level_cause(prepared: &Prepared) -> Option<Unsound>
    ensures { result ≡ first_zone 3
        (zone_levels_fit prepared.now.service prepared.now.def) prepared.now.zones.items }
{
    let facts = prepared.facts();
    let def = prepared.def();
    of_zone(
        3,
        unfit_levels(&def, facts.service.as_str(), facts.zones.as_slice()),
    )
}

fn unfit_values(service: &str, zones: &[ZoneRow]) -> Option<usize>
    ensures { result ≡ position (λ z. not (zone_values_fit (chars service.now) z)) zones.now }
{
    zones
        .iter()
        .position(|zone| !zone_values_fit(service, zone))
}

fn value_cause(prepared: &Prepared) -> Option<Unsound>
    ensures { result
        ≡ first_zone 4 (zone_values_fit prepared.now.service) prepared.now.zones.items }
{
    let facts = prepared.facts();
    of_zone(
        4,
        unfit_values(facts.service.as_str(), facts.zones.as_slice()),
    )
}

/// The first two zones that overlap for the service, whose maps fit.
fn overlap_cause(alloc: Global, facts: &Facts) -> Result<Option<Unsound>, NoMemory>
    requires { all_maps_fit facts.now.service facts.now.def facts.now.zones.items ≡ true }
    ensures { IfOk result (λ cause. cause ≡ overlap_cause facts.now) }
{
    let zones = facts.zones.as_slice();
    match overlapping(alloc, zones, facts.service.as_str(), &facts.def)? {
        Some((first, second)) => Ok(Some(Unsound::Overlap(first, second))),
        None => Ok(None),
    }
}

/// The same of what is prepared.
fn pair_cause(alloc: Global, prepared: &Prepared) -> Result<Option<Unsound>, NoMemory>
    requires { all_maps_fit prepared.now.service prepared.now.def prepared.now.zones.items ≡ true }
    ensures { IfOk result (λ cause. cause ≡ overlap_cause prepared.now) }
{
    let cause = overlap_cause(alloc, prepared.facts())?;
    Ok(cause)
}

/// What is wrong with single zones.
fn zone_row_causes(alloc: Global, prepared: &Prepared) -> Result<Vec<Unsound>, NoMemory>
    ensures { IfOk result (λ causes. causes.items ≡ present (zone_row_causes prepared.now)) }
{
    let mut causes = Vec::new(alloc);
    note(&mut causes, listing_cause(prepared))?;
    note(&mut causes, subject_cause(prepared))?;
    note(&mut causes, level_cause(prepared))?;
    note(&mut causes, value_cause(prepared))?;
    Ok(causes)
}

/// Adds what is wrong with single zones, or else with two of them.
#[tactic(auto, using(crate::proofs::Law::fitting), unfolding(crate::specs::Causes::zone_causes))]
pub(crate) fn add_zone_causes(
    alloc: Global,
    prepared: &Prepared,
    causes: &mut Vec<Unsound>,
) -> Result<(), NoMemory>
    ensures { OnOk result (causes.new.items ≡ causes.old.items ++ zone_causes prepared.now) }
{
    let single = zone_row_causes(alloc, prepared)?;
    match single.as_slice() {
        [] => note(causes, pair_cause(alloc, prepared)?),
        found => Ok(causes.extend_from_slice(found)?),
    }
}
