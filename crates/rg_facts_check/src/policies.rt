// What is wrong with roles, time zones and policies.
ghost use Rattle.std.specs.Prelude.{◌≡◌, ◌++◌, not, IfOk, OnOk, option_map};
ghost use Rattle.std.specs.List.{find};
ghost use Rattle.rg_policy.specs.declared.policy.Policy.{Policy};
ghost use Rattle.rg_cond.specs.Zones.{bad_rule, place_number};
ghost use Rattle.rg_items.specs.PolicyRules.{subjects_fit};
ghost use Rattle.rg_evalr.specs.Frames.{def_of};
ghost use Rattle.rg_evalr.specs.declared.frame.Side.TheVariants as Side;
ghost use Rattle.rg_facts.specs.Candidates.{frame_of};
ghost use Rattle.rg_facts.specs.Sound.{is_no_policy, is_tag_def, passes};
ghost use Rattle.rg_roles.specs.Faults.{fault_of};
ghost use Rattle.rg_roles.specs.Members.{names_of};
ghost use Rattle.rg_zone_rules.specs.Rules.{policy_zone_fits, tag_policy_zone_fits};
ghost use Rattle.rg_facts_check.specs.Causes.{faulty, first_faulty, first_policy, policy_causes, present, role_causes, rule_causes, tag_policies_cause, time_zone_cause, zone_name_causes};
ghost use Rattle.rg_facts_check.specs.declared.unsound.Unsound.TheVariants as unsound;

use crate::definitions::is_tag_def;
use crate::noting::{note, unless};
use crate::prepared::Prepared;
use crate::unsound::Unsound;
use rg_base::{NameIndex, NoMemory};
use rg_cond::{TimeZoneFault, TimeZones};
use rg_defs::Paths;
use rg_evalr::{Frame, Side, policy_fault};
use rg_facts::{Facts, frame_of};
use rg_items::subjects_fit;
use rg_policy::{Policy, TimeZoneRow};
use rg_roles::{RoleRow, role_fault};
use rg_shared::Shared;
use rg_zone_rules::{policy_zone_fits, tag_policy_zone_fits};
use std::alloc::Global;

/// The rule of this number fails for the policy.
fn of_policy(rule: u8, policy: Option<&Shared<Policy>>) -> Option<Unsound>
    ensures { result ≡ option_map (λ (p : Policy). unsound.Policy p.id rule)
        (option_map (λ p. p.now) policy.entry) }
{
    match policy {
        Some(policy) => Some(Unsound::Policy(policy.id, rule)),
        None => None,
    }
}

// ---- roles, and V10

/// The first policy that names no subject, or a role that isn't one of these.
fn unfit_subjects<'a>(
    roles: &NameIndex,
    policies: &'a [Shared<Policy>],
) -> Option<&'a Shared<Policy>>
    ensures { option_map (λ p. p.now) result
        ≡ find (λ p. not (subjects_fit roles.now p)) policies.now }
{
    policies.iter().find(|policy| !subjects_fit(roles, policy))
}

/// The first policy of the service that fails V10.
fn subject_cause(prepared: &Prepared) -> Option<Unsound>
    ensures { result ≡ first_policy 10
        (subjects_fit (names_of prepared.now.roles.items)) prepared.now.policies.items }
{
    of_policy(
        10,
        unfit_subjects(prepared.roles(), prepared.facts().policies.as_slice()),
    )
}

/// The first policy of the tag service that fails V10.
fn tag_subject_cause(prepared: &Prepared) -> Option<Unsound>
    ensures { result ≡ first_policy 10
        (subjects_fit (names_of prepared.now.roles.items)) prepared.now.tag_policies.items }
{
    of_policy(
        10,
        unfit_subjects(prepared.roles(), prepared.facts().tag_policies.as_slice()),
    )
}

/// What is wrong with the roles themselves.
fn role_cause(alloc: Global, rows: &[RoleRow]) -> Result<Option<Unsound>, NoMemory>
    ensures { IfOk result (λ cause. cause ≡ option_map unsound.Roles (fault_of rows.now)) }
{
    match role_fault(alloc, rows)? {
        Some(fault) => Ok(Some(Unsound::Roles(fault))),
        None => Ok(None),
    }
}

/// Adds what is wrong with the roles, and by V10 with policies.
pub(crate) fn add_role_causes(
    alloc: Global,
    prepared: &Prepared,
    causes: &mut Vec<Unsound>,
) -> Result<(), NoMemory>
    ensures { OnOk result (causes.new.items
        ≡ causes.old.items ++ present (role_causes prepared.now)) }
{
    note(
        causes,
        role_cause(alloc, prepared.facts().roles.as_slice())?,
    )?;
    note(causes, subject_cause(prepared))?;
    note(causes, tag_subject_cause(prepared))
}

// ---- V14

/// The first policy that has no zone in which it may stand.
fn out_of_zone<'a>(is_tag: bool, facts: &'a Facts) -> Option<&'a Shared<Policy>>
    ensures { option_map (λ p. p.now) result ≡ find (λ p. not (policy_zone_fits
        is_tag facts.now.service facts.now.zones.items p)) facts.now.policies.items }
{
    let service = facts.service.as_str();
    let zones = facts.zones.as_slice();
    facts
        .policies
        .as_slice()
        .iter()
        .find(|policy| !policy_zone_fits(is_tag, service, zones, policy))
}

fn tag_out_of_zone(facts: &Facts) -> Option<&Shared<Policy>>
    ensures { option_map (λ p. p.now) result ≡ find
        (λ p. not (tag_policy_zone_fits facts.now.zones.items p)) facts.now.tag_policies.items }
{
    let zones = facts.zones.as_slice();
    facts
        .tag_policies
        .as_slice()
        .iter()
        .find(|policy| !tag_policy_zone_fits(zones, policy))
}

/// Adds the policies that fail V14.
pub(crate) fn add_zone_name_causes(facts: &Facts, causes: &mut Vec<Unsound>) -> Result<(), NoMemory>
    ensures { OnOk result (causes.new.items
        ≡ causes.old.items ++ present (zone_name_causes facts.now)) }
{
    note(
        causes,
        of_policy(14, out_of_zone(is_tag_def(&facts.def), facts)),
    )?;
    note(causes, of_policy(14, tag_out_of_zone(facts)))
}

// ---- time zones, and V3 to V9, V11 and V12

/// The first time zone whose rule doesn't read.
fn time_zone_cause(alloc: Global, rows: &[TimeZoneRow]) -> Result<Option<Unsound>, NoMemory>
    ensures { IfOk result (λ cause. cause
        ≡ option_map unsound.TimeZone (option_map place_number (bad_rule rows.now))) }
{
    match TimeZones::build(alloc, rows) {
        Ok(_) => Ok(None),
        Err(TimeZoneFault::BadRule(place)) => Ok(Some(Unsound::TimeZone(place))),
        Err(TimeZoneFault::NoMemory) => Err(NoMemory),
    }
}

fn passes(frame: &Frame, side: Side, paths: &Paths, policy: &Policy) -> bool
    requires { paths.now ≡ (def_of frame.now side).levels.items }
    ensures { result ≡ passes frame.now side policy.now }
{
    policy_fault(frame, side, paths, policy).is_none()
}

/// The first policy that fails a rule of V3 to V9, V11 and V12.
fn unfit<'a>(
    frame: &Frame,
    side: Side,
    paths: &Paths,
    policies: &'a [Shared<Policy>],
) -> Option<&'a Shared<Policy>>
    requires { paths.now ≡ (def_of frame.now side).levels.items }
    ensures { option_map (λ p. p.now) result
        ≡ find (λ p. not (passes frame.now side p)) policies.now }
{
    policies
        .iter()
        .find(|policy| !passes(frame, side, paths, policy))
}

fn faulty(frame: &Frame, side: Side, paths: &Paths, policy: &Policy) -> Option<Unsound>
    requires { paths.now ≡ (def_of frame.now side).levels.items }
    ensures { result ≡ faulty frame.now side policy.now }
{
    match policy_fault(frame, side, paths, policy) {
        Some(rule) => Some(Unsound::Policy(policy.id, rule)),
        None => None,
    }
}

fn first_faulty(
    frame: &Frame,
    side: Side,
    paths: &Paths,
    policies: &[Shared<Policy>],
) -> Option<Unsound>
    requires { paths.now ≡ (def_of frame.now side).levels.items }
    ensures { result ≡ first_faulty frame.now side policies.now }
{
    let policy = unfit(frame, side, paths, policies)?;
    faulty(frame, side, paths, policy)
}

fn is_no_policy(policies: &[Shared<Policy>]) -> bool
    ensures { result ≡ is_no_policy policies.now }
{
    match policies {
        [] => true,
        _ => false,
    }
}

fn tag_policies_cause(
    alloc: Global,
    frame: &Frame,
    policies: &[Shared<Policy>],
) -> Result<Option<Unsound>, NoMemory>
    ensures { IfOk result
        (λ cause. cause ≡ tag_policies_cause frame.now frame.now.tag_def policies.now) }
{
    let Some(def) = &frame.tag_def else {
        return Ok(unless(is_no_policy(policies), Unsound::NoTagDefinition));
    };
    let paths = Paths::of(alloc, def)?;
    Ok(first_faulty(frame, Side::Tag, &paths, policies))
}

/// The first policy of the service that fails a rule of V3 to V9, V11 and V12 under this frame, which is the facts'.
fn resource_policy_cause(prepared: &Prepared, frame: &Frame) -> Option<Unsound>
    requires { frame.now ≡ frame_of prepared.now }
    ensures { result
        ≡ first_faulty (frame_of prepared.now) Side.Resource prepared.now.policies.items }
{
    first_faulty(
        frame,
        Side::Resource,
        prepared.paths(),
        prepared.facts().policies.as_slice(),
    )
}

/// The same of the tag service's policies.
fn tag_policy_cause(
    alloc: Global,
    facts: &Facts,
    frame: &Frame,
) -> Result<Option<Unsound>, NoMemory>
    requires { frame.now ≡ frame_of facts.now }
    ensures { IfOk result (λ cause. cause ≡ tag_policies_cause
        (frame_of facts.now) facts.now.tag_def facts.now.tag_policies.items) }
{
    let cause = tag_policies_cause(alloc, frame, facts.tag_policies.as_slice())?;
    Ok(cause)
}

/// Adds the policies that fail V3 to V9, V11 and V12.
fn add_rule_causes(
    alloc: Global,
    prepared: &Prepared,
    causes: &mut Vec<Unsound>,
) -> Result<(), NoMemory>
    ensures { OnOk result (causes.new.items
        ≡ causes.old.items ++ present (rule_causes prepared.now)) }
{
    let frame = frame_of(alloc, prepared.facts())?;
    note(causes, resource_policy_cause(prepared, &frame))?;
    note(causes, tag_policy_cause(alloc, prepared.facts(), &frame)?)
}

/// Adds what is wrong with time zones, or else with policies by them.
#[tactic(auto, unfolding(crate::specs::Causes::policy_causes))]
pub(crate) fn add_policy_causes(
    alloc: Global,
    prepared: &Prepared,
    causes: &mut Vec<Unsound>,
) -> Result<(), NoMemory>
    ensures { OnOk result (causes.new.items ≡ causes.old.items ++ policy_causes prepared.now) }
{
    match time_zone_cause(alloc, prepared.facts().time_zones.as_slice())? {
        Some(cause) => note(causes, Some(cause)),
        None => add_rule_causes(alloc, prepared, causes),
    }
}
