// The rules of policies that look at the state.
ghost use Rattle.std.specs.Prelude.{◌≡◌, ◌≤◌, ◌&&◌, Bool, IfOk, None, option_map, false, true};
ghost use Rattle.std.specs.List.{list_any};
ghost use Rattle.rg_cond.specs.PolicyRules.{schedules_read};
ghost use Rattle.rg_policy.specs.declared.policy.Policy.{Policy};
ghost use Rattle.rg_validate.specs.Failing.{first_failing};
ghost use Rattle.rg_validate.specs.Policies.{has_no_twin, is_namesake, is_other, old_form, policy_name_is_new, policy_place_fits, policy_rules, policy_subjects_fit, stays_in, zone_fits};
ghost use Rattle.rg_validate.specs.Steps.{form_rules, name_rules, own_count, setting_rules};
ghost use Rattle.rg_same_resources.specs.Counts.{IsCounted, has_print};
ghost use Rattle.rg_same_resources.specs.Twins.{is_twin};
ghost use Rattle.rg_validate.specs.Users.{time_zones_read};
ghost use Rattle.rg_validate.specs.Valid.{IsValid};

use crate::lookups::{has_id, policy_at};
use rg_base::{NameIndex, NoMemory, PolicyId, is_name, same_text};
use rg_cmd::{Rule, State, is_tag_service};
use rg_cond::{TimeZoneFault, TimeZones, conditions_compile, schedules_read};
use rg_defs::{PathedDef, Paths, ServiceDef};
use rg_items::{entries_fit, lists_fit, outcomes_fit, priority_fits, subjects_fit, type_fits};
use rg_policy::Policy;
use rg_resmatch::{policy_levels_fit, policy_values_fit};
use rg_same_resources::{PrintCounts, has_print, is_twin, name_print_of, print_of, same_place};
use rg_shared::Shared;
use rg_zone_rules::policy_zone_fits;
use std::alloc::Global;

fn is_other(updated: Option<PolicyId>, policy: &Shared<Policy>) -> bool
    ensures { result ≡ is_other updated policy.now }
{
    match updated {
        Some(id) => !has_id(policy, id),
        None => true,
    }
}

fn is_namesake(policy: &Policy, other: &Policy) -> bool
    ensures { result ≡ is_namesake policy.now other.now }
{
    same_text(other.name.as_str(), policy.name.as_str()) && same_place(policy, other)
}

fn some_namesake(policies: &[Shared<Policy>], updated: Option<PolicyId>, policy: &Policy) -> bool
    ensures { result
        ≡ list_any (λ (q : Policy). is_other updated q && is_namesake policy.now q) policies.now }
{
    policies.iter().any(|other| is_other(updated, other) && is_namesake(policy, other))
}

/// How many of those with the print the old form is.
fn own_count(old: Option<&Policy>, print: u64) -> u32
    ensures { result ≡ own_count (option_map (λ p. p.now) old.entry) print }
{
    match old {
        Some(old) => has_print(print, old),
        None => 0,
    }
}

/// Whether the counts show that no other policy has the print, and so that none passes a test which tells that it has.
fn is_alone(state: &State, counts: &PrintCounts, updated: Option<PolicyId>, print: u64) -> bool
    requires valid { IsValid state.now }
    requires counted { IsCounted counts.now state.now.policies.items }
    ensures { (test : Policy → Bool) → ((q : Policy) → test q ≡ true → 1 ≤ has_print print q)
        → result ≡ true
        → list_any (λ (q : Policy). is_other updated q && test q) state.now.policies.items ≡ false }
{
    counts.count_of(print) <= own_count(old_form(state, updated), print)
}

/// Whether no other policy of the service and zone has the name (rule V2). A policy that is updated is told by its id. The
/// policies are looked at where the counts don't tell.
pub fn policy_name_is_new(
    state: &State,
    counts: &PrintCounts,
    updated: Option<PolicyId>,
    policy: &Policy,
) -> bool
    requires valid { IsValid state.now }
    requires counted { IsCounted counts.now state.now.policies.items }
    ensures { result ≡ policy_name_is_new state.now updated policy.now }
{
    if is_alone(state, counts, updated, name_print_of(policy)) {
        return true;
    }
    !some_namesake(state.policies.as_slice(), updated, policy)
}

/// Whether each item names a user, a group or a role, and each role exists (rule V10). It takes memory for the names
/// of the roles.
pub fn policy_subjects_fit(alloc: Global, state: &State, policy: &Policy) -> Result<bool, NoMemory>
    ensures { IfOk result (λ fit. fit ≡ policy_subjects_fit state.now policy.now) }
{
    let roles = NameIndex::build(alloc, state.roles.as_slice())?;
    Ok(subjects_fit(&roles, policy))
}

/// Whether each schedule reads under the time zones, and none is recurring (rule V12). A policy without schedules
/// takes no memory.
pub fn policy_schedules_read(
    alloc: Global,
    state: &State,
    policy: &Policy,
) -> Result<bool, NoMemory>
    requires zones { time_zones_read state.now ≡ true }
    ensures { IfOk result (λ read. read ≡ schedules_read state.now.time_zones.items policy.now) }
{
    if policy.schedules.is_empty() {
        return Ok(true);
    }
    match TimeZones::build(alloc, state.time_zones.as_slice()) {
        Ok(time_zones) => Ok(schedules_read(policy, &time_zones)),
        Err(TimeZoneFault::BadRule(_)) => Ok(false),
        Err(TimeZoneFault::NoMemory) => Err(NoMemory),
    }
}

fn some_twin(
    alloc: Global,
    policies: &[Shared<Policy>],
    updated: Option<PolicyId>,
    policy: &Policy,
) -> Result<bool, NoMemory>
    ensures { IfOk result (λ some. some
        ≡ list_any (λ (q : Policy). is_other updated q && is_twin policy.now q) policies.now) }
{
    for other in policies {
        if is_other(updated, other) && is_twin(alloc, policy, other)? {
            return Ok(true);
        }
    }
    Ok(false)
}

/// Whether no other enabled policy of the service, zone, type, priority and schedules has the same maps, where the
/// policy is enabled (rule V13). The policies are looked at where the counts don't tell.
#[tactic(auto, unfolding(crate::specs::Policies::has_no_twin))]
pub fn has_no_twin(
    alloc: Global,
    state: &State,
    counts: &PrintCounts,
    updated: Option<PolicyId>,
    policy: &Policy,
) -> Result<bool, NoMemory>
    requires valid { IsValid state.now }
    requires counted { IsCounted counts.now state.now.policies.items }
    ensures { IfOk result (λ single. single ≡ has_no_twin state.now updated policy.now) }
{
    if !policy.enabled {
        return Ok(true);
    }
    if is_alone(state, counts, updated, print_of(policy)) {
        return Ok(true);
    }
    Ok(!some_twin(alloc, state.policies.as_slice(), updated, policy)?)
}

fn old_form(state: &State, updated: Option<PolicyId>) -> Option<&Policy>
    requires { IsValid state.now }
    ensures { option_map (λ p. p.now) result ≡ old_form state.now updated }
{
    match updated {
        Some(id) => Some(policy_at(state, id)?),
        None => None,
    }
}

fn stays_in(old: Option<&Policy>, policy: &Policy) -> bool
    ensures { result ≡ stays_in (option_map (λ p. p.now) old.entry) policy.now }
{
    match old {
        Some(old) => same_place(old, policy),
        None => true,
    }
}

/// V14 but for what an update keeps.
pub(crate) fn zone_fits(state: &State, policy: &Policy) -> bool
    ensures { result ≡ zone_fits state.now policy.now }
{
    policy_zone_fits(
        is_tag_service(state, &policy.service),
        policy.service.as_str(),
        state.zones.as_slice(),
        policy,
    )
}

/// Whether the policy has no zone, or one that lists its service, and, where it is updated, has the service and the
/// zone that it had (rule V14).
pub fn policy_place_fits(state: &State, updated: Option<PolicyId>, policy: &Policy) -> bool
    requires { IsValid state.now }
    ensures { result ≡ policy_place_fits state.now updated policy.now }
{
    zone_fits(state, policy) && stays_in(old_form(state, updated), policy)
}

/// The first of V1 to V4 that fails.
fn name_fault(
    state: &State,
    counts: &PrintCounts,
    updated: Option<PolicyId>,
    policy: &Policy,
    def: &ServiceDef,
) -> Option<Rule>
    requires valid { IsValid state.now }
    requires counted { IsCounted counts.now state.now.policies.items }
    ensures { result ≡ first_failing (name_rules state.now updated policy.now def.now) }
{
    if !is_name(policy.name.as_str()) {
        return Some(Rule::V1);
    }
    if !policy_name_is_new(state, counts, updated, policy) {
        return Some(Rule::V2);
    }
    if !type_fits(def, policy) {
        return Some(Rule::V3);
    }
    if !priority_fits(policy) {
        return Some(Rule::V4);
    }
    None
}

/// The first of V5 to V9 that fails.
fn form_fault(alloc: Global, policy: &Policy, def: &ServiceDef) -> Result<Option<Rule>, NoMemory>
    ensures { IfOk result (λ fault. fault ≡ first_failing (form_rules policy.now def.now)) }
{
    let paths = Paths::of(alloc, def)?;
    if !policy_levels_fit(&PathedDef { def, paths: &paths }, policy) {
        return Ok(Some(Rule::V5));
    }
    if !policy_values_fit(def, policy) {
        return Ok(Some(Rule::V6));
    }
    if !lists_fit(policy) {
        return Ok(Some(Rule::V7));
    }
    if !entries_fit(def, policy) {
        return Ok(Some(Rule::V8));
    }
    if !conditions_compile(def, policy) {
        return Ok(Some(Rule::V9));
    }
    Ok(None)
}

/// The first of V10 to V14 that fails.
fn setting_fault(
    alloc: Global,
    state: &State,
    counts: &PrintCounts,
    updated: Option<PolicyId>,
    policy: &Policy,
    def: &ServiceDef,
) -> Result<Option<Rule>, NoMemory>
    requires valid { IsValid state.now }
    requires counted { IsCounted counts.now state.now.policies.items }
    ensures { IfOk result
        (λ fault. fault ≡ first_failing (setting_rules state.now updated policy.now def.now)) }
{
    if !policy_subjects_fit(alloc, state, policy)? {
        return Ok(Some(Rule::V10));
    }
    if !outcomes_fit(def, policy) {
        return Ok(Some(Rule::V11));
    }
    if !policy_schedules_read(alloc, state, policy)? {
        return Ok(Some(Rule::V12));
    }
    if !has_no_twin(alloc, state, counts, updated, policy)? {
        return Ok(Some(Rule::V13));
    }
    if !policy_place_fits(state, updated, policy) {
        return Ok(Some(Rule::V14));
    }
    Ok(None)
}

/// The first of V1 to V14 that fails under the definition of the policy's service. A policy that is updated is told by
/// its id.
pub fn policy_fault(
    alloc: Global,
    state: &State,
    counts: &PrintCounts,
    updated: Option<PolicyId>,
    policy: &Policy,
    def: &ServiceDef,
) -> Result<Option<Rule>, NoMemory>
    requires valid { IsValid state.now }
    requires counted { IsCounted counts.now state.now.policies.items }
    ensures { IfOk result
        (λ fault. fault ≡ first_failing (policy_rules state.now updated policy.now def.now)) }
{
    if let Some(rule) = name_fault(state, counts, updated, policy, def) {
        return Ok(Some(rule));
    }
    if let Some(rule) = form_fault(alloc, policy, def)? {
        return Ok(Some(rule));
    }
    setting_fault(alloc, state, counts, updated, policy, def)
}
