// Who may administer a policy, and who may see it.
ghost use Rattle.std.specs.Prelude.{◌≡◌, ◌||◌, IfOk, None, Some, option_map, true};
ghost use Rattle.std.specs.List.{list_all};
ghost use Rattle.std.specs.Str.{chars};
ghost use Rattle.rg_base.specs.Texts.{is_among};
ghost use Rattle.rg_delegate.specs.Authority.{admins_of, auditors_of, is_admin, is_delegated, known, may, may_by_delegation, may_see, named_in_zone, subjects_in};
ghost use Rattle.rg_delegate.specs.Accesses.{accesses};
ghost use Rattle.rg_cmd.specs.Lookups.{def_of};
ghost use Rattle.rg_delegate.specs.Found.{delegations, delegations_of};
ghost use Rattle.rg_delegate.specs.Ready.{Fits, IsReady};

use crate::accesses::all_granted;
use crate::actor::Actor;
use crate::candidates::{Delegated, delegations};
use crate::delegation::{ReadPolicy, delegating_items};
use crate::lookups::zone_at;
use rg_base::{NoMemory, is_among, is_empty};
use rg_cmd::State;
use rg_items::Subjects;
use rg_policy::Policy;
use rg_zone_rules::Subjects as ZoneSubjects;
use std::alloc::Global;

/// Whether the actor is among the administrators.
pub(crate) fn is_admin(state: &State, actor: &str) -> bool
    ensures { result ≡ is_admin state.now (chars actor.now) }
{
    is_among(actor, state.admins.as_slice())
}

fn subjects_in<'a>(list: &'a ZoneSubjects) -> Subjects<'a>
    ensures { result ≡ subjects_in list.now }
{
    Subjects {
        users: list.users.as_slice(),
        groups: list.groups.as_slice(),
        roles: list.roles.as_slice(),
    }
}

pub(crate) fn administers_zone(
    alloc: Global,
    state: &State,
    actor: &mut Actor,
    policy: &Policy,
) -> Result<bool, NoMemory>
    requires actor { actor.old ≡ known state.now actor.old.name }
    ensures same { actor.new ≡ actor.old }
    ensures answer { IfOk result
        (λ b. b ≡ named_in_zone admins_of state.now actor.old.name policy.now) }
{
    let zone = policy.zone.as_str();
    if is_empty(zone) {
        return Ok(false);
    }
    match zone_at(state, zone) {
        Some(row) => actor.is_named(alloc, &subjects_in(&row.admins)),
        None => Ok(false),
    }
}

pub(crate) fn audits_zone(
    alloc: Global,
    state: &State,
    actor: &mut Actor,
    policy: &Policy,
) -> Result<bool, NoMemory>
    requires actor { actor.old ≡ known state.now actor.old.name }
    ensures same { actor.new ≡ actor.old }
    ensures answer { IfOk result
        (λ b. b ≡ named_in_zone auditors_of state.now actor.old.name policy.now) }
{
    let zone = policy.zone.as_str();
    if is_empty(zone) {
        return Ok(false);
    }
    match zone_at(state, zone) {
        Some(row) => actor.is_named(alloc, &subjects_in(&row.auditors)),
        None => Ok(false),
    }
}

/// Whether each access of the policy is delegated to the actor by these policies of its service, which are all that
/// delegate to the actor.
fn all_delegated(
    alloc: Global,
    state: &State,
    delegated: &Delegated,
    actor: &mut Actor,
    policy: &Policy,
) -> Result<bool, NoMemory>
    requires ready { IsReady state.now }
    requires def { def_of state.now policy.now.service ≡ Some delegated.now.def }
    requires delegations { delegated.now
        ≡ delegations_of policy.now.service actor.old state.now.policies.items delegated.now.def }
    requires fits { Fits state.now policy.now }
    requires actor { actor.old ≡ known state.now actor.old.name }
    ensures same { actor.new ≡ actor.old }
    ensures answer { IfOk result (λ b. b ≡ list_all (is_delegated state.now
        delegated.now.def actor.old policy.now) (accesses delegated.now.def policy.now)) }
{
    let def = delegated.def;
    let asked = ReadPolicy::of(alloc, def, policy)?;
    let items = delegating_items(alloc, &delegated.policies, actor, &asked)?;
    Ok(all_granted(def, policy, &items))
}

/// Whether the actor may administer the policy by what policies of its service delegate.
pub(crate) fn may_by_delegation(
    alloc: Global,
    state: &State,
    delegated: Option<&Delegated>,
    actor: &mut Actor,
    policy: &Policy,
) -> Result<bool, NoMemory>
    requires ready { IsReady state.now }
    requires delegations { option_map (λ d. d.now) delegated
        ≡ delegations state.now policy.now.service actor.old }
    requires fits { Fits state.now policy.now }
    requires actor { actor.old ≡ known state.now actor.old.name }
    ensures same { actor.new ≡ actor.old }
    ensures answer { IfOk result (λ b. b ≡ may_by_delegation state.now actor.old.name policy.now) }
{
    match delegated {
        Some(delegated) => all_delegated(alloc, state, delegated, actor, policy),
        None => Ok(false),
    }
}

/// Whether the actor, who is no administrator, may administer the policy.
fn may_in_part(
    alloc: Global,
    state: &State,
    actor: &mut Actor,
    policy: &Policy,
) -> Result<bool, NoMemory>
    requires ready { IsReady state.now }
    requires fits { Fits state.now policy.now }
    requires actor { actor.old ≡ known state.now actor.old.name }
    ensures same { actor.new ≡ actor.old }
    ensures answer { IfOk result (λ b. b ≡ (named_in_zone admins_of state.now actor.old.name
        policy.now || may_by_delegation state.now actor.old.name policy.now)) }
{
    if administers_zone(alloc, state, actor, policy)? {
        return Ok(true);
    }
    let delegated = delegations(alloc, state, actor, &policy.service)?;
    may_by_delegation(alloc, state, delegated.as_ref(), actor, policy)
}

/// Whether the actor may administer the policy: as an administrator, as one of the policy's zone, or since for each
/// access of the policy an enabled policy of the same service and zone that covers it delegates that access to the
/// actor (Ranger's delegated admin). The actor's groups are those of the user's row. The state is a valid one, and the
/// policy passes the rules V5 and V6. The patterns of a policy are read once.
pub fn may_administer(
    alloc: Global,
    state: &State,
    actor: &str,
    policy: &Policy,
) -> Result<bool, NoMemory>
    requires ready { IsReady state.now }
    requires fits { Fits state.now policy.now }
    ensures { IfOk result (λ b. b ≡ may state.now (chars actor.now) policy.now) }
{
    if is_admin(state, actor) {
        return Ok(true);
    }
    let mut actor = Actor::of(state, actor);
    may_in_part(alloc, state, &mut actor, policy)
}

/// Whether the actor may administer the policy, or is among the auditors of its zone (rule A5). As `may_administer`.
pub fn may_see(alloc: Global, state: &State, actor: &str, policy: &Policy) -> Result<bool, NoMemory>
    requires ready { IsReady state.now }
    requires fits { Fits state.now policy.now }
    ensures { IfOk result (λ b. b ≡ may_see state.now (chars actor.now) policy.now) }
{
    if is_admin(state, actor) {
        return Ok(true);
    }
    let mut actor = Actor::of(state, actor);
    if audits_zone(alloc, state, &mut actor, policy)? {
        return Ok(true);
    }
    may_in_part(alloc, state, &mut actor, policy)
}
