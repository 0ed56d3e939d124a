// The policies that an actor is shown.
ghost use Rattle.std.specs.Prelude.{◌≡◌, ◌&&◌, IfOk, false, map, option_map};
ghost use Rattle.std.specs.List.{filter};
ghost use Rattle.std.specs.Str.{chars};
ghost use Rattle.rg_cmd.specs.Lookups.{is_of};
ghost use Rattle.rg_policy.specs.declared.policy.Policy.{Policy as Written};
ghost use Rattle.rg_delegate.specs.Authority.{is_admin, known, may_see};
ghost use Rattle.rg_delegate.specs.Found.{delegations};
ghost use Rattle.rg_delegate.specs.Listing.{seen_by};
ghost use Rattle.rg_delegate.specs.Ready.{Fits, IsReady};

use crate::actor::Actor;
use crate::authority::{administers_zone, audits_zone, is_admin, may_by_delegation};
use crate::candidates::{Delegated, delegations};
use rg_base::{NoMemory, Text, same_text};
use rg_cmd::State;
use rg_policy::Policy;
use rg_shared::Shared;
use std::alloc::Global;

fn of_service<'a>(
    alloc: Global,
    policies: &'a [Shared<Policy>],
    service: &str,
) -> Result<Vec<&'a Shared<Policy>>, NoMemory>
    ensures { IfOk result
        (λ v. map (λ q. q.now) v.items ≡ filter (is_of (chars service.now)) policies.now) }
{
    let mut found = Vec::new(alloc);
    for policy in policies {
        if same_text(policy.service.as_str(), service) {
            found.push(policy)?;
        }
    }
    Ok(found)
}

/// Whether the policy is of the service and the actor, who is no administrator, may see it.
fn is_seen(
    alloc: Global,
    state: &State,
    service: &Text,
    delegated: Option<&Delegated>,
    actor: &mut Actor,
    policy: &Policy,
) -> Result<bool, NoMemory>
    requires ready { IsReady state.now }
    requires fits { Fits state.now policy.now }
    requires delegations { option_map (λ d. d.now) delegated
        ≡ delegations state.now service.now actor.old }
    requires actor { actor.old ≡ known state.now actor.old.name }
    requires no_admin { is_admin state.now actor.old.name ≡ false }
    ensures same { actor.new ≡ actor.old }
    ensures answer { IfOk result
        (λ b. b ≡ (is_of service.now policy.now && may_see state.now actor.old.name policy.now)) }
{
    if !same_text(policy.service.as_str(), service.as_str()) {
        return Ok(false);
    }
    if audits_zone(alloc, state, actor, policy)? {
        return Ok(true);
    }
    if administers_zone(alloc, state, actor, policy)? {
        return Ok(true);
    }
    may_by_delegation(alloc, state, delegated, actor, policy)
}

fn seen_in_part<'a>(
    alloc: Global,
    state: &'a State,
    service: &Text,
    actor: &mut Actor,
) -> Result<Vec<&'a Shared<Policy>>, NoMemory>
    requires ready { IsReady state.now }
    requires actor { actor.old ≡ known state.now actor.old.name }
    requires no_admin { is_admin state.now actor.old.name ≡ false }
    ensures { IfOk result
        (λ v. map (λ q. q.now) v.items ≡ seen_by state.now actor.old.name service.now) }
{
    let found = delegations(alloc, state, actor, service)?;
    let delegated = found.as_ref();
    let policies = state.policies.as_slice();
    let mut seen = Vec::new(alloc);
    for policy in policies {
        if is_seen(alloc, state, service, delegated, actor, policy)? {
            seen.push(policy)?;
        }
    }
    Ok(seen)
}

/// The policies of the service that the actor may see (rule A5), in the order of the state, which is that of their ids
/// where policies were created one after the other. The state is a valid one. The policies that delegate to the actor are
/// looked for, and read, once.
pub fn policies_seen<'a>(
    alloc: Global,
    state: &'a State,
    actor: &str,
    service: &Text,
) -> Result<Vec<&'a Shared<Policy>>, NoMemory>
    requires { IsReady state.now }
    ensures { IfOk result
        (λ v. map (λ q. q.now) v.items ≡ seen_by state.now (chars actor.now) service.now) }
{
    if is_admin(state, actor) {
        return of_service(alloc, state.policies.as_slice(), service.as_str());
    }
    let mut actor = Actor::of(state, actor);
    seen_in_part(alloc, state, service, &mut actor)
}
