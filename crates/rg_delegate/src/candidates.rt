// The policies that delegate to an actor.
ghost use Rattle.std.specs.Prelude.{◌≡◌, IfOk, None, map};
ghost use Rattle.std.specs.List.{list_any};
ghost use Rattle.std.specs.Str.{chars};
ghost use Rattle.rg_delegate.specs.Compiled.{under};
ghost use Rattle.rg_delegate.specs.Found.{FitUnder, candidates, delegates_anything, delegations, is_candidate};
ghost use Rattle.rg_delegate.specs.Ready.{IsReady};

use crate::actor::Actor;
use crate::delegation::{ReadPolicy, delegates};
use rg_base::{NoMemory, Text, same_text};
use rg_cmd::{State, def_of};
use rg_defs::ServiceDef;
use rg_policy::{ACCESS_POLICY, Item, Policy};
use rg_shared::Shared;
use std::alloc::Global;
use std::marker::Model;

/// Whether the item delegates to the actor.
fn delegates_anything(alloc: Global, actor: &mut Actor, item: &Item) -> Result<bool, NoMemory>
    ensures same { actor.new ≡ actor.old }
    ensures answer { IfOk result (λ b. b ≡ delegates_anything actor.old item.now) }
{
    if !item.delegate {
        return Ok(false);
    }
    let subjects = delegates(actor.name, item);
    actor.is_named(alloc, &subjects)
}

/// Whether one of the items does.
fn some_delegates(alloc: Global, actor: &mut Actor, items: &[Item]) -> Result<bool, NoMemory>
    ensures same { actor.new ≡ actor.old }
    ensures answer { IfOk result (λ b. b ≡ list_any (delegates_anything actor.old) items.now) }
{
    for item in items {
        if delegates_anything(alloc, actor, item)? {
            return Ok(true);
        }
    }
    Ok(false)
}

/// Whether the policy is one of the service that is enabled, gives access, and delegates to the actor. Texts are compared
/// before items are gone over.
fn is_candidate(
    alloc: Global,
    actor: &mut Actor,
    service: &str,
    policy: &Policy,
) -> Result<bool, NoMemory>
    ensures same { actor.new ≡ actor.old }
    ensures answer { IfOk result (λ b. b ≡ is_candidate (chars service.now) actor.old policy.now) }
{
    if !policy.enabled || policy.policy_type != ACCESS_POLICY {
        return Ok(false);
    }
    if !same_text(policy.service.as_str(), service) {
        return Ok(false);
    }
    some_delegates(alloc, actor, policy.items.as_slice())
}

/// Those of the policies that are of the service, are enabled, give access, and delegate to the actor, each read once.
fn candidates<'a>(
    alloc: Global,
    actor: &mut Actor,
    def: &'a ServiceDef,
    service: &str,
    policies: &'a [Shared<Policy>],
) -> Result<Vec<ReadPolicy<'a>>, NoMemory>
    requires fit { FitUnder def.now (chars service.now) policies.now }
    ensures same { actor.new ≡ actor.old }
    ensures answer { IfOk result (λ v. v.items
        ≡ map (under def.now) (candidates (chars service.now) actor.old policies.now)) }
{
    let mut found = Vec::new(alloc);
    for policy in policies {
        let policy: &Policy = policy;
        if is_candidate(alloc, actor, service, policy)? {
            let policy = ReadPolicy::of(alloc, def, policy)?;
            found.push(policy)?;
        }
    }
    Ok(found)
}

/// What policies of one service delegate to an actor: the definition of the service, and those of its policies that are
/// enabled, give access, and delegate to the actor.
#[derive(Drop)]
pub(crate) struct Delegated<'a> {
    pub def: &'a ServiceDef,
    pub policies: Vec<ReadPolicy<'a>>,
}

impl<'a> Model for Delegated<'a> {
    ghost use Rattle.rg_delegate.specs.Found as the;

    ghost Value = { the.Delegated };

    ghost view = { λ d. record { def = d.def.now; policies = d.policies.items } };
}

/// What policies of the service delegate to the actor, where it has a definition.
pub(crate) fn delegations<'a>(
    alloc: Global,
    state: &'a State,
    actor: &mut Actor,
    service: &Text,
) -> Result<Option<Delegated<'a>>, NoMemory>
    requires ready { IsReady state.now }
    ensures same { actor.new ≡ actor.old }
    ensures answer { IfOk result (λ d. d ≡ delegations state.now service.now actor.old) }
{
    let Some(def) = def_of(state, service) else {
        return Ok(None);
    };
    let policies = state.policies.as_slice();
    let found = candidates(alloc, actor, def, service.as_str(), policies)?;
    Ok(Some(Delegated {
        def,
        policies: found,
    }))
}
