// The items by which policies that cover a policy delegate its accesses to an actor.
ghost use Rattle.std.specs.Prelude.{◌≡◌, ◌++◌, Contains, IfOk, None, map, true};
ghost use Rattle.std.specs.List.{filter};
ghost use Rattle.std.specs.Str.{chars};
ghost use Rattle.rg_resmatch.specs.Rules.{policy_levels_fit, policy_values_fit};
ghost use Rattle.rg_delegate.specs.Authority.{delegates, is_word, may_delegate};
ghost use Rattle.rg_delegate.specs.Compiled.{DefinedPolicy};
ghost use Rattle.rg_delegate.specs.Covering.{policy_covers};
ghost use Rattle.rg_delegate.specs.Found.{delegates_some, items_in, items_of};

use crate::accesses::is_wanted;
use crate::actor::Actor;
use crate::covering::maps_cover;
use crate::reading::{ReadMap, read_maps};
use rg_base::{NoMemory, same_text};
use rg_defs::ServiceDef;
use rg_items::Subjects;
use rg_policy::{ACCESS_POLICY, Item, Policy};
use std::alloc::Global;
use std::marker::Model;

/// A policy that passes V5 and V6 under the definition of its service, its maps read once.
#[derive(Drop)]
pub(crate) struct ReadPolicy<'a> {
    pub def: &'a ServiceDef,
    pub policy: &'a Policy,
    maps: Vec<ReadMap<'a>>,
}

impl<'a> Model for ReadPolicy<'a> {
    ghost use Rattle.rg_delegate.specs.Compiled.{DefinedPolicy, IsRead};

    ghost Value = { DefinedPolicy };

    ghost view = { λ p. record { def = p.def.now; policy = p.policy.now } };

    ghost invariant = { λ p. IsRead p.def.now p.policy.now p.maps.items };
}

impl<'a> ReadPolicy<'a> {
    pub(crate) fn of(
        alloc: Global,
        def: &'a ServiceDef,
        policy: &'a Policy,
    ) -> Result<ReadPolicy<'a>, NoMemory>
        requires levels { policy_levels_fit def.now policy.now ≡ true }
        requires values { policy_values_fit def.now policy.now ≡ true }
        ensures { IfOk result (λ p. p ≡ record { def = def.now; policy = policy.now }) }
    {
        let maps = read_maps(alloc, def, policy)?;
        Ok(ReadPolicy { def, policy, maps })
    }

    /// Whether it covers the other policy, which stands under the same definition.
    fn covers(&self, alloc: Global, other: &ReadPolicy) -> Result<bool, NoMemory>
        requires { other.now.def ≡ self.now.def }
        ensures { IfOk result
            (λ b. b ≡ policy_covers other.now.def self.now.policy other.now.policy) }
    {
        let covered = maps_cover(alloc, &self.maps, &other.maps)?;
        Ok(covered)
    }
}

/// Whether the name is that of a word that stands for users.
#[tactic(auto, using(crate::proofs::Words::words))]
fn is_word(name: &str) -> bool
    ensures { result ≡ is_word (chars name.now) }
{
    same_text(name, "{USER}") || same_text(name, "{OWNER}")
}

/// Whom the item delegates to.
pub(crate) fn delegates<'a>(actor: &str, item: &'a Item) -> Subjects<'a>
    ensures { result ≡ delegates (chars actor.now) item.now }
{
    let users = if is_word(actor) {
        &[]
    } else {
        item.users.as_slice()
    };
    Subjects {
        users,
        groups: item.groups.as_slice(),
        roles: item.roles.as_slice(),
    }
}

/// Whether the item delegates an access of the policy to the actor. The actor is looked for last.
fn delegates_some(
    alloc: Global,
    actor: &mut Actor,
    asked: &ReadPolicy,
    item: &Item,
) -> Result<bool, NoMemory>
    ensures same { actor.new ≡ actor.old }
    ensures answer { IfOk result (λ b. b ≡ delegates_some asked.now actor.old item.now) }
{
    if !item.delegate || !is_wanted(asked.def, asked.policy, item.accesses.as_slice()) {
        return Ok(false);
    }
    let subjects = delegates(actor.name, item);
    actor.is_named(alloc, &subjects)
}

/// After these items those that do.
fn with_items<'a>(
    alloc: Global,
    mut found: Vec<&'a Item>,
    actor: &mut Actor,
    asked: &ReadPolicy,
    items: &'a [Item],
) -> Result<Vec<&'a Item>, NoMemory>
    ensures same { actor.new ≡ actor.old }
    ensures answer { IfOk result (λ v. map (λ item. item.now) v.items ≡ map (λ item. item.now)
        found.entry.items ++ filter (delegates_some asked.now actor.old) items.now) }
{
    for item in items {
        if delegates_some(alloc, actor, asked, item)? {
            found.push(item)?;
        }
    }
    Ok(found)
}

/// Whether `other` is enabled, gives access, and stands in the service and the zone of the policy.
fn may_delegate(policy: &Policy, other: &Policy) -> bool
    ensures { result ≡ may_delegate policy.now other.now }
{
    other.enabled
        && (other.policy_type == ACCESS_POLICY
            && (same_text(other.service.as_str(), policy.service.as_str())
                && same_text(other.zone.as_str(), policy.zone.as_str())))
}

/// After these items those of the other policy, where it covers the policy, by which it delegates an access of it.
fn with_policy<'a>(
    alloc: Global,
    found: Vec<&'a Item>,
    actor: &mut Actor,
    asked: &ReadPolicy,
    other: &ReadPolicy<'a>,
) -> Result<Vec<&'a Item>, NoMemory>
    requires { asked.now.def ≡ other.now.def }
    ensures same { actor.new ≡ actor.old }
    ensures answer { IfOk result (λ v. map (λ item. item.now) v.items ≡ map
        (λ item. item.now) found.entry.items ++ items_of asked.now actor.old other.now.policy) }
{
    if !may_delegate(asked.policy, other.policy) {
        return Ok(found);
    }
    if !other.covers(alloc, asked)? {
        return Ok(found);
    }
    with_items(alloc, found, actor, asked, other.policy.items.as_slice())
}

/// The items by which those of these policies that cover the policy delegate accesses of it to the actor.
pub(crate) fn delegating_items<'a>(
    alloc: Global,
    policies: &[ReadPolicy<'a>],
    actor: &mut Actor,
    asked: &ReadPolicy,
) -> Result<Vec<&'a Item>, NoMemory>
    requires { (q : DefinedPolicy) → Contains policies.now q → asked.now.def ≡ q.def }
    ensures same { actor.new ≡ actor.old }
    ensures answer { IfOk result (λ v. map (λ item. item.now) v.items
        ≡ items_in asked.now actor.old (map (λ q. q.policy) policies.now)) }
{
    let mut found = Vec::new(alloc);
    for policy in policies {
        found = with_policy(alloc, found, actor, asked, policy)?;
    }
    Ok(found)
}
