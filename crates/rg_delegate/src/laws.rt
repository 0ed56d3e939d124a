// Laws of authority, each the contract of a function that does nothing.
ghost use Rattle.std.specs.Prelude.{◌≡◌, ◌++◌, ◌∷◌, ℕ, Bool, List, Contains, None, Some, filter, true};
ghost use Rattle.rg_base.specs.Listed.{listed};
ghost use Rattle.rg_cmd.specs.declared.ask.Ask.{Ask as Asks};
ghost use Rattle.rg_cmd.specs.declared.state.State.{State as Held};
ghost use Rattle.rg_defs.specs.declared.service_def.ServiceDef.{ServiceDef as Definition};
ghost use Rattle.rg_policy.specs.Maps.{maps_of};
ghost use Rattle.rg_policy.specs.declared.policy.Item.{Item as Entry};
ghost use Rattle.rg_policy.specs.declared.policy.Policy.{Policy as Written};
ghost use Rattle.rg_policy.specs.declared.request.Element.{Element as Asked};
ghost use Rattle.rg_resmatch.specs.Rules.{policy_levels_fit};
ghost use Rattle.rg_resmatch.specs.Tests.{some_lies};
ghost use Rattle.rg_resmatch.specs.declared.reach.Reach.TheVariants.{Exact};
ghost use Rattle.rg_delegate.specs.Accesses.{accesses};
ghost use Rattle.rg_delegate.specs.Authority.{is_admin, may, may_delegate, may_see};
ghost use Rattle.rg_delegate.specs.Covering.{policy_covers};
ghost use Rattle.rg_delegate.specs.Laws.{every_resource, excludes_by_wildcards, with_item, writes_star};
ghost use Rattle.rg_delegate.specs.Listing.{by_id, ids_rise, policies_for, seen_by};
ghost use Rattle.rg_cmd.specs.Lookups.{def_of};
ghost use Rattle.rg_delegate.specs.Ready.{IsReady};
ghost use Rattle.rg_delegate.specs.Rules.{authority_fault};

use rg_pattern::{covers_is_decided, covers_keeps_stands};
use rg_resmatch::hit_is_decided;

/// An administrator may administer and see every policy, and breaks no rule of authority.
pub fn administrators_may_everything()
    ensures administer { (s : Held) (actor : List ℕ) (p : Written)
        → is_admin s actor ≡ true → may s actor p ≡ true }
    ensures see { (s : Held) (actor : List ℕ) (p : Written)
        → is_admin s actor ≡ true → may_see s actor p ≡ true }
    ensures ask { (s : Held) (ask : Asks)
        → is_admin s ask.actor ≡ true → authority_fault s ask ≡ None }
{}

/// One more allow item of a policy takes from nobody the authority over any form of a policy.
pub fn more_delegation_keeps_authority()
    ensures { (s : Held) (before after : List Written) (q : Written)
        (item : Entry) (actor : List ℕ) (p : Written) → s.policies.items ≡ before ++ q ∷ after
        → may s actor p ≡ true → may (record s { policies = listed (before ++ with_item q item ∷ after) }) actor p ≡ true }
{}

/// In a state that is ready, who may administer a policy may administer another one of its service and zone that it
/// covers and that has no other accesses. It takes that the delegating policies write `*`, and not `**`, for all values:
/// an excluding level, and one that a policy lacks, is covered by the written `*` alone.
pub fn covered_policy_may_be_administered()
    ensures { (s : Held) (actor : List ℕ) (p other : Written) (def : Definition)
        → IsReady s → def_of s p.service ≡ Some def
        → ((q : Written) → Contains s.policies.items q → may_delegate p q ≡ true → every_resource (writes_star def) q ≡ true)
        → other.service ≡ p.service → other.zone ≡ p.zone → policy_covers def p other ≡ true
        → ((access : List ℕ) → Contains (accesses def other) access → Contains (accesses def p) access)
        → may s actor p ≡ true → may s actor other ≡ true }
{
    covers_is_decided();
}

/// Where a policy covers another one, its maps lie on each resource on which those of the other lie, whoever asks. It
/// takes that the policy passes rule V5 and writes `*`, and not `**`, for all values; and that the levels that the other
/// policy excludes have wildcards, since on others `*` is no more than this text, and yet covers what is left open.
pub fn covering_policy_lies_on_all()
    ensures { (def : Definition) (q p : Written) (elements : List Asked) (user : List ℕ)
        → policy_levels_fit def q ≡ true
        → every_resource (writes_star def) q ≡ true → every_resource (excludes_by_wildcards def) p ≡ true → policy_covers def q p ≡ true
        → some_lies def (maps_of p) Exact elements user ≡ true → some_lies def (maps_of q) Exact elements user ≡ true }
{
    covers_is_decided();
    covers_keeps_stands();
    hit_is_decided();
}

/// Where the ids of a state's policies rise, the policies that an actor sees stand in the order of their ids as they are.
pub fn rising_ids_are_in_order()
    ensures any { (keep : Written → Bool) (policies : List Written)
        → ids_rise policies ≡ true → by_id (filter keep policies) ≡ filter keep policies }
    ensures seen { (s : Held) (actor service : List ℕ) → ids_rise s.policies.items ≡ true
        → policies_for s actor service ≡ seen_by s actor service }
{}
