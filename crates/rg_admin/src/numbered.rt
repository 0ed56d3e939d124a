// Policies and tag rows, which have ids, changed in place.
ghost use Rattle.std.specs.Prelude.{◌≡◌, ◌<◌, IfSome, OnErr, OnOk, length, option_and_then, position, slice_get, true};
ghost use Rattle.std.specs.Ordering.{int_eq};
ghost use Rattle.rg_base.specs.Texts.{all_distinct};
ghost use Rattle.rg_cmd.specs.Lookups.{has_id, has_row_id};
ghost use Rattle.rg_cmd.specs.declared.ask.AdminCommand.TheVariants.{CreatePolicy, DeletePolicy, DeleteTags, PutTags, UpdatePolicy};
ghost use Rattle.rg_admin_laws.specs.Changes.{after_command, stored_row, version_after};
ghost use Rattle.rg_admin.specs.Tight.{IsTightList};
ghost use Rattle.rg_policy.specs.declared.policy.Policy.{Policy};
ghost use Rattle.rg_tags.specs.declared.row.TagRow.{TagRow};

use crate::lists::{append, put_at, take_away};
use rg_base::{NoMemory, PolicyId, Seq, Version};
use rg_cmd::State;
use rg_policy::Policy;
use rg_shared::Shared;
use rg_tags::TagRow;
use rg_validate::place_of_policy;
use std::alloc::Global;

/// The place of the policy of this id.
fn place_of(policies: &Seq<Shared<Policy>>, id: PolicyId) -> Option<usize>
    requires { all_distinct (λ (p q : Policy). int_eq p.id.0 q.id.0) policies.now.items ≡ true }
    ensures first { result ≡ position (has_id id.0) policies.now.items }
    ensures within { IfSome result (λ p. p < length policies.now.items) }
{
    place_of_policy(policies.as_slice(), id)
}

/// The policy as it is created.
fn created(policy: Policy, id: i64) -> Policy
    ensures { result ≡ record policy { id = record { 0 = id }; version = record { 0 = 1 } } }
{
    let mut policy = policy;
    policy.id = PolicyId(id);
    policy.version = Version(1);
    policy
}

/// Adds the policy under the next id.
pub(crate) fn create_policy(
    alloc: Global,
    state: &mut State,
    policy: Policy,
) -> Result<(), NoMemory>
    requires { state.old.policies.spare ≡ 0 }
    ensures ok { OnOk result (state.new ≡ after_command state.old (CreatePolicy policy)) }
    ensures err { OnErr result (state.new ≡ state.old) }
{
    let stored = Shared::new(alloc, created(policy, state.next_id))?;
    append(&mut state.policies, stored)?;
    state.next_id = state.next_id.saturating_add(1);
    Ok(())
}

/// One more than the version of the policy at the place, where one is given.
fn version_after(policies: &Seq<Shared<Policy>>, place: Option<usize>) -> Version
    requires { IfSome place (λ p. p < length policies.now.items) }
    ensures { result ≡ version_after (option_and_then (slice_get policies.now.items) place) }
{
    match place {
        Some(place) => Version(policies.as_slice()[place].version.0.saturating_add(1)),
        None => Version(1),
    }
}

/// The policy as it is stored.
fn updated(policy: Policy, version: Version) -> Policy
    ensures { result ≡ record policy { version = version } }
{
    let mut policy = policy;
    policy.version = version;
    policy
}

/// Puts the policy in the place of the one of its id.
pub(crate) fn update_policy(
    alloc: Global,
    state: &mut State,
    policy: Policy,
) -> Result<(), NoMemory>
    requires { IsTightList (λ (p q : Policy). int_eq p.id.0 q.id.0) state.old.policies }
    ensures ok { OnOk result (state.new ≡ after_command state.old (UpdatePolicy policy)) }
    ensures err { OnErr result (state.new ≡ state.old) }
{
    let place = place_of(&state.policies, policy.id);
    let version = version_after(&state.policies, place);
    let stored = Shared::new(alloc, updated(policy, version))?;
    put_at(alloc, &mut state.policies, place, stored)
}

/// Takes the policy away.
pub(crate) fn delete_policy(alloc: Global, state: &mut State, id: PolicyId)
    requires { IsTightList (λ (p q : Policy). int_eq p.id.0 q.id.0) state.old.policies }
    ensures { state.new ≡ after_command state.old (DeletePolicy id) }
{
    let place = place_of(&state.policies, id);
    take_away(alloc, &mut state.policies, place);
}

fn has_row_id(row: &TagRow, id: i64) -> bool
    ensures { result ≡ has_row_id id row.now }
{
    row.id == id
}

/// The place of the first tag row of this id.
fn place_of_row(rows: &Seq<TagRow>, id: i64) -> Option<usize>
    ensures first { result ≡ position (has_row_id id) rows.now.items }
    ensures within { IfSome result (λ p. p < length rows.now.items) }
{
    let mut rows = rows.as_slice().iter();
    rows.position(|row| has_row_id(row, id))
}

/// The tag row as it is stored.
fn stored(row: TagRow, id: i64) -> TagRow
    ensures { result ≡ stored_row id row }
{
    let mut row = row;
    row.id = id;
    row
}

/// Puts the tag row in the place of the one of this id, or else at the end.
pub(crate) fn put_tags(
    alloc: Global,
    state: &mut State,
    id: i64,
    row: TagRow,
) -> Result<(), NoMemory>
    requires { IsTightList (λ (a b : TagRow). int_eq a.id b.id) state.old.tag_rows }
    ensures ok { OnOk result (state.new ≡ after_command state.old (PutTags id row)) }
    ensures err { OnErr result (state.new ≡ state.old) }
{
    let place = place_of_row(&state.tag_rows, id);
    put_at(alloc, &mut state.tag_rows, place, stored(row, id))
}

/// Takes the tag row away.
pub(crate) fn delete_tags(alloc: Global, state: &mut State, id: i64)
    requires { IsTightList (λ (a b : TagRow). int_eq a.id b.id) state.old.tag_rows }
    ensures { state.new ≡ after_command state.old (DeleteTags id) }
{
    let place = place_of_row(&state.tag_rows, id);
    take_away(alloc, &mut state.tag_rows, place);
}
