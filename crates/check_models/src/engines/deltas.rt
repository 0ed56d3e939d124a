// Made-up deltas, which lead facts towards other ones.
ghost use Rattle.std.specs.Prelude.{◌≡◌, ◌≤◌, IfOk};

use super::texts::{POLICY_IDS, ROW_IDS, TAG_POLICY_IDS};
use crate::deltas::Deltas;
use crate::draws::Draw;
use rg_base::{NoMemory, Seq, TryCopy, Version};
use rg_cmd::{
    CREATED, DELETED, PolicyChange, PolicyDelta, RoleDelta, TagChange, TagDelta, UPDATED,
};
use rg_facts::Facts;
use rg_policy::Policy;
use rg_shared::Shared;
use std::alloc::Global;

/// The next version.
fn after(version: Version) -> Version
    ensures { version.0 ≤ result.0 }
{
    Version(version.0.saturating_add(1))
}

/// How a row changes that was there or not, and is among the others or not. One that is new is created; any other is updated or
/// deleted only where it is its turn.
fn fate_of(was_there: bool, is_there: bool, its_turn: bool) -> Option<u8> {
    match (was_there, is_there) {
        (false, true) => Some(CREATED),
        (true, true) if its_turn => Some(UPDATED),
        (true, false) if its_turn => Some(DELETED),
        _ => None,
    }
}

fn policy_of(policies: &Seq<Shared<Policy>>, id: i64) -> Option<&Shared<Policy>> {
    policies.as_slice().iter().find(|policy| policy.id.0 == id)
}

/// Adds the changes of policies, or of tag policies.
fn change_policies(
    alloc: Global,
    changes: &mut Seq<PolicyChange>,
    tag: bool,
    ids: (u32, u32),
    before: &Seq<Shared<Policy>>,
    other: &Seq<Shared<Policy>>,
    draw: Draw,
) -> Result<(), NoMemory> {
    for id in ids.0..ids.1 {
        let old = policy_of(before, i64::from(id));
        let new = policy_of(other, i64::from(id));
        let its_turn = draw.once_in(u64::from(id), 2);
        let fate = fate_of(old.is_some(), new.is_some(), its_turn);
        if let (Some(change_type), Some(policy)) = (fate, new.or(old)) {
            changes.add(PolicyChange {
                change_type,
                tag,
                policy: policy.try_copy(alloc)?,
            })?;
        }
    }
    Ok(())
}

fn changes_of_rows(
    alloc: Global,
    before: &Facts,
    other: &Facts,
    draw: Draw,
) -> Result<Seq<TagChange>, NoMemory> {
    let mut changes = Seq::new(alloc);
    for id in ROW_IDS.0..ROW_IDS.1 {
        let mut olds = before.tag_rows.as_slice().iter();
        let mut news = other.tag_rows.as_slice().iter();
        let old = olds.find(|row| row.id == i64::from(id));
        let new = news.find(|row| row.id == i64::from(id));
        let its_turn = draw.once_in(u64::from(id), 2);
        let fate = fate_of(old.is_some(), new.is_some(), its_turn);
        if let (Some(change_type), Some(row)) = (fate, new.or(old)) {
            changes.add(TagChange {
                change_type,
                row: row.try_copy(alloc)?,
            })?;
        }
    }
    Ok(changes)
}

/// Every other delta has the other facts' zones.
fn policy_delta(
    alloc: Global,
    before: &Facts,
    other: &Facts,
    draw: Draw,
) -> Result<PolicyDelta, NoMemory>
    ensures { IfOk result (λ d. d.from.0 ≤ d.to.0) }
{
    let mut changes = Seq::new(alloc);
    change_policies(
        alloc,
        &mut changes,
        false,
        POLICY_IDS,
        &before.policies,
        &other.policies,
        draw.part(0),
    )?;
    change_policies(
        alloc,
        &mut changes,
        true,
        TAG_POLICY_IDS,
        &before.tag_policies,
        &other.tag_policies,
        draw.part(1),
    )?;
    let zones = if draw.once_in(3, 2) {
        Some(other.zones.try_copy(alloc)?)
    } else {
        None
    };
    Ok(PolicyDelta {
        from: before.policy_version,
        to: after(before.policy_version),
        changes,
        zones,
    })
}

/// Every other delta has the other facts' roles.
fn role_delta(
    alloc: Global,
    before: &Facts,
    other: &Facts,
    draw: Draw,
) -> Result<RoleDelta, NoMemory>
    ensures { IfOk result (λ d. d.from.0 ≤ d.to.0) }
{
    let roles = if draw.once_in(4, 2) {
        Some(other.roles.try_copy(alloc)?)
    } else {
        None
    };
    Ok(RoleDelta {
        from: before.role_version,
        to: after(before.role_version),
        roles,
    })
}

/// What leads these facts towards the other ones.
pub(crate) fn deltas_towards(
    alloc: Global,
    before: &Facts,
    other: &Facts,
    draw: Draw,
) -> Result<Deltas, NoMemory>
    ensures policies { IfOk result (λ d. d.policies.from.0 ≤ d.policies.to.0) }
    ensures tags { IfOk result (λ d. d.tags.from.0 ≤ d.tags.to.0) }
    ensures roles { IfOk result (λ d. d.roles.from.0 ≤ d.roles.to.0) }
{
    let policies = policy_delta(alloc, before, other, draw)?;
    let changes = changes_of_rows(alloc, before, other, draw.part(2))?;
    let roles = role_delta(alloc, before, other, draw)?;
    Ok(Deltas {
        policies,
        tags: TagDelta {
            from: before.tag_version,
            to: after(before.tag_version),
            changes,
        },
        roles,
    })
}
