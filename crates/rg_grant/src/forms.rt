// What a grant and a revoke make of a policy.
ghost use Rattle.std.specs.Prelude.{◌≡◌, IfOk, map};
ghost use Rattle.rg_base.specs.Listed.{listed};
ghost use Rattle.rg_grant.specs.Forms.{entry_of, grant_name, granted_form, granting_item, new_policy, revoked_form};

use crate::row::GrantRow;
use crate::taking::items_left;
use rg_base::{NoMemory, PolicyId, Seq, Text, TryCopy, Version};
use rg_policy::{ACCESS_POLICY, AccessEntry, Item, NORMAL, Policy};
use std::alloc::Global;

/// An allowed entry for each of the access types.
fn entries_of(alloc: Global, accesses: &[Text]) -> Result<Seq<AccessEntry>, NoMemory>
    ensures { IfOk result (λ entries. entries ≡ listed (map entry_of accesses.now)) }
{
    let mut entries = Seq::new(alloc);
    for access in accesses {
        let access = access.try_copy(alloc)?;
        entries.add(AccessEntry {
            access,
            allowed: true,
        })?;
    }
    Ok(entries)
}

/// The allow item of a grant.
#[tactic(auto, unfolding(crate::specs::Forms::granting_item))]
fn granting_item(alloc: Global, row: &GrantRow) -> Result<Item, NoMemory>
    ensures { IfOk result (λ item. item ≡ granting_item row.now) }
{
    Ok(Item {
        accesses: entries_of(alloc, row.accesses.as_slice())?,
        users: row.users.try_copy(alloc)?,
        groups: row.groups.try_copy(alloc)?,
        roles: row.roles.try_copy(alloc)?,
        conditions: Seq::new(alloc),
        delegate: row.delegate,
        mask: None,
        filter: None,
    })
}

/// The name of a policy that a grant creates.
#[tactic(auto, unfolding(crate::specs::Forms::grant_name))]
fn grant_name(alloc: Global, next_id: i64) -> Result<Text, NoMemory>
    ensures { IfOk result (λ name. name ≡ grant_name next_id) }
{
    let held = format!(in alloc; "grant-{next_id}")?;
    Ok(Text::of(held))
}

/// The policy that a grant creates.
#[tactic(auto, unfolding(crate::specs::Forms::new_policy))]
pub(crate) fn new_policy(alloc: Global, next_id: i64, row: &GrantRow) -> Result<Policy, NoMemory>
    ensures { IfOk result (λ policy. policy ≡ new_policy next_id row.now) }
{
    let mut items = Seq::new(alloc);
    items.add(granting_item(alloc, row)?)?;
    Ok(Policy {
        id: PolicyId(0),
        guid: Text::empty(alloc),
        version: Version(1),
        service: row.service.try_copy(alloc)?,
        name: grant_name(alloc, next_id)?,
        policy_type: ACCESS_POLICY,
        priority: NORMAL,
        resources: row.resources.try_copy(alloc)?,
        additional: Seq::new(alloc),
        conditions: Seq::new(alloc),
        items,
        deny_items: Seq::new(alloc),
        allow_exceptions: Seq::new(alloc),
        deny_exceptions: Seq::new(alloc),
        mask_items: Seq::new(alloc),
        filter_items: Seq::new(alloc),
        schedules: Seq::new(alloc),
        zone: row.zone.try_copy(alloc)?,
        deny_all_else: false,
        enabled: true,
        audited: true,
    })
}

/// The policy with one more allow item, and without what the row takes from its deny items and allow exceptions.
#[tactic(auto, unfolding(crate::specs::Forms::granted_form))]
pub(crate) fn granted_form(
    alloc: Global,
    row: &GrantRow,
    policy: &Policy,
) -> Result<Policy, NoMemory>
    ensures { IfOk result (λ form. form ≡ granted_form row.now policy.now) }
{
    let item = granting_item(alloc, row)?;
    let deny_items = items_left(alloc, row, policy.deny_items.as_slice())?;
    let allow_exceptions = items_left(alloc, row, policy.allow_exceptions.as_slice())?;
    let mut form = policy.try_copy(alloc)?;
    form.items.add(item)?;
    form.deny_items = deny_items;
    form.allow_exceptions = allow_exceptions;
    Ok(form)
}

/// The policy without what the row takes from its allow items.
#[tactic(auto, unfolding(crate::specs::Forms::revoked_form))]
pub(crate) fn revoked_form(
    alloc: Global,
    row: &GrantRow,
    policy: &Policy,
) -> Result<Policy, NoMemory>
    ensures { IfOk result (λ form. form ≡ revoked_form row.now policy.now) }
{
    let items = items_left(alloc, row, policy.items.as_slice())?;
    let mut form = policy.try_copy(alloc)?;
    form.items = items;
    Ok(form)
}
