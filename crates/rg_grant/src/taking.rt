// What a row takes from the items of a policy.
ghost use Rattle.std.specs.Prelude.{◌≡◌, ◌∷◌, ◌++◌, [], IfOk, OnOk, filter};
ghost use Rattle.rg_base.specs.Listed.{Listed, listed};
ghost use Rattle.rg_policy.specs.declared.policy.Item.{Item};
ghost use Rattle.rg_grant.specs.Taking.{entries_left, items_left, named_part, others_part, parted, parts_left, says_something, with_subjects};

use crate::row::GrantRow;
use rg_base::{NoMemory, Seq, Text, TryCopy, is_among};
use rg_policy::{AccessEntry, Item};
use std::alloc::Global;

/// Copies of those texts that are among the names, or else of those that aren't.
fn parted(
    alloc: Global,
    named: bool,
    names: &Seq<Text>,
    texts: &Seq<Text>,
) -> Result<Seq<Text>, NoMemory>
    ensures { IfOk result (λ kept. kept ≡ listed (parted named names.now.items texts.now.items)) }
{
    let mut kept = Seq::new(alloc);
    for text in texts.as_slice() {
        if is_among(text.as_str(), names.as_slice()) == named {
            kept.add(text.try_copy(alloc)?)?;
        }
    }
    Ok(kept)
}

/// Copies of those entries whose access type the row doesn't name.
fn entries_left(
    alloc: Global,
    row: &GrantRow,
    entries: &[AccessEntry],
) -> Result<Seq<AccessEntry>, NoMemory>
    ensures { IfOk result (λ left. left ≡ listed (entries_left row.now entries.now)) }
{
    let mut left = Seq::new(alloc);
    for entry in entries {
        if !is_among(entry.access.as_str(), row.accesses.as_slice()) {
            left.add(entry.try_copy(alloc)?)?;
        }
    }
    Ok(left)
}

/// The item with those of its subjects that the row names, or else with those that it doesn't name, and with these entries.
fn part_of(
    alloc: Global,
    row: &GrantRow,
    item: &Item,
    named: bool,
    accesses: Seq<AccessEntry>,
) -> Result<Item, NoMemory>
    ensures { IfOk result
        (λ part. part ≡ record (with_subjects named row.now item.now) { accesses = accesses }) }
{
    Ok(Item {
        accesses,
        users: parted(alloc, named, &row.users, &item.users)?,
        groups: parted(alloc, named, &row.groups, &item.groups)?,
        roles: parted(alloc, named, &row.roles, &item.roles)?,
        conditions: item.conditions.try_copy(alloc)?,
        delegate: item.delegate,
        mask: item.mask.try_copy(alloc)?,
        filter: item.filter.try_copy(alloc)?,
    })
}

#[tactic(auto, unfolding(crate::specs::Taking::others_part))]
fn others_part(alloc: Global, row: &GrantRow, item: &Item) -> Result<Item, NoMemory>
    ensures { IfOk result (λ part. part ≡ others_part row.now item.now) }
{
    let accesses = item.accesses.try_copy(alloc)?;
    part_of(alloc, row, item, false, accesses)
}

#[tactic(auto, unfolding(crate::specs::Taking::named_part))]
fn named_part(alloc: Global, row: &GrantRow, item: &Item) -> Result<Item, NoMemory>
    ensures { IfOk result (λ part. part ≡ named_part row.now item.now) }
{
    let accesses = entries_left(alloc, row, item.accesses.as_slice())?;
    part_of(alloc, row, item, true, accesses)
}

/// Whether it has a subject and an entry.
fn says_something(item: &Item) -> bool
    ensures { result ≡ says_something item.now }
{
    (!item.users.is_empty() || (!item.groups.is_empty() || !item.roles.is_empty()))
        && !item.accesses.is_empty()
}

/// Adds the part, unless it has no subject or no entry.
fn add_part(left: &mut Seq<Item>, part: Item) -> Result<(), NoMemory>
    requires { left.old ≡ listed left.old.items }
    ensures { OnOk result
        (left.new ≡ listed (left.old.items ++ filter says_something (part ∷ []))) }
{
    if says_something(&part) {
        left.add(part)
    } else {
        drop(part);
        Ok(())
    }
}

/// Adds what is left of an item.
fn add_parts(
    alloc: Global,
    row: &GrantRow,
    item: &Item,
    left: &mut Seq<Item>,
) -> Result<(), NoMemory>
    requires { left.old ≡ listed left.old.items }
    ensures { OnOk result (left.new ≡ listed (left.old.items ++ parts_left row.now item.now)) }
{
    let others = others_part(alloc, row, item)?;
    add_part(left, others)?;
    let named = named_part(alloc, row, item)?;
    add_part(left, named)
}

/// What the row leaves of the items.
pub(crate) fn items_left(
    alloc: Global,
    row: &GrantRow,
    items: &[Item],
) -> Result<Seq<Item>, NoMemory>
    ensures { IfOk result (λ left. left ≡ listed (items_left row.now items.now)) }
{
    let mut left = Seq::new(alloc);
    for item in items {
        add_parts(alloc, row, item, &mut left)?;
    }
    Ok(left)
}
