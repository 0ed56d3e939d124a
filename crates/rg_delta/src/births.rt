// Which edits of a list add an item at its end.
ghost use Rattle.std.specs.Prelude.{◌≡◌, IfOk, List, OnOk};
ghost use Rattle.std.specs.BTreeMap.{get};
ghost use Rattle.std.specs.Ordering.{int_cmp};
ghost use Rattle.rg_delta.specs.Editing.{AreIds, births, edited, is_birth, is_marked};

use crate::by_id::{Id, set_at, value_at};
use crate::edit::{Edit, Identified};
use rg_base::NoMemory;
use rg_cmd::{CREATED, DELETED, UPDATED};
use std::alloc::Global;
use std::collections::BTreeMap;

/// The ids of the items, each marked.
fn ids_of<X: Identified>(alloc: Global, items: &[X]) -> Result<BTreeMap<i64, bool>, NoMemory>
    ensures { IfOk result (λ ids. AreIds X.id_of ids items.now) }
{
    let mut ids = BTreeMap::new(alloc);
    for item in items {
        set_at(&mut ids, item.id(), true)?;
    }
    Ok(ids)
}

fn is_there(ids: &BTreeMap<i64, bool>, id: Id) -> bool
    ensures { result ≡ is_marked (get int_cmp ids.now id.0) }
{
    match value_at(ids, id) {
        Some(there) => there,
        None => false,
    }
}

/// Whether the edit adds an item at the end of a list with these ids, which become those of the list after it.
fn follow<X: Identified>(ids: &mut BTreeMap<i64, bool>, edit: &Edit<X>) -> Result<bool, NoMemory>
    ensures ids { OnOk result ((items : List X) → AreIds X.id_of ids.old items
        → AreIds X.id_of ids.new (edited X.id_of items edit.now)) }
    ensures birth { IfOk result (λ birth. (items : List X)
        → AreIds X.id_of ids.old items → birth ≡ is_birth X.id_of items edit.now) }
{
    let id = edit.item.id();
    match edit.change_type {
        CREATED => {
            set_at(ids, id, true)?;
            Ok(true)
        }
        UPDATED => {
            let there = is_there(ids, id);
            set_at(ids, id, true)?;
            Ok(!there)
        }
        DELETED => {
            set_at(ids, id, false)?;
            Ok(false)
        }
        _ => Ok(false),
    }
}

/// Of each edit, whether it adds an item at the end: it creates one, or updates one that isn't there.
pub(crate) fn births<X: Identified>(
    alloc: Global,
    items: &[X],
    edits: &[Edit<X>],
) -> Result<Vec<bool>, NoMemory>
    ensures { IfOk result (λ marks. marks.items ≡ births X.id_of items.now edits.now) }
{
    let mut ids = ids_of(alloc, items)?;
    let mut marks = Vec::new(alloc);
    for edit in edits {
        let mark = follow(&mut ids, edit)?;
        marks.push(mark)?;
    }
    Ok(marks)
}
