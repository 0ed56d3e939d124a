// What becomes of the items of a list under edits, by their ids.
ghost use Rattle.std.specs.Prelude.{◌≡◌, ◌<◌, ◌+◌, ℤ, drop, IfOk, length, OnOk, reverse, None, if◌then◌else◌};
ghost use Rattle.std.specs.BTreeMap.{get};
ghost use Rattle.std.specs.List.{cons_option, filter_map};
ghost use Rattle.std.specs.Ordering.{int_cmp};
ghost use Rattle.rg_delta.specs.Editing.{AreFates, became, born, fate};
ghost use Rattle.rg_delta.specs.Fates.{fated};

use crate::by_id::{Id, set_at, value_at};
use crate::edit::{Edit, Identified};
use rg_base::{NoMemory, TryCopy};
use rg_cmd::{DELETED, UPDATED};
use std::alloc::Global;
use std::collections::BTreeMap;

/// What becomes of the items of an id: None where they are deleted, else the place of the last edit that replaces them.
/// An id without an entry is that of items which stay.
pub(crate) type Fates = BTreeMap<i64, Option<usize>>;

/// What becomes of an item.
#[derive(Drop)]
pub(crate) enum Fate<X> {
    Stays,
    Goes,
    Becomes(X),
}

/// Puts the edit at this place before those that the fates are of.
fn precede<X: Identified>(fates: &mut Fates, edits: &[Edit<X>], at: usize) -> Result<(), NoMemory>
    requires { at < length edits.now }
    ensures { OnOk result (AreFates X.id_of edits.now fates.old (drop (at + 1) edits.now)
        → AreFates X.id_of edits.now fates.new (drop at edits.now)) }
{
    let edit = &edits[at];
    let id = edit.item.id();
    match edit.change_type {
        UPDATED => match value_at(fates, id) {
            None => set_at(fates, id, Some(at)),
            Some(_) => Ok(()),
        },
        DELETED => set_at(fates, id, None),
        _ => Ok(()),
    }
}

/// What becomes of the items of an id. What replaces them is copied.
fn fate_of<X: Identified + TryCopy>(
    alloc: Global,
    fates: &Fates,
    edits: &[Edit<X>],
    id: Id,
) -> Result<Fate<X>, NoMemory>
    ensures { IfOk result (λ f. (item : X)
        → fated f item ≡ fate X.id_of edits.now (get int_cmp fates.now id.0) item) }
{
    match value_at(fates, id) {
        None => Ok(Fate::Stays),
        Some(None) => Ok(Fate::Goes),
        Some(Some(at)) => match edits.get(at) {
            None => Ok(Fate::Goes),
            Some(edit) => Ok(Fate::Becomes(edit.item.try_copy(alloc)?)),
        },
    }
}

/// Adds what becomes of the item, where it is marked.
fn add_born<X: Identified + TryCopy + Drop>(
    alloc: Global,
    fates: &Fates,
    edits: &[Edit<X>],
    item: &X,
    mark: bool,
    last_first: &mut Vec<X>,
) -> Result<(), NoMemory>
    ensures { OnOk result (reverse last_first.new.items ≡ cons_option
        (if mark then fate X.id_of edits.now (get int_cmp fates.now (X.id_of item.now)) item.now
        else None) (reverse last_first.old.items)) }
{
    if !mark {
        return Ok(());
    }
    match fate_of(alloc, fates, edits, item.id())? {
        Fate::Stays => last_first.push(item.try_copy(alloc)?)?,
        Fate::Goes => return Ok(()),
        Fate::Becomes(new) => last_first.push(new)?,
    }
    Ok(())
}

/// What becomes of items under the edits, and the items that the marked ones of them add, the last first.
pub(crate) fn fates_of<X: Identified + TryCopy + Drop>(
    alloc: Global,
    edits: &[Edit<X>],
    marks: &[bool],
) -> Result<(Fates, Vec<X>), NoMemory>
    requires { length marks.now ≡ length edits.now }
    ensures fates { IfOk result (λ r. AreFates X.id_of edits.now r.0 edits.now) }
    ensures born { IfOk result (λ r. reverse r.1.items ≡ born X.id_of edits.now marks.now) }
{
    let mut fates = BTreeMap::new(alloc);
    let mut last_first = Vec::new(alloc);
    for at in (0..edits.len()).rev() {
        let edit = &edits[at];
        let mark = marks[at];
        add_born(alloc, &fates, edits, edit.item, mark, &mut last_first)?;
        precede(&mut fates, edits, at)?;
    }
    Ok((fates, last_first))
}

/// What becomes of the items.
pub(crate) fn keep<X: Identified + TryCopy + Drop>(
    alloc: Global,
    items: Vec<X>,
    edits: &[Edit<X>],
    fates: &Fates,
) -> Result<Vec<X>, NoMemory>
    requires { AreFates X.id_of edits.now fates.now edits.now }
    ensures { IfOk result (λ kept. kept.items ≡ filter_map (became X.id_of edits.now) items.items) }
{
    let mut kept = Vec::new(alloc);
    for item in items {
        match fate_of(alloc, fates, edits, item.id())? {
            Fate::Stays => kept.push(item)?,
            Fate::Goes => {}
            Fate::Becomes(new) => kept.push(new)?,
        }
    }
    Ok(kept)
}
