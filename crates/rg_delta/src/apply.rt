// Changes applied to a list.
ghost use Rattle.std.specs.Prelude.{◌≡◌, ◌++◌, IfOk, OnOk, fold, reverse};
ghost use Rattle.rg_delta.specs.Editing.{edited};

use crate::births::births;
use crate::edit::{Edit, Identified};
use crate::fates::{fates_of, keep};
use rg_base::{NoMemory, TryCopy};
use std::alloc::Global;

/// Adds the items, of which the last comes first.
fn append_reversed<X: Drop>(list: &mut Vec<X>, last_first: Vec<X>) -> Result<(), NoMemory>
    ensures { OnOk result (list.new.items ≡ list.old.items ++ reverse last_first.items) }
{
    let mut left = last_first;
    while let Some(item) = left.pop() {
        list.push(item)?;
    }
    Ok(())
}

/// The list after the edits, in order. The work grows with the logarithm of their number, and for the rest as items and
/// edits together, however often an id stands in either.
pub(crate) fn apply_edits<X: Identified + TryCopy + Drop>(
    alloc: Global,
    items: Vec<X>,
    edits: &[Edit<X>],
) -> Result<Vec<X>, NoMemory>
    ensures { IfOk result (λ list. list.items ≡ fold (edited X.id_of) items.items edits.now) }
{
    if edits.is_empty() {
        return Ok(items);
    }
    let marks = births(alloc, items.as_slice(), edits)?;
    let (fates, born) = fates_of(alloc, edits, marks.as_slice())?;
    let mut list = keep(alloc, items, edits, &fates)?;
    append_reversed(&mut list, born)?;
    Ok(list)
}
