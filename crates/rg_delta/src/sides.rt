// The lists that deltas change.
ghost use Rattle.std.specs.Prelude.{◌≡◌, IfOk, OnOk, fold, map, false, true};
ghost use Rattle.rg_base.specs.Listed.{listed};
ghost use Rattle.rg_delta.specs.Applied.{policies_after, rows_after, tag_policies_after, unless_new};
ghost use Rattle.rg_delta.specs.Editing.{edited};
ghost use Rattle.rg_delta.specs.Sides.{edits_with, row_edit};

use crate::apply::apply_edits;
use crate::edit::{Edit, Identified};
use rg_base::{NoMemory, Seq, TryCopy};
use rg_cmd::{PolicyChange, TagChange};
use rg_policy::Policy;
use rg_shared::Shared;
use rg_tags::TagRow;
use std::alloc::Global;
use std::mem;

/// The changes of the service's own policies, or of its tag service's.
#[tactic(auto, using(crate::proofs::Sided::edits_next))]
pub fn policy_edits<'a>(
    alloc: Global,
    changes: &'a [PolicyChange],
    tag: bool,
) -> Result<Vec<Edit<'a, Shared<Policy>>>, NoMemory>
    ensures { IfOk result (λ edits. edits.items ≡ edits_with tag changes.now) }
{
    let mut edits = Vec::new(alloc);
    for change in changes {
        if change.tag == tag {
            edits.push(Edit {
                change_type: change.change_type,
                item: &change.policy,
            })?;
        }
    }
    Ok(edits)
}

/// The changes of tag rows.
#[tactic(auto, using(crate::proofs::Sided::row_edits_next))]
pub fn row_edits<'a>(
    alloc: Global,
    changes: &'a [TagChange],
) -> Result<Vec<Edit<'a, TagRow>>, NoMemory>
    ensures { IfOk result (λ edits. edits.items ≡ map row_edit changes.now) }
{
    let mut edits = Vec::new(alloc);
    for change in changes {
        edits.push(Edit {
            change_type: change.change_type,
            item: &change.row,
        })?;
    }
    Ok(edits)
}

/// The list after the edits.
fn edit_list<X: Identified + TryCopy + Drop>(
    alloc: Global,
    list: &mut Seq<X>,
    edits: &[Edit<X>],
) -> Result<(), NoMemory>
    ensures { OnOk result (list.new ≡ listed (fold (edited X.id_of) list.old.items edits.now)) }
{
    let items = mem::replace(list, Seq::new(alloc)).into_vec();
    let edited = apply_edits(alloc, items, edits)?;
    *list = Seq::from_vec(edited);
    Ok(())
}

/// The service's own policies after the changes.
#[tactic(auto, using(crate::proofs::Sided::own_edits))]
pub(crate) fn change_policies(
    alloc: Global,
    policies: &mut Seq<Shared<Policy>>,
    changes: &[PolicyChange],
) -> Result<(), NoMemory>
    ensures { OnOk result (policies.new
        ≡ listed (fold policies_after policies.old.items changes.now)) }
{
    let edits = policy_edits(alloc, changes, false)?;
    edit_list(alloc, policies, edits.as_slice())
}

/// The tag service's policies after the changes.
#[tactic(auto, using(crate::proofs::Sided::tag_edits))]
pub(crate) fn change_tag_policies(
    alloc: Global,
    policies: &mut Seq<Shared<Policy>>,
    changes: &[PolicyChange],
) -> Result<(), NoMemory>
    ensures { OnOk result (policies.new
        ≡ listed (fold tag_policies_after policies.old.items changes.now)) }
{
    let edits = policy_edits(alloc, changes, true)?;
    edit_list(alloc, policies, edits.as_slice())
}

/// The tag rows after the changes.
#[tactic(auto, using(crate::proofs::Sided::all_edits))]
pub(crate) fn change_rows(
    alloc: Global,
    rows: &mut Seq<TagRow>,
    changes: &[TagChange],
) -> Result<(), NoMemory>
    ensures { OnOk result (rows.new ≡ listed (fold rows_after rows.old.items changes.now)) }
{
    let edits = row_edits(alloc, changes)?;
    edit_list(alloc, rows, edits.as_slice())
}

/// The new list, where there is one.
pub(crate) fn replace_list<X: TryCopy + Drop>(
    alloc: Global,
    list: &mut Seq<X>,
    new: &Option<Seq<X>>,
) -> Result<(), NoMemory>
    ensures { OnOk result (list.new ≡ unless_new list.old new.now) }
{
    match new {
        Some(new) => {
            *list = new.try_copy(alloc)?;
        }
        None => {}
    }
    Ok(())
}
