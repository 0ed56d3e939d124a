// The plans of changes of policies and tag rows.
ghost use Rattle.std.specs.Prelude.{◌≡◌, IfOk, map};
ghost use Rattle.rg_delta.specs.Sides.{row_edit};
ghost use Rattle.rg_policy_sets.specs.Kept.{policies_in, row_source_form, rows_in, source_form};
ghost use Rattle.rg_policy_sets.specs.Moved.{edits_of, plan_on, policy_id, row_id};
ghost use Rattle.rg_policy_sets.specs.Plan.{plan_of};

use crate::held::{HeldPolicy, HeldRow};
use crate::pages::Slots;
use crate::plan::{Plan, plan_of};
use rg_base::NoMemory;
use rg_cmd::{PolicyChange, TagChange};
use rg_delta::{Edit, policy_edits, row_edits};
use rg_evalr::Side;
use rg_policy::Policy;
use rg_shared::Shared;
use rg_tags::TagRow;
use std::alloc::Global;

/// The changes of the policies of the side.
#[tactic(auto, using(crate::proofs::Siding::own_sided, crate::proofs::Siding::tag_sided))]
fn edits_of<'a>(
    alloc: Global,
    side: Side,
    changes: &'a [PolicyChange],
) -> Result<Vec<Edit<'a, Shared<Policy>>>, NoMemory>
    ensures { IfOk result (λ edits. edits.items ≡ edits_of side changes.now) }
{
    match side {
        Side::Resource => policy_edits(alloc, changes, false),
        Side::Tag => policy_edits(alloc, changes, true),
    }
}

/// The plan of the changes of the policies of the side.
pub(crate) fn policy_plan<'a>(
    alloc: Global,
    side: Side,
    slots: &Slots<HeldPolicy>,
    changes: &'a [PolicyChange],
) -> Result<Plan<'a, Shared<Policy>>, NoMemory>
    ensures { IfOk result
        (λ p. plan_on source_form slots.now p
        ≡ plan_of policy_id (map policy_id (policies_in slots.now)) (edits_of side changes.now)) }
{
    let edits = edits_of(alloc, side, changes)?;
    plan_of(alloc, slots, &edits)
}

/// The plan of the changes of tag rows.
pub(crate) fn row_plan<'a>(
    alloc: Global,
    slots: &Slots<HeldRow>,
    changes: &'a [TagChange],
) -> Result<Plan<'a, TagRow>, NoMemory>
    ensures { IfOk result
        (λ p. plan_on row_source_form slots.now p
        ≡ plan_of row_id (map row_id (rows_in slots.now)) (map row_edit changes.now)) }
{
    let edits = row_edits(alloc, changes)?;
    plan_of(alloc, slots, &edits)
}
