// Slots with what is compiled, counted from 0.
ghost use Rattle.std.specs.Prelude.{◌≡◌, IfOk, OnOk, map, pos, sum_by, true};
ghost use Rattle.std.specs.List.{list_all};
ghost use Rattle.rg_policy_sets.specs.Bounds.{HasCompiled, WorkWithin};
ghost use Rattle.rg_policy_sets.specs.Kept.{placed_from};

use crate::held::Fileable;
use crate::moving::Compile;
use crate::slots::{Slot, ordinal_of};
use rg_base::{Ledger, NoMemory, Steps};
use std::alloc::Global;

/// The slot of this place, with what is compiled from the thing.
fn compile_slot<X, H: Fileable, C: Compile<X, H>, L: Ledger>(
    alloc: Global,
    compiler: &C,
    place: usize,
    item: &X,
    steps: &mut Steps<L>,
) -> Result<Slot<H>, NoMemory>
    requires { C.passes compiler.now item.now ≡ true }
    ensures slot { IfOk result
        (λ s. s ≡ record { ordinal = pos place; held = C.hold compiler.now item.now }) }
    ensures compiled { OnOk result (HasCompiled C.cost steps.old steps.new) }
    ensures steps { WorkWithin C.cost 0 steps.old steps.new }
{
    let ordinal = ordinal_of(place)?;
    let held = compiler.compile(alloc, item, steps)?;
    Slot::new(alloc, ordinal, held)
}

/// Slots with what is compiled from the things, in their order.
pub(crate) fn compile_slots<X, H: Fileable, C: Compile<X, H>, L: Ledger>(
    alloc: Global,
    compiler: &C,
    items: &[X],
    steps: &mut Steps<L>,
) -> Result<Vec<Slot<H>>, NoMemory>
    requires pass { list_all (C.passes compiler.now) items.now ≡ true }
    ensures slots { IfOk result
        (λ slots. slots.items ≡ placed_from 0 (map (C.hold compiler.now) items.now)) }
    ensures compiled { OnOk result
        (HasCompiled (sum_by (λ x. C.cost) items.now) steps.old steps.new) }
    ensures steps { WorkWithin (sum_by (λ x. C.cost) items.now) 0 steps.old steps.new }
{
    let mut slots = Vec::new(alloc);
    for (place, item) in items.iter().enumerate() {
        let slot = compile_slot(alloc, compiler, place, item, steps)?;
        slots.push(slot)?;
    }
    Ok(slots)
}
