// How slots and their index move with a plan. Only what an edit puts into the list is compiled; all else is shared.
ghost use Rattle.std.specs.Prelude.{◌≡◌, ◌+◌, ◌++◌, [], ◌∷◌, Contains, IfOk, List, OnOk, length, map, option_to_list, pos, ◌+ℤ◌, sum_by, true, false, if◌then◌else◌};
ghost use Rattle.std.specs.List.{list_all, list_any};
ghost use Rattle.rg_index.specs.Changes.{form_fits, same_id};
ghost use Rattle.rg_index.specs.Filing.{EditsWithin, pairs};
ghost use Rattle.rg_index.specs.declared.form.Form.{Form};
ghost use Rattle.rg_policy_sets.specs.Bounds.{WorkWithin};
ghost use Rattle.rg_policy_sets.specs.Kept.{all_in, are_rising, held_in, is_filled, slot_form, slot_forms};
ghost use Rattle.rg_policy_sets.specs.Moved.{AreAmid, are_below, is_compiled, is_touched, moved_slot, moved_slots, places_of, plan_on};
ghost use Rattle.rg_policy_sets.specs.Plan.{is_kept, lost, made_in, put_at, put_there, standing};

use crate::held::Fileable;
use crate::pages::{Page, Paging};
use crate::plan::{Fate, Made, Place, Plan, fate_of};
use crate::shelf::Shelf;
use crate::slots::{Slot, form_of};
use rg_base::{Ledger, NoMemory, Steps};
use rg_defs::ServiceDef;
use rg_index::{Form, Index};
use std::alloc::Global;

/// What compiles the things that edits put into a list.
pub(crate) trait Compile<X, H> {
    ghost use Rattle.std.specs.Prelude.{◌≡◌, ℕ, Bool, IfOk, OnOk, true};
    ghost use Rattle.rg_policy_sets.specs.Bounds.{HasCompiled, WorkWithin};

    /// What is held of a thing.
    ghost hold: { Self → X → H };

    /// Whether the thing passes the rules.
    ghost passes: { Self → X → Bool };

    /// How many compiles are counted for one.
    ghost cost: { ℕ };

    fn compile<L: Ledger>(
        &self,
        alloc: Global,
        item: &X,
        steps: &mut Steps<L>,
    ) -> Result<H, NoMemory>
        requires passes { passes self.now item.now ≡ true }
        ensures held { IfOk result (λ h. h ≡ hold self.now item.now) }
        ensures compiled { OnOk result (HasCompiled cost steps.old steps.new) }
        ensures steps { WorkWithin cost 0 steps.old steps.new };
}

/// The index without this form.
fn without_form<L: Ledger>(
    alloc: Global,
    index: &Index,
    def: &ServiceDef,
    old: &Form,
    steps: &mut Steps<L>,
) -> Result<Index, NoMemory>
    requires same { def.now ≡ index.now.def }
    requires among { Contains index.now.forms old.now }
    ensures def { IfOk result (λ x. x.def ≡ def.now) }
    ensures forms { IfOk result (λ x. (before after : List Form)
        → index.now.forms ≡ before ++ old.now ∷ after → x.forms ≡ before ++ after) }
    ensures steps { EditsWithin (pairs def.now old.now) steps.old steps.new }
{
    index.law_of_forms();
    index.apply(alloc, def, Some(old), None, steps)
}

/// The index with the new form in the place of the old one, whose id it has.
fn with_form_for<L: Ledger>(
    alloc: Global,
    index: &Index,
    def: &ServiceDef,
    old: &Form,
    new: &Form,
    steps: &mut Steps<L>,
) -> Result<Index, NoMemory>
    requires same { def.now ≡ index.now.def }
    requires among { Contains index.now.forms old.now }
    requires id { new.now.id ≡ old.now.id }
    requires fit { form_fits def.now new.now ≡ true }
    ensures def { IfOk result (λ x. x.def ≡ def.now) }
    ensures forms { IfOk result (λ x. (before after : List Form)
        → index.now.forms ≡ before ++ old.now ∷ after → x.forms ≡ before ++ new.now ∷ after) }
    ensures steps { EditsWithin
        (pairs def.now old.now + pairs def.now new.now) steps.old steps.new }
{
    index.law_of_forms();
    index.apply(alloc, def, Some(old), Some(new), steps)
}

/// The index with one form more. No form has its id.
fn with_form<L: Ledger>(
    alloc: Global,
    index: &Index,
    def: &ServiceDef,
    new: &Form,
    steps: &mut Steps<L>,
) -> Result<Index, NoMemory>
    requires same { def.now ≡ index.now.def }
    requires free { list_any (same_id new.now) index.now.forms ≡ false }
    requires fit { form_fits def.now new.now ≡ true }
    ensures def { IfOk result (λ x. x.def ≡ def.now) }
    ensures forms { IfOk result (λ x. x.forms ≡ index.now.forms ++ new.now ∷ []) }
    ensures steps { EditsWithin (pairs def.now new.now) steps.old steps.new }
{
    index.apply(alloc, def, None, Some(new), steps)
}

/// Slots that have moved, and the index of the forms of all slots.
#[derive(Drop)]
struct Moving<H: Fileable> {
    slots: Paging<H>,
    index: Index,
}

/// An ordinal of slots.
#[derive(Clone, Copy)]
struct Ordinal(i64);

fn own_ordinal<H: Fileable>(slot: &Slot<H>) -> Ordinal
    ensures { result.0 ≡ slot.now.ordinal }
{
    Ordinal(slot.ordinal)
}

/// A slot with what is compiled from the thing.
fn compiled_slot<X, H: Fileable, C: Compile<X, H>, L: Ledger>(
    alloc: Global,
    compiler: &C,
    ordinal: Ordinal,
    item: &X,
    steps: &mut Steps<L>,
) -> Result<Slot<H>, NoMemory>
    requires { C.passes compiler.now item.now ≡ true }
    ensures slot { IfOk result
        (λ s. s ≡ record { ordinal = ordinal.0; held = C.hold compiler.now item.now }) }
    ensures steps { WorkWithin C.cost 0 steps.old steps.new }
{
    let held = compiler.compile(alloc, item, steps)?;
    Slot::new(alloc, ordinal.0, held)
}

/// Another thing in the slot.
fn replace_slot<X, H: Fileable, C: Compile<X, H>, L: Ledger>(
    alloc: Global,
    def: &ServiceDef,
    compiler: &C,
    slot: &Slot<H>,
    item: &X,
    moving: &mut Moving<H>,
    steps: &mut Steps<L>,
) -> Result<(), NoMemory>
    requires same { def.now ≡ moving.old.index.def }
    requires among { Contains moving.old.index.forms (slot_form H.form_of slot.now) }
    requires passes { C.passes compiler.now item.now ≡ true }
    requires fits { form_fits def.now (H.form_of (C.hold compiler.now item.now)) ≡ true }
    ensures slots { OnOk result
        (moving.new.slots ≡ moving.old.slots
        ++ record { ordinal = slot.now.ordinal; held = C.hold compiler.now item.now } ∷ []) }
    ensures def { OnOk result (moving.new.index.def ≡ def.now) }
    ensures forms { OnOk result ((before after : List Form)
        → moving.old.index.forms ≡ before ++ slot_form H.form_of slot.now ∷ after
        → moving.new.index.forms
        ≡ before ++ slot_form H.form_of
        (record { ordinal = slot.now.ordinal; held = C.hold compiler.now item.now }) ∷ after) }
    ensures steps { WorkWithin C.cost (pairs def.now (H.form_of slot.now.held)
        + pairs def.now (H.form_of (C.hold compiler.now item.now))) steps.old steps.new }
{
    let ordinal = own_ordinal(slot);
    let renewed = compiled_slot(alloc, compiler, ordinal, item, steps)?;
    let old = form_of(alloc, slot)?;
    let new = form_of(alloc, &renewed)?;
    moving.index = with_form_for(alloc, &moving.index, def, &old, &new, steps)?;
    moving.slots.push(alloc, renewed)?;
    Ok(())
}

/// The slot as it is.
fn keep_slot<H: Fileable>(
    alloc: Global,
    slot: &Slot<H>,
    moving: &mut Moving<H>,
) -> Result<(), NoMemory>
    ensures slots { OnOk result (moving.new.slots ≡ moving.old.slots ++ slot.now ∷ []) }
    ensures index { moving.new.index ≡ moving.old.index }
{
    let shared = slot.share()?;
    moving.slots.push(alloc, shared)?;
    Ok(())
}

/// Nothing in the place of the slot.
fn leave_slot<H: Fileable, L: Ledger>(
    alloc: Global,
    def: &ServiceDef,
    slot: &Slot<H>,
    moving: &mut Moving<H>,
    steps: &mut Steps<L>,
) -> Result<(), NoMemory>
    requires same { def.now ≡ moving.old.index.def }
    requires among { Contains moving.old.index.forms (slot_form H.form_of slot.now) }
    ensures slots { OnOk result (moving.new.slots ≡ moving.old.slots) }
    ensures def { OnOk result (moving.new.index.def ≡ def.now) }
    ensures forms { OnOk result ((before after : List Form) → moving.old.index.forms ≡ before
        ++ slot_form H.form_of slot.now ∷ after → moving.new.index.forms ≡ before ++ after) }
    ensures steps { WorkWithin 0 (pairs def.now (H.form_of slot.now.held)) steps.old steps.new }
{
    let old = form_of(alloc, slot)?;
    moving.index = without_form(alloc, &moving.index, def, &old, steps)?;
    Ok(())
}

/// What becomes of the slot.
fn move_slot<X, H: Fileable, C: Compile<X, H>, L: Ledger>(
    alloc: Global,
    def: &ServiceDef,
    compiler: &C,
    slot: &Slot<H>,
    fate: &Fate<X>,
    moving: &mut Moving<H>,
    steps: &mut Steps<L>,
) -> Result<(), NoMemory>
    requires same { def.now ≡ moving.old.index.def }
    requires among { Contains moving.old.index.forms (slot_form H.form_of slot.now) }
    requires fit { list_all
        (is_compiled (C.passes compiler.now) def.now H.form_of (C.hold compiler.now))
        (option_to_list (put_there fate.now)) ≡ true }
    ensures slots { OnOk result
        (moving.new.slots ≡ moving.old.slots
        ++ option_to_list (moved_slot (C.hold compiler.now) fate.now slot.now)) }
    ensures def { OnOk result (moving.new.index.def ≡ def.now) }
    ensures forms { OnOk result ((before after : List Form)
        → moving.old.index.forms ≡ before ++ slot_form H.form_of slot.now ∷ after
        → moving.new.index.forms
        ≡ before ++ (slot_forms H.form_of
        (option_to_list (moved_slot (C.hold compiler.now) fate.now slot.now)) ++ after)) }
    ensures steps { WorkWithin (sum_by (λ x. C.cost) (option_to_list (put_there fate.now)))
        ((if is_kept fate.now then 0 else pairs def.now (H.form_of slot.now.held)) + sum_by
        (λ x. pairs def.now (H.form_of (C.hold compiler.now x)))
        (option_to_list (put_there fate.now))) steps.old steps.new }
{
    match fate {
        Fate::Stays => keep_slot(alloc, slot, moving),
        Fate::Goes => leave_slot(alloc, def, slot, moving, steps),
        Fate::Becomes(made) => {
            replace_slot(alloc, def, compiler, slot, made.item, moving, steps)
        }
    }
}

/// What becomes of the slots of a page, in order.
fn move_slots<X, H: Fileable, C: Compile<X, H>, L: Ledger>(
    alloc: Global,
    def: &ServiceDef,
    compiler: &C,
    slots: &[Slot<H>],
    places: &[Place<X>],
    moving: &mut Moving<H>,
    steps: &mut Steps<L>,
) -> Result<(), NoMemory>
    requires same { def.now ≡ moving.old.index.def }
    requires amid { AreAmid (slot_forms H.form_of slots.now) moving.old.index.forms }
    requires fit { list_all
        (is_compiled (C.passes compiler.now) def.now H.form_of (C.hold compiler.now))
        (put_at (places_of H.form_of places.now slots.now)) ≡ true }
    ensures slots { OnOk result
        (moving.new.slots ≡ moving.old.slots
        ++ moved_slots (C.hold compiler.now) (places_of H.form_of places.now slots.now) slots.now) }
    ensures def { OnOk result (moving.new.index.def ≡ def.now) }
    ensures forms { OnOk result
        ((before after : List Form) → moving.old.index.forms
        ≡ before ++ (slot_forms H.form_of slots.now ++ after)
        → moving.new.index.forms
        ≡ before ++ (slot_forms H.form_of
        (moved_slots (C.hold compiler.now) (places_of H.form_of places.now slots.now) slots.now)
        ++ after)) }
    ensures steps { WorkWithin
        (sum_by (λ x. C.cost) (put_at (places_of H.form_of places.now slots.now)))
        (lost (λ s. pairs def.now (H.form_of s.held))
        (places_of H.form_of places.now slots.now) slots.now
        + sum_by (λ x. pairs def.now (H.form_of (C.hold compiler.now x)))
        (put_at (places_of H.form_of places.now slots.now))) steps.old steps.new }
{
    for at in 0..slots.len() {
        let slot = &slots[at];
        let fate = fate_of(places, slot.id());
        move_slot(alloc, def, compiler, slot, &fate, moving, steps)?;
    }
    Ok(())
}

/// Whether something was said of an id in the page.
fn is_touched<X, H: Fileable>(page: &Page<H>, places: &[Place<X>]) -> bool
    ensures { result ≡ is_touched H.form_of places.now page.now }
{
    places.iter().any(|place| page.has_id(place.id))
}

/// What becomes of the slots of a page. Where nothing was said of them the page is shared.
fn move_page<X, H: Fileable, C: Compile<X, H>, L: Ledger>(
    alloc: Global,
    def: &ServiceDef,
    compiler: &C,
    page: &Page<H>,
    places: &[Place<X>],
    moving: &mut Moving<H>,
    steps: &mut Steps<L>,
) -> Result<(), NoMemory>
    requires same { def.now ≡ moving.old.index.def }
    requires filled { is_filled page.now ≡ true }
    requires amid { AreAmid (slot_forms H.form_of page.now) moving.old.index.forms }
    requires fit { list_all
        (is_compiled (C.passes compiler.now) def.now H.form_of (C.hold compiler.now))
        (put_at (places_of H.form_of places.now page.now)) ≡ true }
    ensures slots { OnOk result
        (moving.new.slots ≡ moving.old.slots
        ++ moved_slots (C.hold compiler.now) (places_of H.form_of places.now page.now) page.now) }
    ensures def { OnOk result (moving.new.index.def ≡ def.now) }
    ensures forms { OnOk result
        ((before after : List Form) → moving.old.index.forms
        ≡ before ++ (slot_forms H.form_of page.now ++ after)
        → moving.new.index.forms
        ≡ before ++ (slot_forms H.form_of
        (moved_slots (C.hold compiler.now) (places_of H.form_of places.now page.now) page.now)
        ++ after)) }
    ensures steps { WorkWithin
        (sum_by (λ x. C.cost) (put_at (places_of H.form_of places.now page.now)))
        (lost (λ s. pairs def.now (H.form_of s.held))
        (places_of H.form_of places.now page.now) page.now
        + sum_by (λ x. pairs def.now (H.form_of (C.hold compiler.now x)))
        (put_at (places_of H.form_of places.now page.now))) steps.old steps.new }
{
    if is_touched(page, places) {
        move_slots(alloc, def, compiler, page.as_slice(), places, moving, steps)
    } else {
        moving.slots.push_page(alloc, page)
    }
}

/// What becomes of the slots of the pages, in order.
fn move_pages<X, H: Fileable, C: Compile<X, H>, L: Ledger>(
    alloc: Global,
    def: &ServiceDef,
    compiler: &C,
    pages: &[Page<H>],
    places: &[Place<X>],
    index: Index,
    steps: &mut Steps<L>,
) -> Result<Moving<H>, NoMemory>
    requires same { def.now ≡ index.def }
    requires filled { list_all is_filled pages.now ≡ true }
    requires forms { index.forms ≡ slot_forms H.form_of (all_in pages.now) }
    requires fit { list_all
        (is_compiled (C.passes compiler.now) def.now H.form_of (C.hold compiler.now))
        (put_at (places_of H.form_of places.now (all_in pages.now))) ≡ true }
    ensures slots { IfOk result
        (λ m. m.slots ≡ moved_slots (C.hold compiler.now)
        (places_of H.form_of places.now (all_in pages.now)) (all_in pages.now)) }
    ensures def { IfOk result (λ m. m.index.def ≡ def.now) }
    ensures forms { IfOk result (λ m. m.index.forms ≡ slot_forms H.form_of m.slots) }
    ensures steps { WorkWithin
        (sum_by (λ x. C.cost) (put_at (places_of H.form_of places.now (all_in pages.now))))
        (lost (λ s. pairs def.now (H.form_of s.held))
        (places_of H.form_of places.now (all_in pages.now)) (all_in pages.now)
        + sum_by (λ x. pairs def.now (H.form_of (C.hold compiler.now x)))
        (put_at (places_of H.form_of places.now (all_in pages.now)))) steps.old steps.new }
{
    let mut moving = Moving {
        slots: Paging::new(alloc),
        index,
    };
    for at in 0..pages.len() {
        let page = &pages[at];
        move_page(alloc, def, compiler, page, places, &mut moving, steps)?;
    }
    Ok(moving)
}

/// One slot more, of an ordinal above all.
fn add_at<X, H: Fileable, C: Compile<X, H>, L: Ledger>(
    alloc: Global,
    def: &ServiceDef,
    compiler: &C,
    ordinal: Ordinal,
    item: &X,
    moving: &mut Moving<H>,
    steps: &mut Steps<L>,
) -> Result<(), NoMemory>
    requires same { def.now ≡ moving.old.index.def }
    requires forms { moving.old.index.forms ≡ slot_forms H.form_of moving.old.slots }
    requires below { are_below ordinal.0 moving.old.slots ≡ true }
    requires fits { is_compiled (C.passes compiler.now) def.now H.form_of
        (C.hold compiler.now) item.now ≡ true }
    ensures slots { OnOk result
        (moving.new.slots ≡ moving.old.slots
        ++ record { ordinal = ordinal.0; held = C.hold compiler.now item.now } ∷ []) }
    ensures def { OnOk result (moving.new.index.def ≡ def.now) }
    ensures forms { OnOk result (moving.new.index.forms ≡ slot_forms H.form_of moving.new.slots) }
    ensures steps { WorkWithin C.cost
        (pairs def.now (H.form_of (C.hold compiler.now item.now))) steps.old steps.new }
{
    let slot = compiled_slot(alloc, compiler, ordinal, item, steps)?;
    let form = form_of(alloc, &slot)?;
    moving.index = with_form(alloc, &moving.index, def, &form, steps)?;
    moving.slots.push(alloc, slot)?;
    Ok(())
}

/// The next ordinal. Where there is none there is no memory.
fn after(ordinal: i64) -> Result<Ordinal, NoMemory>
    ensures { IfOk result (λ o. o.0 ≡ ordinal +ℤ pos 1) }
{
    match ordinal.checked_add(1) {
        Some(ordinal) => Ok(Ordinal(ordinal)),
        None => Err(NoMemory),
    }
}

/// An ordinal above those of the slots.
fn next_ordinal<H: Fileable>(slots: &Paging<H>) -> Result<Ordinal, NoMemory>
    requires { are_rising slots.now ≡ true }
    ensures { IfOk result (λ o. are_below o.0 slots.now ≡ true) }
{
    match slots.last_ordinal() {
        Some(last) => after(last),
        None => Ok(Ordinal(0)),
    }
}

/// One slot more at the end.
fn add_slot<X, H: Fileable, C: Compile<X, H>, L: Ledger>(
    alloc: Global,
    def: &ServiceDef,
    compiler: &C,
    item: &X,
    moving: &mut Moving<H>,
    steps: &mut Steps<L>,
) -> Result<(), NoMemory>
    requires same { def.now ≡ moving.old.index.def }
    requires forms { moving.old.index.forms ≡ slot_forms H.form_of moving.old.slots }
    requires rising { are_rising moving.old.slots ≡ true }
    requires fits { is_compiled (C.passes compiler.now) def.now H.form_of
        (C.hold compiler.now) item.now ≡ true }
    ensures held { OnOk result
        (held_in moving.new.slots ≡ held_in moving.old.slots ++ C.hold compiler.now item.now ∷ []) }
    ensures rising { OnOk result (are_rising moving.new.slots ≡ true) }
    ensures def { OnOk result (moving.new.index.def ≡ def.now) }
    ensures forms { OnOk result (moving.new.index.forms ≡ slot_forms H.form_of moving.new.slots) }
    ensures steps { WorkWithin C.cost
        (pairs def.now (H.form_of (C.hold compiler.now item.now))) steps.old steps.new }
{
    let ordinal = next_ordinal(&moving.slots)?;
    add_at(alloc, def, compiler, ordinal, item, moving, steps)?;
    Ok(())
}

/// Slots for the things that come at the end.
fn add_slots<X, H: Fileable, C: Compile<X, H>, L: Ledger>(
    alloc: Global,
    def: &ServiceDef,
    compiler: &C,
    added: &[Made<X>],
    moving: &mut Moving<H>,
    steps: &mut Steps<L>,
) -> Result<(), NoMemory>
    requires same { def.now ≡ moving.old.index.def }
    requires forms { moving.old.index.forms ≡ slot_forms H.form_of moving.old.slots }
    requires rising { are_rising moving.old.slots ≡ true }
    requires fit { list_all
        (is_compiled (C.passes compiler.now) def.now H.form_of (C.hold compiler.now)) added.now
        ≡ true }
    ensures held { OnOk result
        (held_in moving.new.slots
        ≡ held_in moving.old.slots ++ map (C.hold compiler.now) added.now) }
    ensures rising { OnOk result (are_rising moving.new.slots ≡ true) }
    ensures def { OnOk result (moving.new.index.def ≡ def.now) }
    ensures forms { OnOk result (moving.new.index.forms ≡ slot_forms H.form_of moving.new.slots) }
    ensures steps { WorkWithin (sum_by (λ x. C.cost) added.now)
        (sum_by (λ x. pairs def.now
        (H.form_of (C.hold compiler.now x))) added.now) steps.old steps.new }
{
    for made in added {
        add_slot(alloc, def, compiler, made.item, moving, steps)?;
    }
    Ok(())
}

impl<H: Fileable> Shelf<H> {
    /// The slots after the plan. The definition is theirs.
    pub(crate) fn moved<X, C: Compile<X, H>, L: Ledger>(
        &self,
        alloc: Global,
        def: &ServiceDef,
        compiler: &C,
        plan: &Plan<X>,
        steps: &mut Steps<L>,
    ) -> Result<Shelf<H>, NoMemory>
        requires same { def.now ≡ self.now.def }
        requires fit { list_all
            (is_compiled (C.passes compiler.now) def.now H.form_of (C.hold compiler.now))
            (made_in (plan_on H.form_of self.now.slots plan.now)) ≡ true }
        ensures def { IfOk result (λ s. s.def ≡ def.now) }
        ensures held { IfOk result
            (λ s. (xs : List X) → held_in self.now.slots ≡ map (C.hold compiler.now) xs
            → held_in s.slots ≡ map (C.hold compiler.now)
            (standing (plan_on H.form_of self.now.slots plan.now) xs)) }
        ensures steps { WorkWithin
            (sum_by (λ x. C.cost) (made_in (plan_on H.form_of self.now.slots plan.now)))
            (lost (λ s. pairs def.now (H.form_of s.held))
            (plan_on H.form_of self.now.slots plan.now).places self.now.slots
            + sum_by (λ x. pairs def.now (H.form_of (C.hold compiler.now x)))
            (made_in (plan_on H.form_of self.now.slots plan.now))) steps.old steps.new }
    {
        let index = self.index.apply(alloc, def, None, None, steps)?;
        let pages = self.slots.as_pages();
        let mut moving = move_pages(alloc, def, compiler, pages, &plan.places, index, steps)?;
        add_slots(alloc, def, compiler, &plan.added, &mut moving, steps)?;
        let Moving { slots, index } = moving;
        let slots = slots.finish(alloc)?;
        Ok(Shelf { slots, index })
    }
}
