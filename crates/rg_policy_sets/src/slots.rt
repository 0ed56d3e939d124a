// Slots in order, each with an ordinal of the set's own, by which it is found.
ghost use Rattle.std.specs.Prelude.{◌≡◌, ◌∷◌, IfOk, IfSome, Some, [], int_lt, pos, option_map, option_to_list, true};
ghost use Rattle.std.specs.List.{list_any, slice_get};
ghost use Rattle.std.specs.Ordering.{int_eq};
ghost use Rattle.rg_policy_sets.specs.Kept.{are_rising, held_at, slot_form, slot_forms, slot_id};

use crate::held::Fileable;
use rg_base::NoMemory;
use rg_index::Form;
use std::alloc::Global;
use std::marker::Model;
use std::sync::Arc;

/// What a set holds of one policy or row, which later sets share. Contracts see the thing itself.
#[derive(Drop)]
pub(crate) struct Slot<H: Fileable> {
    pub(crate) ordinal: i64,
    /// That of what is held, so that a search for it reads nothing else.
    pub(crate) id: i64,
    pub(crate) held: Arc<H>,
}

impl<H: Fileable> Model for Slot<H> {
    ghost use Rattle.std.specs.Prelude.{◌≡◌};
    ghost use Rattle.std.specs.Arc.{arc_value};
    ghost use Rattle.rg_policy_sets.specs.Kept.{Placed};

    ghost Value = { Placed H };

    ghost view = { λ s. record { ordinal = s.ordinal; held = arc_value s.held } };

    ghost invariant = { λ s. s.id ≡ (H.form_of (arc_value s.held)).id };
}

impl<H: Fileable> Slot<H> {
    /// A slot of this ordinal.
    pub(crate) fn new(alloc: Global, ordinal: i64, held: H) -> Result<Slot<H>, NoMemory>
        ensures { IfOk result (λ s. s ≡ record { ordinal = ordinal; held = held }) }
    {
        let id = held.id();
        match Arc::new(alloc, held) {
            Ok(held) => Ok(Slot { ordinal, id, held }),
            Err(_) => Err(NoMemory),
        }
    }

    /// The same slot, which shares what it holds.
    pub(crate) fn share(&self) -> Result<Slot<H>, NoMemory>
        ensures { IfOk result (λ s. s ≡ self.now) }
    {
        let held = Arc::try_clone(&self.held)?;
        Ok(Slot {
            ordinal: self.ordinal,
            id: self.id,
            held,
        })
    }

    /// The id of what is held.
    pub(crate) fn id(&self) -> i64
        ensures { result ≡ slot_id H.form_of self.now }
    {
        self.id
    }

    /// Whether what is held has this id.
    pub(crate) fn has_id(&self, id: i64) -> bool
        ensures { result ≡ int_eq (slot_id H.form_of self.now) id }
    {
        self.id == id
    }
}

/// The ordinal of the slot at this place of a list that is counted from 0. Where there is none it is want of memory.
pub(crate) fn ordinal_of(place: usize) -> Result<i64, NoMemory>
    ensures { IfOk result (λ ordinal. ordinal ≡ pos place) }
{
    match i64::try_from(place) {
        Ok(ordinal) => Ok(ordinal),
        Err(_) => Err(NoMemory),
    }
}

/// Whether one of the slots holds what has this id.
pub(crate) fn any_has<H: Fileable>(slots: &[Slot<H>], id: i64) -> bool
    ensures { result ≡ list_any (λ s. int_eq (slot_id H.form_of s) id) slots.now }
{
    slots.iter().any(|slot| slot.has_id(id))
}

fn is_below<H: Fileable>(slot: &Slot<H>, ordinal: i64) -> bool
    ensures { result ≡ int_lt slot.now.ordinal ordinal }
{
    slot.ordinal < ordinal
}

/// The place of the first slot of which the ordinal isn't below this one: the slot of this ordinal, if there is one.
fn place_of<H: Fileable>(slots: &[Slot<H>], ordinal: i64) -> usize
    requires { are_rising slots.now ≡ true }
    ensures { held_at slots.now ordinal
        ≡ held_at (option_to_list (slice_get slots.now result)) ordinal }
{
    slots.partition_point(|slot| is_below(slot, ordinal))
}

/// What the slot at this place holds, if it has the ordinal.
fn held_near<'a, H: Fileable>(slots: &'a [Slot<H>], place: usize, ordinal: i64) -> Option<&'a H>
    requires { are_rising slots.now ≡ true }
    ensures { IfSome (option_map (λ h. h.now) result)
        (λ held. held_at slots.now ordinal ≡ Some held) }
{
    match slots.get(place) {
        Some(slot) => held_if(slot, ordinal),
        None => None,
    }
}

/// What the slot of this ordinal holds, by halves.
pub(crate) fn held_by_halves<'a, H: Fileable>(slots: &'a [Slot<H>], ordinal: i64) -> Option<&'a H>
    requires { are_rising slots.now ≡ true }
    ensures { option_map (λ h. h.now) result ≡ held_at slots.now ordinal }
{
    match slots.get(place_of(slots, ordinal)) {
        Some(slot) => held_if(slot, ordinal),
        None => None,
    }
}

/// What the slot of this ordinal holds, which is looked for at this place first.
pub(crate) fn held_in_order<'a, H: Fileable>(
    slots: &'a [Slot<H>],
    place: usize,
    ordinal: i64,
) -> Option<&'a H>
    requires { are_rising slots.now ≡ true }
    ensures { option_map (λ h. h.now) result ≡ held_at slots.now ordinal }
{
    match held_near(slots, place, ordinal) {
        Some(held) => Some(held),
        None => held_by_halves(slots, ordinal),
    }
}

/// What the slot holds, where it has this ordinal.
fn held_if<'a, H: Fileable>(slot: &'a Slot<H>, ordinal: i64) -> Option<&'a H>
    ensures { option_map (λ h. h.now) result ≡ held_at (slot.now ∷ []) ordinal }
{
    if slot.ordinal == ordinal {
        Some(&slot.held)
    } else {
        None
    }
}

/// The form of the slot.
pub(crate) fn form_of<H: Fileable>(alloc: Global, slot: &Slot<H>) -> Result<Form, NoMemory>
    ensures { IfOk result (λ form. form ≡ slot_form H.form_of slot.now) }
{
    slot.held.form(alloc, slot.ordinal)
}

/// The forms of the slots.
pub(crate) fn forms_of<H: Fileable>(alloc: Global, slots: &[Slot<H>]) -> Result<Vec<Form>, NoMemory>
    ensures { IfOk result (λ forms. forms.items ≡ slot_forms H.form_of slots.now) }
{
    let mut forms = Vec::new(alloc);
    for slot in slots {
        let form = form_of(alloc, slot)?;
        forms.push(form)?;
    }
    Ok(forms)
}
