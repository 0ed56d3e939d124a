// The plan of edits: what they say of the things that stood before, by their ids, and which things they put into the list.
ghost use Rattle.std.specs.Prelude.{◌≡◌, ◌&&◌, ◌++◌, ◌∷◌, [], IfOk, List, OnOk, fold, map, not};
ghost use Rattle.std.specs.List.{list_any};
ghost use Rattle.std.specs.Ordering.{int_eq};
ghost use Rattle.rg_cmd.specs.Lists.{without};
ghost use Rattle.rg_delta.specs.Editing.{edited, has_id_of};
ghost use Rattle.rg_policy_sets.specs.Kept.{slot_ids};
ghost use Rattle.rg_policy_sets.specs.Plan.{fate_of, is_taken, or_new, plan_of, said_edit, said_of, said_put, said_renewed, said_without, spread, standing};
ghost use Rattle.rg_policy_sets.specs.declared.plan.Fate.TheVariants.{Goes};

use crate::held::Fileable;
use crate::pages::Slots;
use rg_base::NoMemory;
use rg_cmd::{CREATED, DELETED, UPDATED};
use rg_delta::{Edit, Id, Identified};
use std::alloc::Global;
use std::marker::Model;

/// A thing that an edit puts into the list. Contracts see the thing itself.
#[derive(Drop)]
pub(crate) struct Made<'a, X> {
    pub(crate) item: &'a X,
}

impl<'a, X> Model for Made<'a, X> {
    ghost use Rattle.std.specs.Prelude.{◌≡◌};

    ghost Value = { X };

    ghost view = { λ m. m.item.now };
}

/// What becomes of a thing that stood before.
#[derive(Drop)]
pub(crate) enum Fate<'a, X> {
    Stays,
    Goes,
    Becomes(Made<'a, X>),
}

/// What becomes of the things with an id.
#[derive(Drop)]
pub(crate) struct Place<'a, X> {
    pub(crate) id: i64,
    pub(crate) fate: Fate<'a, X>,
}

/// What was said of the things that stood before, of which the last that names an id counts, and the things that come after
/// them. What nothing was said of stays.
#[derive(Drop)]
pub(crate) struct Plan<'a, X> {
    pub(crate) places: Vec<Place<'a, X>>,
    pub(crate) added: Vec<Made<'a, X>>,
}

impl<'a, X> Model for Plan<'a, X> {
    ghost use Rattle.rg_policy_sets.specs.Plan.{Planned};

    ghost Value = { Planned X };

    ghost view = { λ p. record { places = p.places.items; added = p.added.items } };
}

impl<'a, X> Fate<'a, X> {
    /// The same.
    fn copied(&self) -> Fate<'a, X>
        ensures { result ≡ self.now }
    {
        match self {
            Fate::Stays => Fate::Stays,
            Fate::Goes => Fate::Goes,
            Fate::Becomes(made) => Fate::Becomes(Made { item: made.item }),
        }
    }

    /// Whether something stands at the place.
    fn is_taken(&self) -> bool
        ensures { result ≡ is_taken self.now }
    {
        match self {
            Fate::Goes => false,
            Fate::Stays => true,
            Fate::Becomes(_) => true,
        }
    }
}

/// What becomes of the things with this id.
pub(crate) fn fate_of<'a, X>(places: &[Place<'a, X>], id: i64) -> Fate<'a, X>
    ensures { result ≡ fate_of places.now id }
{
    let mut fate = Fate::Stays;
    for place in places {
        if id == place.id {
            fate = place.fate.copied();
        }
    }
    fate
}

fn has_id<X: Identified>(made: &Made<X>, id: Id) -> bool
    ensures { result ≡ int_eq (X.id_of made.now) id.0 }
{
    made.item.id().0 == id.0
}

/// Whether something with this id stands in one of the slots, or in its place.
fn is_placed<H: Fileable, X>(slots: &Slots<H>, places: &[Place<X>], id: Id) -> bool
    ensures { result ≡ (is_taken (fate_of places.now id.0) && list_any
        (λ i. int_eq i id.0) (slot_ids H.form_of slots.now)) }
{
    fate_of(places, id.0).is_taken() && slots.has_id(id.0)
}

/// Whether something with this id was added.
fn is_added<X: Identified>(added: &[Made<X>], id: Id) -> bool
    ensures { result ≡ list_any (λ y. int_eq (X.id_of y) id.0) added.now }
{
    added.iter().any(|made| has_id(made, id))
}

/// Says that the thing comes in the place of those of its id, where one stands.
fn renew<'a, X: Identified>(places: &mut Vec<Place<'a, X>>, item: &'a X) -> Result<(), NoMemory>
    ensures { OnOk result (places.new.items ≡ said_renewed X.id_of item.now places.old.items) }
{
    let id = item.id().0;
    if fate_of(places, id).is_taken() {
        let fate = Fate::Becomes(Made { item });
        places.push(Place { id, fate })?;
    }
    Ok(())
}

/// Puts the thing in the place of this one, where it has its id.
fn renew_made<'a, X: Identified>(made: &mut Made<'a, X>, item: &'a X)
    ensures { made.new ≡ or_new X.id_of item.now made.old }
{
    if has_id(made, item.id()) {
        made.item = item;
    }
}

/// Puts the thing in the place of each one of its id.
fn renew_added<'a, X: Identified>(added: &mut Vec<Made<'a, X>>, item: &'a X)
    ensures { added.new.items ≡ map (or_new X.id_of item.now) added.old.items }
{
    for made in added.iter_mut() {
        renew_made(made, item);
    }
}

/// Says that what has the id of the thing goes.
fn clear<'a, X: Identified>(places: &mut Vec<Place<'a, X>>, item: &X) -> Result<(), NoMemory>
    ensures { OnOk result
        (places.new.items ≡ places.old.items ++ record { id = X.id_of item.now; fate = Goes }
        ∷ []) }
{
    places.push(Place {
        id: item.id().0,
        fate: Fate::Goes,
    })?;
    Ok(())
}

/// Whether this one hasn't the id of the thing.
fn is_other<X: Identified>(made: &Made<X>, item: &X) -> bool
    ensures { result ≡ not (has_id_of X.id_of item.now made.now) }
{
    made.item.id().0 != item.id().0
}

/// Takes away what was added with the id of the thing.
fn clear_added<'a, X: Identified + Drop>(added: &mut Vec<Made<'a, X>>, item: &X)
    ensures { added.new.items ≡ without (has_id_of X.id_of item.now) added.old.items }
{
    added.retain(|made| is_other(made, item));
}

/// Puts the thing in the place of each one of its id, or at the end where there is none.
fn put<'a, H: Fileable, X: Identified + Drop>(
    slots: &Slots<H>,
    plan: &mut Plan<'a, X>,
    item: &'a X,
) -> Result<(), NoMemory>
    ensures { OnOk result
        (plan.new ≡ said_put X.id_of (slot_ids H.form_of slots.now) item.now plan.old) }
{
    let id = item.id();
    if is_placed(slots, &plan.places, id) || is_added(&plan.added, id) {
        renew(&mut plan.places, item)?;
        renew_added(&mut plan.added, item);
        return Ok(());
    }
    plan.added.push(Made { item })?;
    Ok(())
}

/// Takes away what has the id of the thing.
fn take_out<'a, X: Identified + Drop>(plan: &mut Plan<'a, X>, item: &X) -> Result<(), NoMemory>
    ensures { OnOk result (plan.new ≡ said_without X.id_of item.now plan.old) }
{
    clear(&mut plan.places, item)?;
    clear_added(&mut plan.added, item);
    Ok(())
}

/// One more edit of what stands in the slots.
fn follow<'a, H: Fileable, X: Identified + Drop>(
    slots: &Slots<H>,
    plan: &mut Plan<'a, X>,
    edit: &Edit<'a, X>,
) -> Result<(), NoMemory>
    ensures { OnOk result
        (plan.new ≡ said_edit X.id_of (slot_ids H.form_of slots.now) plan.old edit.now) }
{
    match edit.change_type {
        CREATED => {
            plan.added.push(Made { item: edit.item })?;
            Ok(())
        }
        UPDATED => put(slots, plan, edit.item),
        DELETED => take_out(plan, edit.item),
        _ => Ok(()),
    }
}

/// The plan of the edits, in order, of what stands in the slots. For each edit the work grows with the number of slots, whose
/// ids alone are read.
pub(crate) fn plan_of<'a, H: Fileable, X: Identified + Drop>(
    alloc: Global,
    slots: &Slots<H>,
    edits: &[Edit<'a, X>],
) -> Result<Plan<'a, X>, NoMemory>
    ensures said { IfOk result (λ p. p ≡ said_of X.id_of (slot_ids H.form_of slots.now) edits.now) }
    ensures plan { IfOk result
        (λ p. spread (slot_ids H.form_of slots.now) p
        ≡ plan_of X.id_of (slot_ids H.form_of slots.now) edits.now) }
    ensures stands { IfOk result (λ p. (xs : List X) → map X.id_of xs ≡ slot_ids H.form_of slots.now
        → standing (spread (slot_ids H.form_of slots.now) p) xs
        ≡ fold (edited X.id_of) xs edits.now) }
{
    let mut plan = Plan {
        places: Vec::new(alloc),
        added: Vec::new(alloc),
    };
    for edit in edits {
        follow(slots, &mut plan, edit)?;
    }
    Ok(plan)
}
