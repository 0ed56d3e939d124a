// Slots in pages, which later sets share: a page in which no slot changes stays as it is.
ghost use Rattle.std.specs.Prelude.{◌≡◌, ◌==◌, ◌++◌, ◌∷◌, IfOk, IfSome, List, MatchOption, OnOk, Some, [], int_lt, length, option_map, true};
ghost use Rattle.std.specs.List.{list_all, list_any, slice_get};
ghost use Rattle.std.specs.Option.{unwrap_or};
ghost use Rattle.std.specs.Ordering.{int_eq};
ghost use Rattle.rg_policy_sets.specs.Kept.{all_held, all_in, are_rising, held_at, is_filled, is_held, last_ordinal, slot_id, slot_ids};

use crate::held::Fileable;
use crate::slots::{Slot, any_has, held_by_halves, held_in_order};
use rg_base::NoMemory;
use rg_index::Candidates;
use std::alloc::Global;
use std::marker::Model;
use std::mem;
use std::sync::Arc;

/// How many slots fill a page.
const FULL: usize = 64;

/// A page: some slots in order. Contracts see the slots.
#[derive(Drop)]
pub(crate) struct Page<H: Fileable> {
    slots: Arc<Vec<Slot<H>>>,
}

impl<H: Fileable> Model for Page<H> {
    ghost use Rattle.std.specs.Prelude.{List};
    ghost use Rattle.std.specs.Arc.{arc_value};
    ghost use Rattle.rg_policy_sets.specs.Kept.{Placed};

    ghost Value = { List (Placed H) };

    ghost view = { λ p. (arc_value p.slots).items };
}

impl<H: Fileable> Page<H> {
    fn of(alloc: Global, slots: Vec<Slot<H>>) -> Result<Page<H>, NoMemory>
        ensures { IfOk result (λ p. p ≡ slots.items) }
    {
        match Arc::new(alloc, slots) {
            Ok(slots) => Ok(Page { slots }),
            Err(_) => Err(NoMemory),
        }
    }

    /// The same page.
    fn share(&self) -> Result<Page<H>, NoMemory>
        ensures { IfOk result (λ p. p ≡ self.now) }
    {
        let slots = Arc::try_clone(&self.slots)?;
        Ok(Page { slots })
    }

    /// Its slots.
    pub(crate) fn as_slice(&self) -> &[Slot<H>]
        ensures { result.now ≡ self.now }
    {
        self.slots.as_slice()
    }

    /// Whether one of its slots holds what has this id.
    pub(crate) fn has_id(&self, id: i64) -> bool
        ensures { result ≡ list_any (λ s. int_eq (slot_id H.form_of s) id) self.now }
    {
        any_has(self.as_slice(), id)
    }

    /// The ordinal of its last slot.
    fn last_ordinal(&self) -> i64
        ensures { result ≡ last_ordinal self.now }
    {
        match self.as_slice().split_last() {
            Some((last, _)) => last.ordinal,
            None => 0,
        }
    }

    fn is_below(&self, ordinal: i64) -> bool
        ensures { result ≡ int_lt (last_ordinal self.now) ordinal }
    {
        self.last_ordinal() < ordinal
    }

    fn is_short(&self) -> bool {
        self.as_slice().len() < FULL
    }
}

/// Slots whose ordinals rise, in pages none of which is empty. Contracts see the slots.
#[derive(Drop)]
pub(crate) struct Slots<H: Fileable> {
    pages: Vec<Page<H>>,
}

impl<H: Fileable> Model for Slots<H> {
    ghost use Rattle.std.specs.Prelude.{◌≡◌, List, true};
    ghost use Rattle.std.specs.List.{list_all};
    ghost use Rattle.rg_policy_sets.specs.Kept.{Placed, all_in, are_rising, is_filled};

    ghost Value = { List (Placed H) };

    ghost view = { λ s. all_in s.pages.items };

    ghost invariant = { λ s. (are_rising (all_in s.pages.items) ≡ true)
        × (list_all is_filled s.pages.items ≡ true) };
}

/// Whether a slot of one of the pages holds what has this id.
fn any_page_has<H: Fileable>(pages: &[Page<H>], id: i64) -> bool
    ensures { result ≡ list_any (λ p. list_any (λ s. int_eq (slot_id H.form_of s) id) p) pages.now }
{
    pages.iter().any(|page| page.has_id(id))
}

/// The place of the first page that doesn't end below this ordinal: the slot of the ordinal is there, if there is one.
fn page_of<H: Fileable>(pages: &[Page<H>], ordinal: i64) -> usize
    requires rising { are_rising (all_in pages.now) ≡ true }
    requires filled { list_all is_filled pages.now ≡ true }
    ensures { held_at (all_in pages.now) ordinal
        ≡ held_at (unwrap_or (slice_get pages.now result) []) ordinal }
{
    pages.partition_point(|page| page.is_below(ordinal))
}

/// What the slot of this ordinal holds, if it is in the page where it is as long as no page before it went.
fn held_near<'a, H: Fileable>(pages: &'a [Page<H>], ordinal: i64) -> Option<&'a H>
    requires rising { are_rising (all_in pages.now) ≡ true }
    ensures { IfSome (option_map (λ h. h.now) result)
        (λ held. held_at (all_in pages.now) ordinal ≡ Some held) }
{
    let Ok(place) = usize::try_from(ordinal) else {
        return None;
    };
    match pages.get(place / FULL) {
        Some(page) => held_in_order(page.as_slice(), place % FULL, ordinal),
        None => None,
    }
}

/// What the slot of this ordinal holds, by halves.
fn held_searched<'a, H: Fileable>(pages: &'a [Page<H>], ordinal: i64) -> Option<&'a H>
    requires rising { are_rising (all_in pages.now) ≡ true }
    requires filled { list_all is_filled pages.now ≡ true }
    ensures { option_map (λ h. h.now) result ≡ held_at (all_in pages.now) ordinal }
{
    match pages.get(page_of(pages, ordinal)) {
        Some(page) => held_by_halves(page.as_slice(), ordinal),
        None => None,
    }
}

impl<H: Fileable> Slots<H> {
    /// These slots, whose ordinals rise.
    pub(crate) fn of(alloc: Global, slots: Vec<Slot<H>>) -> Result<Slots<H>, NoMemory>
        requires { are_rising slots.items ≡ true }
        ensures { IfOk result (λ s. s ≡ slots.items) }
    {
        let mut paging = Paging::new(alloc);
        for slot in slots {
            paging.push(alloc, slot)?;
        }
        paging.finish(alloc)
    }

    /// The pages.
    pub(crate) fn as_pages(&self) -> &[Page<H>]
        ensures slots { all_in result.now ≡ self.now }
        ensures filled { list_all is_filled result.now ≡ true }
        ensures rising { are_rising self.now ≡ true }
    {
        self.pages.as_slice()
    }

    /// Whether there is no slot.
    pub(crate) fn is_empty(&self) -> bool
        ensures { result ≡ (length self.now == 0) }
    {
        self.as_pages().is_empty()
    }

    /// Whether one of the slots holds what has this id. The work grows with the number of slots.
    pub(crate) fn has_id(&self, id: i64) -> bool
        ensures { result ≡ list_any (λ i. int_eq i id) (slot_ids H.form_of self.now) }
    {
        any_page_has(self.as_pages(), id)
    }

    /// What the slot of this ordinal holds.
    pub(crate) fn held_at<'a>(&'a self, ordinal: i64) -> Option<&'a H>
        ensures { option_map (λ h. h.now) result ≡ held_at self.now ordinal }
    {
        match held_near(&self.pages, ordinal) {
            Some(held) => Some(held),
            None => held_searched(&self.pages, ordinal),
        }
    }

    /// What the slot of the next candidate holds. Each candidate has a slot.
    pub(crate) fn next_held<'a>(&'a self, candidates: &mut Candidates<'_>) -> Option<&'a H>
        requires held { list_all (is_held self.now) candidates.old ≡ true }
        ensures held { list_all (is_held self.now) candidates.new ≡ true }
        ensures next { MatchOption (option_map (λ h. h.now) result)
            ((all_held self.now candidates.old ≡ []) × (all_held self.now candidates.new ≡ []))
            (λ x. all_held self.now candidates.old ≡ x ∷ all_held self.now candidates.new) }
    {
        match candidates.next() {
            Some(ordinal) => self.held_at(ordinal),
            None => None,
        }
    }
}

/// Slots that are put into pages one after the other. Contracts see the slots.
#[derive(Drop)]
pub(crate) struct Paging<H: Fileable> {
    pages: Vec<Page<H>>,
    /// Those after the pages.
    tail: Vec<Slot<H>>,
}

impl<H: Fileable> Model for Paging<H> {
    ghost use Rattle.std.specs.Prelude.{◌≡◌, ◌++◌, List, true};
    ghost use Rattle.std.specs.List.{list_all};
    ghost use Rattle.rg_policy_sets.specs.Kept.{Placed, all_in, is_filled};

    ghost Value = { List (Placed H) };

    ghost view = { λ p. all_in p.pages.items ++ p.tail.items };

    ghost invariant = { λ p. list_all is_filled p.pages.items ≡ true };
}

/// A page of the slots after the pages, if there are any.
fn close<H: Fileable>(
    alloc: Global,
    pages: &mut Vec<Page<H>>,
    tail: &mut Vec<Slot<H>>,
) -> Result<(), NoMemory>
    requires { list_all is_filled pages.old.items ≡ true }
    ensures slots { OnOk result
        (all_in pages.new.items ≡ all_in pages.old.items ++ tail.old.items) }
    ensures none { OnOk result (tail.new.items ≡ []) }
    ensures filled { list_all is_filled pages.new.items ≡ true }
{
    if tail.is_empty() {
        return Ok(());
    }
    let slots = mem::replace(tail, Vec::new(alloc));
    let page = Page::of(alloc, slots)?;
    pages.push(page)?;
    Ok(())
}

/// More slots, which share what they hold with these.
fn share_slots<H: Fileable>(slots: &[Slot<H>], tail: &mut Vec<Slot<H>>) -> Result<(), NoMemory>
    ensures { OnOk result (tail.new.items ≡ tail.old.items ++ slots.now) }
{
    for slot in slots {
        let shared = slot.share()?;
        tail.push(shared)?;
    }
    Ok(())
}

/// The slots of the last page come after the pages, where no slot is so far.
fn reopen<H: Fileable>(pages: &mut Vec<Page<H>>, tail: &mut Vec<Slot<H>>) -> Result<(), NoMemory>
    requires filled { list_all is_filled pages.old.items ≡ true }
    requires none { tail.old.items ≡ [] }
    ensures slots { OnOk result
        (all_in pages.new.items ++ tail.new.items ≡ all_in pages.old.items) }
    ensures filled { list_all is_filled pages.new.items ≡ true }
{
    match pages.pop() {
        Some(page) => share_slots(page.as_slice(), tail),
        None => Ok(()),
    }
}

/// Whether the last page has room for one more slot.
fn has_room<H: Fileable>(pages: &[Page<H>]) -> bool {
    match pages.split_last() {
        Some((page, _)) => page.is_short(),
        None => false,
    }
}

/// The last page is opened where it has room, so that no two pages side by side stay short.
fn make_room<H: Fileable>(pages: &mut Vec<Page<H>>, tail: &mut Vec<Slot<H>>) -> Result<(), NoMemory>
    requires { list_all is_filled pages.old.items ≡ true }
    ensures slots { OnOk result
        (all_in pages.new.items ++ tail.new.items ≡ all_in pages.old.items ++ tail.old.items) }
    ensures filled { list_all is_filled pages.new.items ≡ true }
{
    if tail.is_empty() && has_room(pages) {
        reopen(pages, tail)
    } else {
        Ok(())
    }
}

impl<H: Fileable> Paging<H> {
    /// No slots.
    pub(crate) fn new(alloc: Global) -> Paging<H>
        ensures { result ≡ [] }
    {
        Paging {
            pages: Vec::new(alloc),
            tail: Vec::new(alloc),
        }
    }

    /// One slot more.
    pub(crate) fn push(&mut self, alloc: Global, slot: Slot<H>) -> Result<(), NoMemory>
        ensures { OnOk result (self.new ≡ self.old ++ slot ∷ []) }
    {
        make_room(&mut self.pages, &mut self.tail)?;
        self.tail.push(slot)?;
        if self.tail.len() < FULL {
            return Ok(());
        }
        close(alloc, &mut self.pages, &mut self.tail)
    }

    /// The slots of a page more, which is shared.
    pub(crate) fn push_page(&mut self, alloc: Global, page: &Page<H>) -> Result<(), NoMemory>
        requires { is_filled page.now ≡ true }
        ensures { OnOk result (self.new ≡ self.old ++ page.now) }
    {
        close(alloc, &mut self.pages, &mut self.tail)?;
        let shared = page.share()?;
        self.pages.push(shared)?;
        Ok(())
    }

    /// The ordinal of the last slot.
    pub(crate) fn last_ordinal(&self) -> Option<i64>
        ensures { MatchOption result (self.now ≡ []) (λ n. n ≡ last_ordinal self.now) }
    {
        match self.tail.split_last() {
            Some((slot, _)) => Some(slot.ordinal),
            None => last_in(&self.pages),
        }
    }

    /// The slots, whose ordinals rise.
    pub(crate) fn finish(self, alloc: Global) -> Result<Slots<H>, NoMemory>
        requires { are_rising self ≡ true }
        ensures { IfOk result (λ s. s ≡ self) }
    {
        let Paging {
            mut pages,
            mut tail,
        } = self;
        close(alloc, &mut pages, &mut tail)?;
        Ok(Slots { pages })
    }
}

/// The ordinal of the last slot in the pages.
fn last_in<H: Fileable>(pages: &[Page<H>]) -> Option<i64>
    requires { list_all is_filled pages.now ≡ true }
    ensures { MatchOption result (all_in pages.now ≡ [])
        (λ n. n ≡ last_ordinal (all_in pages.now)) }
{
    match pages.split_last() {
        Some((page, _)) => Some(page.last_ordinal()),
        None => None,
    }
}
