// Slots with the index of their forms.
ghost use Rattle.std.specs.Prelude.{◌≡◌, None, IfOk, true};
ghost use Rattle.std.specs.List.{sum_by};
ghost use Rattle.std.specs.Str.{chars};
ghost use Rattle.rg_defs.specs.Rules.{def_fault};
ghost use Rattle.rg_resmatch.specs.Tests.{tag_elements};
ghost use Rattle.rg_index.specs.Changes.{forms_fit};
ghost use Rattle.rg_index.specs.Filing.{EditsWithin, pairs};
ghost use Rattle.rg_policy_sets.specs.Kept.{AreFound, are_rising, found_in, slot_forms};

use crate::held::Fileable;
use crate::pages::Slots;
use crate::slots::{Slot, forms_of};
use rg_base::{Ledger, NoMemory, Steps};
use rg_defs::ServiceDef;
use rg_index::{Candidates, Index, candidates_are_of_forms};
use rg_policy::Resource;
use std::alloc::Global;
use std::marker::Model;

/// Slots, filed by their forms under a definition. Contracts see the definition and the slots.
#[derive(Drop)]
pub(crate) struct Shelf<H: Fileable> {
    pub(crate) slots: Slots<H>,
    pub(crate) index: Index,
}

impl<H: Fileable> Model for Shelf<H> {
    ghost use Rattle.std.specs.Prelude.{◌≡◌, true};
    ghost use Rattle.rg_policy_sets.specs.Kept.{Shelved, are_rising, slot_forms};

    ghost Value = { Shelved H };

    ghost view = { λ s. record { def = s.index.def; slots = s.slots } };

    ghost invariant = { λ s. (s.index.forms ≡ slot_forms H.form_of s.slots)
        × (are_rising s.slots ≡ true) };
}

impl<H: Fileable> Shelf<H> {
    /// These slots, whose ordinals rise and whose forms fit, filed one by one.
    pub(crate) fn build<L: Ledger>(
        alloc: Global,
        def: &ServiceDef,
        slots: Vec<Slot<H>>,
        steps: &mut Steps<L>,
    ) -> Result<Shelf<H>, NoMemory>
        requires lawful { def_fault def.now ≡ None }
        requires rising { are_rising slots.items ≡ true }
        requires fit { forms_fit def.now (slot_forms H.form_of slots.items) ≡ true }
        ensures made { IfOk result (λ s. s ≡ record { def = def.now; slots = slots.items }) }
        ensures steps { EditsWithin
            (sum_by (pairs def.now) (slot_forms H.form_of slots.items)) steps.old steps.new }
    {
        let forms = forms_of(alloc, &slots)?;
        let index = Index::build(alloc, def, &forms, steps)?;
        let slots = Slots::of(alloc, slots)?;
        Ok(Shelf { slots, index })
    }

    /// The slots.
    pub(crate) fn slots(&self) -> &Slots<H>
        ensures slots { result.now ≡ self.now.slots }
        ensures rising { are_rising self.now.slots ≡ true }
    {
        &self.slots
    }

    /// The law of the definition: it passes its rules. The call does nothing.
    pub(crate) fn law_of_definition(&self)
        ensures { def_fault self.now.def ≡ None }
    {
        self.index.law_of_forms();
    }

    /// The ordinals of slots of which one may lie on the resource. One comes as often as its form is filed there.
    pub(crate) fn candidates<'a>(&'a self, resource: &'a Resource) -> Candidates<'a>
        ensures exact { result ≡ found_in H.form_of self.now resource.now.elements.items }
        ensures found { AreFound H.form_of self.now resource.now.elements.items result }
    {
        candidates_are_of_forms();
        self.index.candidates(resource)
    }

    /// As `candidates`, for a resource whose one element has the level `tag` and this value.
    pub(crate) fn candidates_tag<'a>(&'a self, tag: &'a str) -> Candidates<'a>
        ensures { AreFound H.form_of self.now (tag_elements (chars tag.now)) result }
    {
        candidates_are_of_forms();
        self.index.candidates_tag(tag)
    }
}
