// The tag rows of a service, compiled and filed.
ghost use Rattle.std.specs.Prelude.{◌≡◌, ◌==◌, ◌≤◌, ◌++◌, ℕ, List, [], Contains, None, IfOk, OnOk, fold, length, map, sum_by, true};
ghost use Rattle.std.specs.List.{list_all};
ghost use Rattle.std.specs.Ordering.{int_eq};
ghost use Rattle.rg_base.specs.Listed.{listed};
ghost use Rattle.rg_base.specs.Texts.{all_distinct};
ghost use Rattle.rg_defs.specs.Rules.{def_fault};
ghost use Rattle.rg_resmatch.specs.Rules.{tagged_fit};
ghost use Rattle.rg_resmatch.specs.Tests.{lies};
ghost use Rattle.rg_resmatch.specs.declared.reach.Reach.TheVariants.{Down};
ghost use Rattle.rg_tags.specs.declared.row.TagRow.{TagRow};
ghost use Rattle.rg_delta.specs.Applied.{rows_after};
ghost use Rattle.rg_facts.specs.Sound.{row_ids};
ghost use Rattle.rg_index.specs.Candidates.{bound};
ghost use Rattle.rg_index.specs.Filing.{pairs};
ghost use Rattle.rg_policy_sets.specs.Bounds.{HasCompiled, WorkWithin, row_forms, row_pairs};
ghost use Rattle.rg_policy_sets.specs.Kept.{rows_in};
ghost use Rattle.rg_policy_sets.specs.Seen.{RowSource, row_source};

use crate::compilers::RowCompiler;
use crate::filling::compile_slots;
use crate::held::HeldRow;
use crate::pages::Slots;
use crate::row_visits::RowVisits;
use crate::shelf::Shelf;
use crate::sides::row_plan;
use crate::slots::Slot;
use rg_base::{Ledger, NoMemory, Seq, Steps, TryCopy};
use rg_cmd::TagChange;
use rg_defs::ServiceDef;
use rg_policy::Resource;
use rg_tags::TagRow;
use std::alloc::Global;
use std::marker::Model;

/// The tag rows of a service, each with its matcher, and their index. Contracts see the rows, and the definition. A change
/// leaves a set as it is and gives a new one, which shares with it what the change doesn't touch.
#[derive(Drop)]
pub struct RowSet {
    pub(crate) shelf: Shelf<HeldRow>,
}

impl Model for RowSet {
    ghost use Rattle.rg_policy_sets.specs.Kept.{AreRows, rows_in};
    ghost use Rattle.rg_policy_sets.specs.Seen.{Rows};

    ghost Value = { Rows };

    ghost view = { λ s. record { def = s.shelf.def; rows = rows_in s.shelf.slots } };

    ghost invariant = { λ s. AreRows s.shelf };
}

/// Copies of the rows in the slots come to the list.
fn add_rows(alloc: Global, slots: &[Slot<HeldRow>], list: &mut Vec<TagRow>) -> Result<(), NoMemory>
    ensures { OnOk result (list.new.items ≡ list.old.items ++ rows_in slots.now) }
{
    for slot in slots {
        list.push(slot.held.row.try_copy(alloc)?)?;
    }
    Ok(())
}

/// Copies of the rows in the slots.
fn rows_of(alloc: Global, slots: &Slots<HeldRow>) -> Result<Seq<TagRow>, NoMemory>
    ensures { IfOk result (λ list. list ≡ listed (rows_in slots.now)) }
{
    let mut list = Vec::new(alloc);
    let pages = slots.as_pages();
    for page in pages {
        add_rows(alloc, page.as_slice(), &mut list)?;
    }
    Ok(Seq::from_vec(list))
}

impl RowSet {
    /// The rows, whose resources pass rule G2 for the definition, which passes its own.
    pub fn build<L: Ledger>(
        alloc: Global,
        def: &ServiceDef,
        rows: &[TagRow],
        steps: &mut Steps<L>,
    ) -> Result<RowSet, NoMemory>
        requires lawful { def_fault def.now ≡ None }
        requires fit { list_all (λ (row : TagRow). tagged_fit def.now row.resources.items) rows.now
            ≡ true }
        ensures made { IfOk result (λ s. s ≡ record { def = def.now; rows = rows.now }) }
        ensures compiled { OnOk result (HasCompiled 0 steps.old steps.new) }
        ensures steps { WorkWithin 0
            (sum_by (pairs def.now) (row_forms rows.now)) steps.old steps.new }
    {
        let compiler = RowCompiler { def };
        let slots = compile_slots(alloc, &compiler, rows, steps)?;
        let shelf = Shelf::build(alloc, def, slots, steps)?;
        Ok(RowSet { shelf })
    }

    /// The rows after the changes, in order. The definition is that of the set. No two rows after them have one id, and
    /// they fit. Only rows that are new or other ones are compiled.
    #[tactic(auto, using(crate::proofs::Counting::no_work))]
    pub fn apply<L: Ledger>(
        &self,
        alloc: Global,
        def: &ServiceDef,
        changes: &[TagChange],
        steps: &mut Steps<L>,
    ) -> Result<RowSet, NoMemory>
        requires same { def.now ≡ self.now.def }
        requires fit { list_all (λ (row : TagRow). tagged_fit self.now.def row.resources.items)
            (fold rows_after self.now.rows changes.now) ≡ true }
        requires distinct { all_distinct int_eq
            (row_ids (fold rows_after self.now.rows changes.now)) ≡ true }
        ensures made { IfOk result (λ s. s
            ≡ record { def = self.now.def; rows = fold rows_after self.now.rows changes.now }) }
        ensures steps { WorkWithin 0
            (row_pairs self.now.def self.now.rows changes.now) steps.old steps.new }
    {
        let plan = row_plan(alloc, self.shelf.slots(), changes)?;
        let compiler = RowCompiler { def };
        let shelf = self.shelf.moved(alloc, def, &compiler, &plan, steps)?;
        Ok(RowSet { shelf })
    }

    /// Whether there is no row.
    pub fn is_empty(&self) -> bool
        ensures { result ≡ (length self.now.rows == 0) }
    {
        self.shelf.slots().is_empty()
    }

    /// The rows of which one may lie on the resource, each at most once, with its matcher. No memory is taken.
    pub fn visit<'a>(&'a self, resource: &'a Resource) -> RowVisits<'a>
        ensures few { length result ≤ bound self.now.def
            (row_forms self.now.rows) resource.now.elements.items }
        ensures among { (s : RowSource) → Contains result s
            → Contains (map (row_source self.now.def) self.now.rows) s }
        ensures once { (weigh : TagRow → ℕ)
            → sum_by (λ (s : RowSource). weigh s.row) result ≤ sum_by weigh self.now.rows }
        ensures all { (row : TagRow) (user : List ℕ) → Contains self.now.rows row
            → lies self.now.def row.resources.items Down resource.now.elements.items user ≡ true
            → Contains result (row_source self.now.def row) }
    {
        RowVisits::of(&self.shelf, resource)
    }

    /// Copies of the rows.
    pub fn copies(&self, alloc: Global) -> Result<Seq<TagRow>, NoMemory>
        ensures { IfOk result (λ list. list ≡ listed self.now.rows) }
    {
        rows_of(alloc, self.shelf.slots())
    }
}
