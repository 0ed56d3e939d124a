// What the slots of a set hold: a policy with its evaluator, a tag row with its matcher.
ghost use Rattle.std.specs.Prelude.{◌≡◌, IfOk, None, true};
ghost use Rattle.rg_base.specs.Counts.{one_compile};
ghost use Rattle.rg_evalr.specs.Compiling.{policy_fault};
ghost use Rattle.rg_evalr.specs.Frames.{def_of};
ghost use Rattle.rg_resmatch.specs.Rules.{tagged_fit};
ghost use Rattle.rg_policy_sets.specs.Bounds.{policy_form, row_form};
ghost use Rattle.rg_policy_sets.specs.Kept.{renumbered};
ghost use Rattle.rg_policy_sets.specs.Marks.{admits};
ghost use Rattle.rg_policy_sets.specs.Seen.{row_source, source};

use crate::marks::{Asked, Mark};
use rg_base::{Ledger, NoMemory, Seq, Steps, TryCopy};
use rg_defs::ServiceDef;
use rg_evalr::{Evaluator, Frame, Side, def_of};
use rg_index::Form;
use rg_policy::{Policy, ResourceMap, maps_of};
use rg_resmatch::{Matcher, Reach};
use rg_shared::Shared;
use rg_tags::TagRow;
use std::alloc::Global;
use std::marker::Model;

/// A thing that is filed.
pub(crate) trait Fileable: Drop {
    ghost use Rattle.std.specs.Prelude.{◌≡◌, IfOk};
    ghost use Rattle.rg_index.specs.declared.form.Form.{Form};
    ghost use Rattle.rg_policy_sets.specs.Kept.{renumbered};

    /// Its form.
    ghost form_of: { Self → Form };

    /// Its id.
    fn id(&self) -> i64
        ensures { result ≡ (form_of self.now).id };

    /// Its form with the ordinal as its id.
    fn form(&self, alloc: Global, ordinal: i64) -> Result<Form, NoMemory>
        ensures { IfOk result (λ form. form ≡ renumbered ordinal (form_of self.now)) };
}

/// A policy with its evaluator, and its marks at the first two levels of its definition. Contracts see what was compiled.
#[derive(Drop)]
pub(crate) struct HeldPolicy {
    first: Mark,
    second: Mark,
    pub(crate) policy: Shared<Policy>,
    pub(crate) evaluator: Evaluator,
}

impl Model for HeldPolicy {
    ghost use Rattle.std.specs.Prelude.{◌≡◌};
    ghost use Rattle.rg_evalr.specs.Sources.{Source};
    ghost use Rattle.rg_policy_sets.specs.Marks.{source_mark};

    ghost Value = { Source };

    ghost view = { λ h. h.evaluator };

    ghost invariant = { λ h. (h.evaluator.policy ≡ h.policy)
        × (h.first ≡ source_mark 0 h.evaluator) × (h.second ≡ source_mark 1 h.evaluator) };
}

impl Fileable for HeldPolicy {
    ghost use Rattle.rg_policy_sets.specs.Kept.{source_form};

    ghost form_of = { source_form };

    fn id(&self) -> i64 {
        self.policy.id.0
    }

    fn form(&self, alloc: Global, ordinal: i64) -> Result<Form, NoMemory> {
        policy_form(alloc, ordinal, &self.policy)
    }
}

/// A tag row with its matcher. Contracts see what was compiled.
#[derive(Drop)]
pub(crate) struct HeldRow {
    pub(crate) row: TagRow,
    pub(crate) matcher: Matcher,
}

impl Model for HeldRow {
    ghost use Rattle.std.specs.Prelude.{◌≡◌};
    ghost use Rattle.rg_facts.specs.Engines.{row_matching};
    ghost use Rattle.rg_policy_sets.specs.Seen.{RowSource};

    ghost Value = { RowSource };

    ghost view = { λ h. record { def = h.matcher.def; row = h.row } };

    ghost invariant = { λ h. h.matcher ≡ row_matching h.matcher.def h.row };
}

impl Fileable for HeldRow {
    ghost use Rattle.rg_policy_sets.specs.Kept.{row_source_form};

    ghost form_of = { row_source_form };

    fn id(&self) -> i64 {
        self.row.id
    }

    fn form(&self, alloc: Global, ordinal: i64) -> Result<Form, NoMemory> {
        row_form(alloc, ordinal, &self.row)
    }
}

/// The form of a policy, with this id.
fn policy_form(alloc: Global, ordinal: i64, policy: &Policy) -> Result<Form, NoMemory>
    ensures { IfOk result (λ form. form ≡ renumbered ordinal (policy_form policy.now)) }
{
    let maps = maps_of(alloc, policy)?;
    Ok(Form {
        id: ordinal,
        maps: Seq::from_vec(maps.into_vec()),
        reach: Reach::Exact,
    })
}

/// The form of a tag row, with this id.
fn row_form(alloc: Global, ordinal: i64, row: &TagRow) -> Result<Form, NoMemory>
    ensures { IfOk result (λ form. form ≡ renumbered ordinal (row_form row.now)) }
{
    let mut maps = Seq::new(alloc);
    let levels = row.resources.try_copy(alloc)?;
    maps.add(ResourceMap { levels })?;
    Ok(Form {
        id: ordinal,
        maps,
        reach: Reach::Down,
    })
}

impl HeldPolicy {
    /// The policy, which passes its rules and is shared, with its evaluator. One compile is counted.
    #[tactic(auto, using(crate::proofs::Marking::written))]
    pub(crate) fn compile<L: Ledger>(
        alloc: Global,
        frame: &Frame,
        side: Side,
        shared: &Shared<Policy>,
        steps: &mut Steps<L>,
    ) -> Result<HeldPolicy, NoMemory>
        requires rules { policy_fault frame.now side shared.now ≡ None }
        ensures source { IfOk result (λ h. h ≡ source frame.now side shared.now) }
        ensures steps { steps.new ≡ one_compile steps.old }
    {
        let policy: &Policy = shared;
        let evaluator = Evaluator::compile(alloc, frame, policy, side, steps)?;
        let levels = def_of(frame, side).levels.as_slice();
        let first = Mark::at(alloc, levels, 0, policy)?;
        let second = Mark::at(alloc, levels, 1, policy)?;
        Ok(HeldPolicy {
            first,
            second,
            policy: shared.try_copy(alloc)?,
            evaluator,
        })
    }

    /// Whether the policy may lie on a resource with these values at the first two levels.
    pub(crate) fn may_lie(&self, first: &Asked<'_>, second: &Asked<'_>) -> bool
        ensures { result ≡ admits first.now second.now self.now }
    {
        self.first.agrees(first) && self.second.agrees(second)
    }
}

impl HeldRow {
    /// A copy of the row, which fits, with its matcher.
    pub(crate) fn compile(
        alloc: Global,
        def: &ServiceDef,
        row: &TagRow,
    ) -> Result<HeldRow, NoMemory>
        requires fits { tagged_fit def.now row.now.resources.items ≡ true }
        ensures { IfOk result (λ h. h ≡ row_source def.now row.now) }
    {
        let matcher = Matcher::of_resources(alloc, def, &row.resources, Reach::Down)?;
        Ok(HeldRow {
            row: row.try_copy(alloc)?,
            matcher,
        })
    }
}
