// What compiles policies and tag rows.
ghost use Rattle.rg_facts.specs.Sound.{passes};
ghost use Rattle.rg_resmatch.specs.Rules.{tagged_fit};
ghost use Rattle.rg_policy_sets.specs.Seen.{row_source, source};

use crate::held::{HeldPolicy, HeldRow};
use crate::moving::Compile;
use rg_base::{Ledger, NoMemory, Steps};
use rg_defs::ServiceDef;
use rg_evalr::{Frame, Side};
use rg_policy::Policy;
use rg_shared::Shared;
use rg_tags::TagRow;
use std::alloc::Global;

/// Compiles policies of a side under a frame.
#[derive(Drop)]
pub(crate) struct PolicyCompiler<'a> {
    pub(crate) frame: &'a Frame,
    pub(crate) side: Side,
}

impl<'a> Compile<Shared<Policy>, HeldPolicy> for PolicyCompiler<'a> {
    ghost hold = { λ c p. source c.frame.now c.side p };

    ghost passes = { λ c p. passes c.frame.now c.side p };

    ghost cost = { 1 };

    #[tactic(auto, using(crate::proofs::Passing::no_fault, crate::proofs::Counting::one_compiled, crate::proofs::Counting::exactly_one))]
    fn compile<L: Ledger>(
        &self,
        alloc: Global,
        item: &Shared<Policy>,
        steps: &mut Steps<L>,
    ) -> Result<HeldPolicy, NoMemory> {
        HeldPolicy::compile(alloc, self.frame, self.side, item, steps)
    }
}

/// Compiles tag rows under a definition.
#[derive(Drop)]
pub(crate) struct RowCompiler<'a> {
    pub(crate) def: &'a ServiceDef,
}

impl<'a> Compile<TagRow, HeldRow> for RowCompiler<'a> {
    ghost hold = { λ c row. row_source c.def.now row };

    ghost passes = { λ c row. tagged_fit c.def.now row.resources.items };

    ghost cost = { 0 };

    #[tactic(auto, using(crate::proofs::Counting::no_work, crate::proofs::Counting::none_compiled))]
    fn compile<L: Ledger>(
        &self,
        alloc: Global,
        item: &TagRow,
        _steps: &mut Steps<L>,
    ) -> Result<HeldRow, NoMemory> {
        HeldRow::compile(alloc, self.def, item)
    }
}
