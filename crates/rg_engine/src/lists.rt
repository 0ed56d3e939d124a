// The policies, tag policies and tag rows of facts.
ghost use Rattle.std.specs.Prelude.{◌≡◌, [], IfOk};
ghost use Rattle.rg_base.specs.Listed.{listed};
ghost use Rattle.rg_engine.specs.Parts.{compiled_of, lists_of, spared};

use rg_base::{NoMemory, Seq};
use rg_facts::Facts;
use rg_policy::Policy;
use rg_shared::Shared;
use rg_tags::TagRow;
use std::alloc::Global;

/// The policies, tag policies and tag rows of facts.
#[derive(Drop)]
pub(crate) struct Lists {
    pub policies: Seq<Shared<Policy>>,
    pub tag_policies: Seq<Shared<Policy>>,
    pub tag_rows: Seq<TagRow>,
}

impl Lists {
    /// Lets the lists of the facts go, and leaves empty ones.
    pub(crate) fn clear(alloc: Global, facts: &mut Facts)
        ensures { facts.new ≡ record facts.old {
          policies = listed [];
          tag_policies = listed [];
          tag_rows = listed [];
        } }
    {
        facts.policies = Seq::new(alloc);
        facts.tag_policies = Seq::new(alloc);
        facts.tag_rows = Seq::new(alloc);
    }
}

/// In which of the lists a place is reserved, which is part of the facts.
#[derive(Clone, Copy, Debug, PartialEq, Eq)]
pub(crate) struct Spares {
    pub policies: bool,
    pub tag_policies: bool,
    pub tag_rows: bool,
}

impl Spares {
    /// Those of the lists of facts.
    pub(crate) fn of(facts: &Facts) -> Spares
        ensures { lists_of result (compiled_of facts.now) ≡ record {
          policies = facts.now.policies;
          tag_policies = facts.now.tag_policies;
          tag_rows = facts.now.tag_rows;
        } }
    {
        Spares {
            policies: facts.policies.is_reserved(),
            tag_policies: facts.tag_policies.is_reserved(),
            tag_rows: facts.tag_rows.is_reserved(),
        }
    }
}

/// The list, with a place reserved if there is to be one.
pub(crate) fn with_spare<T: Drop>(list: Seq<T>, ready: bool) -> Result<Seq<T>, NoMemory>
    requires { list.spare ≡ 0 }
    ensures { IfOk result (λ l. l ≡ spared ready list.items) }
{
    let mut list = list;
    if ready {
        list.reserve()?;
    }
    Ok(list)
}
