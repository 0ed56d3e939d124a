// The policies of one side, compiled and filed.
ghost use Rattle.std.specs.Prelude.{◌≡◌, ◌==◌, ◌≤◌, ◌++◌, ℕ, List, Contains, None, IfOk, OnOk, fold, length, map, sum_by, true};
ghost use Rattle.std.specs.List.{list_all};
ghost use Rattle.std.specs.Arc.{arc_value};
ghost use Rattle.std.specs.Str.{chars};
ghost use Rattle.rg_base.specs.Listed.{listed};
ghost use Rattle.rg_base.specs.Texts.{all_distinct};
ghost use Rattle.rg_policy.specs.Maps.{maps_of};
ghost use Rattle.rg_policy.specs.declared.policy.Policy.{Policy};
ghost use Rattle.rg_defs.specs.Rules.{def_fault};
ghost use Rattle.rg_resmatch.specs.Tests.{some_lies, tag_elements};
ghost use Rattle.rg_resmatch.specs.declared.reach.Reach.TheVariants.{Exact};
ghost use Rattle.rg_evalr.specs.Frames.{def_of};
ghost use Rattle.rg_evalr.specs.Sources.{Source};
ghost use Rattle.rg_facts.specs.Sound.{passes, same_id};
ghost use Rattle.rg_index.specs.Candidates.{bound};
ghost use Rattle.rg_index.specs.Filing.{pairs};
ghost use Rattle.rg_policy_sets.specs.Bounds.{HasCompiled, WorkWithin, made_on, pairs_on, policy_forms, side_after};
ghost use Rattle.rg_policy_sets.specs.Kept.{policies_in};
ghost use Rattle.rg_policy_sets.specs.Seen.{source};

use crate::compilers::PolicyCompiler;
use crate::filling::compile_slots;
use crate::held::HeldPolicy;
use crate::marks::{Asked, lying_policies_agree};
use crate::pages::Slots;
use crate::shelf::Shelf;
use crate::sides::policy_plan;
use crate::slots::Slot;
use crate::visits::Visits;
use rg_base::{Ledger, NoMemory, Seq, Steps, TryCopy};
use rg_cmd::PolicyChange;
use rg_defs::{Level, ServiceDef};
use rg_evalr::{Frame, Side, def_of};
use rg_policy::{Policy, Resource};
use rg_shared::Shared;
use std::alloc::Global;
use std::marker::Model;
use std::snapshot::Snapshot;
use std::sync::Arc;

/// The policies of one side, each with its evaluator, and their index. Contracts see the policies, and what they are read
/// under. A change leaves a set as it is and gives a new one, which shares with it what the change doesn't touch.
pub struct PolicySet {
    pub(crate) shelf: Shelf<HeldPolicy>,
    /// Those of the definition.
    levels: Arc<Seq<Level>>,
    pub(crate) side: Side,
    /// Which only contracts see.
    pub(crate) frame: Snapshot<Frame>,
}

impl Drop for PolicySet {
    fn drop(self) {
        let Self {
            shelf: _,
            levels: _,
            side: _,
            frame: _,
        } = self;
    }
}

impl Model for PolicySet {
    ghost use Rattle.std.specs.Prelude.{◌≡◌};
    ghost use Rattle.std.specs.Arc.{arc_value};
    ghost use Rattle.rg_evalr.specs.Frames.{def_of};
    ghost use Rattle.rg_policy_sets.specs.Kept.{ArePolicies, policies_in};
    ghost use Rattle.rg_policy_sets.specs.Seen.{Policies};

    ghost Value = { Policies };

    ghost view = { λ s. record {
      frame = s.frame.value;
      side = s.side;
      policies = policies_in s.shelf.slots;
    } };

    ghost invariant = { λ s. ArePolicies s.frame.value s.side s.shelf
        × (arc_value s.levels ≡ (def_of s.frame.value s.side).levels) };
}

/// The levels of the definition, to be shared.
fn levels_of(alloc: Global, def: &ServiceDef) -> Result<Arc<Seq<Level>>, NoMemory>
    ensures { IfOk result (λ levels. arc_value levels ≡ def.now.levels) }
{
    let levels = def.levels.try_copy(alloc)?;
    Ok(Arc::new(alloc, levels)?)
}

/// Copies of the policies in the slots come to the list.
fn add_policies(
    alloc: Global,
    slots: &[Slot<HeldPolicy>],
    list: &mut Vec<Shared<Policy>>,
) -> Result<(), NoMemory>
    ensures { OnOk result (list.new.items ≡ list.old.items ++ policies_in slots.now) }
{
    for slot in slots {
        list.push(slot.held.policy.try_copy(alloc)?)?;
    }
    Ok(())
}

/// Copies of the policies in the slots.
fn policies_of(alloc: Global, slots: &Slots<HeldPolicy>) -> Result<Seq<Shared<Policy>>, NoMemory>
    ensures { IfOk result (λ list. list ≡ listed (policies_in slots.now)) }
{
    let mut list = Vec::new(alloc);
    let pages = slots.as_pages();
    for page in pages {
        add_policies(alloc, page.as_slice(), &mut list)?;
    }
    Ok(Seq::from_vec(list))
}

impl PolicySet {
    /// The policies of a side, each of which passes the rules V3 to V9, V11 and V12 under the frame, whose definition of
    /// the side passes its own.
    pub fn build<L: Ledger>(
        alloc: Global,
        frame: &Frame,
        side: Side,
        policies: &[Shared<Policy>],
        steps: &mut Steps<L>,
    ) -> Result<PolicySet, NoMemory>
        requires lawful { def_fault (def_of frame.now side) ≡ None }
        requires rules { list_all (passes frame.now side) policies.now ≡ true }
        ensures made { IfOk result
            (λ s. s ≡ record { frame = frame.now; side = side; policies = policies.now }) }
        ensures compiled { OnOk result (HasCompiled (length policies.now) steps.old steps.new) }
        ensures steps { WorkWithin (length policies.now) (sum_by
            (pairs (def_of frame.now side)) (policy_forms policies.now)) steps.old steps.new }
    {
        let def = def_of(frame, side);
        let levels = levels_of(alloc, def)?;
        let compiler = PolicyCompiler { frame, side };
        let slots = compile_slots(alloc, &compiler, policies, steps)?;
        let shelf = Shelf::build(alloc, def, slots, steps)?;
        Ok(PolicySet {
            shelf,
            levels,
            side,
            frame: Snapshot::of(frame),
        })
    }

    /// The policies after those of the changes that are of their side, in order. The frame is that of the set. No two policies
    /// after them have one id, and they pass their rules. Only policies that are new or other ones are compiled.
    #[tactic(auto, using(crate::proofs::Counting::no_work))]
    pub fn apply<L: Ledger>(
        &self,
        alloc: Global,
        frame: &Frame,
        changes: &[PolicyChange],
        steps: &mut Steps<L>,
    ) -> Result<PolicySet, NoMemory>
        requires same { frame.now ≡ self.now.frame }
        requires rules { list_all (passes self.now.frame self.now.side)
            (fold (side_after self.now.side) self.now.policies changes.now) ≡ true }
        requires distinct { all_distinct same_id
            (fold (side_after self.now.side) self.now.policies changes.now) ≡ true }
        ensures made { IfOk result (λ s. s ≡ record {
          frame = self.now.frame;
          side = self.now.side;
          policies = fold (side_after self.now.side) self.now.policies changes.now;
        }) }
        ensures steps { WorkWithin (made_on self.now.side changes.now)
            (pairs_on (def_of self.now.frame self.now.side)
            self.now.side self.now.policies changes.now) steps.old steps.new }
    {
        let levels = Arc::try_clone(&self.levels)?;
        let plan = policy_plan(alloc, self.side, self.shelf.slots(), changes)?;
        let compiler = PolicyCompiler {
            frame,
            side: self.side,
        };
        let def = def_of(frame, self.side);
        let shelf = self.shelf.moved(alloc, def, &compiler, &plan, steps)?;
        Ok(PolicySet {
            shelf,
            levels,
            side: self.side,
            frame: Snapshot::of(frame),
        })
    }

    /// The law of the definition: it passes its rules. The call does nothing.
    fn law_of_definition(&self)
        ensures { def_fault (def_of self.now.frame self.now.side) ≡ None }
    {
        self.shelf.law_of_definition();
    }

    /// Whether there is no policy.
    pub fn is_empty(&self) -> bool
        ensures { result ≡ (length self.now.policies == 0) }
    {
        self.shelf.slots().is_empty()
    }

    /// The policies of which one may lie on the resource, each with its evaluator. No memory is taken.
    pub fn visit<'a>(&'a self, resource: &'a Resource) -> Visits<'a>
        ensures few { length result ≤ bound (def_of self.now.frame self.now.side)
            (policy_forms self.now.policies) resource.now.elements.items }
        ensures among { (s : Source) → Contains result s
            → Contains (map (source self.now.frame self.now.side) self.now.policies) s }
        ensures all { (p : Policy) (user : List ℕ) → Contains self.now.policies p
            → some_lies (def_of self.now.frame self.now.side)
            (maps_of p) Exact resource.now.elements.items user ≡ true
            → Contains result (source self.now.frame self.now.side p) }
    {
        self.law_of_definition();
        lying_policies_agree();
        let levels = self.levels.as_slice();
        let elements = resource.elements.as_slice();
        let first = Asked::at(levels, 0, elements);
        let second = Asked::at(levels, 1, elements);
        Visits::of(
            self.shelf.slots(),
            self.shelf.candidates(resource),
            first,
            second,
        )
    }

    /// As `visit`, for a resource whose one element has the level `tag` and this value.
    pub fn visit_tag<'a>(&'a self, tag: &'a str) -> Visits<'a>
        ensures few { length result ≤ bound (def_of self.now.frame self.now.side)
            (policy_forms self.now.policies) (tag_elements (chars tag.now)) }
        ensures among { (s : Source) → Contains result s
            → Contains (map (source self.now.frame self.now.side) self.now.policies) s }
        ensures all { (p : Policy) (user : List ℕ) → Contains self.now.policies p
            → some_lies (def_of self.now.frame self.now.side) (maps_of p) Exact
            (tag_elements (chars tag.now)) user ≡ true
            → Contains result (source self.now.frame self.now.side p) }
    {
        let first = Asked::nothing();
        let second = Asked::nothing();
        Visits::of(
            self.shelf.slots(),
            self.shelf.candidates_tag(tag),
            first,
            second,
        )
    }

    /// Copies of the policies.
    pub fn copies(&self, alloc: Global) -> Result<Seq<Shared<Policy>>, NoMemory>
        ensures { IfOk result (λ list. list ≡ listed self.now.policies) }
    {
        policies_of(alloc, self.shelf.slots())
    }
}
