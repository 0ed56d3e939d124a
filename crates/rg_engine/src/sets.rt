// The policies, tag policies and tag rows of a service, compiled and filed.
ghost use Rattle.std.specs.Prelude.{◌≡◌, ◌+◌, [], IfOk, OnOk, None, flat_map, fold, length, true};
ghost use Rattle.std.specs.List.{list_all, sum_by};
ghost use Rattle.rg_base.specs.Listed.{listed};
ghost use Rattle.rg_base.specs.Texts.{all_distinct};
ghost use Rattle.rg_defs.specs.Rules.{def_fault};
ghost use Rattle.rg_delta.specs.Applied.{tag_policies_after};
ghost use Rattle.rg_evalr.specs.Frames.{def_of};
ghost use Rattle.rg_evalr.specs.declared.frame.Side.TheVariants.{Resource as Own, Tag as Tagged};
ghost use Rattle.rg_facts.specs.Best.{none_yet};
ghost use Rattle.rg_facts.specs.Candidates.{candidates, frame_of, tag_candidates, tags_of};
ghost use Rattle.rg_facts.specs.Sound.{passes, same_id};
ghost use Rattle.rg_facts.specs.declared.facts.Facts.{Facts};
ghost use Rattle.rg_index.specs.Candidates.{bound};
ghost use Rattle.rg_policy_sets.specs.Bounds.{HasCompiled, WorkWithin, made, made_on, pairs_on, pairs_under, policy_forms, row_forms, row_pairs};
ghost use Rattle.rg_engine.specs.Asked.{Finds, tag_tries};
ghost use Rattle.rg_engine.specs.Bounds.{TriesWithin, bound_on, pairs_in, policies_in, tag_bound};
ghost use Rattle.rg_engine.specs.Parts.{IsTagSet, MayCompile, compiled_after, compiled_of, lists_of, row_set, tag_pairs, tag_policies_of, tag_set};

use crate::asking::{ask_policies, ask_rows};
use crate::lists::{Lists, Spares, with_spare};
use rg_base::{Ledger, NoMemory, Seq, Steps};
use rg_cmd::{PolicyChange, TagChange};
use rg_evalr::{Frame, Side};
use rg_facts::{Best, Facts, Setting};
use rg_policy::{Policy, Resource};
use rg_policy_sets::{PolicySet, RowSet};
use rg_shared::Shared;
use std::alloc::Global;
use std::marker::Model;

/// The policies, tag policies and tag rows, each compiled and filed. Contracts see them, and what they are read under.
pub(crate) struct Sets {
    policies: PolicySet,
    /// None where there is no tag definition.
    tag_policies: Option<PolicySet>,
    rows: RowSet,
}

impl Drop for Sets {
    fn drop(self) {
        let Self {
            policies: _,
            tag_policies: _,
            rows: _,
        } = self;
    }
}

impl Model for Sets {
    ghost use Rattle.std.specs.Prelude.{◌≡◌};
    ghost use Rattle.rg_evalr.specs.declared.frame.Side.TheVariants.{Resource};
    ghost use Rattle.rg_engine.specs.Parts.{Compiled, IsTagSet, tag_policies_of};

    ghost Value = { Compiled };

    ghost view = { λ s. record {
      frame = s.policies.frame;
      policies = s.policies.policies;
      tag_policies = tag_policies_of s.tag_policies;
      rows = s.rows.rows;
    } };

    ghost invariant = { λ s. (s.policies.side ≡ Resource)
        × IsTagSet s.policies.frame s.tag_policies × (s.rows.def ≡ s.policies.frame.def) };
}

/// The tag policies, where there is a definition for them.
fn build_tag_policies<L: Ledger>(
    alloc: Global,
    frame: &Frame,
    policies: &[Shared<Policy>],
    steps: &mut Steps<L>,
) -> Result<Option<PolicySet>, NoMemory>
    requires lawful { def_fault (def_of frame.now Tagged) ≡ None }
    requires rules { list_all (passes frame.now Tagged) policies.now ≡ true }
    requires none { frame.now.tag_def ≡ None → policies.now ≡ [] }
    ensures set { IfOk result (λ o. IsTagSet frame.now o) }
    ensures policies { IfOk result (λ o. tag_policies_of o ≡ policies.now) }
    ensures compiled { OnOk result (HasCompiled (length policies.now) steps.old steps.new) }
    ensures steps { WorkWithin (length policies.now)
        (pairs_under frame.now.tag_def (policy_forms policies.now)) steps.old steps.new }
{
    if frame.tag_def.is_none() {
        return Ok(None);
    }
    let set = PolicySet::build(alloc, frame, Side::Tag, policies, steps)?;
    Ok(Some(set))
}

/// The tag policies after the changes.
fn apply_tag_policies<L: Ledger>(
    alloc: Global,
    set: &Option<PolicySet>,
    frame: &Frame,
    changes: &[PolicyChange],
    steps: &mut Steps<L>,
) -> Result<Option<PolicySet>, NoMemory>
    requires set { IsTagSet frame.now set.now }
    requires rules { list_all (passes frame.now Tagged)
        (fold tag_policies_after (tag_policies_of set.now) changes.now) ≡ true }
    requires distinct { all_distinct same_id
        (fold tag_policies_after (tag_policies_of set.now) changes.now) ≡ true }
    requires none { frame.now.tag_def ≡ None
        → fold tag_policies_after (tag_policies_of set.now) changes.now ≡ [] }
    ensures set { IfOk result (λ o. IsTagSet frame.now o) }
    ensures policies { IfOk result
        (λ o. tag_policies_of o ≡ fold tag_policies_after (tag_policies_of set.now) changes.now) }
    ensures steps { WorkWithin (made_on Tagged changes.now)
        (tag_pairs frame.now.tag_def (tag_policies_of set.now) changes.now) steps.old steps.new }
{
    match set {
        Some(set) => {
            let next = set.apply(alloc, frame, changes, steps)?;
            Ok(Some(next))
        }
        None => Ok(None),
    }
}

/// What is found after the tag policies were asked for each tag of the resource.
fn ask_tagged<'a, L: Ledger>(
    setting: &Setting,
    policies: &'a PolicySet,
    rows: &'a RowSet,
    resource: &'a Resource,
    steps: &mut Steps<L>,
) -> Best<'a>
    requires side { policies.now.side ≡ Tagged }
    requires resource { resource.now ≡ setting.now.request.resource }
    ensures best { (facts : Facts) → policies.now ≡ tag_set facts → rows.now ≡ row_set facts
        → Finds setting.now (flat_map (tag_candidates facts) (tags_of facts setting.now.request)) none_yet result }
    ensures tries { (facts : Facts) → policies.now ≡ tag_set facts → rows.now ≡ row_set facts
        → TriesWithin (bound facts.def (row_forms facts.tag_rows.items) resource.now.elements.items + sum_by (tag_tries policies.now) (tags_of facts setting.now.request)) steps.old steps.new }
{
    let visits = rows.visit(resource);
    ask_rows(setting, Best::none(), policies, visits, steps)
}

impl Sets {
    /// The sets of what these facts have.
    pub(crate) fn build<L: Ledger>(
        alloc: Global,
        frame: &Frame,
        facts: &Facts,
        steps: &mut Steps<L>,
    ) -> Result<Sets, NoMemory>
        requires frame { frame.now ≡ frame_of facts.now }
        requires may { MayCompile (compiled_of facts.now) }
        ensures made { IfOk result (λ s. s ≡ compiled_of facts.now) }
        ensures compiled { OnOk result (HasCompiled (policies_in facts.now) steps.old steps.new) }
        ensures steps { WorkWithin (policies_in facts.now)
            (pairs_in facts.now) steps.old steps.new }
    {
        let policies = facts.policies.as_slice();
        let policies = PolicySet::build(alloc, frame, Side::Resource, policies, steps)?;
        let tag_policies = facts.tag_policies.as_slice();
        let tag_policies = build_tag_policies(alloc, frame, tag_policies, steps)?;
        let rows = RowSet::build(alloc, &frame.def, facts.tag_rows.as_slice(), steps)?;
        Ok(Sets {
            policies,
            tag_policies,
            rows,
        })
    }

    /// The sets after the changes, which share with these what the changes don't touch.
    pub(crate) fn apply<L: Ledger>(
        &self,
        alloc: Global,
        frame: &Frame,
        policies: &[PolicyChange],
        tags: &[TagChange],
        steps: &mut Steps<L>,
    ) -> Result<Sets, NoMemory>
        requires frame { frame.now ≡ self.now.frame }
        requires after { MayCompile (compiled_after self.now policies.now tags.now) }
        ensures made { IfOk result (λ s. s ≡ compiled_after self.now policies.now tags.now) }
        ensures steps { let f = self.now.frame in
            WorkWithin (made policies.now)
            (pairs_on f.def Own self.now.policies policies.now + (tag_pairs f.tag_def self.now.tag_policies policies.now + row_pairs f.def self.now.rows tags.now)) steps.old steps.new }
    {
        let own = self.policies.apply(alloc, frame, policies, steps)?;
        let tag_policies = apply_tag_policies(alloc, &self.tag_policies, frame, policies, steps)?;
        let rows = self.rows.apply(alloc, &frame.def, tags, steps)?;
        Ok(Sets {
            policies: own,
            tag_policies,
            rows,
        })
    }

    /// What is found after the tag policies were asked. Where there are none no tag row is looked at.
    fn ask_tag_policies<'a, L: Ledger>(
        &'a self,
        setting: &Setting,
        resource: &'a Resource,
        steps: &mut Steps<L>,
    ) -> Best<'a>
        requires { resource.now ≡ setting.now.request.resource }
        ensures best { (facts : Facts) → self.now ≡ compiled_of facts
            → Finds setting.now (flat_map (tag_candidates facts) (tags_of facts setting.now.request)) none_yet result }
        ensures tries { (facts : Facts) → self.now ≡ compiled_of facts
            → TriesWithin (bound facts.def (row_forms facts.tag_rows.items) resource.now.elements.items
            + sum_by (tag_bound facts.tag_def (policy_forms facts.tag_policies.items)) (tags_of facts setting.now.request)) steps.old steps.new }
    {
        match &self.tag_policies {
            Some(policies) => ask_tagged(setting, policies, &self.rows, resource, steps),
            None => Best::none(),
        }
    }

    /// What is found after all that may count were asked.
    pub(crate) fn ask<'a, L: Ledger>(
        &'a self,
        setting: &Setting,
        resource: &'a Resource,
        steps: &mut Steps<L>,
    ) -> Best<'a>
        requires { resource.now ≡ setting.now.request.resource }
        ensures best { (facts : Facts) → self.now ≡ compiled_of facts
            → Finds setting.now (candidates facts setting.now.request) none_yet result }
        ensures tries { (facts : Facts) → self.now ≡ compiled_of facts
            → TriesWithin (bound_on facts setting.now.request) steps.old steps.new }
    {
        let best = self.ask_tag_policies(setting, resource, steps);
        ask_policies(setting, best, &self.policies, resource, steps)
    }

    /// Copies of the policies, the tag policies and the tag rows, with these places reserved.
    pub(crate) fn copies(&self, alloc: Global, spares: Spares) -> Result<Lists, NoMemory>
        ensures { IfOk result (λ lists. lists ≡ lists_of spares self.now) }
    {
        let policies = self.policies.copies(alloc)?;
        let tag_policies = copies_of(alloc, &self.tag_policies)?;
        let tag_rows = self.rows.copies(alloc)?;
        Ok(Lists {
            policies: with_spare(policies, spares.policies)?,
            tag_policies: with_spare(tag_policies, spares.tag_policies)?,
            tag_rows: with_spare(tag_rows, spares.tag_rows)?,
        })
    }
}

/// Copies of the policies of the set, where there is one.
fn copies_of(alloc: Global, set: &Option<PolicySet>) -> Result<Seq<Shared<Policy>>, NoMemory>
    ensures { IfOk result (λ list. list ≡ listed (tag_policies_of set.now)) }
{
    match set {
        Some(set) => set.copies(alloc),
        None => Ok(Seq::new(alloc)),
    }
}
