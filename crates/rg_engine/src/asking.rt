// What is asked for one request: the policies and tag rows that their indexes name, and no others.
ghost use Rattle.std.specs.Prelude.{◌≡◌, ◌+◌, [], None, Some, length, option_map};
ghost use Rattle.std.specs.List.{sum_by};
ghost use Rattle.rg_resmatch.specs.Tests.{lies};
ghost use Rattle.rg_resmatch.specs.declared.reach.Reach.TheVariants.{Down};
ghost use Rattle.rg_evalr.specs.Frames.{def_of};
ghost use Rattle.rg_evalr.specs.declared.frame.Side.TheVariants.{Resource as Own, Tag as Tagged};
ghost use Rattle.rg_facts.specs.Best.{after};
ghost use Rattle.rg_facts.specs.Engines.{asked_for};
ghost use Rattle.rg_facts.specs.declared.best.Pass.TheVariants as Pass;
ghost use Rattle.rg_index.specs.Candidates.{bound};
ghost use Rattle.rg_policy_sets.specs.Bounds.{policy_forms};
ghost use Rattle.rg_engine.specs.Asked.{Finds, all_for, all_tagged, reaching_tags, tag_tries};
ghost use Rattle.rg_engine.specs.Bounds.{TriesWithin};

use rg_base::{Ledger, Steps};
use rg_facts::{Best, Candidate, Pass, Setting};
use rg_policy::{Resource, Tag};
use rg_policy_sets::{CompiledRow, PolicySet, RowVisits, Visits};

/// What is found after these policies were asked for the tag.
fn ask_visited<'a, L: Ledger>(
    setting: &Setting,
    best: Best<'a>,
    visits: Visits<'a>,
    tag: Option<&'a Tag>,
    steps: &mut Steps<L>,
) -> Best<'a>
    ensures best { result ≡ after Pass.All setting.now
        (asked_for (option_map (λ t. t.now) tag.entry) visits.entry) best.entry }
    ensures tries { TriesWithin (length visits.entry) steps.old steps.new }
{
    let mut best = best;
    let mut visits = visits;
    'visits: while let Some(visited) = visits.next() {
        let candidate = Candidate::new(visited.policy(), visited.evaluator(), tag);
        best.ask(Pass::All, setting, &candidate, steps);
    }
    best
}

/// What is found after the tag policies were asked for one tag.
fn ask_tag<'a, L: Ledger>(
    setting: &Setting,
    best: Best<'a>,
    policies: &'a PolicySet,
    tag: &'a Tag,
    steps: &mut Steps<L>,
) -> Best<'a>
    requires { policies.now.side ≡ Tagged }
    ensures best { Finds setting.now (all_for policies.now (Some tag.now)) best.entry result }
    ensures tries { TriesWithin (tag_tries policies.now tag.now) steps.old steps.new }
{
    let visits = policies.visit_tag(tag.kind.as_str());
    ask_visited(setting, best, visits, Some(tag), steps)
}

/// What is found after the tag policies were asked for each of these tags.
fn ask_tags<'a, L: Ledger>(
    setting: &Setting,
    best: Best<'a>,
    policies: &'a PolicySet,
    tags: &'a [Tag],
    steps: &mut Steps<L>,
) -> Best<'a>
    requires { policies.now.side ≡ Tagged }
    ensures best { Finds setting.now (all_tagged policies.now tags.now) best.entry result }
    ensures tries { TriesWithin (sum_by (tag_tries policies.now) tags.now) steps.old steps.new }
{
    let mut best = best;
    let mut tags = tags;
    'tags: while let Some((tag, later)) = tags.split_first() {
        best = ask_tag(setting, best, policies, tag, steps);
        tags = later;
    }
    best
}

/// Whether the row reaches down to the resource, whoever asks.
fn reaches<L: Ledger>(setting: &Setting, row: &CompiledRow, steps: &mut Steps<L>) -> bool
    ensures answer { result ≡ lies row.now.def
        row.now.row.resources.items Down setting.now.request.resource.elements.items [] }
    ensures tries { TriesWithin 1 steps.old steps.new }
{
    row.matcher().matches(&setting.request.resource, "", steps)
}

/// What is found after the tag policies were asked for each tag of those of these rows that reach down to the resource.
pub(crate) fn ask_rows<'a, L: Ledger>(
    setting: &Setting,
    best: Best<'a>,
    policies: &'a PolicySet,
    rows: RowVisits<'a>,
    steps: &mut Steps<L>,
) -> Best<'a>
    requires { policies.now.side ≡ Tagged }
    ensures best { Finds setting.now (all_tagged policies.now (reaching_tags
        setting.now.request.resource.elements.items rows.entry)) best.entry result }
    ensures tries { TriesWithin (length rows.entry + sum_by (tag_tries policies.now) (reaching_tags
        setting.now.request.resource.elements.items rows.entry)) steps.old steps.new }
{
    let mut best = best;
    let mut rows = rows;
    'rows: while let Some(row) = rows.next() {
        if reaches(setting, &row, steps) {
            best = ask_tags(setting, best, policies, row.row().tags.as_slice(), steps);
        }
    }
    best
}

/// What is found after the resource policies were asked.
pub(crate) fn ask_policies<'a, L: Ledger>(
    setting: &Setting,
    best: Best<'a>,
    policies: &'a PolicySet,
    resource: &'a Resource,
    steps: &mut Steps<L>,
) -> Best<'a>
    requires side { policies.now.side ≡ Own }
    requires resource { resource.now ≡ setting.now.request.resource }
    ensures best { Finds setting.now (all_for policies.now None) best.entry result }
    ensures tries { TriesWithin (bound (def_of policies.now.frame policies.now.side)
        (policy_forms policies.now.policies) resource.now.elements.items) steps.old steps.new }
{
    let visits = policies.visit(resource);
    ask_visited(setting, best, visits, None, steps)
}
