// The best so far, while policies are asked one after the other.
ghost use Rattle.std.specs.Prelude.{◌≡◌, ◌≤◌, ◌+◌, ◌&&◌, ◌||◌, IfSome, option_map};
ghost use Rattle.rg_evalr.specs.Effects.{item_of};
ghost use Rattle.rg_evalr.specs.Sources.{Source};
ghost use Rattle.rg_evalr.specs.Tries.{TriesAtMost};
ghost use Rattle.rg_facts.specs.Best.{access_asked, asked, better, better_of, choices_asked, none_yet, outcome_by, ranked, ranks_before};
ghost use Rattle.rg_facts.specs.Candidates.{Candidate, context_of};
ghost use Rattle.rg_facts.specs.Choices.{goes_before, items_of, offered};
ghost use Rattle.rg_facts.specs.Flow.{cell_in, cell_of, given};

use crate::choice::{Choice, Kind};
use crate::setting::Setting;
use rg_base::{Ledger, Steps};
use rg_evalr::{Effect, Evaluator, Side};
use rg_policy::{ACCESS_POLICY, FILTER_POLICY, NORMAL, OVERRIDE, Policy, Tag};
use std::marker::Model;

/// What policies are asked in one pass.
#[derive(Clone, Copy, Debug, PartialEq, Eq)]
pub enum Pass {
    /// What access they give.
    Access,
    /// Which row filters and masks they offer.
    Choices,
    /// Both.
    All,
}

/// A policy that stands in a cell. The cells are numbered from 1 to 8.
#[derive(Drop)]
pub(crate) struct Ranked<'a> {
    pub cell: u8,
    pub policy: &'a Policy,
}

impl<'a> Model for Ranked<'a> {
    ghost use Rattle.std.specs.Prelude.{ℕ};
    ghost use Rattle.rg_policy.specs.declared.policy.Policy.{Policy};

    ghost Value = { ℕ × Policy };

    ghost view = { λ r. (r.cell, r.policy.now) };
}

/// The cell of a policy of this priority that gives this effect.
fn cell_of(priority: i64, side: Side, effect: Effect) -> Option<u8>
    ensures { result ≡ cell_of priority side effect }
{
    let cell = cell_in(side, effect)?;
    if priority == OVERRIDE {
        Some(cell)
    } else if priority == NORMAL {
        Some(cell + 4)
    } else {
        None
    }
}

/// The cell among those of one priority.
fn cell_in(side: Side, effect: Effect) -> Option<u8>
    ensures cell { result ≡ cell_in side effect }
    ensures few { IfSome result (λ n. n ≤ 4) }
{
    match (effect, side) {
        (Effect::Deny, Side::Tag) => Some(1),
        (Effect::Deny, Side::Resource) => Some(2),
        (Effect::Allow, Side::Tag) => Some(3),
        (Effect::Allow, Side::Resource) => Some(4),
        (Effect::Nothing, _) => None,
    }
}

/// Whether the one goes before the other: by the cell, then by the id.
fn ranks_before(next: &Ranked, best: &Ranked) -> bool
    ensures { result ≡ ranks_before next.now best.now }
{
    let id = next.policy.id.0;
    let best_id = best.policy.id.0;
    next.cell < best.cell || (next.cell == best.cell && id < best_id)
}

/// Keeps the new one, if there is one, where it goes before the best so far.
fn keep_ranked<'a>(best: &mut Option<Ranked<'a>>, next: Option<Ranked<'a>>)
    ensures { best.new ≡ better_of ranks_before best.old next.entry }
{
    let Some(next) = next else {
        return;
    };
    let is_better = match &*best {
        Some(earlier) => ranks_before(&next, earlier),
        None => true,
    };
    if is_better {
        *best = Some(next);
    }
}

fn keep_choice<'a>(best: &mut Option<Choice<'a>>, next: Option<Choice<'a>>)
    ensures { best.new ≡ better_of goes_before best.old next.entry }
{
    let Some(next) = next else {
        return;
    };
    let is_better = match &*best {
        Some(earlier) => next.goes_before(earlier),
        None => true,
    };
    if is_better {
        *best = Some(next);
    }
}

/// A policy with its evaluator, and for a tag policy the tag that it is asked for. Contracts see what was compiled, and the tag.
#[derive(Drop)]
pub struct Candidate<'a> {
    policy: &'a Policy,
    evaluator: &'a Evaluator,
    tag: Option<&'a Tag>,
}

impl<'a> Model for Candidate<'a> {
    ghost use Rattle.std.specs.Prelude.{◌≡◌, option_map};
    ghost use Rattle.rg_facts.specs.Candidates.{Candidate as Seen};

    ghost Value = { Seen };

    ghost view = { λ c. record { source = c.evaluator.now; tag = option_map (λ t. t.now) c.tag } };

    ghost invariant = { λ c. c.evaluator.now.policy ≡ c.policy.now };
}

impl<'a> Candidate<'a> {
    /// The policy, of which this is the evaluator.
    pub fn new(policy: &'a Policy, evaluator: &'a Evaluator, tag: Option<&'a Tag>) -> Candidate<'a>
        requires { evaluator.now.policy ≡ policy.now }
        ensures { result
            ≡ record { source = evaluator.now; tag = option_map (λ t. t.now) tag.entry } }
    {
        Candidate {
            policy,
            evaluator,
            tag,
        }
    }

    /// What access it gives.
    #[tactic(auto, unfolding(crate::specs::Flow::given))]
    fn given<L: Ledger>(&self, setting: &Setting, steps: &mut Steps<L>) -> Effect
        ensures effect { result ≡ given setting.now self.now }
        ensures tries { TriesAtMost 1 steps.old steps.new }
    {
        let side = self.evaluator.side();
        if self.policy.policy_type == ACCESS_POLICY && setting.chooses(side, self.policy) {
            self.evaluator
                .access(setting.request, setting.roles, self.tag, steps)
        } else {
            Effect::Nothing
        }
    }

    /// The cell in which it stands.
    #[tactic(auto, unfolding(crate::specs::Best::ranked))]
    fn ranked<L: Ledger>(&self, setting: &Setting, steps: &mut Steps<L>) -> Option<Ranked<'a>>
        ensures ranked { result ≡ ranked setting.now self.now }
        ensures tries { TriesAtMost 1 steps.old steps.new }
    {
        let effect = self.given(setting, steps);
        match cell_of(self.policy.priority, self.evaluator.side(), effect) {
            Some(cell) => Some(Ranked {
                cell,
                policy: self.policy,
            }),
            None => None,
        }
    }

    /// The place of the first item of this kind that matches.
    fn item<L: Ledger>(&self, setting: &Setting, kind: Kind, steps: &mut Steps<L>) -> Option<u32>
        ensures place { let source = self.now.source in
            result ≡ item_of source.frame source.side (context_of setting.now self.now) source.policy (items_of kind source.policy) }
        ensures tries { TriesAtMost 1 steps.old steps.new }
    {
        let evaluator = self.evaluator;
        match kind {
            Kind::Filter => evaluator.filter_item(setting.request, setting.roles, self.tag, steps),
            Kind::Mask => evaluator.mask_item(setting.request, setting.roles, self.tag, steps),
        }
    }

    /// What it offers of this kind.
    #[tactic(auto, unfolding(crate::specs::Choices::offered))]
    fn offered<L: Ledger>(
        &self,
        setting: &Setting,
        kind: Kind,
        steps: &mut Steps<L>,
    ) -> Option<Choice<'a>>
        ensures offer { result ≡ offered setting.now kind self.now }
        ensures tries { TriesAtMost 1 steps.old steps.new }
    {
        let side = self.evaluator.side();
        if self.policy.policy_type != kind.policy_type() || !setting.chooses(side, self.policy) {
            return None;
        }
        match self.item(setting, kind, steps) {
            Some(place) => Some(Choice {
                policy: self.policy,
                side,
                place,
            }),
            None => None,
        }
    }
}

/// What was found so far: the policy that decides, and the items that are chosen.
#[derive(Drop)]
pub struct Best<'a> {
    pub(crate) decider: Option<Ranked<'a>>,
    pub(crate) filter: Option<Choice<'a>>,
    pub(crate) mask: Option<Choice<'a>>,
}

impl<'a> Model for Best<'a> {
    ghost use Rattle.rg_facts.specs.Best.{Best as Seen};

    ghost Value = { Seen };

    ghost view = { λ b. record { decider = b.decider; filter = b.filter; mask = b.mask } };
}

impl<'a> Best<'a> {
    /// Nothing was asked yet.
    pub fn none() -> Best<'a>
        ensures { result ≡ none_yet }
    {
        Best {
            decider: None,
            filter: None,
            mask: None,
        }
    }

    fn ask_access<L: Ledger>(
        &mut self,
        setting: &Setting,
        candidate: &Candidate<'a>,
        steps: &mut Steps<L>,
    )
        ensures best { self.new ≡ access_asked setting.now self.old candidate.now }
        ensures tries { TriesAtMost 1 steps.old steps.new }
    {
        let next = candidate.ranked(setting, steps);
        keep_ranked(&mut self.decider, next);
    }

    #[tactic(auto, using(crate::proofs::Types::types))]
    fn ask_choices<L: Ledger>(
        &mut self,
        setting: &Setting,
        candidate: &Candidate<'a>,
        steps: &mut Steps<L>,
    )
        ensures best { self.new ≡ choices_asked setting.now self.old candidate.now }
        ensures tries { TriesAtMost 1 steps.old steps.new }
    {
        if candidate.policy.policy_type == FILTER_POLICY {
            let next = candidate.offered(setting, Kind::Filter, steps);
            keep_choice(&mut self.filter, next);
        } else {
            let next = candidate.offered(setting, Kind::Mask, steps);
            keep_choice(&mut self.mask, next);
        }
    }

    /// Asks one more candidate. At most one try is counted.
    #[tactic(auto, using(crate::proofs::Types::types))]
    pub fn ask<L: Ledger>(
        &mut self,
        pass: Pass,
        setting: &Setting,
        candidate: &Candidate<'a>,
        steps: &mut Steps<L>,
    )
        ensures best { self.new ≡ asked pass setting.now self.old candidate.now }
        ensures tries { TriesAtMost 1 steps.old steps.new }
    {
        match pass {
            Pass::Access => self.ask_access(setting, candidate, steps),
            Pass::Choices => self.ask_choices(setting, candidate, steps),
            Pass::All => if candidate.policy.policy_type == ACCESS_POLICY {
                self.ask_access(setting, candidate, steps)
            } else {
                self.ask_choices(setting, candidate, steps)
            },
        }
    }
}
