// The plain engine: every request is asked of every policy.
ghost use Rattle.std.specs.Prelude.{◌≡◌, IfOk, Some, flat_map, map, option_map, true};
ghost use Rattle.rg_evalr.specs.Sources.{Source};
ghost use Rattle.rg_facts.specs.Best.{after, none_yet};
ghost use Rattle.rg_facts.specs.Candidates.{resource_candidates, row_lies, setting_of, tag_candidates, tags_of, zone_at};
ghost use Rattle.rg_facts.specs.Engines.{asked_for, row_matching};
ghost use Rattle.rg_facts.specs.Flow.{eval, outcome};
ghost use Rattle.rg_facts.specs.Sound.{sound};
ghost use Rattle.rg_facts.specs.Texts.{decide};
ghost use Rattle.rg_facts.specs.declared.best.Pass.TheVariants as Pass;
ghost use Rattle.rg_facts.specs.declared.facts.Facts.{Facts};

use crate::building::{compile, roles_of, zones_of};
use rg_base::{NoMemory, Seq, Serial, Steps};
use rg_defs::Paths;
use rg_evalr::Evaluator;
use rg_facts::{Best, Candidate, Decision, Facts, Outcome, Pass, Published, Setting, Verdict};
use rg_policy::{AccessRequest, Policy, Tag};
use rg_resmatch::Matcher;
use rg_roles::Roles;
use rg_shared::Shared;
use rg_tags::TagRow;
use rg_zone_rules::ZoneRow;
use rg_zones::ZoneMap;
use std::alloc::Global;
use std::marker::Model;

/// What is compiled of the policies and the tag rows.
pub(crate) struct Compiled {
    pub evaluators: Seq<Evaluator>,
    pub tag_evaluators: Seq<Evaluator>,
    pub row_matchers: Seq<Matcher>,
}

impl Drop for Compiled {
    fn drop(self) {
        let Self {
            evaluators: _,
            tag_evaluators: _,
            row_matchers: _,
        } = self;
    }
}

/// An engine over sound facts that asks each policy in turn. Contracts see its facts.
pub struct Plain {
    held: Facts,
    roles: Roles,
    zones: ZoneMap,
    paths: Paths,
    compiled: Compiled,
}

impl Drop for Plain {
    fn drop(self) {
        let Self {
            held: _,
            roles: _,
            zones: _,
            paths: _,
            compiled: _,
        } = self;
    }
}

impl Model for Plain {
    ghost use Rattle.std.specs.Prelude.{◌≡◌};
    ghost use Rattle.rg_facts.specs.declared.facts.Facts.{Facts};
    ghost use Rattle.rg_plain_engine.specs.Compiled.{AreCompiled};

    ghost Value = { Facts };

    ghost view = { λ p. p.held };

    ghost invariant = { λ p. (p.roles ≡ p.held.roles.items)
        × (p.zones ≡ record { zones = p.held.zones.items; service = p.held.service; def = p.held.def })
        × (p.paths ≡ p.held.def.levels.items)
        × AreCompiled p.held p.compiled };
}

/// What is found after these policies, of which these are the evaluators, were asked for the tag.
fn ask_policies<'a>(
    setting: &Setting,
    pass: Pass,
    best: Best<'a>,
    policies: &'a [Shared<Policy>],
    evaluators: &'a [Evaluator],
    tag: Option<&'a Tag>,
) -> Best<'a>
    requires { map (λ (s : Source). s.policy) evaluators.now ≡ policies.now }
    ensures { result ≡ after pass setting.now
        (asked_for (option_map (λ t. t.now) tag.entry) evaluators.now) best.entry }
{
    let mut steps = Steps::silent();
    let mut best = best;
    let mut policies = policies;
    let mut evaluators = evaluators;
    'policies: while let (Some((policy, later)), Some((evaluator, more))) = (
        policies.split_first(),
        evaluators.split_first(),
    ) {
        let candidate = Candidate::new(policy, evaluator, tag);
        best.ask(pass, setting, &candidate, &mut steps);
        policies = later;
        evaluators = more;
    }
    best
}

/// What is found after these tag policies were asked for each of these tags.
#[tactic(auto, using(rg_facts::proofs::Passes::passes))]
fn ask_tags<'a>(
    setting: &Setting,
    best: Best<'a>,
    policies: &'a [Shared<Policy>],
    evaluators: &'a [Evaluator],
    tags: &'a [Tag],
) -> Best<'a>
    requires { map (λ (s : Source). s.policy) evaluators.now ≡ policies.now }
    ensures { result ≡ after Pass.All setting.now
        (flat_map (λ tag. asked_for (Some tag) evaluators.now) tags.now) best.entry }
{
    let mut best = best;
    let mut tags = tags;
    'tags: while let Some((tag, later)) = tags.split_first() {
        best = ask_policies(setting, Pass::All, best, policies, evaluators, Some(tag));
        tags = later;
    }
    best
}

/// Whether the row, of which this is the matcher, reaches down to the resource.
fn row_lies(request: &AccessRequest, row: &TagRow, matcher: &Matcher) -> bool
    ensures { (facts : Facts) → matcher.now ≡ row_matching facts.def row.now
        → result ≡ row_lies facts request.now row.now }
{
    let mut steps = Steps::silent();
    matcher.matches(&request.resource, "", &mut steps)
}

/// What is found after these tag policies were asked for each tag of these rows, of which these are the matchers.
fn ask_rows<'a>(
    setting: &Setting,
    facts: &'a Facts,
    evaluators: &'a [Evaluator],
    matchers: &[Matcher],
) -> Best<'a>
    requires policies { map (λ (s : Source). s.policy) evaluators.now
        ≡ facts.now.tag_policies.items }
    requires rows { matchers.now ≡ map (row_matching facts.now.def) facts.now.tag_rows.items }
    ensures { result ≡ after Pass.All setting.now (flat_map (λ tag. asked_for
        (Some tag) evaluators.now) (tags_of facts.now setting.now.request)) none_yet }
{
    let mut best = Best::none();
    let mut rows = facts.tag_rows.as_slice();
    let mut matchers = matchers;
    let policies = facts.tag_policies.as_slice();
    'rows: while let (Some((row, later)), Some((matcher, more))) = (
        rows.split_first(),
        matchers.split_first(),
    ) {
        if row_lies(setting.request, row, matcher) {
            best = ask_tags(setting, best, policies, evaluators, row.tags.as_slice());
        }
        rows = later;
        matchers = more;
    }
    best
}

impl Plain {
    /// An engine over these facts, which are sound.
    pub fn build(alloc: Global, facts: Facts) -> Result<Plain, NoMemory>
        requires { sound facts ≡ true }
        ensures { IfOk result (λ plain. plain ≡ facts) }
    {
        let roles = roles_of(alloc, facts.roles.as_slice())?;
        let zones = zones_of(alloc, &facts)?;
        let paths = Paths::of(alloc, &facts.def)?;
        let compiled = compile(alloc, &facts)?;
        Ok(Plain {
            held: facts,
            roles,
            zones,
            paths,
            compiled,
        })
    }

    /// The zone in which the request's resource lies.
    fn zone_at(&self, request: &AccessRequest) -> Option<&ZoneRow>
        ensures { option_map (λ z. z.now) result ≡ zone_at self.now request.now }
    {
        let place = self.zones.zone_of(&request.resource)?;
        self.held.zones.as_slice().get(place as usize)
    }

    fn setting<'a>(&'a self, request: &'a AccessRequest) -> Setting<'a>
        ensures { result ≡ setting_of self.now request.now }
    {
        Setting {
            request,
            roles: &self.roles,
            zone: self.zone_at(request),
        }
    }

    /// What is found by tag policies. Where there are none, no tag row is looked at.
    fn ask_tag_policies(&self, setting: &Setting) -> Best<'_>
        ensures { result ≡ after Pass.All setting.now
            (flat_map (tag_candidates self.now) (tags_of self.now setting.now.request)) none_yet }
    {
        if self.held.tag_policies.is_empty() {
            return Best::none();
        }
        ask_rows(
            setting,
            &self.held,
            self.compiled.tag_evaluators.as_slice(),
            self.compiled.row_matchers.as_slice(),
        )
    }

    /// What is found after the resource policies were asked.
    fn ask_resource_policies<'a>(
        &'a self,
        setting: &Setting,
        pass: Pass,
        best: Best<'a>,
    ) -> Best<'a>
        ensures { result ≡ after pass setting.now (resource_candidates self.now) best.entry }
    {
        ask_policies(
            setting,
            pass,
            best,
            self.held.policies.as_slice(),
            self.compiled.evaluators.as_slice(),
            None,
        )
    }

    /// The written flow over all policies and tags. Resource policies are asked for row filters and masks only where access
    /// is allowed.
    fn outcome(&self, request: &AccessRequest) -> Outcome<'_>
        ensures { result ≡ outcome self.now request.now }
    {
        let setting = self.setting(request);
        let best = self.ask_tag_policies(&setting);
        let best = self.ask_resource_policies(&setting, Pass::Access, best);
        if !best.allows() {
            return best.outcome(self.held.fallback);
        }
        let best = self.ask_resource_policies(&setting, Pass::Choices, best);
        best.outcome(self.held.fallback)
    }

    /// The written flow over all policies and tags. It takes no memory.
    pub fn scan(&self, request: &AccessRequest) -> Verdict
        ensures { result ≡ eval self.now request.now }
    {
        self.outcome(request).verdict()
    }

    /// The verdict with its texts, published under this serial. It takes memory for the texts alone.
    pub fn decide(
        &self,
        alloc: Global,
        request: &AccessRequest,
        serial: Serial,
    ) -> Result<Decision, NoMemory>
        ensures { IfOk result (λ d. d ≡ decide self.now request.now serial) }
    {
        let published = Published::of(&self.held, &self.paths, serial);
        self.outcome(request).decision(alloc, &published, request)
    }

    /// The facts that the engine was made of.
    pub fn facts(&self) -> &Facts
        ensures { result.now ≡ self.now }
    {
        &self.held
    }
}
