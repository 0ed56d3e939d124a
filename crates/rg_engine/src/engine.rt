// The engine of one service.
ghost use Rattle.std.specs.Prelude.{◌≡◌, ◌≤◌, IfOk, OnOk, IfErr, Err, None, true};
ghost use Rattle.std.specs.Arc.{arc_value};
ghost use Rattle.rg_defs.specs.Rules.{def_fault};
ghost use Rattle.rg_zone_rules.specs.Rules.{all_maps_fit};
ghost use Rattle.rg_delta.specs.Applied.{applied, unless_new};
ghost use Rattle.rg_engine.specs.Bases.{Tells, wrong_base};
ghost use Rattle.rg_engine.specs.declared.fault.ApplyFault.TheVariants.{WrongBase};
ghost use Rattle.rg_engine.specs.Bounds.{HasCompiled, TriesWithin, WorkWithin, bound_on, made, pairs_in, pairs_of_changes, policies_in};
ghost use Rattle.rg_engine.specs.Parts.{joined};
ghost use Rattle.rg_facts.specs.Flow.{eval, outcome};
ghost use Rattle.rg_facts.specs.Sound.{sound};
ghost use Rattle.rg_facts.specs.Texts.{decide};

use crate::fault::ApplyFault;
use crate::lists::{Lists, Spares};
use crate::sets::Sets;
use crate::setup::{Setup, Versions};
use rg_base::{Ledger, NoMemory, Serial, Steps, TryCopy, Version};
use rg_cmd::{Part, PolicyDelta, RoleDelta, TagDelta};
use rg_facts::{Decision, Facts, Outcome, Verdict, frame_of, order_plays_no_part};
use rg_policy::AccessRequest;
use std::alloc::Global;
use std::marker::Model;
use std::sync::Arc;

/// What decides for one service. Contracts see its facts.
pub struct Engine {
    /// Shared with the engines after it, as long as the zones and roles stay.
    setup: Arc<Setup>,
    versions: Versions,
    sets: Sets,
    /// Which lists of its facts have a place reserved. A delta leaves no such places.
    spares: Spares,
}

impl Drop for Engine {
    fn drop(self) {
        let Self {
            setup: _,
            versions: _,
            sets: _,
            spares: _,
        } = self;
    }
}

impl Model for Engine {
    ghost use Rattle.std.specs.Prelude.{◌≡◌, true};
    ghost use Rattle.std.specs.Arc.{arc_value};
    ghost use Rattle.rg_engine.specs.Parts.{compiled_of, joined, lists_of};
    ghost use Rattle.rg_facts.specs.Sound.{sound};
    ghost use Rattle.rg_facts.specs.declared.facts.Facts.{Facts};

    ghost Value = { Facts };

    ghost view = { λ e. joined (arc_value e.setup) e.versions (lists_of e.spares e.sets) };

    ghost invariant = { λ e.
        (sound (joined (arc_value e.setup) e.versions (lists_of e.spares e.sets)) ≡ true)
        × (e.sets ≡ compiled_of (joined (arc_value e.setup) e.versions (lists_of e.spares e.sets))) };
}

/// That the part's version isn't the one from which its delta leads.
fn wrong(part: Part, have: Version, from: Version) -> Result<(), ApplyFault>
    ensures { result ≡ Err (WrongBase part have from) }
{
    Err(ApplyFault::WrongBase { part, have, from })
}

/// The facts with these lists and versions.
fn joined(facts: Facts, versions: Versions, lists: Lists) -> Facts
    ensures { result ≡ joined facts versions lists }
{
    let mut facts = facts;
    let Lists {
        policies,
        tag_policies,
        tag_rows,
    } = lists;
    facts.policies = policies;
    facts.tag_policies = tag_policies;
    facts.tag_rows = tag_rows;
    facts.policy_version = versions.policies;
    facts.tag_version = versions.tags;
    facts.role_version = versions.roles;
    facts
}

/// The setup after the deltas. It is shared where no zone and no role changes.
fn setup_after(
    alloc: Global,
    setup: &Arc<Setup>,
    policies: &PolicyDelta,
    roles: &RoleDelta,
) -> Result<Arc<Setup>, NoMemory>
    requires lawful { def_fault (arc_value setup.now).def ≡ None }
    requires zones { let s = arc_value setup.now in
        all_maps_fit s.service s.def (unless_new s.zones policies.now.zones).items ≡ true }
    ensures { IfOk result (λ s. let old = arc_value setup.now in
        arc_value s ≡ record old { zones = unless_new old.zones policies.now.zones; roles = unless_new old.roles roles.now.roles }) }
{
    if policies.zones.is_none() && roles.roles.is_none() {
        let same = Arc::try_clone(setup)?;
        return Ok(same);
    }
    let renewed = setup.renewed(alloc, &policies.zones, &roles.roles)?;
    match Arc::new(alloc, renewed) {
        Ok(setup) => Ok(setup),
        Err(_) => Err(NoMemory),
    }
}

impl Engine {
    /// An engine over these facts, which are sound. Each policy and each tag policy is compiled once.
    pub fn build<L: Ledger>(
        alloc: Global,
        facts: Facts,
        steps: &mut Steps<L>,
    ) -> Result<Engine, NoMemory>
        requires { sound facts ≡ true }
        ensures facts { IfOk result (λ e. e ≡ facts) }
        ensures compiled { OnOk result (HasCompiled (policies_in facts) steps.old steps.new) }
        ensures steps { WorkWithin (policies_in facts) (pairs_in facts) steps.old steps.new }
    {
        let mut facts = facts;
        let versions = Versions::of(&facts);
        let frame = frame_of(alloc, &facts)?;
        let sets = Sets::build(alloc, &frame, &facts, steps)?;
        let spares = Spares::of(&facts);
        Lists::clear(alloc, &mut facts);
        let setup = Arc::new(alloc, Setup::build(alloc, frame, facts)?)?;
        Ok(Engine {
            setup,
            versions,
            sets,
            spares,
        })
    }

    /// Whether each delta leads from the engine's version of its part; policies are asked first, then tags, then roles.
    fn check_bases(
        &self,
        policies: &PolicyDelta,
        tags: &TagDelta,
        roles: &RoleDelta,
    ) -> Result<(), ApplyFault>
        ensures ok { IfOk result (λ _. wrong_base self.now policies.now tags.now roles.now ≡ None) }
        ensures err { IfErr result
            (λ f. Tells f (wrong_base self.now policies.now tags.now roles.now)) }
    {
        let versions = self.versions;
        if versions.policies.0 != policies.from.0 {
            return wrong(Part::Policies, versions.policies, policies.from);
        }
        if versions.tags.0 != tags.from.0 {
            return wrong(Part::Tags, versions.tags, tags.from);
        }
        if versions.roles.0 != roles.from.0 {
            return wrong(Part::Roles, versions.roles, roles.from);
        }
        Ok(())
    }

    /// The engine after the deltas of a download. This one stays. A delta that leads from another version than the engine's
    /// is refused: policies are looked at first, then tags, then roles. What the deltas don't touch is shared with this one.
    pub fn apply<L: Ledger>(
        &self,
        alloc: Global,
        policies: &PolicyDelta,
        tags: &TagDelta,
        roles: &RoleDelta,
        steps: &mut Steps<L>,
    ) -> Result<Engine, ApplyFault>
        requires sound { sound (applied self.now policies.now tags.now roles.now) ≡ true }
        requires forward { (policies.now.from.0 ≤ policies.now.to.0)
            × (tags.now.from.0 ≤ tags.now.to.0) × (roles.now.from.0 ≤ roles.now.to.0) }
        ensures facts { IfOk result (λ e. e ≡ applied self.now policies.now tags.now roles.now) }
        ensures bases { IfOk result
            (λ _. wrong_base self.now policies.now tags.now roles.now ≡ None) }
        ensures fault { IfErr result
            (λ f. Tells f (wrong_base self.now policies.now tags.now roles.now)) }
        ensures steps { WorkWithin (made policies.now.changes.items)
            (pairs_of_changes self.now policies.now tags.now) steps.old steps.new }
    {
        self.check_bases(policies, tags, roles)?;
        let frame = self.setup.frame();
        let changes = policies.changes.as_slice();
        let rows = tags.changes.as_slice();
        let sets = self.sets.apply(alloc, frame, changes, rows, steps)?;
        let setup = setup_after(alloc, &self.setup, policies, roles)?;
        Ok(Engine {
            setup,
            versions: Versions {
                policies: policies.to,
                tags: tags.to,
                roles: roles.to,
            },
            sets,
            spares: Spares {
                policies: false,
                tag_policies: false,
                tag_rows: false,
            },
        })
    }

    /// What the request gets, of all that the indexes name.
    fn outcome<'a, L: Ledger>(
        &'a self,
        request: &'a AccessRequest,
        steps: &mut Steps<L>,
    ) -> Outcome<'a>
        ensures outcome { result ≡ outcome self.now request.now }
        ensures tries { TriesWithin (bound_on self.now request.now) steps.old steps.new }
    {
        order_plays_no_part();
        let setting = self.setup.setting(request);
        let best = self.sets.ask(&setting, &request.resource, steps);
        best.outcome(self.setup.fallback())
    }

    /// The written flow over all policies and tags. It takes no memory, and always answers.
    pub fn verdict<L: Ledger>(&self, request: &AccessRequest, steps: &mut Steps<L>) -> Verdict
        ensures verdict { result ≡ eval self.now request.now }
        ensures steps { TriesWithin (bound_on self.now request.now) steps.old steps.new }
    {
        self.outcome(request, steps).verdict()
    }

    /// The verdict with its texts, under the serial 0. It takes memory for the texts alone.
    pub fn decide<L: Ledger>(
        &self,
        alloc: Global,
        request: &AccessRequest,
        steps: &mut Steps<L>,
    ) -> Result<Decision, NoMemory>
        ensures decision { IfOk result (λ d. d ≡ decide self.now request.now (record { 0 = 0 })) }
        ensures steps { TriesWithin (bound_on self.now request.now) steps.old steps.new }
    {
        let outcome = self.outcome(request, steps);
        let published = self.setup.published(self.versions, Serial(0));
        outcome.decision(alloc, &published, request)
    }

    /// The policies, tag policies and tag rows that it decides by.
    fn lists(&self, alloc: Global) -> Result<Lists, NoMemory>
        ensures { IfOk result (λ lists. lists ≡ record {
          policies = self.now.policies;
          tag_policies = self.now.tag_policies;
          tag_rows = self.now.tag_rows;
        }) }
    {
        self.sets.copies(alloc, self.spares)
    }

    /// A copy of the facts that it decides by.
    pub fn facts(&self, alloc: Global) -> Result<Facts, NoMemory>
        ensures copied { IfOk result (λ facts. facts ≡ self.now) }
        ensures sound { IfOk result (λ facts. sound facts ≡ true) }
    {
        let lists = self.lists(alloc)?;
        let facts = self.setup.copy(alloc)?;
        Ok(joined(facts, self.versions, lists))
    }

    /// The version of the policies that it decides by.
    pub fn policy_version(&self) -> Version
        ensures { result ≡ self.now.policy_version }
    {
        self.versions.policies
    }

    /// The version of the tag rows that it decides by.
    pub fn tag_version(&self) -> Version
        ensures { result ≡ self.now.tag_version }
    {
        self.versions.tags
    }

    /// The version of the roles that it decides by.
    pub fn role_version(&self) -> Version
        ensures { result ≡ self.now.role_version }
    {
        self.versions.roles
    }
}
