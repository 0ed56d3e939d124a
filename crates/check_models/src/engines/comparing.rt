// Engines over the same facts, a plain one and a compiled one.
ghost use Rattle.std.specs.Prelude.{◌≡◌, true};
ghost use Rattle.rg_facts.specs.Sound.{sound};

use super::deltas::deltas_towards;
use super::texts;
use crate::draws::Draw;
use crate::reading::{self, judged};
use rg_base::{NoMemory, Steps, TryCopy};
use rg_delta::apply_plain;
use rg_engine::Engine;
use rg_facts::{Access, Facts, Verdict};
use rg_plain_engine::Plain;
use rg_policy::AccessRequest;
use std::alloc::Global;

/// How many requests are made up for each facts.
const REQUESTS: u64 = 8;

/// How the verdicts of the plain engine are spread, and how many of them are those of the compiled one too.
#[derive(Drop)]
pub(crate) struct Counts {
    pub(crate) facts: u64,
    pub(crate) verdicts: u64,
    pub(crate) agreed: u64,
    pub(crate) allowed: u64,
    pub(crate) denied: u64,
    pub(crate) undetermined: u64,
    pub(crate) filtered: u64,
    pub(crate) masked: u64,
    /// The ids of the deciding policies, added up.
    pub(crate) policies: u64,
}

impl Counts {
    pub(crate) fn new() -> Counts {
        Counts {
            facts: 0,
            verdicts: 0,
            agreed: 0,
            allowed: 0,
            denied: 0,
            undetermined: 0,
            filtered: 0,
            masked: 0,
            policies: 0,
        }
    }

    fn count_access(&mut self, access: Access) {
        match access {
            Access::Allowed => self.allowed = self.allowed.saturating_add(1),
            Access::Denied => self.denied = self.denied.saturating_add(1),
            Access::Undetermined => self.undetermined = self.undetermined.saturating_add(1),
        }
    }

    fn count(&mut self, verdict: Verdict, agrees: bool) {
        self.verdicts = self.verdicts.saturating_add(1);
        self.agreed = self.agreed.saturating_add(u64::from(agrees));
        self.count_access(verdict.access);
        self.filtered = self
            .filtered
            .saturating_add(u64::from(verdict.filter.is_some()));
        self.masked = self
            .masked
            .saturating_add(u64::from(verdict.mask.is_some()));
        self.policies = self
            .policies
            .saturating_add(verdict.policy.0.max(0).unsigned_abs());
    }
}

fn made_facts(alloc: Global, draw: Draw) -> Result<Facts, NoMemory> {
    let text = texts::facts(alloc, draw)?;
    reading::facts(alloc, text.as_str())
}

fn made_request(alloc: Global, draw: Draw) -> Result<AccessRequest, NoMemory> {
    let text = texts::request(alloc, draw)?;
    reading::request(alloc, text.as_str())
}

/// Asks both engines for the verdicts on requests that are made up.
fn compare(
    alloc: Global,
    plain: &Plain,
    engine: &Engine,
    draw: Draw,
    step: u64,
    counts: &mut Counts,
) -> Result<(), NoMemory> {
    counts.facts = counts.facts.saturating_add(1);
    let first = step.saturating_mul(REQUESTS).saturating_add(1000);
    for number in 0..REQUESTS {
        let request = made_request(alloc, draw.part(first.saturating_add(number)))?;
        let verdict = plain.scan(&request);
        let other = engine.verdict(&request, &mut Steps::silent());
        counts.count(verdict, verdict == other);
    }
    Ok(())
}

/// Compares the engine with a plain one over the same facts.
fn compare_over(
    alloc: Global,
    facts: Facts,
    engine: &Engine,
    draw: Draw,
    step: u64,
    counts: &mut Counts,
) -> Result<(), NoMemory>
    requires { sound facts ≡ true }
{
    let plain = Plain::build(alloc, facts)?;
    let compared = compare(alloc, &plain, engine, draw, step, counts);
    drop(plain);
    compared
}

/// An engine of facts that are made up.
pub(crate) fn started(alloc: Global, draw: Draw, counts: &mut Counts) -> Result<Engine, NoMemory> {
    let facts = made_facts(alloc, draw.part(0))?;
    let facts = judged(alloc, facts)?;
    let copy = facts.try_copy(alloc)?;
    let engine = Engine::build(alloc, copy, &mut Steps::silent())?;
    compare_over(alloc, facts, &engine, draw, 0, counts)?;
    Ok(engine)
}

/// The engine moved by deltas that are made up.
pub(crate) fn moved(
    alloc: Global,
    engine: &Engine,
    draw: Draw,
    step: u64,
    counts: &mut Counts,
) -> Result<Engine, NoMemory> {
    let before = engine.facts(alloc)?;
    let other = made_facts(alloc, draw.part(step))?;
    let deltas = deltas_towards(alloc, &before, &other, draw.part(step.saturating_add(100)))?;
    let after = apply_plain(alloc, before, &deltas.policies, &deltas.tags, &deltas.roles)?;
    let after = judged(alloc, after)?;
    match engine.apply(
        alloc,
        &deltas.policies,
        &deltas.tags,
        &deltas.roles,
        &mut Steps::silent(),
    ) {
        Ok(moved) => {
            compare_over(alloc, after, &moved, draw, step, counts)?;
            Ok(moved)
        }
        Err(_) => Err(NoMemory),
    }
}
