// What is timed.
ghost use Rattle.std.specs.Prelude.{◌≡◌, true};
ghost use Rattle.rg_facts.specs.Sound.{sound};

use super::changes::{moved, one_change};
use super::workload::{facts, generator, requests};
use rg_base::{NoMemory, Steps, TryCopy};
use rg_engine::Engine;
use rg_facts::Facts;
use rg_plain_engine::Plain;
use rg_policy::AccessRequest;
use std::alloc::Global;

/// How many requests an engine is asked for, one after another.
const REQUESTS: u32 = 1000;

#[derive(Clone, Copy)]
pub(super) enum Work {
    /// A copy of the facts.
    Copy,
    /// A copy of the facts, and an engine over it.
    Build,
    /// The engine after the change of one policy.
    Apply,
    /// The verdict on each request by an engine.
    Verdict,
    /// The same by the plain one, which asks every policy.
    Scan,
}

/// The work, how many policies there are, and how often it is done.
#[derive(Clone, Copy)]
pub(super) struct Load {
    pub(super) work: Work,
    pub(super) policies: u32,
    pub(super) count: u32,
}

pub(super) fn work_of(word: &str) -> Option<Work> {
    match word {
        "copy" => Some(Work::Copy),
        "build" => Some(Work::Build),
        "apply" => Some(Work::Apply),
        "verdict" => Some(Work::Verdict),
        "scan" => Some(Work::Scan),
        _ => None,
    }
}

fn copied(alloc: Global, facts: &Facts, count: u32) -> Result<u32, NoMemory> {
    let mut done = 0u32;
    for _ in 0..count {
        let copy = facts.try_copy(alloc)?;
        drop(copy);
        done = done.saturating_add(1);
    }
    Ok(done)
}

fn build_once(alloc: Global, facts: &Facts) -> Result<(), NoMemory>
    requires { sound facts.now ≡ true }
{
    let copy = facts.try_copy(alloc)?;
    let engine = Engine::build(alloc, copy, &mut Steps::silent())?;
    drop(engine);
    Ok(())
}

fn built(alloc: Global, facts: &Facts, count: u32) -> Result<u32, NoMemory>
    requires { sound facts.now ≡ true }
{
    let mut done = 0u32;
    for _ in 0..count {
        build_once(alloc, facts)?;
        done = done.saturating_add(1);
    }
    Ok(done)
}

fn ask_engine(engine: &Engine, requests: &[AccessRequest]) -> u32 {
    let mut steps = Steps::silent();
    let mut done = 0u32;
    for request in requests {
        let _verdict = engine.verdict(request, &mut steps);
        done = done.saturating_add(1);
    }
    done
}

/// Asks an engine over these facts so many times for each verdict.
fn judged(
    alloc: Global,
    facts: Facts,
    requests: &[AccessRequest],
    count: u32,
) -> Result<u32, NoMemory>
    requires { sound facts ≡ true }
{
    let engine = Engine::build(alloc, facts, &mut Steps::silent())?;
    let mut done = 0u32;
    for _ in 0..count {
        done = done.saturating_add(ask_engine(&engine, requests));
    }
    drop(engine);
    Ok(done)
}

fn ask_plain(plain: &Plain, requests: &[AccessRequest]) -> u32 {
    let mut done = 0u32;
    for request in requests {
        let _verdict = plain.scan(request);
        done = done.saturating_add(1);
    }
    done
}

/// Asks a plain engine over these facts so many times for each verdict.
fn scanned(
    alloc: Global,
    facts: Facts,
    requests: &[AccessRequest],
    count: u32,
) -> Result<u32, NoMemory>
    requires { sound facts ≡ true }
{
    let plain = Plain::build(alloc, facts)?;
    let mut done = 0u32;
    for _ in 0..count {
        done = done.saturating_add(ask_plain(&plain, requests));
    }
    drop(plain);
    Ok(done)
}

/// How often the work was done with success.
pub(super) fn done(alloc: Global, load: Load) -> Result<u32, NoMemory> {
    let mut generator = generator();
    let facts = facts(alloc, &mut generator, load.policies)?;
    let requests = requests(alloc, &mut generator, load.policies, REQUESTS)?;
    let deltas = one_change(alloc, &mut generator, load.policies / 2)?;
    match load.work {
        Work::Copy => copied(alloc, &facts, load.count),
        Work::Build => built(alloc, &facts, load.count),
        Work::Apply => moved(alloc, facts, &deltas, load.count),
        Work::Verdict => judged(alloc, facts, requests.as_slice(), load.count),
        Work::Scan => scanned(alloc, facts, requests.as_slice(), load.count),
    }
}
