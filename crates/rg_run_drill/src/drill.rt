// The drill.
ghost use Rattle.std.specs.Prelude.{◌≡◌, IfOk, Some};
ghost use Rattle.rg_run_drill.specs.Drill.{IsCarriedFrom, IsCarriedOut, IsTotal, refreshes};

use crate::answers::{Answers, decide_all};
use crate::preparing::{PUBLISHED_AT_ONCE, prepare};
use crate::totals::Totals;
use rg_base::{Counted, NoMemory, Steps};
use rg_drill::{Generator, drill_config};
use rg_run_replay::Running;
use std::alloc::Global;
use std::sync::Wait;

/// How often the plugin is refreshed.
fn refreshes(policies: u32) -> u64
    ensures { result ≡ refreshes policies }
{
    let last = PUBLISHED_AT_ONCE - 1;
    (u64::from(policies) + u64::from(last)) / u64::from(PUBLISHED_AT_ONCE)
}

/// All numbers, where each refresh published and the work is within its bounds.
fn total(
    policies: u32,
    requests: u32,
    publications: u64,
    work: Counted,
    answers: Answers,
) -> Result<Totals, NoMemory>
    ensures { IfOk result (IsTotal policies requests publications work answers) }
{
    let most = u64::from(policies);
    if publications != 1 + refreshes(policies) {
        return Err(NoMemory);
    }
    if work.compiles > most || work.edits > 3 * most {
        return Err(NoMemory);
    }
    Ok(Totals {
        policies,
        publications,
        compiles: work.compiles,
        edits: work.edits,
        requests,
        allowed: answers.allowed,
        denied: answers.denied,
        undetermined: answers.undetermined,
        tries: work.tries,
    })
}

/// The policies and then the requests of the workload.
fn carry_on<W: Wait>(
    rt: &W,
    alloc: Global,
    running: &mut Running<&W>,
    seed: u32,
    policies: u32,
    requests: u32,
) -> Result<Totals, NoMemory>
    ensures { IfOk result (IsCarriedFrom (Some running.old) seed policies requests) }
{
    let mut generator = Generator::new(u64::from(seed));
    let mut steps = Steps::counted();
    prepare(rt, alloc, running, &mut generator, policies, &mut steps)?;
    let answers = decide_all(
        alloc,
        running,
        &mut generator,
        policies,
        requests,
        &mut steps,
    )?;
    let work = *steps.ledger();
    total(policies, requests, running.publications(), work, answers)
}

/// Carries out the drill: an administration starts over the definition `hive`, `root` creates so many policies of the
/// workload in order, a refresh follows each 500th and the last, and then one pass decides so many requests. Each refresh
/// publishes; no policy is compiled twice, and none is filed more than three times. A run in which one of these failed would
/// end as with want of memory.
pub fn carry_out<W: Wait>(
    rt: &W,
    alloc: Global,
    seed: u32,
    policies: u32,
    requests: u32,
) -> Result<Totals, NoMemory>
    ensures { IfOk result (IsCarriedOut seed policies requests) }
{
    let config = drill_config(alloc)?;
    let Some(mut running) = Running::start(rt, alloc, config)? else {
        return Err(NoMemory);
    };
    let carried = carry_on(rt, alloc, &mut running, seed, policies, requests);
    drop(running);
    carried
}
