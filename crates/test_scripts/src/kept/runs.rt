// A run of `keep` in memory.
ghost use Rattle.std.specs.Prelude.{◌≡◌, ◌≤◌, ◌<◌, length, IfOk, IsSome};

use rg_base::{Moment, NoMemory, Seq};
use rg_hook::{AuditSink, MemAudit, RequestHooks};
use rg_policy::AccessRequest;
use rg_ports::{
    Clock, FreeGate, ListClock, Listener, MemListener, MemSink, MemSource, Sink, Source,
};
use rg_record_store::MemKeeper;
use rg_run::run;
use std::alloc::{AllocError, Global};
use std::sync::Wait;
use std::thread::Threads;
use test_tables::text_of;

fn words_of(alloc: Global) -> Result<Vec<String>, AllocError> {
    let mut words = Vec::new(alloc);
    words.push(String::from_str(alloc, "keep")?)?;
    Ok(words)
}

/// Hooks that enrich nothing and keep the audit lines, of which contracts see none.
#[derive(Drop)]
struct Audited {
    audit: MemAudit,
}

impl RequestHooks for Audited {
    ghost use Rattle.std.specs.Prelude.{[]};

    ghost sinks = { λ _. [] };

    ghost enrichers = { λ _. [] };

    fn enrich(&mut self, _alloc: Global, _request: &mut AccessRequest) -> Result<(), NoMemory> {
        Ok(())
    }

    fn audit(&mut self, line: &str) {
        let _kept = self.audit.write(line);
    }
}

/// One worker, to whose hooks nothing was told.
fn one_worker(alloc: Global) -> Result<Vec<Audited>, AllocError>
    ensures { IfOk result (λ hooks. length hooks.items ≡ 1) }
{
    let mut workers = Vec::new(alloc);
    workers.push(Audited {
        audit: MemAudit::new(Seq::new(alloc), Seq::new(alloc)),
    })?;
    Ok(workers)
}

/// What was printed, with `~` for each LF.
fn tell_printed(told: &mut String, printed: &[u8]) -> Result<(), AllocError> {
    for (place, line) in text_of(printed).split('\n').enumerate() {
        if 0 < place {
            told.push('~')?;
        }
        told.push_str(line)?;
    }
    Ok(())
}

/// What a run reads and writes, in memory.
#[derive(Drop)]
struct Ports {
    source: MemSource,
    sink: MemSink,
    clock: ListClock,
    net: MemListener,
}

fn ports_of(alloc: Global, script: Vec<u8>, moments: Vec<Moment>) -> Ports
    requires moments { 0 < length moments.items }
{
    Ports {
        source: MemSource::new(Seq::from_vec(script), Seq::new(alloc), Seq::new(alloc)),
        sink: MemSink::new(Seq::new(alloc), Seq::new(alloc), Seq::new(alloc)),
        clock: ListClock::new(Seq::from_vec(moments)),
        net: MemListener::new(Vec::new(alloc), Seq::new(alloc)),
    }
}

/// Runs with these workers. In `run_over` it isn't found that they may cross threads.
fn run_with<R: Threads + Wait + Sync>(
    rt: &R,
    alloc: Global,
    words: &[String],
    ports: &mut Ports,
    workers: &mut Vec<Audited>,
    keeper: &mut Option<MemKeeper>,
) -> u8
    requires workers { (1 ≤ length workers.old.items) × (length workers.old.items ≤ 64) }
    requires keeper { IsSome keeper.old }
    ensures { IsSome keeper.new }
{
    run(
        rt,
        alloc,
        words,
        &mut ports.source,
        &mut ports.sink,
        &mut ports.clock,
        &mut ports.net,
        &FreeGate,
        workers,
        keeper,
    )
}

/// How a run ended.
#[derive(Drop)]
struct Outcome {
    status: u8,
    sink: MemSink,
    keeper: MemKeeper,
    workers: Vec<Audited>,
}

/// Runs over the keeper.
fn run_over<R: Threads + Wait + Sync>(
    rt: &R,
    alloc: Global,
    words: &[String],
    mut ports: Ports,
    mut workers: Vec<Audited>,
    keeper: MemKeeper,
) -> Outcome
    requires workers { length workers.items ≡ 1 }
{
    let mut place = Some(keeper);
    let status = run_with(rt, alloc, words, &mut ports, &mut workers, &mut place);
    Outcome {
        status,
        sink: ports.sink,
        keeper: place.unwrap(),
        workers,
    }
}

/// How many audit lines were told.
fn lines_of(workers: &[Audited]) -> usize {
    match workers.first() {
        Some(worker) => worker.audit.lines().len(),
        None => 0,
    }
}

/// Tells the status, how many records stand, how many audit lines were told, and what was printed.
fn tell_outcome(told: &mut String, outcome: &Outcome) -> Result<(), AllocError> {
    let status = outcome.status;
    let held = outcome.keeper.records().len();
    let audited = lines_of(outcome.workers.as_slice());
    write!(told, "status {status}, {held} records, {audited} audited: ")?;
    tell_printed(told, outcome.sink.held())
}

/// Runs `keep` over the keeper, and tells how it ended. The keeper comes back.
pub(crate) fn tell_run<R: Threads + Wait + Sync>(
    told: &mut String,
    rt: &R,
    alloc: Global,
    script: &str,
    keeper: MemKeeper,
) -> Result<MemKeeper, AllocError> {
    let words = words_of(alloc)?;
    let script = Vec::from_slice(alloc, script.as_bytes())?;
    let moments = Vec::from_slice(alloc, &[Moment(0)])?;
    let ports = ports_of(alloc, script, moments);
    let workers = one_worker(alloc)?;
    let outcome = run_over(rt, alloc, words.as_slice(), ports, workers, keeper);
    drop(words);
    tell_outcome(told, &outcome)?;
    let Outcome {
        status: _,
        sink,
        keeper,
        workers,
    } = outcome;
    drop(workers);
    drop(sink);
    Ok(keeper)
}
