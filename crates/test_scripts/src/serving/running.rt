// A run of `serve` with links in memory.
ghost use Rattle.std.specs.Prelude.{◌≤◌, length};

use crate::serving::listening::{Links, SharedLink};
use rg_base::{Moment, Seq};
use rg_hook::WorkerHooks;
use rg_ports::{Clock, Gate, ListClock, Listener, MeetingGate, MemSink, MemSource, Sink, Source};
use rg_record_store::MemKeeper;
use rg_run::run;
use std::alloc::{AllocError, Global};
use std::sync::Wait;
use std::thread::Threads;
use test_tables::{no_hooks, written};

/// A run, and what it meets.
#[derive(Clone, Copy)]
pub(crate) struct Case<'c> {
    /// The line of the configuration.
    pub(crate) config: &'c str,
    /// 1 to 64.
    pub(crate) workers: u32,
    /// The most links, as the word of the command.
    pub(crate) most: &'c str,
    /// The call of the listener that fails; 0 for none.
    pub(crate) failing: u64,
    /// How many workers wait for each other before a decision.
    pub(crate) meeting: u32,
    /// The line behind the configuration; none where it is empty.
    pub(crate) line: &'c str,
}

/// The script: the configuration, and the line.
fn script_of(alloc: Global, case: &Case) -> Result<Vec<u8>, AllocError> {
    let mut script = String::new(alloc);
    script.push_str(case.config)?;
    script.push('\n')?;
    script.push_str(case.line)?;
    Vec::from_slice(alloc, script.as_bytes())
}

fn words_of(alloc: Global, most: &str) -> Result<Vec<String>, AllocError> {
    let mut words = Vec::new(alloc);
    for word in ["serve", "127.0.0.1:0", most] {
        words.push(String::from_str(alloc, word)?)?;
    }
    Ok(words)
}

/// What a run asks of the outside.
#[derive(Drop)]
struct Outside<S, K, C, N, G> {
    source: S,
    sink: K,
    clock: C,
    net: N,
    gate: G,
}

/// Runs with these workers. In `run_plain` it isn't found that they may cross threads.
fn run_with<S: Source, K: Sink, C: Clock, N: Listener, G: Gate, R: Threads + Wait + Sync>(
    rt: &R,
    alloc: Global,
    words: &[String],
    outside: &mut Outside<S, K, C, N, G>,
    workers: &mut Vec<WorkerHooks>,
) -> u8
    requires { (1 ≤ length workers.old.items) × (length workers.old.items ≤ 64) }
{
    let mut keeper = Some(MemKeeper::new(Seq::new(alloc), Seq::new(alloc)));
    let status = run(
        rt,
        alloc,
        words,
        &mut outside.source,
        &mut outside.sink,
        &mut outside.clock,
        &mut outside.net,
        &outside.gate,
        workers,
        &mut keeper,
    );
    drop(keeper);
    status
}

/// What the run asks: of its script, of a clock that stands at 0, of these links and of a gate.
fn outside_of(
    alloc: Global,
    case: &Case,
    links: Vec<SharedLink>,
) -> Result<Outside<MemSource, MemSink, ListClock, Links, MeetingGate>, AllocError> {
    let script = script_of(alloc, case)?;
    let moments = Vec::from_slice(alloc, &[Moment(0)])?;
    Ok(Outside {
        source: MemSource::new(Seq::from_vec(script), Seq::new(alloc), Seq::new(alloc)),
        sink: MemSink::new(Seq::new(alloc), Seq::new(alloc), Seq::new(alloc)),
        clock: ListClock::new(Seq::from_vec(moments)),
        net: Links::new(links, case.failing),
        gate: MeetingGate::new(case.meeting),
    })
}

/// Runs with so many workers, who have no sinks and no enrichers.
fn run_plain<R: Threads + Wait + Sync>(
    rt: &R,
    alloc: Global,
    case: &Case,
    outside: &mut Outside<MemSource, MemSink, ListClock, Links, MeetingGate>,
) -> Result<u8, AllocError>
    requires { (1 ≤ case.now.workers) × (case.now.workers ≤ 64) }
{
    let words = words_of(alloc, case.most)?;
    let mut workers = Vec::new(alloc);
    for made in 0..case.workers {
        workers.push(no_hooks(alloc))?;
    }
    Ok(run_with(rt, alloc, words.as_slice(), outside, &mut workers))
}

/// Runs, and tells the status and what was printed.
pub(crate) fn served<R: Threads + Wait + Sync>(
    rt: &R,
    alloc: Global,
    case: &Case,
    links: Vec<SharedLink>,
) -> Result<String, AllocError>
    requires { (1 ≤ case.now.workers) × (case.now.workers ≤ 64) }
{
    let mut outside = outside_of(alloc, case, links)?;
    let status = run_plain(rt, alloc, case, &mut outside)?;
    let printed = written(alloc, outside.sink.held(), "\n")?;
    let mut told = format!(in alloc; "{status}|{}", printed.as_str())?;
    if outside.gate.gave_up() {
        told.push_str(", and a worker waited in vain")?;
    }
    Ok(told)
}
