// A run over ports in memory.
ghost use Rattle.std.specs.Prelude.{◌≤◌, length};

use crate::hooks;
use crate::hooks::{Heard, RowPair};
use crate::table::Row;
use rg_base::{Moment, Seq};
use rg_hook::{AuditFan, AuditSink, Enricher, Enrichers, WorkerHooks};
use rg_ports::{FreeGate, ListClock, MemListener, MemSink, MemSource};
use rg_record_store::MemKeeper;
use std::alloc::{AllocError, Global};
use std::sync::Wait;
use std::thread::Threads;

/// How many workers a run has. A script is worked by the first of them alone.
const WORKERS: u32 = 2;

/// How a run ended.
#[derive(Drop)]
pub(crate) struct Outcome {
    pub status: u8,
    /// Holds what was printed.
    pub sink: MemSink,
    /// What the sinks of the workers hold.
    pub audit: String,
}

/// What a run reads, writes and asks.
#[derive(Drop)]
struct Ports {
    source: MemSource,
    sink: MemSink,
    clock: ListClock,
    net: MemListener,
}

/// The ports of a row: its script, a clock that stands still, no links, and the calls that fail.
fn ports_of(alloc: Global, row: &Row, script: Vec<u8>) -> Result<Ports, AllocError> {
    let reads = Vec::from_slice(alloc, &[row.failing_read])?;
    let writes = Vec::from_slice(alloc, &[row.failing_write])?;
    let moments = Vec::from_slice(alloc, &[Moment(0)])?;
    Ok(Ports {
        source: MemSource::new(Seq::from_vec(script), Seq::new(alloc), Seq::from_vec(reads)),
        sink: MemSink::new(Seq::new(alloc), Seq::new(alloc), Seq::from_vec(writes)),
        clock: ListClock::new(Seq::from_vec(moments)),
        net: MemListener::new(Vec::new(alloc), Seq::new(alloc)),
    })
}

/// Runs with these workers and a keeper that holds nothing. In `run_hooked` it isn't found that the workers may cross threads.
fn run_with<R: Threads + Wait + Sync>(
    rt: &R,
    alloc: Global,
    words: &[String],
    ports: &mut Ports,
    workers: &mut Vec<WorkerHooks>,
) -> u8
    requires { (1 ≤ length workers.old.items) × (length workers.old.items ≤ 64) }
{
    let mut keeper = Some(MemKeeper::new(Seq::new(alloc), Seq::new(alloc)));
    let status = rg_run::run(
        rt,
        alloc,
        words,
        &mut ports.source,
        &mut ports.sink,
        &mut ports.clock,
        &mut ports.net,
        &FreeGate,
        workers,
        &mut keeper,
    );
    drop(keeper);
    status
}

/// Runs with workers that have an enricher and two sinks each. Gives the status, and what the sinks hold then.
fn run_hooked<R: Threads + Wait + Sync>(
    rt: &R,
    alloc: Global,
    row: &Row,
    ports: &mut Ports,
) -> Result<(u8, String), AllocError> {
    let mut workers = Vec::new(alloc);
    let mut all_heard = Vec::new(alloc);
    for made in 0..WORKERS {
        let heard = Heard::new(alloc, row)?;
        let mut sinks: Vec<Box<dyn AuditSink + Send>> = Vec::new(alloc);
        sinks.push(Box::new(alloc, heard.first_sink()?)?)?;
        sinks.push(Box::new(alloc, heard.second_sink()?)?)?;
        let mut enrichers: Vec<Box<dyn Enricher + Send>> = Vec::new(alloc);
        let pair = row.pair(alloc)?;
        enrichers.push(Box::new(alloc, RowPair { pair })?)?;
        workers.push(WorkerHooks {
            sinks: AuditFan::new(sinks),
            enrichers: Enrichers::new(enrichers),
        })?;
        all_heard.push(heard)?;
    }
    let status = run_with(rt, alloc, row.words.as_slice(), ports, &mut workers);
    let audit = hooks::told_of(alloc, workers.as_slice(), all_heard.as_slice())?;
    Ok((status, audit))
}

/// Runs the row over this script.
pub(crate) fn run_row<R: Threads + Wait + Sync>(
    rt: &R,
    alloc: Global,
    row: &Row,
    script: Vec<u8>,
) -> Result<Outcome, AllocError> {
    let mut ports = ports_of(alloc, row, script)?;
    let (status, audit) = run_hooked(rt, alloc, row, &mut ports)?;
    let Ports {
        source: _,
        sink,
        clock: _,
        net: _,
    } = ports;
    Ok(Outcome {
        status,
        sink,
        audit,
    })
}
