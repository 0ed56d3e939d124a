// What the two workers of a run are handed: to each an enricher, and two sinks in memory that can be read afterwards.
ghost use Rattle.std.specs.Prelude.{[], None};

use crate::table::Row;
use rg_base::{Failed, NoMemory, Pair, Seq, Tally, TryCopy};
use rg_hook::{AuditSink, Enricher, MemAudit, WorkerHooks};
use rg_policy::AccessRequest;
use std::alloc::{AllocError, Global};
use std::sync::{Arc, Mutex};

/// Adds the row's pair to each request, if the row has one.
#[derive(Drop)]
pub(crate) struct RowPair {
    pub pair: Option<Pair>,
}

impl Enricher for RowPair {
    ghost remembered = { λ e. [] };

    ghost meaning = { λ e numbers request. record { remembered = []; pair = e.pair } };

    fn enrich(
        &mut self,
        alloc: Global,
        _request: &AccessRequest,
    ) -> Result<Option<Pair>, NoMemory> {
        self.pair.try_copy(alloc)
    }
}

/// The lines of a sink, for the sink and for who reads them.
type Lines = Arc<Mutex<MemAudit>, Global>;

/// Keeps lines that can be read while a worker has it.
#[derive(Drop)]
pub(crate) struct RowSink {
    lines: Lines,
    faults: Tally,
}

impl AuditSink for RowSink {
    ghost heard = { λ s. None };

    ghost sink_faults = { λ s. s.faults.count };

    fn write(&mut self, line: &str) -> Result<(), Failed> {
        if let Some(mut lines) = self.lines.try_lock() {
            if lines.write(line).is_ok() {
                return Ok(());
            }
        }
        self.faults.add();
        Err(Failed)
    }
}

fn sink_over(lines: &Lines) -> Result<RowSink, AllocError> {
    Ok(RowSink {
        lines: Arc::try_clone(lines)?,
        faults: Tally::zero(),
    })
}

/// No lines yet. `fails` lists the calls that are to fail.
fn no_lines(alloc: Global, fails: &[u64]) -> Result<Lines, AllocError> {
    let fails = Seq::from_vec(Vec::from_slice(alloc, fails)?);
    Ok(Arc::new(alloc, Mutex::new(MemAudit::new(Seq::new(alloc), fails)))?)
}

/// What the two sinks of a worker hold.
#[derive(Drop)]
pub(crate) struct Heard {
    first: Lines,
    second: Lines,
}

impl Heard {
    /// Nothing yet. The row says which calls of the first sink fail.
    pub(crate) fn new(alloc: Global, row: &Row) -> Result<Heard, AllocError> {
        Ok(Heard {
            first: no_lines(alloc, row.failing_audits.as_slice())?,
            second: no_lines(alloc, &[])?,
        })
    }

    pub(crate) fn first_sink(&self) -> Result<RowSink, AllocError> {
        sink_over(&self.first)
    }

    pub(crate) fn second_sink(&self) -> Result<RowSink, AllocError> {
        sink_over(&self.second)
    }
}

/// Appends the lines of a sink, each behind its name.
fn tell_lines(told: &mut String, name: &str, lines: &Lines) -> Result<(), AllocError> {
    let Some(audit) = lines.try_lock() else {
        return writeln!(told, "  {name}: lost");
    };
    if audit.lines().is_empty() {
        return writeln!(told, "  {name}: nothing");
    }
    for line in audit.lines() {
        writeln!(told, "  {name}: {}", line.as_str())?;
    }
    Ok(())
}

/// Appends what the worker's sinks hold, and how many of them were dropped.
fn tell_worker(
    told: &mut String,
    alloc: Global,
    place: usize,
    hooks: &WorkerHooks,
    heard: &Heard,
) -> Result<(), AllocError> {
    let first = format!(in alloc; "worker {place}, first sink")?;
    tell_lines(told, first.as_str(), &heard.first)?;
    let second = format!(in alloc; "worker {place}, second sink")?;
    tell_lines(told, second.as_str(), &heard.second)?;
    match hooks.sinks.dropped() {
        0 => Ok(()),
        dropped => writeln!(told, "  worker {place}, dropped: {dropped}"),
    }
}

/// What the sinks of the workers hold after a run that left them there.
pub(crate) fn told_of(
    alloc: Global,
    workers: &[WorkerHooks],
    all_heard: &[Heard],
) -> Result<String, AllocError> {
    let mut told = String::new(alloc);
    for (place, (hooks, heard)) in workers.iter().zip(all_heard).enumerate() {
        tell_worker(&mut told, alloc, place, hooks, heard)?;
    }
    Ok(told)
}
