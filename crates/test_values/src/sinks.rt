// Rows about where audit lines go.
ghost use Rattle.std.specs.Prelude.{None};

use crate::ports::{add_bytes, calls};
use crate::rows::{field, told};
use rg_base::{Failed, NoMemory, Seq, Tally};
use rg_hook::{AuditFan, AuditSink, MemAudit, WriterSink};
use std::alloc::Global;
use std::sync::{Arc, Mutex};

/// The lines that a fan gets.
const LINES: [&str; 6] = ["1", "2", "3", "4", "5", "6"];

/// A sink in memory whose lines can be read while a fan has it.
#[derive(Drop)]
struct Watched {
    audit: Arc<Mutex<MemAudit>, Global>,
    faults: Tally,
}

impl AuditSink for Watched {
    ghost heard = { λ s. None };

    ghost sink_faults = { λ s. s.faults.count };

    fn write(&mut self, line: &str) -> Result<(), Failed> {
        if let Some(mut audit) = self.audit.try_lock() {
            if audit.write(line).is_ok() {
                return Ok(());
            }
        }
        self.faults.add();
        Err(Failed)
    }
}

fn audit(alloc: Global, fails: &str) -> Result<Arc<Mutex<MemAudit>, Global>, NoMemory> {
    let audit = MemAudit::new(Seq::new(alloc), calls(alloc, fails)?);
    Ok(Arc::new(alloc, Mutex::new(audit))?)
}

fn watch(audit: &Arc<Mutex<MemAudit>, Global>) -> Result<Watched, NoMemory> {
    Ok(Watched {
        audit: Arc::try_clone(audit)?,
        faults: Tally::zero(),
    })
}

/// Adds the lines that a sink took.
fn add_lines(answer: &mut String, audit: &Mutex<MemAudit>) -> Result<(), NoMemory> {
    let Some(audit) = audit.try_lock() else {
        return Ok(answer.push_str("no lock")?);
    };
    for line in audit.lines() {
        write!(answer, "{}|", line.as_str())?;
    }
    Ok(())
}

/// `fan|FAILS`: six lines go to a sink that fails at these calls, and to one that never does; how many sinks are dropped after each
/// line, and the lines of each sink.
fn tell_fan(alloc: Global, fails: &str) -> Result<String, NoMemory> {
    let first = audit(alloc, fails)?;
    let second = audit(alloc, "")?;
    let mut sinks: Vec<Box<dyn AuditSink + Send>> = Vec::new(alloc);
    sinks.push(Box::new(alloc, watch(&first)?)?)?;
    sinks.push(Box::new(alloc, watch(&second)?)?)?;
    let mut fan = AuditFan::new(sinks);
    let mut answer = String::new(alloc);
    for line in LINES {
        fan.write(line);
        write!(answer, "{} ", fan.dropped())?;
    }
    answer.push_str("dropped, ")?;
    add_lines(&mut answer, &first)?;
    answer.push_str(" and ")?;
    add_lines(&mut answer, &second)?;
    Ok(answer)
}

/// Adds whether the sink took the line, and how many calls failed so far.
fn add_written<W: std::io::Write + Drop>(
    answer: &mut String,
    sink: &mut WriterSink<W>,
    line: &str,
) -> Result<(), NoMemory> {
    match sink.write(line) {
        Ok(()) => answer.push_str("taken")?,
        Err(Failed) => answer.push_str("failed")?,
    }
    Ok(write!(answer, " with {} failures, ", sink.failures())?)
}

/// `writer|LINE|LINE|LINE`: what a writer got of the lines; `$` stands for an LF.
fn tell_writer(alloc: Global, row: &str) -> Result<String, NoMemory> {
    let mut written = Vec::new(alloc);
    let mut answer = String::new(alloc);
    let mut sink = WriterSink::new(&mut written);
    for line in row.split('|').skip(1) {
        add_written(&mut answer, &mut sink, line)?;
    }
    drop(sink);
    for line in written.as_slice().split(|byte| *byte == b'\n') {
        add_bytes(&mut answer, line)?;
        answer.push('$')?;
    }
    Ok(answer)
}

/// `full|LINE|LINE`: whether a writer with room for seven bytes takes each line.
fn tell_full(alloc: Global, row: &str) -> Result<String, NoMemory> {
    let mut room = [0; 7];
    let mut answer = String::new(alloc);
    let mut sink = WriterSink::new(room.as_mut_slice());
    for line in row.split('|').skip(1) {
        add_written(&mut answer, &mut sink, line)?;
    }
    Ok(answer)
}

pub(crate) fn answer(alloc: Global, row: &str) -> Result<String, NoMemory> {
    match field(row, 0) {
        "fan" => tell_fan(alloc, field(row, 1)),
        "writer" => tell_writer(alloc, row),
        "full" => tell_full(alloc, row),
        _ => told(alloc, "no such row"),
    }
}
