// A sink in memory that can be read while others write to it.
use rg_base::{Failed, Seq, Tally};
use rg_hook::{AuditSink, MemAudit};
use std::alloc::{AllocError, Global};
use std::sync::{Arc, Mutex};

/// Lines that are kept in memory, for several owners.
pub(crate) type Lines = Arc<Mutex<MemAudit>, Global>;

/// Writes to lines that others read. A call fails where another thread has their lock.
#[derive(Drop)]
pub(crate) struct Watched {
    lines: Lines,
    faults: Tally,
}

impl AuditSink for Watched {
    ghost use Rattle.std.specs.Prelude.{None};

    ghost heard = { λ s. None };

    ghost sink_faults = { λ s. s.faults.count };

    fn write(&mut self, line: &str) -> Result<(), Failed> {
        if let Some(mut lines) = self.lines.try_lock() {
            if lines.write(line).is_ok() {
                return Ok(());
            }
        }
        self.faults.add();
        Err(Failed)
    }
}

/// No lines yet. `fails` lists the calls that are to fail.
fn no_lines(alloc: Global, fails: &[u64]) -> Result<Lines, AllocError> {
    let fails = Seq::from_vec(Vec::from_slice(alloc, fails)?);
    let audit = MemAudit::new(Seq::new(alloc), fails);
    Ok(Arc::new(alloc, Mutex::new(audit))?)
}

/// The lines of two sinks.
#[derive(Drop)]
pub(crate) struct Sinks {
    pub(crate) first: Lines,
    pub(crate) second: Lines,
}

impl Sinks {
    /// No lines yet. `fails` lists the calls of the first that are to fail.
    pub(crate) fn new(alloc: Global, fails: &[u64]) -> Result<Sinks, AllocError> {
        Ok(Sinks {
            first: no_lines(alloc, fails)?,
            second: no_lines(alloc, &[])?,
        })
    }
}

pub(crate) fn watch(lines: &Lines) -> Result<Watched, AllocError> {
    Ok(Watched {
        lines: Arc::try_clone(lines)?,
        faults: Tally::zero(),
    })
}

/// Appends the lines, with a blank before each.
pub(crate) fn tell_lines(told: &mut String, lines: &Lines) -> Result<(), AllocError> {
    let Some(audit) = lines.try_lock() else {
        return told.push_str(" lost");
    };
    for line in audit.lines() {
        told.push(' ')?;
        told.push_str(line.as_str())?;
    }
    Ok(())
}
