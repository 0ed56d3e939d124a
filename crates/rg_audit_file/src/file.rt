// A file that several workers append to.
ghost use Rattle.std.specs.Prelude.{None};

use rg_base::{Failed, Tally};
use rg_hook::AuditSink;
use std::alloc::Global;
use std::fs::{File, OpenOptions};
use std::io;
use std::io::Write;

/// Writes the line with its end at once, since other workers append to the same file.
fn append(alloc: Global, file: &mut File, line: &str) -> io::Result<()> {
    let text = format!(in alloc; "{line}\n")?;
    file.write_all(text.as_bytes())?;
    file.flush()
}

/// Appends each line and its end at once, so that lines of several workers, or of several programs, stand one after another. What the
/// file system does with them is trusted.
#[derive(Drop)]
pub struct AuditFile {
    alloc: Global,
    file: File,
    faults: Tally,
}

impl AuditFile {
    /// At the end of this file, which is made where there is none.
    pub fn open(rt: &HostRuntime, path: &str) -> io::Result<AuditFile> {
        Ok(AuditFile {
            alloc: rt.alloc(),
            file: OpenOptions::new().create(true).append(true).open(rt, path)?,
            faults: Tally::zero(),
        })
    }
}

impl AuditSink for AuditFile {
    ghost heard = { λ s. None };

    ghost sink_faults = { λ s. s.faults.count };

    fn write(&mut self, line: &str) -> Result<(), Failed> {
        if append(self.alloc, &mut self.file, line).is_ok() {
            return Ok(());
        }
        self.faults.add();
        Err(Failed)
    }
}
