// A sink over a writer.
ghost use Rattle.std.specs.Prelude.{◌≡◌, ◌+◌, ◌-◌, ◌^◌, ◌∷◌, ◌++◌, [], min, OnErr, OnOk};
ghost use Rattle.std.specs.Io.KnownBytes.{Appends};
ghost use Rattle.rg_hook.specs.Written.{WrittenState};

use crate::sink::AuditSink;
use rg_base::{Failed, Tally};
use std::io;
use std::io::Write;
use std::marker::Model;

// Writes the line and an LF behind it.
fn write_line<W: Write>(writer: &mut W, line: &str) -> io::Result<()>
    ensures { OnOk result
        (Appends (W.contents writer.old) (W.contents writer.new) (line.now ++ 10 ∷ [])) }
{
    writer.write_all(line.as_bytes())?;
    writer.write_all(b"\n")
}

/// A sink over a writer, which gets one line and an LF a call. It tells no lines: that a writer which tells none hands on what
/// it takes is trusted, and after a failure a part of the line may have been written. It flushes nothing.
#[derive(Drop)]
pub struct WriterSink<W: Write + Drop> {
    writer: W,
    // How many calls failed, which stands still at the last `u64`.
    failures: u64,
    faults: Tally,
}

impl<W: Write + Drop> Model for WriterSink<W> {
    ghost use Rattle.std.specs.Prelude.{◌≡◌, ◌-◌, ◌^◌, min};
    ghost use Rattle.rg_hook.specs.Written.{WrittenState};

    ghost Value = { WrittenState };

    ghost view = { λ s. record { bytes = W.contents s.writer; faults = s.faults.count } };

    ghost invariant = { λ s. s.failures ≡ min s.faults.count (2 ^ 64 - 1) };
}

impl<W: Write + Drop> WriterSink<W> {
    /// Over this writer.
    pub fn new(writer: W) -> WriterSink<W>
        ensures { result ≡ record { bytes = W.contents writer; faults = 0 } }
    {
        WriterSink {
            writer,
            failures: 0,
            faults: Tally::zero(),
        }
    }

    /// How many calls failed; from the last `u64` on the number stands still.
    pub fn failures(&self) -> u64
        ensures { result ≡ min self.now.faults (2 ^ 64 - 1) }
    {
        self.failures
    }
}

impl<W: Write + Drop> AuditSink for WriterSink<W> {
    ghost use Rattle.std.specs.Prelude.{None};

    ghost heard = { λ s. None };

    ghost sink_faults = { λ s. s.faults };

    fn write(&mut self, line: &str) -> Result<(), Failed>
        ensures written { OnOk result
            (Appends self.old.bytes self.new.bytes (line.now ++ 10 ∷ [])) }
        ensures kept { OnOk result (self.new.faults ≡ self.old.faults) }
        ensures failed { OnErr result (self.new.faults ≡ self.old.faults + 1) }
    {
        if write_line(&mut self.writer, line).is_ok() {
            return Ok(());
        }
        self.failures = self.failures.saturating_add(1);
        self.faults.add();
        Err(Failed)
    }
}
