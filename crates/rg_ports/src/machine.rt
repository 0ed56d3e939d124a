// The outside of the machine. These forms tell no content: which bytes and moments pass through them is trusted.
ghost use Rattle.std.specs.Prelude.{◌≡◌, ◌≤◌, ◌<◌, ◌+◌, ◌-◌, ◌^◌, length, IfOk, OnOk, OnErr, false, min};
ghost use Rattle.rg_ports.specs.Machine.{ReaderState, WriterState, after_machine_read};

use crate::counter::Counter;
use crate::ports::{Clock, Sink, Source};
use rg_base::{Failed, Moment};
use std::io::{ErrorKind, Read, Write};
use std::marker::Model;
use std::rt;
use std::time::{SystemTime, UNIX_EPOCH};

// Reads, and reads again where a signal interrupts it. Interrupts without end are a failure.
pub(crate) fn read_past_interrupts<R: Read>(
    reader: &mut R,
    room: &mut [u8],
) -> Result<usize, Failed>
    ensures within { IfOk result (λ n. n ≤ length room.old) }
{
    for _ in 0..u64::MAX {
        match reader.read(room) {
            Ok(n) => return Ok(n),
            Err(error) if error.kind() == ErrorKind::Interrupted => {}
            Err(_) => return Err(Failed),
        }
    }
    Err(Failed)
}

// Writes, and writes again where a signal interrupts it. Interrupts without end are a failure.
fn write_past_interrupts<W: Write>(writer: &mut W, piece: &[u8]) -> Result<usize, Failed>
    ensures within { IfOk result (λ n. n ≤ length piece.now) }
{
    for _ in 0..u64::MAX {
        match writer.write(piece) {
            Ok(n) => return Ok(n),
            Err(error) if error.kind() == ErrorKind::Interrupted => {}
            Err(_) => return Err(Failed),
        }
    }
    Err(Failed)
}

/// The calls on a reader, a writer or both: whether a read has met the end, and how many calls failed.
#[derive(Drop)]
pub(crate) struct Watched {
    met_end: bool,
    faults: Counter,
}

impl Model for Watched {
    ghost use Rattle.rg_ports.specs.Machine.{ReaderState};

    ghost Value = { ReaderState };

    ghost view = { λ w. record { ended = w.met_end; faults = w.faults } };
}

impl Watched {
    /// No call so far.
    pub(crate) fn new() -> Watched
        ensures { result ≡ record { ended = false; faults = 0 } }
    {
        Watched {
            met_end: false,
            faults: Counter::zero(),
        }
    }

    /// One read. It meets the end where it gives 0 for a room that isn't empty.
    pub(crate) fn read<R: Read>(&mut self, reader: &mut R, room: &mut [u8]) -> Result<usize, Failed>
        ensures within { IfOk result (λ n. n ≤ length room.old) }
        ensures after { IfOk result
            (λ n. self.new ≡ after_machine_read (length room.old) n self.old) }
        ensures failed { OnErr result (self.new
            ≡ record self.old { faults = self.old.faults + 1 }) }
    {
        match read_past_interrupts(reader, room) {
            Ok(n) => {
                if n == 0 && !room.is_empty() {
                    self.met_end = true;
                }
                Ok(n)
            }
            Err(failed) => {
                self.faults.add();
                Err(failed)
            }
        }
    }

    /// One write. It fails too where nothing is taken of a piece that isn't empty.
    pub(crate) fn write<W: Write>(&mut self, writer: &mut W, piece: &[u8]) -> Result<usize, Failed>
        ensures within { IfOk result (λ n. n ≤ length piece.now) }
        ensures some { IfOk result (λ n. 0 < length piece.now → 0 < n) }
        ensures after { OnOk result (self.new ≡ self.old) }
        ensures failed { OnErr result (self.new
            ≡ record self.old { faults = self.old.faults + 1 }) }
    {
        match write_past_interrupts(writer, piece) {
            Ok(0) if !piece.is_empty() => {
                self.faults.add();
                Err(Failed)
            }
            Ok(n) => Ok(n),
            Err(failed) => {
                self.faults.add();
                Err(failed)
            }
        }
    }

    /// How many calls failed; from the last `u64` on the number stands still.
    pub(crate) fn failures(&self) -> u64
        ensures { result ≡ min self.now.faults (2 ^ 64 - 1) }
    {
        self.faults.seen()
    }
}

/// A source over a reader. It tells no bytes: that the reader gives those of the outside, and 0 for a room that isn't empty at
/// their end alone, is trusted.
#[derive(Drop)]
pub struct StdSource<R: Read + Drop> {
    reader: R,
    watched: Watched,
}

impl<R: Read + Drop> Model for StdSource<R> {
    ghost use Rattle.rg_ports.specs.Machine.{ReaderState};

    ghost Value = { ReaderState };

    ghost view = { λ s. s.watched };
}

impl<R: Read + Drop> StdSource<R> {
    /// Over this reader.
    pub fn new(reader: R) -> StdSource<R>
        ensures { result ≡ record { ended = false; faults = 0 } }
    {
        StdSource {
            reader,
            watched: Watched::new(),
        }
    }

    /// How many calls failed; from the last `u64` on the number stands still.
    pub fn failures(&self) -> u64
        ensures { result ≡ min self.now.faults (2 ^ 64 - 1) }
    {
        self.watched.failures()
    }
}

impl<R: Read + Drop> Source for StdSource<R> {
    ghost use Rattle.std.specs.Prelude.{None};

    ghost left = { λ s. None };

    ghost ended = { λ s. s.ended };

    ghost faults = { λ s. s.faults };

    fn read(&mut self, room: &mut [u8]) -> Result<usize, Failed> {
        self.watched.read(&mut self.reader, room)
    }
}

/// A sink over a writer. It tells no bytes: that the writer hands on those that it takes is trusted. It flushes nothing.
#[derive(Drop)]
pub struct StdSink<W: Write + Drop> {
    writer: W,
    watched: Watched,
}

impl<W: Write + Drop> Model for StdSink<W> {
    ghost use Rattle.rg_ports.specs.Machine.{WriterState};

    ghost Value = { WriterState };

    ghost view = { λ s. record { faults = s.watched.faults } };
}

impl<W: Write + Drop> StdSink<W> {
    /// Over this writer.
    pub fn new(writer: W) -> StdSink<W>
        ensures { result ≡ record { faults = 0 } }
    {
        StdSink {
            writer,
            watched: Watched::new(),
        }
    }

    /// How many calls failed; from the last `u64` on the number stands still.
    pub fn failures(&self) -> u64
        ensures { result ≡ min self.now.faults (2 ^ 64 - 1) }
    {
        self.watched.failures()
    }
}

impl<W: Write + Drop> Sink for StdSink<W> {
    ghost use Rattle.std.specs.Prelude.{None};

    ghost held = { λ s. None };

    ghost faults = { λ s. s.faults };

    fn write(&mut self, piece: &[u8]) -> Result<usize, Failed> {
        self.watched.write(&mut self.writer, piece)
    }
}

/// The clock of the machine. It tells no moments: that the machine's clock is right is trusted.
#[derive(Drop)]
pub struct WallClock<T: rt::Clock + Send + Drop>(pub T);

impl<T: rt::Clock + Send + Drop> Clock for WallClock<T> {
    ghost use Rattle.std.specs.Prelude.{None};

    ghost given = { λ c. None };

    /// Whole seconds since 1970 UTC; 0 where the machine's clock stands before 1970 or can't be read.
    fn now(&mut self) -> Moment {
        let since = match SystemTime::now(&self.0) {
            Ok(now) => now.duration_since(UNIX_EPOCH).unwrap_or_default(),
            Err(_) => return Moment(0),
        };
        Moment(i64::try_from(since.as_secs()).unwrap_or(i64::MAX))
    }
}
