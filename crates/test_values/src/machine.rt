// Rows about ports over readers, writers, streams and the machine.
use crate::ports::{DIGITS, add_bytes, add_reads};
use crate::rows::{count, field, told};
use rg_base::{Failed, Moment, NoMemory};
use rg_ports::{
    Clock, Link, Listener, Sink, Source, StdSink, StdSource, TcpLink, TcpNet, WallClock,
};
use std::alloc::Global;
use std::io::{ErrorKind, Read, Write};
use std::time::Duration;
use std::{io, rt};

/// Interrupts two calls of three, and gives one byte or takes one in each third, until it breaks at the seventh.
#[derive(Drop)]
struct Unsteady {
    calls: u8,
}

impl Unsteady {
    fn next(&mut self) -> io::Result<usize> {
        self.calls = self.calls.saturating_add(1);
        if self.calls > 6 {
            return Err(io::Error::from(ErrorKind::BrokenPipe));
        }
        if self.calls % 3 != 0 {
            return Err(io::Error::from(ErrorKind::Interrupted));
        }
        Ok(1)
    }
}

impl Read for Unsteady {
    fn read(&mut self, room: &mut [u8]) -> io::Result<usize> {
        let n = self.next()?;
        if room.is_empty() {
            return Ok(0);
        }
        room[0] = b'x';
        Ok(n.min(1))
    }
}

impl Write for Unsteady {
    fn write(&mut self, piece: &[u8]) -> io::Result<usize> {
        let n = self.next()?;
        Ok(n.min(piece.len()))
    }

    fn flush(&mut self) -> io::Result<()> {
        Ok(())
    }
}

/// A clock of the machine that stands still, or can't be read.
#[derive(Drop)]
struct Stopped {
    seconds: Option<u64>,
}

impl rt::Clock for Stopped {
    fn monotonic(&self) -> io::Result<Duration> {
        Ok(Duration::from_secs(0))
    }

    fn since_1970(&self) -> io::Result<Duration> {
        match self.seconds {
            Some(seconds) => Ok(Duration::new(seconds, 999_999_999)),
            None => Err(io::Error::from(ErrorKind::Other)),
        }
    }
}

/// Adds how many bytes a call moved, or that it failed.
fn add_moved(answer: &mut String, moved: Result<usize, Failed>) -> Result<(), NoMemory> {
    match moved {
        Ok(n) => Ok(write!(answer, "{n}")?),
        Err(Failed) => Ok(answer.push_str("failed")?),
    }
}

/// Adds how many calls failed so far.
fn add_failures(answer: &mut String, failures: u64) -> Result<(), NoMemory> {
    Ok(write!(answer, " with {failures} failures|")?)
}

/// `reader|ROOMS`: what the reads into these rooms give of the ten digits, and how many failed.
fn tell_reader(alloc: Global, rooms: &str) -> Result<String, NoMemory> {
    let mut source = StdSource::new(DIGITS);
    let mut answer = String::new(alloc);
    add_reads(&mut answer, &mut source, rooms)?;
    add_failures(&mut answer, source.failures())?;
    Ok(answer)
}

fn add_writes<W: Write + Drop>(
    answer: &mut String,
    sink: &mut StdSink<W>,
    pieces: &str,
) -> Result<(), NoMemory> {
    for piece in pieces.split(',') {
        add_moved(answer, sink.write(piece.as_bytes()))?;
        add_failures(answer, sink.failures())?;
    }
    Ok(())
}

/// `writer|PIECES`: how many bytes of each are taken, and what the writer got.
fn tell_writer(alloc: Global, pieces: &str) -> Result<String, NoMemory> {
    let mut out = Vec::new(alloc);
    let mut answer = String::new(alloc);
    let mut sink = StdSink::new(&mut out);
    add_writes(&mut answer, &mut sink, pieces)?;
    drop(sink);
    add_bytes(&mut answer, out.as_slice())?;
    Ok(answer)
}

/// `full|PIECES`: the same over a writer that has room for two bytes.
fn tell_full(alloc: Global, pieces: &str) -> Result<String, NoMemory> {
    let mut place = [0u8; 2];
    let mut answer = String::new(alloc);
    let mut sink = StdSink::new(place.as_mut_slice());
    add_writes(&mut answer, &mut sink, pieces)?;
    Ok(answer)
}

/// `unsteady_reader|TIMES`: so many reads of a reader that is interrupted and then breaks.
fn tell_unsteady_reader(alloc: Global, times: u32) -> Result<String, NoMemory> {
    let mut source = StdSource::new(Unsteady { calls: 0 });
    let mut answer = String::new(alloc);
    for _ in 0..times {
        add_moved(&mut answer, source.read(&mut [0; 2]))?;
        add_failures(&mut answer, source.failures())?;
    }
    Ok(answer)
}

/// `unsteady_writer|TIMES`: so many writes to a writer of that kind.
fn tell_unsteady_writer(alloc: Global, times: u32) -> Result<String, NoMemory> {
    let mut sink = StdSink::new(Unsteady { calls: 0 });
    let mut answer = String::new(alloc);
    for _ in 0..times {
        add_writes(&mut answer, &mut sink, "ab")?;
    }
    Ok(answer)
}

/// `unsteady_link|TIMES`: so often a read and a write over a stream of that kind.
fn tell_unsteady_link(alloc: Global, times: u32) -> Result<String, NoMemory> {
    let mut link = TcpLink::new(Unsteady { calls: 0 });
    let mut answer = String::new(alloc);
    for _ in 0..times {
        add_moved(&mut answer, link.read(&mut [0; 2]))?;
        answer.push(' ')?;
        add_moved(&mut answer, link.write(b"ab"))?;
        add_failures(&mut answer, link.failures())?;
    }
    Ok(answer)
}

/// Adds whether the call succeeds, `accept` or else the address to listen at, and how many failed so far.
fn add_call(
    answer: &mut String,
    net: &mut TcpNet<HostRuntime>,
    call: &str,
) -> Result<(), NoMemory> {
    let is_met = match call {
        "accept" => net.accept().is_ok(),
        address => net.listen(address).is_ok(),
    };
    answer.push_str(if is_met { "met" } else { "failed" })?;
    add_failures(answer, net.failures())
}

/// `net|CALLS`: whether each call succeeds, and how many failed so far.
fn tell_net(rt: &HostRuntime, calls: &str) -> Result<String, NoMemory> {
    let Ok(machine) = rt.clone() else {
        return Err(NoMemory);
    };
    let mut net = TcpNet::new(machine);
    let mut answer = String::new(rt.alloc());
    for call in calls.split(',') {
        add_call(&mut answer, &mut net, call)?;
    }
    Ok(answer)
}

/// `wall|SECONDS`: the moment of a clock of the machine that shows so many seconds, or can't be read.
fn tell_wall(alloc: Global, seconds: &str) -> Result<String, NoMemory> {
    let seconds = seconds.parse::<u64>().ok();
    let moment = WallClock(Stopped { seconds }).now();
    Ok(format!(in alloc; "{}", moment.0)?)
}

/// `now`: whether the machine's clock shows a moment after the year 2023.
fn tell_now(rt: &HostRuntime) -> Result<String, NoMemory> {
    let Ok(machine) = rt.clone() else {
        return Err(NoMemory);
    };
    let year_2024 = Moment(1_704_067_200);
    let is_later = year_2024 < WallClock(machine).now();
    told(
        rt.alloc(),
        if is_later {
            "after 2023"
        } else {
            "before 2024"
        },
    )
}

pub(crate) fn answer(rt: &HostRuntime, row: &str) -> Result<String, NoMemory> {
    let alloc = rt.alloc();
    let first = field(row, 1);
    match field(row, 0) {
        "reader" => tell_reader(alloc, first),
        "writer" => tell_writer(alloc, first),
        "full" => tell_full(alloc, first),
        "unsteady_reader" => tell_unsteady_reader(alloc, count(first)),
        "unsteady_writer" => tell_unsteady_writer(alloc, count(first)),
        "unsteady_link" => tell_unsteady_link(alloc, count(first)),
        "net" => tell_net(rt, first),
        "wall" => tell_wall(alloc, first),
        "now" => tell_now(rt),
        _ => told(alloc, "no such row"),
    }
}
