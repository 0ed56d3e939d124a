// Rows about ports in memory. PIECES are the sizes of the calls, FAILS the numbers of those that fail. A source gives the ten digits.
ghost use Rattle.std.specs.Prelude.{◌<◌, IfOk, All};

use crate::rows::{count, field, number, told};
use rg_base::{Failed, Moment, NoMemory, Seq};
use rg_ports::{
    Clock, FreeGate, Gate, Link, ListClock, Listener, MeetingGate, MemLink, MemListener, MemSink,
    MemSource, Sink, Source,
};
use std::alloc::Global;
use std::str;

/// What a source gives.
pub(crate) const DIGITS: &[u8] = b"0123456789";

/// What a sink is given in one call.
const PIECE: &[u8] = b"abc";

/// The sizes, at least 1, that commas part.
fn sizes(alloc: Global, text: &str) -> Result<Seq<u32>, NoMemory>
    ensures { IfOk result (λ sizes. All (λ size. 0 < size) sizes.items) }
{
    let mut list = Vec::new(alloc);
    for word in text.split_terminator(',') {
        list.push(count(word).max(1))?;
    }
    Ok(Seq::from_vec(list))
}

/// The numbers of the calls that fail.
pub(crate) fn calls(alloc: Global, text: &str) -> Result<Seq<u64>, NoMemory> {
    let mut list = Vec::new(alloc);
    for word in text.split_terminator(',') {
        list.push(u64::from(count(word)))?;
    }
    Ok(Seq::from_vec(list))
}

fn digits(alloc: Global) -> Result<Seq<u8>, NoMemory> {
    Ok(Seq::from_vec(Vec::from_slice(alloc, DIGITS)?))
}

pub(crate) fn add_bytes(answer: &mut String, bytes: &[u8]) -> Result<(), NoMemory> {
    Ok(answer.push_str(str::from_utf8(bytes).unwrap_or("no text"))?)
}

/// Adds what one read gives for a room of this size, at most 8.
pub(crate) fn add_read<S: Source>(
    answer: &mut String,
    source: &mut S,
    size: u32,
) -> Result<(), NoMemory> {
    let mut room = [b'.'; 8];
    let size = size.min(8) as usize;
    match source.read(&mut room[..size]) {
        Ok(n) => add_bytes(answer, room[..size].split_at(n).0)?,
        Err(Failed) => answer.push_str("failed")?,
    }
    Ok(answer.push('|')?)
}

/// Adds what the reads into rooms of these sizes give.
pub(crate) fn add_reads<S: Source>(
    answer: &mut String,
    source: &mut S,
    rooms: &str,
) -> Result<(), NoMemory> {
    for room in rooms.split(',') {
        add_read(answer, source, count(room))?;
    }
    Ok(())
}

fn source(alloc: Global, pieces: &str, fails: &str) -> Result<MemSource, NoMemory> {
    let pieces = sizes(alloc, pieces)?;
    let fails = calls(alloc, fails)?;
    Ok(MemSource::new(digits(alloc)?, pieces, fails))
}

/// `source|PIECES|FAILS|ROOMS`: what the reads into these rooms give.
fn tell_source(alloc: Global, row: &str) -> Result<String, NoMemory> {
    let mut source = source(alloc, field(row, 1), field(row, 2))?;
    let mut answer = String::new(alloc);
    add_reads(&mut answer, &mut source, field(row, 3))?;
    Ok(answer)
}

/// Adds how many bytes one write took, and what is held then.
fn add_write(answer: &mut String, sink: &mut MemSink) -> Result<(), NoMemory> {
    match sink.write(PIECE) {
        Ok(n) => {
            write!(answer, "{n} ")?;
            add_bytes(answer, sink.held())?;
        }
        Err(Failed) => answer.push_str("failed")?,
    }
    Ok(answer.push('|')?)
}

fn add_writes(answer: &mut String, sink: &mut MemSink, times: u32) -> Result<(), NoMemory> {
    for _ in 0..times {
        add_write(answer, sink)?;
    }
    Ok(())
}

fn sink(alloc: Global, pieces: &str, fails: &str) -> Result<MemSink, NoMemory> {
    let pieces = sizes(alloc, pieces)?;
    let fails = calls(alloc, fails)?;
    Ok(MemSink::new(Seq::new(alloc), pieces, fails))
}

/// `sink|PIECES|FAILS|TIMES`: so many writes of `abc`.
fn tell_sink(alloc: Global, row: &str) -> Result<String, NoMemory> {
    let mut sink = sink(alloc, field(row, 1), field(row, 2))?;
    let mut answer = String::new(alloc);
    add_writes(&mut answer, &mut sink, count(field(row, 3)))?;
    Ok(answer)
}

fn link(alloc: Global, pieces: &str, fails: &str) -> Result<MemLink, NoMemory> {
    let pieces = sizes(alloc, pieces)?;
    let fails = calls(alloc, fails)?;
    Ok(MemLink::new(digits(alloc)?, Seq::new(alloc), pieces, fails))
}

/// Adds what one read of a link gives for a room for four bytes.
fn add_link_read(answer: &mut String, link: &mut MemLink) -> Result<(), NoMemory> {
    let mut room = [b'.'; 4];
    match link.read(&mut room) {
        Ok(n) => add_bytes(answer, room.split_at(n).0),
        Err(Failed) => Ok(answer.push_str("failed")?),
    }
}

/// Adds what a link holds after one write.
fn add_link_write(answer: &mut String, link: &mut MemLink) -> Result<(), NoMemory> {
    match link.write(PIECE) {
        Ok(_) => add_bytes(answer, link.held()),
        Err(Failed) => Ok(answer.push_str("failed")?),
    }
}

/// Adds so often a read, and then a write.
fn add_turns(answer: &mut String, link: &mut MemLink, times: u32) -> Result<(), NoMemory> {
    for _ in 0..times {
        add_link_read(answer, link)?;
        answer.push(' ')?;
        add_link_write(answer, link)?;
        answer.push('|')?;
    }
    Ok(())
}

/// `link|PIECES|FAILS|TIMES`: so often a read, and then a write of `abc`.
fn tell_link(alloc: Global, row: &str) -> Result<String, NoMemory> {
    let mut link = link(alloc, field(row, 1), field(row, 2))?;
    let mut answer = String::new(alloc);
    add_turns(&mut answer, &mut link, count(field(row, 3)))?;
    Ok(answer)
}

/// Adds what the next link gives in one read.
fn add_accepted(answer: &mut String, listener: &mut MemListener) -> Result<(), NoMemory> {
    match listener.accept() {
        Ok(Some(mut link)) => add_link_read(answer, &mut link),
        Ok(None) => Ok(answer.push_str("no link")?),
        Err(Failed) => Ok(answer.push_str("failed")?),
    }
}

fn add_listened(answer: &mut String, listener: &mut MemListener) -> Result<(), NoMemory> {
    match listener.listen("127.0.0.1:0") {
        Ok(()) => Ok(answer.push_str("listens")?),
        Err(Failed) => Ok(answer.push_str("failed")?),
    }
}

/// A link for each of the sizes, of which each call moves so much.
fn links(alloc: Global, sizes: &str) -> Result<Vec<MemLink>, NoMemory> {
    let mut list = Vec::new(alloc);
    for size in sizes.split(',') {
        list.push(link(alloc, size, "")?)?;
    }
    Ok(list)
}

/// Adds what each of these calls answers.
fn add_calls(answer: &mut String, listener: &mut MemListener, calls: &str) -> Result<(), NoMemory> {
    for call in calls.split(',') {
        match call {
            "listen" => add_listened(answer, listener)?,
            _ => add_accepted(answer, listener)?,
        }
        answer.push('|')?;
    }
    Ok(())
}

/// `listener|SIZES|FAILS|CALLS`: what `listen` and `accept` answer, with one read of each link.
fn tell_listener(alloc: Global, row: &str) -> Result<String, NoMemory> {
    let fails = calls(alloc, field(row, 2))?;
    let mut listener = MemListener::new(links(alloc, field(row, 1))?, fails);
    let mut answer = String::new(alloc);
    add_calls(&mut answer, &mut listener, field(row, 3))?;
    Ok(answer)
}

/// `clock|MOMENTS|TIMES`: what a clock of these moments gives so many times.
fn tell_clock(alloc: Global, row: &str) -> Result<String, NoMemory> {
    let mut moments = Vec::new(alloc);
    for word in field(row, 1).split(',') {
        moments.push(Moment(number(word)))?;
    }
    if moments.is_empty() {
        return told(alloc, "no moment");
    }
    let mut clock = ListClock::new(Seq::from_vec(moments));
    let mut answer = String::new(alloc);
    for _ in 0..count(field(row, 2)) {
        write!(answer, "{} ", clock.now().0)?;
    }
    Ok(answer)
}

/// `gate|POINTS`: whether a worker that comes to these points alone gave up, where a gate lets all pass or waits for one.
fn tell_gate(alloc: Global, row: &str) -> Result<String, NoMemory> {
    let gate = MeetingGate::new(1);
    for point in field(row, 1).split(',') {
        FreeGate.reach(1, count(point));
        gate.reach(1, count(point));
    }
    told(alloc, if gate.gave_up() { "gave up" } else { "passed" })
}

pub(crate) fn answer(alloc: Global, row: &str) -> Result<String, NoMemory> {
    match field(row, 0) {
        "source" => tell_source(alloc, row),
        "sink" => tell_sink(alloc, row),
        "link" => tell_link(alloc, row),
        "listener" => tell_listener(alloc, row),
        "clock" => tell_clock(alloc, row),
        "gate" => tell_gate(alloc, row),
        _ => told(alloc, "no such row"),
    }
}
