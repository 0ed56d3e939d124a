// A table of links, each served by an administration of its own, from its start. The rows are
// `name|bytes|cut|piece|fails|sink|before|bell`; columns at the end may be left out.
mod hearing;
mod session;
mod telling;
mod watched;

use anyhow::Result;
use session::{Case, told_of};
use std::alloc::{AllocError, Global};
use std::sync::Wait;
use test_tables::spelled;

/// A link.
#[derive(Clone, Copy)]
struct Row<'r> {
    name: &'r str,
    bytes: &'r str,
    /// `each` where the link is served once for each number of its first bytes.
    cut: &'r str,
    /// The most bytes that a call moves; all where it is empty.
    piece: &'r str,
    /// The calls that fail, or `each N` where the link is served N times, and call 1, 2, .. N fails.
    fails: &'r str,
    /// The calls of the first sink that fail.
    sink: &'r str,
    /// The bytes of an earlier link, after which there is a refresh.
    before: &'r str,
    /// `told` where it is told before which writes the bell was rung.
    bell: &'r str,
}

fn row_of<'r>(line: &'r str) -> Row<'r> {
    let mut fields = line.split('|');
    Row {
        name: fields.next().unwrap_or(""),
        bytes: fields.next().unwrap_or(""),
        cut: fields.next().unwrap_or(""),
        piece: fields.next().unwrap_or(""),
        fails: fields.next().unwrap_or(""),
        sink: fields.next().unwrap_or(""),
        before: fields.next().unwrap_or(""),
        bell: fields.next().unwrap_or(""),
    }
}

/// The numbers of a list with blanks between them.
fn numbers(alloc: Global, text: &str) -> Result<Vec<u64>, AllocError> {
    let mut numbers = Vec::new(alloc);
    for word in text.split(' ') {
        if let Ok(number) = word.parse::<u64>() {
            numbers.push(number)?;
        }
    }
    Ok(numbers)
}

/// Serves the link of the line in each of its ways, and prints a row for each.
pub(crate) fn print_line<R: Print + Wait + Sync>(
    rt: &R,
    alloc: Global,
    config: &str,
    line: &str,
) -> Result<()> {
    let row = row_of(line);
    let bytes = spelled(alloc, row.bytes)?;
    let before = spelled(alloc, row.before)?;
    let sink = numbers(alloc, row.sink)?;
    let fails = numbers(alloc, row.fails)?;
    let case = Case {
        config,
        before: before.as_slice(),
        bytes: bytes.as_slice(),
        piece: row.piece.parse::<u32>().unwrap_or(0),
        fails: fails.as_slice(),
        sink: sink.as_slice(),
        is_heard: row.bell == "told",
    };
    if row.cut == "each" {
        return print_cuts(rt, alloc, row.name, case);
    }
    if row.fails.starts_with("each ") {
        return print_failures(rt, alloc, row.name, case);
    }
    let told = told_of(rt, alloc, &case)?;
    println!(rt; "{}|{}", row.name, told.as_str())?;
    Ok(())
}

/// Serves each number of the link's first bytes.
fn print_cuts<R: Print + Wait + Sync>(rt: &R, alloc: Global, name: &str, case: Case) -> Result<()> {
    for len in 0..=case.bytes.len() {
        let cut = Case {
            bytes: &case.bytes[..len],
            ..case
        };
        let told = told_of(rt, alloc, &cut)?;
        println!(rt; "{name}, {len} bytes|{}", told.as_str())?;
    }
    Ok(())
}

/// Serves the link with each call in turn that fails, up to the one that is listed.
fn print_failures<R: Print + Wait + Sync>(
    rt: &R,
    alloc: Global,
    name: &str,
    case: Case,
) -> Result<()> {
    let most = case.fails.first().copied().unwrap_or(0);
    for call in 1..=most {
        let fails = [call];
        let failing = Case {
            fails: &fails,
            ..case
        };
        let told = told_of(rt, alloc, &failing)?;
        println!(rt; "{name}, call {call} fails|{}", told.as_str())?;
    }
    Ok(())
}
