// Keepers of records in memory, and calls of theirs that fail.
use rg_base::Seq;
use rg_record_store::{FailingCall, MemKeeper};
use std::alloc::{AllocError, Global};
use std::str;

/// Puts a record behind the others.
pub fn add_record(
    records: &mut Vec<Seq<u8>>,
    alloc: Global,
    bytes: &[u8],
) -> Result<(), AllocError> {
    let record = Vec::from_slice(alloc, bytes)?;
    records.push(Seq::from_vec(record))?;
    Ok(())
}

/// The text of a record, or of what was printed.
pub fn text_of(bytes: &[u8]) -> &str {
    str::from_utf8(bytes).unwrap_or("no text")
}

/// A keeper of these records, none of whose calls fails.
pub fn keeper_of(alloc: Global, records: Vec<Seq<u8>>) -> MemKeeper {
    MemKeeper::new(Seq::from_vec(records), Seq::new(alloc))
}

/// A keeper without records, of whose calls this one fails.
pub fn failing_keeper(alloc: Global, call: FailingCall) -> Result<MemKeeper, AllocError> {
    let mut fails = Vec::new(alloc);
    fails.push(call)?;
    Ok(MemKeeper::new(Seq::new(alloc), Seq::from_vec(fails)))
}

/// A call of this number that fails without its record, and one that fails with it.
pub fn both_ways(number: u64) -> [FailingCall; 2] {
    [
        FailingCall {
            number,
            keeps: false,
        },
        FailingCall {
            number,
            keeps: true,
        },
    ]
}

/// Whether the call fails with its record or without it, in a word.
pub fn way_of(call: FailingCall) -> &'static str {
    if call.keeps { "with" } else { "without" }
}

/// Each of the calls before this number, failing both ways.
pub fn calls_before(alloc: Global, end: u64) -> Result<Vec<FailingCall>, AllocError> {
    let mut calls = Vec::new(alloc);
    for number in 1..end {
        calls.extend_from_slice(&both_ways(number))?;
    }
    Ok(calls)
}
