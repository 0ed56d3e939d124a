// What is answered for the rows of a table: by the checker for scripts, by a full log for versions, and by the framer and
// the client for streams of bytes; with them the bytes of responses. A row is a word with fields behind it, each after a `|`; any other line is printed as it is.
use crate::changes::{Change, noted};
use crate::{changes, questions, responses, scripts, streams};
use anyhow::{Context, Result};
use rg_delta::DeltaLog;
use std::alloc::Global;
use std::rt::Files;
use std::{fs, io};

/// How many changes the log notes.
const CHANGES: u64 = 1999;

/// What is printed for a row.
fn answer<R: Files + AllocGlobal>(
    rt: &R,
    alloc: Global,
    log: &DeltaLog<Change>,
    row: &str,
) -> io::Result<String> {
    match row.split_once('|') {
        Some(("script", fields)) => scripts::tell(rt, alloc, fields),
        Some(("changes", from)) => Ok(changes::tell(alloc, log, from)?),
        Some(("stream", fields)) => Ok(streams::tell(alloc, fields)?),
        Some(("response", fields)) => Ok(responses::tell(alloc, fields)?),
        Some(("question", fields)) => Ok(questions::tell(alloc, fields)?),
        _ => Ok(String::from_str(alloc, row)?),
    }
}

/// Prints the answers to the rows of the file.
pub(crate) fn print(rt: &HostRuntime, file: &str) -> Result<()> {
    let log = noted(rt.alloc(), CHANGES).ok();
    let log = log.context("memory was refused")?;
    let text = fs::read_to_string(rt, file)?;
    for row in text.as_str().lines() {
        let told = answer(rt, rt.alloc(), &log, row)?;
        println!(rt; "{}", told.as_str())?;
    }
    Ok(())
}
