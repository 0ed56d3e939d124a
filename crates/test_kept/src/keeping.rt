// What stands with a keeper, and what is reopened from it. The first line is a configuration, the others are asks. Each row tells how
// many asks were answered, how many records the keeper holds, and of the administration that is reopened from them how many commands
// are kept, how many policies and users there are, and the next id, or why it isn't reopened. There is a row for each call of a keeper
// in memory, with its record and without it, where that call fails; a call past the last fails nothing. There is one for each ask whose
// line is the record behind those of the asks before it, one for each record in whose place `{}` stands, and one for a database. Then
// come the records that all asks leave, and what lines of a script of a kept administration ask.
mod lines;
pub(crate) mod rows;

use anyhow::Result;
use lines::{LINES, line_row};
use rows::{Asked, database_row, failure_row, kept_by, spoiled_row, taken_row};
use std::alloc::{AllocError, Global};
use test_tables::{calls_before, text_of};

/// Past the last call of a run.
const MOST_CALLS: u64 = 40;

/// The rows of runs in which a call fails.
fn add_failures(rows: &mut Vec<String>, alloc: Global, asked: &Asked) -> Result<()> {
    for call in calls_before(alloc, MOST_CALLS)?.as_slice() {
        rows.push(failure_row(alloc, asked, *call)?)?;
    }
    Ok(())
}

/// The rows of asks that are taken for records.
fn add_taken(rows: &mut Vec<String>, alloc: Global, asked: &Asked) -> Result<()> {
    for place in 0..asked.asks.len() {
        rows.push(taken_row(alloc, asked, place)?)?;
    }
    Ok(())
}

/// The rows of records that are no asks.
fn add_spoiled(rows: &mut Vec<String>, alloc: Global, asked: &Asked) -> Result<()> {
    let keeper = kept_by(alloc, asked)?;
    for place in 0..keeper.records().len() {
        rows.push(spoiled_row(alloc, asked, keeper.records(), place)?)?;
    }
    Ok(())
}

/// The records that all asks leave.
fn add_records(rows: &mut Vec<String>, alloc: Global, asked: &Asked) -> Result<()> {
    let keeper = kept_by(alloc, asked)?;
    for record in keeper.records() {
        rows.push(String::from_str(alloc, text_of(record.as_slice()))?)?;
    }
    Ok(())
}

/// The rows of lines of a script.
fn add_lines(rows: &mut Vec<String>, alloc: Global) -> Result<()> {
    for line in LINES.split('\n') {
        rows.push(line_row(alloc, line)?)?;
    }
    Ok(())
}

/// The lines of a text.
pub(crate) fn lines_of<'a>(alloc: Global, text: &'a str) -> Result<Vec<&'a str>, AllocError> {
    let mut lines = Vec::new(alloc);
    for line in text.lines() {
        lines.push(line)?;
    }
    Ok(lines)
}

/// The rows of a text, whose first line is the configuration.
pub(crate) fn rows_of(alloc: Global, text: &str) -> Result<Vec<String>> {
    let lines = lines_of(alloc, text)?;
    let mut rows = Vec::new(alloc);
    let Some((config, asks)) = lines.as_slice().split_first() else {
        return Ok(rows);
    };
    let asked = Asked { config, asks };
    add_failures(&mut rows, alloc, &asked)?;
    add_taken(&mut rows, alloc, &asked)?;
    add_spoiled(&mut rows, alloc, &asked)?;
    rows.push(database_row(alloc, &asked)?)?;
    add_records(&mut rows, alloc, &asked)?;
    add_lines(&mut rows, alloc)?;
    Ok(rows)
}
