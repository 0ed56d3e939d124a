// What a recorder keeps. The first line is a configuration, the others are asks. For each call of a keeper in memory, with its record and
// without it, a row tells what is answered where that call fails: of an administration that is kept, as in the rows of keeping; then what
// each ask is answered by one that tells a recorder, what stands in it at the end, how many records it has passed by or kept, and whether
// it takes more; and then what stands in one that follows those records. A row follows for each call of a keeper of all records, where
// that call fails while they are followed, and one for each time that a small file is opened.
mod recorder;
mod rows;

use crate::disk;
use crate::keeping::lines_of;
use crate::keeping::rows::Asked;
use anyhow::Result;
use rg_record_store::FailingCall;
use rows::{again_row, failing_row, file_row};
use std::alloc::Global;
use std::sync::Wait;
use test_tables::calls_before;

/// Past the last call of a run, and one more, which fails nothing.
const MOST_CALLS: u64 = 9;

/// The rows of runs in which a call fails.
fn add_failing<R: Wait>(
    rows: &mut Vec<String>,
    rt: &R,
    alloc: Global,
    asked: &Asked,
) -> Result<()> {
    for call in calls_before(alloc, MOST_CALLS)?.as_slice() {
        rows.push(failing_row(rt, alloc, asked, *call)?)?;
    }
    Ok(())
}

/// The rows of lists that are followed while a call fails.
fn add_again<R: Wait>(rows: &mut Vec<String>, rt: &R, alloc: Global, asked: &Asked) -> Result<()> {
    for number in 1..MOST_CALLS {
        let call = FailingCall {
            number,
            keeps: false,
        };
        rows.push(again_row(rt, alloc, asked, call)?)?;
    }
    Ok(())
}

/// The rows of a small file: of its first asks, of the others behind them, and of none.
fn add_file<R: Wait>(
    rows: &mut Vec<String>,
    host: &HostRuntime,
    rt: &R,
    asked: &Asked,
) -> Result<()> {
    disk::clear(host);
    for (first, end) in [(0, 4), (4, 9), (9, 9)] {
        let part = Asked {
            config: asked.config,
            asks: asked.asks.get(first..end).unwrap_or(asked.asks),
        };
        rows.push(file_row(host, rt, &part)?)?;
    }
    disk::clear(host);
    Ok(())
}

/// The rows of a text, whose first line is the configuration.
pub(crate) fn rows_of<R: Wait>(host: &HostRuntime, rt: &R, text: &str) -> Result<Vec<String>> {
    let alloc = host.alloc();
    let lines = lines_of(alloc, text)?;
    let mut rows = Vec::new(alloc);
    let Some((config, asks)) = lines.as_slice().split_first() else {
        return Ok(rows);
    };
    let asked = Asked { config, asks };
    add_failing(&mut rows, rt, alloc, &asked)?;
    add_again(&mut rows, rt, alloc, &asked)?;
    add_file(&mut rows, host, rt, &asked)?;
    Ok(rows)
}
