// A database in memory as a keeper: each row is a call, and what it answers.
use crate::keepers::database_in_memory;
use anyhow::Result;
use rg_record_store::Keeper;
use std::alloc::{AllocError, Global};
use test_tables::text_of;

/// The row of an append.
fn append_row<P: Keeper>(
    alloc: Global,
    keeper: &mut P,
    record: &str,
) -> Result<String, AllocError> {
    match keeper.append(alloc, record.as_bytes()) {
        Ok(()) => format!(in alloc; "append {record}: kept"),
        Err(fault) => format!(in alloc; "append {record}: {fault:?}"),
    }
}

/// The row of a look for the record at the place.
fn fetch_row<P: Keeper>(alloc: Global, keeper: &mut P, place: u64) -> Result<String, AllocError> {
    match keeper.fetch(alloc, place) {
        Ok(Some(record)) => {
            let text = text_of(record.as_slice());
            format!(in alloc; "fetch {place}: {text}")
        }
        Ok(None) => format!(in alloc; "fetch {place}: none"),
        Err(fault) => format!(in alloc; "fetch {place}: {fault:?}"),
    }
}

/// The rows: the database has no record at first, keeps two in their order, and has none past them.
pub(crate) fn rows_of(alloc: Global) -> Result<Vec<String>> {
    let mut keeper = database_in_memory(alloc)?;
    let mut rows = Vec::new(alloc);
    rows.push(fetch_row(alloc, &mut keeper, 0)?)?;
    for record in ["first", "{\"second\":2}"] {
        rows.push(append_row(alloc, &mut keeper, record)?)?;
    }
    for place in [0, 1, 2, u64::MAX] {
        rows.push(fetch_row(alloc, &mut keeper, place)?)?;
    }
    let failures = keeper.failures();
    rows.push(format!(in alloc; "failures: {failures}")?)?;
    Ok(rows)
}
