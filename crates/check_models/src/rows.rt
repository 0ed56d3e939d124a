// Tables of single facts. A row is a word and what is asked, with a `|` between; it is printed with its answer. Empty lines and those
// that begin with `#` are printed as they are.
mod asked;
mod deltas;
mod engines;
mod texts;
mod zones;

use anyhow::{Result, anyhow};
use deltas::DeltaTable;
use engines::EngineTable;
use rg_base::NoMemory;
use std::alloc::{AllocError, Global};
use std::rt::Files;
use std::{fs, io};
use texts::TextTable;
use zones::ZoneTable;

/// What answers the rows of a table.
trait Table {
    /// The answer; none where memory is refused, or the row is none of the table's.
    fn answer(&mut self, alloc: Global, word: &str, asked: &str) -> Result<String, NoMemory>;
}

fn yes_or_no(is_so: bool) -> &'static str {
    if is_so { "yes" } else { "no" }
}

/// The row with its answer.
fn told<T: Table>(alloc: Global, table: &mut T, row: &str) -> Result<String, AllocError> {
    if row.is_empty() || row.starts_with('#') {
        return String::from_str(alloc, row);
    }
    let (word, asked) = row.split_once('|').unwrap_or((row, ""));
    match table.answer(alloc, word, asked) {
        Ok(answer) => format!(in alloc; "{row} -> {answer}"),
        Err(_) => format!(in alloc; "{row} -> no answer"),
    }
}

fn print_rows<T: Table>(
    rt: &impl Print,
    alloc: Global,
    rows: &str,
    table: &mut T,
) -> io::Result<()> {
    for row in rows.lines() {
        let told = told(alloc, table, row)?;
        println!(rt; "{}", told.as_str())?;
    }
    Ok(())
}

/// Prints the rows of the file of this name.
fn print_table<T: Table + Drop, R: Files + Print + AllocGlobal>(
    rt: &R,
    alloc: Global,
    name: &str,
    table: Result<T, NoMemory>,
) -> Result<()> {
    let Ok(mut table) = table else {
        return Err(anyhow!("memory was refused"));
    };
    let rows = fs::read_to_string(rt, name)?;
    print_rows(rt, alloc, rows.as_str(), &mut table)?;
    Ok(())
}

/// Prints the rows of all tables.
pub(crate) fn print<R: Files + Print + AllocGlobal>(rt: &R, alloc: Global) -> Result<()> {
    print_table(rt, alloc, "zones.rows", ZoneTable::start(alloc))?;
    print_table(rt, alloc, "texts.rows", TextTable::start(alloc))?;
    print_table(rt, alloc, "deltas.rows", Ok(DeltaTable))?;
    print_table(rt, alloc, "engines.rows", Ok(EngineTable::start()))
}
