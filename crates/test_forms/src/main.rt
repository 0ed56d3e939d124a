// Forms in which texts are taken and given: what messages ask, how replies and decisions are answered, why lines of a script are bad,
// what the drill makes up. The rows of each table are printed, each with its answer behind it; those that begin with `#` are headings.
// Then come the answers to the rows about scripts, versions, streams, responses and questions (`readings.rt`).
#![tactic(auto)]

mod cells;
mod changes;
mod commands;
mod decisions;
mod drill;
mod fields;
mod lines;
mod messages;
mod questions;
mod readings;
mod replies;
mod responses;
mod scripts;
mod streams;

use anyhow::{Context, Result};
use rg_base::NoMemory;
use std::alloc::Global;
use std::fs;

/// A table, each of whose rows asks the same.
#[derive(Clone, Copy)]
enum Table {
    Routes,
    Replies,
    Printed,
    Decisions,
    Audits,
    Lines,
    Drill,
}

impl Table {
    fn file(self) -> &'static str {
        match self {
            Table::Routes => "routes.rows",
            Table::Replies => "replies.rows",
            Table::Printed => "printed.rows",
            Table::Decisions => "decisions.rows",
            Table::Audits => "audits.rows",
            Table::Lines => "lines.rows",
            Table::Drill => "drill.rows",
        }
    }

    /// The answer to a row of the table.
    fn answer(self, alloc: Global, row: &str) -> Result<String, NoMemory> {
        match self {
            Table::Routes => messages::asked(alloc, row),
            Table::Replies => replies::answered(alloc, row, false),
            Table::Printed => replies::answered(alloc, row, true),
            Table::Decisions => decisions::answered(alloc, row),
            Table::Audits => decisions::audited(alloc, row),
            Table::Lines => lines::told(alloc, row),
            Table::Drill => drill::made(alloc, row),
        }
    }
}

fn print_row(rt: &HostRuntime, table: Table, row: &str) -> Result<()> {
    if row.starts_with('#') {
        println!(rt; "{row}")?;
        return Ok(());
    }
    let answer = table.answer(rt.alloc(), row).ok();
    let answer = answer.context("memory was refused")?;
    println!(rt; "{row}{}", answer.as_str().trim())?;
    Ok(())
}

fn print_table(rt: &HostRuntime, table: Table) -> Result<()> {
    let text = fs::read_to_string(rt, table.file())?;
    for row in text.as_str().lines() {
        print_row(rt, table, row)?;
    }
    Ok(())
}

fn main(rt: HostRuntime) -> Result<()> {
    for table in [
        Table::Routes,
        Table::Replies,
        Table::Printed,
        Table::Decisions,
        Table::Audits,
        Table::Lines,
        Table::Drill,
    ] {
        print_table(&rt, table)?;
    }
    readings::print(&rt, "readings.rows")
}
