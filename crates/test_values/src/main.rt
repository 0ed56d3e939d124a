// Rows about the libraries that the others stand on: texts and lists, ports, patterns, tries, roles, records, definitions, conditions,
// schedules and hooks. Each table is a file of its own. A line of it that begins with `#` is a comment; one that begins with `given|` is
// what the rows stand on; each other line is a row, whose first field says what is asked. Printed are the comments, and
// each row with its answer.
#![tactic(auto)]

mod basics;
mod conditions;
mod definitions;
mod enriching;
mod machine;
mod many_edits;
mod patterns;
mod ports;
mod records;
mod roles;
mod rows;
mod schedules;
mod shown;
mod sinks;
mod tries;

use rg_base::NoMemory;
use std::{fs, io};

/// How the line begins that says what the rows stand on.
const GIVEN: &str = "given|";

#[derive(Clone, Copy)]
enum Table {
    Basics,
    Ports,
    Machine,
    Patterns,
    Tries,
    Roles,
    Records,
    Definitions,
    Schedules,
    Conditions,
    Sinks,
    Enriching,
}

const TABLES: [Table; 12] = [
    Table::Basics,
    Table::Ports,
    Table::Machine,
    Table::Patterns,
    Table::Tries,
    Table::Roles,
    Table::Records,
    Table::Definitions,
    Table::Schedules,
    Table::Conditions,
    Table::Sinks,
    Table::Enriching,
];

fn file_of(table: Table) -> &'static str {
    match table {
        Table::Basics => "basics.rows",
        Table::Ports => "ports.rows",
        Table::Machine => "machine.rows",
        Table::Patterns => "patterns.rows",
        Table::Tries => "tries.rows",
        Table::Roles => "roles.rows",
        Table::Records => "records.rows",
        Table::Definitions => "definitions.rows",
        Table::Schedules => "schedules.rows",
        Table::Conditions => "conditions.rows",
        Table::Sinks => "sinks.rows",
        Table::Enriching => "enriching.rows",
    }
}

/// The answer to a row.
fn answer(rt: &HostRuntime, table: Table, given: &str, row: &str) -> Result<String, NoMemory> {
    let alloc = rt.alloc();
    match table {
        Table::Basics => basics::answer(alloc, row),
        Table::Ports => ports::answer(alloc, row),
        Table::Machine => machine::answer(rt, row),
        Table::Patterns => patterns::answer(alloc, row),
        Table::Tries => tries::answer(alloc, row),
        Table::Roles => roles::answer(alloc, row),
        Table::Records => records::answer(alloc, row),
        Table::Definitions => definitions::answer(alloc, given, row),
        Table::Schedules => schedules::answer(alloc, given, row),
        Table::Conditions => conditions::answer(alloc, given, row),
        Table::Sinks => sinks::answer(alloc, row),
        Table::Enriching => enriching::answer(alloc, row),
    }
}

fn work_line(rt: &HostRuntime, table: Table, given: &str, line: &str) -> io::Result<()> {
    if line.starts_with('#') {
        return println!(rt; "{line}");
    }
    match answer(rt, table, given, line) {
        Ok(told) => println!(rt; "{line} = {}", told.as_str()),
        Err(NoMemory) => println!(rt; "{line} = no memory"),
    }
}

/// What the rows of a table stand on; nothing where no line says it.
fn given_in(text: &str) -> &str {
    for line in text.lines() {
        if let Some(given) = line.strip_prefix(GIVEN) {
            return given;
        }
    }
    ""
}

fn work_table(rt: &HostRuntime, table: Table) -> io::Result<()> {
    let text = fs::read_to_string(rt, file_of(table))?;
    let given = given_in(text.as_str());
    for line in text.lines() {
        if !line.starts_with(GIVEN) {
            work_line(rt, table, given, line)?;
        }
    }
    Ok(())
}

fn main(rt: HostRuntime) -> io::Result<()> {
    for table in TABLES {
        work_table(&rt, table)?;
    }
    Ok(())
}
