// Tables of what threads share, each row with what it left: bells, queues and clocks, turns, publications, services and links. All
// are in memory.
//
// With no word all tables are worked in turn, each under its name. A word names one table that is worked alone; `links` then takes
// its rows from the file that a second word names, or from standard input. The file `hive.json` has the configuration of the
// administrations. Lines of rows that are blank or begin with `#` are passed over.
#![tactic(auto)]

mod administration;
mod callers;
mod creators;
mod granters;
mod links;
mod lists;
mod passes;
mod printing;
mod publications;
mod service;
mod sharing;
mod turns;

use anyhow::{Result, anyhow};
use std::alloc::Global;
use std::sync::Wait;
use std::thread::Threads;
use std::{env, fs, io};

/// The tables in their order.
const TABLES: [&str; 7] = [
    "sharing",
    "turns",
    "creators",
    "granters",
    "publications",
    "passes",
    "links",
];

/// Works the table of links, which has these rows.
fn print_links<R: Print + Wait + Sync>(
    rt: &R,
    alloc: Global,
    config: &str,
    rows: &str,
) -> Result<()> {
    for line in rows.lines() {
        if !line.is_empty() && !line.starts_with('#') {
            links::print_line(rt, alloc, config, line)?;
        }
    }
    Ok(())
}

/// Works one table; that of links has these rows.
fn print_table<R: Print + Threads + Wait + Sync>(
    rt: &R,
    alloc: Global,
    config: &str,
    table: &str,
    rows: &str,
) -> Result<()> {
    match table {
        "sharing" => sharing::print(rt, alloc),
        "turns" => turns::print(rt, alloc),
        "creators" => creators::print(rt, alloc, config),
        "granters" => granters::print(rt, alloc, config),
        "publications" => publications::print(rt, alloc),
        "passes" => passes::print(rt, alloc, config),
        "links" => print_links(rt, alloc, config, rows),
        _ => Err(anyhow!("no table has this name")),
    }
}

/// Works all tables, each under its name.
fn print_all<R: Print + Threads + Wait + Sync>(
    rt: &R,
    alloc: Global,
    config: &str,
    links: &str,
) -> Result<()> {
    for table in TABLES {
        println!(rt; "== {table}")?;
        print_table(rt, alloc, config, table, links)?;
    }
    Ok(())
}

/// The rows of links: those of the file, or of standard input where none is named. None where it is another table.
fn rows_of(rt: &HostRuntime, table: &str, file: Option<String>) -> Result<String> {
    if table != "links" {
        return Ok(String::new(rt.alloc()));
    }
    match file {
        Some(file) => Ok(fs::read_to_string(rt, file.as_str())?),
        None => Ok(io::read_to_string(rt.alloc(), rt.stdin())?),
    }
}

fn main(rt: HostRuntime) -> Result<()> {
    let alloc = rt.alloc();
    let config = fs::read_to_string(&rt, "hive.json")?;
    let mut words = env::args(&rt)?.skip(1);
    if let Some(table) = words.next() {
        let rows = rows_of(&rt, table.as_str(), words.next())?;
        return print_table(&rt, alloc, config.as_str(), table.as_str(), rows.as_str());
    }
    let links = fs::read_to_string(&rt, "links.rows")?;
    print_all(&rt, alloc, config.as_str(), links.as_str())
}
