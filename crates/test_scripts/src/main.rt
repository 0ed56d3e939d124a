// Runs the program over ports in memory. Each line of the table, but a blank one and one that begins with `#`, is a run:
//
//     NAME STATUS WORD..
//
// NAME.script is the script, NAME.output what is to be printed, and STATUS what the run is to end with. A file that isn't there is empty.
// Words of the form KEY=VALUE are settings of the run (table.rt), the others those of the command line. Printed is a line for each run: its
// status, how many bytes it printed, and whether both are as wanted. Where they aren't, the lines behind it say what was wanted. A run that
// asks for it has lines of what its workers' audit sinks hold. Behind these stand runs of `keep` with the script `kept.script` over keepers
// in memory (kept.rt), and runs of `serve` with links in memory (serving.rt), which begin with the configuration of `administration.script`.
#![tactic(auto)]

mod hooks;
mod kept;
mod runs;
mod serving;
mod table;
mod tell;

use anyhow::Result;
use std::alloc::Global;
use std::io::ErrorKind;
use std::rt::Files;
use std::sync::Wait;
use std::thread::Threads;
use std::{fs, io};
use table::{Row, Script};

/// The bytes of a file in the folder that this runs in; none where there is no such file.
fn bytes_of<R: Files + AllocGlobal>(rt: &R, name: &str, ending: &str) -> io::Result<Vec<u8>> {
    let path = format!(in rt.alloc(); "{name}.{ending}")?;
    match fs::read(rt, path.as_str()) {
        Err(error) if error.kind() == ErrorKind::NotFound => Ok(Vec::new(rt.alloc())),
        read => read,
    }
}

/// The bytes of the row's script.
fn script_of<R: Files + AllocGlobal>(rt: &R, script: &Script) -> io::Result<Vec<u8>> {
    match script {
        Script::Stored(name) => bytes_of(rt, name.as_str(), "script"),
        Script::Hashes(count) => Ok(vec![in rt.alloc(); b'#'; *count]?),
    }
}

/// Runs the row, and tells how it ended.
fn run_line<R: Files + AllocGlobal + Threads + Wait + Sync>(rt: &R, line: &str) -> Result<String> {
    let alloc = rt.alloc();
    let row = Row::read(alloc, line)?;
    let script = script_of(rt, &row.script)?;
    let wanted = bytes_of(rt, row.name.as_str(), "output")?;
    let outcome = runs::run_row(rt, alloc, &row, script)?;
    Ok(tell::told_of(alloc, &row, wanted.as_slice(), &outcome)?)
}

/// The line of a script that has its configuration; nothing where none has.
fn config_in(script: &str) -> &str {
    for line in script.lines() {
        if line.starts_with("config ") {
            return line;
        }
    }
    ""
}

/// Runs `keep` with this script over keepers that fail.
fn print_kept<R: Print + Threads + Wait + Sync>(rt: &R, alloc: Global, script: &str) -> Result<()> {
    println!(rt; "== keeping")?;
    for row in kept::rows_of(rt, alloc, script)?.as_slice() {
        println!(rt; "{}", row.as_str())?;
    }
    Ok(())
}

/// Runs `serve` for each of these rows.
fn print_served<R: Print + Threads + Wait + Sync>(
    rt: &R,
    alloc: Global,
    config: &str,
    rows: &str,
) -> Result<()> {
    println!(rt; "== serving")?;
    for line in rows.lines() {
        if !line.is_empty() && !line.starts_with('#') {
            serving::print_line(rt, alloc, config, line)?;
        }
    }
    Ok(())
}

fn main(rt: HostRuntime) -> Result<()> {
    let table = io::read_to_string(rt.alloc(), rt.stdin())?;
    for line in table.lines() {
        if !line.is_empty() && !line.starts_with('#') {
            print!(rt; "{}", run_line(&rt, line)?.as_str())?;
        }
    }
    let script = fs::read_to_string(&rt, "kept.script")?;
    print_kept(&rt, rt.alloc(), script.as_str())?;
    let script = fs::read_to_string(&rt, "administration.script")?;
    let rows = fs::read_to_string(&rt, "serving.rows")?;
    print_served(&rt, rt.alloc(), config_in(script.as_str()), rows.as_str())
}
