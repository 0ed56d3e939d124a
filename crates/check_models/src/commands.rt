// Reads the commands of a table, one on each line, and prints of each `reads`, or the kind of its first fault and the path in quotes.
// Empty lines and those that begin with `#` are passed over.
use rg_cmd_wire::read_command;
use rg_json::{WireFault, WireKind};
use std::alloc::Global;
use std::rt::Files;
use std::{fs, io};

fn word(kind: WireKind) -> &'static str {
    match kind {
        WireKind::Syntax => "syntax",
        WireKind::Mistyped => "type",
        WireKind::Missing => "missing",
        WireKind::Range => "range",
    }
}

/// The fault of the command, None where it reads.
fn fault(alloc: Global, line: &str) -> Option<WireFault> {
    match read_command(alloc, line.as_bytes()) {
        Ok(command) => {
            drop(command);
            return None;
        }
        Err(fault) => return Some(fault),
    }
}

fn print_fault(rt: &impl Print, fault: &WireFault) -> io::Result<()> {
    match fault {
        WireFault::Bad { path, kind } => { println!(rt; "{} \"{}\"", word(*kind), path.as_str()) }
        WireFault::NoMemory => println!(rt; "memory was refused"),
    }
}

fn tell(rt: &impl Print, alloc: Global, line: &str) -> io::Result<()> {
    match fault(alloc, line) {
        Some(fault) => print_fault(rt, &fault),
        None => println!(rt; "reads"),
    }
}

/// Prints what comes of each command of the table.
pub(crate) fn print<R: Files + Print + AllocGlobal>(rt: &R, alloc: Global) -> io::Result<()> {
    let table = fs::read_to_string(rt, "commands.rows")?;
    for line in table.lines() {
        if !line.is_empty() && !line.starts_with('#') {
            tell(rt, alloc, line)?;
        }
    }
    Ok(())
}
