// Scripts that the checker works over ports in memory.
//
// `script|COMMAND|NAME|STATUS`: NAME.script is checked as one of the command, and NAME.output is what it has to get. Printed are whether
// the output and the status are as wanted, and what they are: the status and the number of lines.
use crate::fields::number;
use rg_base::{Moment, Seq};
use rg_check::{Command, check};
use rg_ports::{ListClock, MemSink, MemSource};
use std::alloc::{AllocError, Global};
use std::rt::Files;
use std::{fs, io};

/// The bytes of the file of this name and kind.
fn read<R: Files + AllocGlobal>(
    rt: &R,
    alloc: Global,
    name: &str,
    kind: &str,
) -> io::Result<Vec<u8>> {
    let path = format!(in alloc; "{name}.{kind}")?;
    fs::read(rt, path.as_str())
}

/// Checks the script; the answer is the status.
fn checked(
    alloc: Global,
    command: Command,
    script: Vec<u8>,
    sink: &mut MemSink,
) -> Result<u8, AllocError> {
    let moments = Vec::from_slice(alloc, &[Moment(0)])?;
    let mut source = MemSource::new(Seq::from_vec(script), Seq::new(alloc), Seq::new(alloc));
    let mut clock = ListClock::new(Seq::from_vec(moments));
    Ok(check(alloc, command, &mut source, sink, &mut clock))
}

fn line_count(output: &[u8]) -> u64 {
    let mut count = 0u64;
    for byte in output {
        if *byte == b'\n' {
            count = count.saturating_add(1);
        }
    }
    count
}

/// What came of the script of a row.
pub(crate) fn tell<R: Files + AllocGlobal>(rt: &R, alloc: Global, row: &str) -> io::Result<String> {
    let mut fields = row.split('|');
    let command = Command::named(fields.next().unwrap_or("")).unwrap_or(Command::Replay);
    let name = fields.next().unwrap_or("");
    let wanted_status = number(fields.next());
    let script = read(rt, alloc, name, "script")?;
    let wanted = read(rt, alloc, name, "output")?;
    let mut sink = MemSink::new(Seq::new(alloc), Seq::new(alloc), Seq::new(alloc));
    let status = checked(alloc, command, script, &mut sink)?;
    let is_wanted = u32::from(status) == wanted_status && sink.held() == wanted.as_slice();
    let word = if is_wanted {
        "as wanted"
    } else {
        "not as wanted"
    };
    let count = line_count(sink.held());
    Ok(format!(in alloc; "{name}: {word}, status {status}, {count} lines")?)
}
