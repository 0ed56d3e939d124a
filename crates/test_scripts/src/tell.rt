// What is told of a run.
use crate::runs::Outcome;
use crate::table::Row;
use std::alloc::{AllocError, Global};
use test_tables::text_of;

/// The first line in which the texts differ, if they do. Where one ends, the other goes on.
fn tell_difference(told: &mut String, wanted: &str, given: &str) -> Result<(), AllocError> {
    let mut number = 0u64;
    let mut given = given.split('\n');
    for line in wanted.split('\n') {
        number = number.saturating_add(1);
        let other = given.next().unwrap_or("the end");
        if line != other {
            writeln!(told, "  line {number} wanted: {line}")?;
            return writeln!(told, "  line {number} given: {other}");
        }
    }
    match given.next() {
        Some(more) => writeln!(told, "  behind line {number} given: {more}"),
        None => Ok(()),
    }
}

/// The row's name, its status, how many bytes it printed, and whether that is as wanted; then, where the row asks for it, what the sinks hold.
pub(crate) fn told_of(
    alloc: Global,
    row: &Row,
    wanted: &[u8],
    outcome: &Outcome,
) -> Result<String, AllocError> {
    let name = row.name.as_str();
    let status = outcome.status;
    let printed = outcome.sink.held();
    let count = printed.len();
    let mut told = format!(in alloc; "{name}: status {status}, {count} bytes, ")?;
    if status == row.status && printed == wanted {
        told.push_str("as wanted\n")?;
    } else {
        let wanted_status = row.status;
        writeln!(told, "not as wanted\n  status wanted: {wanted_status}")?;
        tell_difference(&mut told, text_of(wanted), text_of(printed))?;
    }
    if row.tells_audit {
        told.push_str(outcome.audit.as_str())?;
    }
    Ok(told)
}
