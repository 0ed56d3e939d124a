// Runs of `keep` over keepers in memory. The input is a script: a configuration, two commands that each make a policy, and more lines.
// Each row tells the status, how many records the keeper holds then, how many decisions were audited, and what was printed, with `~` for
// each LF. There is a row for the whole script, and one for each call of the keeper, with its record and without it, where that call
// fails; a call past the last fails nothing. Then the second append of the first lines fails, and another run goes on with that keeper.
// The last rows are of a keeper that holds `{}`.
mod runs;

use rg_record_store::{FailingCall, MemKeeper};
use runs::tell_run;
use std::alloc::{AllocError, Global};
use std::sync::Wait;
use std::thread::Threads;
use test_tables::{add_record, both_ways, calls_before, failing_keeper, keeper_of, way_of};

/// Past the last call of a keeper that fails nothing.
const MOST_CALLS: u64 = 38;

/// The call that is the second append of the first lines. The first call looks for a record, and finds none.
const SECOND_APPEND: u64 = 3;

/// What is asked of an administration that is opened again.
const AGAIN: &str = r#"reopen
admin root {"command":"listPolicies","service":"hive1"}
"#;

/// A keeper of the record `{}`, none of whose calls fails.
fn bad_keeper(alloc: Global) -> Result<MemKeeper, AllocError> {
    let mut records = Vec::new(alloc);
    add_record(&mut records, alloc, b"{}")?;
    Ok(keeper_of(alloc, records))
}

/// The first lines of the script, and then these.
fn with_first(alloc: Global, script: &str, count: usize, more: &str) -> Result<String, AllocError> {
    let mut text = String::new(alloc);
    for line in script.lines().take(count) {
        text.push_str(line)?;
        text.push('\n')?;
    }
    text.push_str(more)?;
    Ok(text)
}

/// A run over a keeper that doesn't fail.
fn whole_row<R: Threads + Wait + Sync>(
    rt: &R,
    alloc: Global,
    script: &str,
) -> Result<String, AllocError> {
    let mut told = String::from_str(alloc, "no call fails: ")?;
    let keeper = keeper_of(alloc, Vec::new(alloc));
    let keeper = tell_run(&mut told, rt, alloc, script, keeper)?;
    drop(keeper);
    Ok(told)
}

/// A run in which this call fails.
fn failure_row<R: Threads + Wait + Sync>(
    rt: &R,
    alloc: Global,
    script: &str,
    call: FailingCall,
) -> Result<String, AllocError> {
    let (number, way) = (call.number, way_of(call));
    let mut told = format!(in alloc; "call {number} fails {way} its record: ")?;
    let keeper = failing_keeper(alloc, call)?;
    let keeper = tell_run(&mut told, rt, alloc, script, keeper)?;
    drop(keeper);
    Ok(told)
}

/// The rows of runs in which a call fails.
fn add_failures<R: Threads + Wait + Sync>(
    rows: &mut Vec<String>,
    rt: &R,
    alloc: Global,
    script: &str,
) -> Result<(), AllocError> {
    for call in calls_before(alloc, MOST_CALLS)?.as_slice() {
        rows.push(failure_row(rt, alloc, script, *call)?)?;
    }
    Ok(())
}

/// The row of a run of the first lines in which the second append fails, and that of a run that goes on with its keeper.
fn add_second_append<R: Threads + Wait + Sync>(
    rows: &mut Vec<String>,
    rt: &R,
    alloc: Global,
    script: &str,
    call: FailingCall,
) -> Result<(), AllocError> {
    let way = way_of(call);
    let two = with_first(alloc, script, 3, "")?;
    let again = with_first(alloc, script, 1, AGAIN)?;
    let mut told = format!(in alloc; "the second append fails {way} its record: ")?;
    let keeper = failing_keeper(alloc, call)?;
    let keeper = tell_run(&mut told, rt, alloc, two.as_str(), keeper)?;
    rows.push(told)?;
    let mut told = String::from_str(alloc, "then another run: ")?;
    let keeper = tell_run(&mut told, rt, alloc, again.as_str(), keeper)?;
    drop(keeper);
    rows.push(told)?;
    Ok(())
}

/// A run over a keeper that holds `{}`.
fn bad_record_row<R: Threads + Wait + Sync>(
    rt: &R,
    alloc: Global,
    what: &str,
    script: &str,
) -> Result<String, AllocError> {
    let mut told = format!(in alloc; "{{}} is kept, and {what}: ")?;
    let keeper = tell_run(&mut told, rt, alloc, script, bad_keeper(alloc)?)?;
    drop(keeper);
    Ok(told)
}

/// The rows of runs over a keeper that holds `{}`.
fn add_bad_records<R: Threads + Wait + Sync>(
    rows: &mut Vec<String>,
    rt: &R,
    alloc: Global,
    script: &str,
) -> Result<(), AllocError> {
    let alone = with_first(alloc, script, 1, "")?;
    let more = with_first(alloc, script, 1, "hello\n")?;
    let early = with_first(alloc, "reopen", 1, alone.as_str())?;
    let ruled = "config {\"plugin\":\"nowhere\"}\n";
    for (what, script) in [
        ("the configuration is worked", alone.as_str()),
        ("a bad line follows", more.as_str()),
        ("the configuration breaks a rule", ruled),
        ("the first line is out of place", early.as_str()),
        ("there are blank lines alone", "# kept\n\n"),
    ] {
        rows.push(bad_record_row(rt, alloc, what, script)?)?;
    }
    Ok(())
}

/// The rows of a script.
pub(crate) fn rows_of<R: Threads + Wait + Sync>(
    rt: &R,
    alloc: Global,
    script: &str,
) -> Result<Vec<String>, AllocError> {
    let mut rows = Vec::new(alloc);
    rows.push(whole_row(rt, alloc, script)?)?;
    add_failures(&mut rows, rt, alloc, script)?;
    for call in both_ways(SECOND_APPEND) {
        add_second_append(&mut rows, rt, alloc, script, call)?;
    }
    add_bad_records(&mut rows, rt, alloc, script)?;
    Ok(rows)
}
