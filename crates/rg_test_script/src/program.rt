// From the bytes of a script to what its tests come to.
ghost use Rattle.std.specs.Prelude.{◌≡◌, ◌⊎◌, ◌<◌, ◌^◌, List, [], IfOk, None, OnErr, Option, Some, length, map, string_bytes};
ghost use Rattle.std.specs.Process.{exit_status};
ghost use Rattle.rg_base.specs.declared.numbers.Moment.{Moment};
ghost use Rattle.rg_run_script.specs.Follow.{Comes, Decided, Output};
ghost use Rattle.rg_run_script.specs.Ports.{ports};
ghost use Rattle.rg_run_script.specs.Runs.{IsRun, OfStatus, Stands};
ghost use Rattle.rg_test_script.specs.CommandLine.{form_of};
ghost use Rattle.rg_test_script.specs.Ends.{IsEnd};
ghost use Rattle.rg_test_script.specs.Testing.{Progress, begins, ended_by, framed, tested};
ghost use Rattle.rg_test_script.specs.declared.form.Form as the;

use crate::command::form_of;
use crate::form::Form;
use crate::testing::Testing;
use rg_base::NoMemory;
use rg_ports::{Clock, Sink, Source, StdSink, StdSource, WallClock};
use rg_run_script::{Status, Worked, follow, read_script, write_all};
use std::alloc::Global;
use std::process::ExitCode;
use std::sync::Wait;

/// What the lines printed, between the top and the summary, and the status of their tests.
fn finish<R: Wait>(alloc: Global, testing: &Testing<R>, worked: Worked) -> Result<Worked, NoMemory>
    ensures text { IfOk result
        (λ w. string_bytes w.text ≡ framed testing.now worked.status (string_bytes worked.text)) }
    ensures status { IfOk result (λ w. w.status ≡ ended_by testing.now worked.status) }
{
    let text = testing.framed(alloc, worked.status, worked.text.as_str())?;
    let status = testing.ended(worked.status);
    Ok(Worked { text, status })
}

/// Tests the lines of a script, of which none is worked yet.
fn work_lines<C: Clock, R: Wait>(
    alloc: Global,
    testing: &mut Testing<R>,
    bytes: &[u8],
    clock: &mut C,
) -> Result<Worked, NoMemory>
    requires { length bytes.now < 2 ^ 32 }
    ensures done { (form : the.Form) → testing.old ≡ begins form
        → IfOk result (λ w. (state : Progress) × (decided : List Decided)
        × Comes _ (tested form) bytes.now (C.given clock.old) (C.given clock.new) []
        (record { text = string_bytes w.text; status = w.status; state = state; decided = decided })) }
    ensures ends { IfOk result (λ w. (w.status ≡ Status.Done) ⊎ (w.status ≡ Status.BadLine)) }
    ensures cut_off { (form : the.Form) → testing.old ≡ begins form
        → OnErr result ((later : List Moment) × (output : Output Progress)
        × Comes _ (tested form) bytes.now (C.given clock.old) (C.given clock.new) later output) }
{
    let worked = match follow(alloc, testing, bytes, clock) {
        Ok(worked) => worked,
        Err(refused) => return Err(refused),
    };
    match finish(alloc, testing, worked) {
        Ok(worked) => Ok(worked),
        Err(refused) => Err(refused),
    }
}

/// Tests the lines of a script.
fn test_lines<C: Clock, R: Wait>(
    rt: &R,
    alloc: Global,
    form: Form,
    bytes: &[u8],
    clock: &mut C,
) -> Result<Worked, NoMemory>
    requires { length bytes.now < 2 ^ 32 }
    ensures done { IfOk result (λ w. (state : Progress) × (decided : List Decided)
        × Comes _ (tested form) bytes.now (C.given clock.old) (C.given clock.new) []
        (record { text = string_bytes w.text; status = w.status; state = state; decided = decided })) }
    ensures ends { IfOk result (λ w. (w.status ≡ Status.Done) ⊎ (w.status ≡ Status.BadLine)) }
    ensures cut_off { OnErr result ((later : List Moment) × (output : Output Progress)
        × Comes _ (tested form) bytes.now (C.given clock.old) (C.given clock.new) later output) }
{
    let mut testing = Testing::new(rt, form);
    let worked = work_lines(alloc, &mut testing, bytes, clock);
    drop(testing);
    worked
}

/// Reads a script to its end, and then tests it.
fn test_script<S: Source, K: Sink, C: Clock, R: Wait>(
    rt: &R,
    alloc: Global,
    form: Form,
    source: &mut S,
    sink: &mut K,
    clock: &mut C,
) -> Status
    ensures { IsRun (Stands _ (tested form))
        (ports (S.left source.old) (S.ended source.old) (S.faults source.old) (C.given clock.old) (K.held sink.old) (K.faults sink.old))
        (ports (S.left source.new) (S.ended source.new) (S.faults source.new) (C.given clock.new) (K.held sink.new) (K.faults sink.new)) result }
{
    let bytes = match read_script(alloc, source, sink) {
        Ok(bytes) => bytes,
        Err(status) => return status,
    };
    match test_lines(rt, alloc, form, bytes.as_slice(), clock) {
        Ok(worked) => match write_all(sink, worked.text.as_bytes()) {
            Ok(()) => worked.status,
            Err(_) => Status::WriteFault,
        },
        Err(_) => Status::NoMemory,
    }
}

/// Tests a script in the form that the words ask for, and answers the number of a status: 0 where all expectations were met and there
/// was one, 2 where some weren't or a line is bad, and else those of `rangerd`.
pub fn test<S: Source, K: Sink, C: Clock, R: Wait>(
    rt: &R,
    alloc: Global,
    words: &[String],
    source: &mut S,
    sink: &mut K,
    clock: &mut C,
) -> u8
    // Each status comes as `Stands` says: with Done and BadLine the sink got exactly what the tests of the source's lines come to,
    // after a failed write a prefix of it, and a count of faults rose exactly where the status says so.
    ensures answers { (form : the.Form) → form_of (map string_bytes words.now) ≡ Some form
        → OfStatus result (IsRun (Stands _ (tested form))
        (ports (S.left source.old) (S.ended source.old) (S.faults source.old) (C.given clock.old) (K.held sink.old) (K.faults sink.old))
        (ports (S.left source.new) (S.ended source.new) (S.faults source.new) (C.given clock.new) (K.held sink.new) (K.faults sink.new))) }
    ensures usage { form_of (map string_bytes words.now) ≡ None → result ≡ 1 }
    ensures untouched { form_of (map string_bytes words.now) ≡ None
        → (source.new ≡ source.old) × (sink.new ≡ sink.old) × (clock.new ≡ clock.old) }
{
    match form_of(alloc, words) {
        Ok(Some(form)) => test_script(rt, alloc, form, source, sink, clock).number(),
        Ok(None) => Status::Usage.number(),
        Err(_) => Status::NoMemory.number(),
    }
}

/// What `main` ends with where a word asks for no form, as one that isn't UTF-8.
pub fn refused() -> ExitCode
    ensures { IsEnd None (exit_status result) }
{
    ExitCode::from(Status::Usage.number())
}

/// What `main` ends with where memory is refused before the words are read.
pub fn out_of_memory() -> ExitCode
    ensures { (form : the.Form) → IsEnd (Some form) (exit_status result) }
{
    ExitCode::from(Status::NoMemory.number())
}

/// Tests standard input on standard output. The answer is what `main` ends with.
pub fn start(rt: &HostRuntime, waits: &impl Wait, words: &[String]) -> ExitCode
    ensures { IsEnd (form_of (map string_bytes words.now)) (exit_status result) }
{
    let mut source = StdSource::new(rt.stdin());
    let mut sink = StdSink::new(rt.stdout());
    let mut clock = WallClock(*rt);
    let status = test(waits, rt.alloc(), words, &mut source, &mut sink, &mut clock);
    ExitCode::from(status)
}
