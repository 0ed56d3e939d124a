// From the bytes of a script to the text that names its bad lines.
ghost use Rattle.std.specs.Prelude.{◌≡◌, ◌⊎◌, ◌<◌, ◌^◌, [], List, IfOk, OnErr, length, string_bytes};
ghost use Rattle.rg_base.specs.declared.numbers.Moment.{Moment};
ghost use Rattle.rg_run_script.specs.Follow.{Comes, Decided, Output};
ghost use Rattle.rg_run_script.specs.Ports.{ports};
ghost use Rattle.rg_run_script.specs.Runs.{IsRun, OfStatus, Stands};
ghost use Rattle.rg_check.specs.Checking.{Finding, checked};

use crate::checker::Checker;
use crate::command::Command;
use rg_admin_laws::plugin_is_always_viewed;
use rg_base::NoMemory;
use rg_facts_check::sound_without_cause;
use rg_ports::{Clock, Sink, Source};
use rg_run_script::{Status, Worked, follow, read_script, write_all};
use rg_zones::zones_apart_by_pairs;
use std::alloc::Global;

/// Checks the lines of these bytes.
fn check_lines<C: Clock>(
    alloc: Global,
    command: Command,
    bytes: &[u8],
    clock: &mut C,
) -> Result<Worked, NoMemory>
    requires { length bytes.now < 2 ^ 32 }
    ensures done { IfOk result (λ w. (found : List Finding) × (decided : List Decided)
        × Comes _ (checked command) bytes.now (C.given clock.old) (C.given clock.new) []
        (record { text = string_bytes w.text; status = w.status; state = found; decided = decided })) }
    ensures ends { IfOk result (λ w. (w.status ≡ Status.Done) ⊎ (w.status ≡ Status.BadLine)) }
    ensures cut_off { OnErr result ((later : List Moment) × (output : Output (List Finding))
        × Comes _ (checked command) bytes.now (C.given clock.old) (C.given clock.new) later output) }
{
    plugin_is_always_viewed();
    sound_without_cause();
    zones_apart_by_pairs();
    let mut checker = Checker::new(command);
    let worked = match follow(alloc, &mut checker, bytes, clock) {
        Ok(worked) => worked,
        Err(refused) => return Err(refused),
    };
    let mut text = worked.text;
    match checker.finish(&mut text) {
        Ok(status) => Ok(Worked { text, status }),
        Err(refused) => Err(refused),
    }
}

/// Reads a script to its end, and then checks it.
fn check_script<S: Source, K: Sink, C: Clock>(
    alloc: Global,
    command: Command,
    source: &mut S,
    sink: &mut K,
    clock: &mut C,
) -> Status
    ensures { IsRun (Stands _ (checked command))
        (ports (S.left source.old) (S.ended source.old) (S.faults source.old) (C.given clock.old) (K.held sink.old) (K.faults sink.old))
        (ports (S.left source.new) (S.ended source.new) (S.faults source.new) (C.given clock.new) (K.held sink.new) (K.faults sink.new)) result }
{
    let bytes = match read_script(alloc, source, sink) {
        Ok(bytes) => bytes,
        Err(status) => return status,
    };
    match check_lines(alloc, command, bytes.as_slice(), clock) {
        Ok(worked) => match write_all(sink, worked.text.as_bytes()) {
            Ok(()) => worked.status,
            Err(_) => Status::WriteFault,
        },
        Err(_) => Status::NoMemory,
    }
}

/// Checks a script of the command, and answers the number of a status: 0 where no line is bad, 2 where some are, and else those
/// of `rangerd`.
pub fn check<S: Source, K: Sink, C: Clock>(
    alloc: Global,
    command: Command,
    source: &mut S,
    sink: &mut K,
    clock: &mut C,
) -> u8
    // Each status comes as `Stands` says: with Done and BadLine the sink got exactly the lines that name what is found in the
    // source's lines, which are bad exactly where the command's own step is None, after a failed write a prefix of them, and a
    // count of faults rose exactly where the status says so.
    ensures answers { OfStatus result (IsRun (Stands _ (checked command))
        (ports (S.left source.old) (S.ended source.old) (S.faults source.old) (C.given clock.old) (K.held sink.old) (K.faults sink.old))
        (ports (S.left source.new) (S.ended source.new) (S.faults source.new) (C.given clock.new) (K.held sink.new) (K.faults sink.new))) }
{
    check_script(alloc, command, source, sink, clock).number()
}
