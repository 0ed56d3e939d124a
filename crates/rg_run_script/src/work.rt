// The work of a whole script.
ghost use Rattle.std.specs.Prelude.{◌≡◌, ◌⊎◌};
ghost use Rattle.rg_run_script.specs.Follow.{worked};
ghost use Rattle.rg_run_script.specs.Hooked.{hooked, hooks_of, with_enrichers};
ghost use Rattle.rg_run_script.specs.Ports.{ports};
ghost use Rattle.rg_run_script.specs.Runs.{EndsIn, IsRun, Stands, StandsHooked};

use crate::hooked::{HookedWorker, follow_hooked};
use crate::lines::{Worker, follow};
use crate::script::read_script;
use crate::status::Status;
use crate::writing::write_all;
use rg_hook::RequestHooks;
use rg_ports::{Clock, Sink, Source};
use std::alloc::Global;

/// Reads a script to its end, and then works it.
pub fn work_script<W: Worker, S: Source, K: Sink, C: Clock>(
    alloc: Global,
    worker: &mut W,
    source: &mut S,
    sink: &mut K,
    clock: &mut C,
) -> Status
    ensures run { IsRun (Stands _ (worked W.step worker.old 1))
        (ports (S.left source.old) (S.ended source.old) (S.faults source.old) (C.given clock.old) (K.held sink.old) (K.faults sink.old))
        (ports (S.left source.new) (S.ended source.new) (S.faults source.new) (C.given clock.new) (K.held sink.new) (K.faults sink.new)) result }
    ensures clock_stays { (result ≡ Status.ReadFault)
        ⊎ (result ≡ Status.TooLong) → clock.new ≡ clock.old }
    ensures ends_in { result ≡ Status.Done → EndsIn (worked W.step worker.old 1)
        (ports (S.left source.old) (S.ended source.old) (S.faults source.old) (C.given clock.old) (K.held sink.old) (K.faults sink.old))
        (ports (S.left source.new) (S.ended source.new) (S.faults source.new) (C.given clock.new) (K.held sink.new) (K.faults sink.new)) worker.new }
{
    let bytes = match read_script(alloc, source, sink) {
        Ok(bytes) => bytes,
        Err(status) => return status,
    };
    match follow(alloc, worker, bytes.as_slice(), clock) {
        Ok(worked) => match write_all(sink, worked.text.as_bytes()) {
            Ok(()) => worked.status,
            Err(_) => Status::WriteFault,
        },
        Err(_) => Status::NoMemory,
    }
}

/// Reads a script to its end, and then works it with these hooks. The text is written once all decisions are audited.
pub fn work_script_hooked<W: HookedWorker, S: Source, K: Sink, C: Clock, H: RequestHooks>(
    alloc: Global,
    worker: &mut W,
    source: &mut S,
    sink: &mut K,
    clock: &mut C,
    hooks: &mut H,
) -> Status
    ensures run { IsRun (StandsHooked _
        (worked (with_enrichers W.hooked_step) (hooked worker.old (H.enrichers hooks.old)) 1)
        (hooks_of (H.sinks hooks.old) (H.enrichers hooks.old)) (hooks_of (H.sinks hooks.new) (H.enrichers hooks.new)))
        (ports (S.left source.old) (S.ended source.old) (S.faults source.old) (C.given clock.old) (K.held sink.old) (K.faults sink.old))
        (ports (S.left source.new) (S.ended source.new) (S.faults source.new) (C.given clock.new) (K.held sink.new) (K.faults sink.new)) result }
    ensures unread { (result ≡ Status.Usage) ⊎ ((result ≡ Status.ReadFault)
        ⊎ (result ≡ Status.TooLong)) → (clock.new ≡ clock.old) × (hooks.new ≡ hooks.old) }
{
    let script = match read_script(alloc, source, sink) {
        Ok(script) => script,
        Err(status) => return status,
    };
    match follow_hooked(alloc, worker, script.as_slice(), clock, hooks) {
        Ok(worked) => match write_all(sink, worked.text.as_bytes()) {
            Ok(()) => worked.status,
            Err(_) => Status::WriteFault,
        },
        Err(_) => Status::NoMemory,
    }
}
