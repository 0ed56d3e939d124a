// A whole script of a kept administration.
ghost use Rattle.std.specs.Prelude.{◌≡◌, ◌⊎◌};
ghost use Rattle.rg_run_keep.specs.Custody.{Keeps, shelf};
ghost use Rattle.rg_run_script.specs.Hooked.{hooks_of};
ghost use Rattle.rg_run_script.specs.Ports.{ports};
ghost use Rattle.rg_run_script.specs.Runs.{IsRun};

use crate::lines::follow_kept;
use rg_hook::RequestHooks;
use rg_ports::{Clock, Sink, Source};
use rg_record_store::Keeper;
use rg_run_script::{Status, read_script, write_all};
use std::alloc::Global;

/// Reads a script to its end, and then works it over the keeper's records and with these hooks. The keeper comes back. The text
/// is written once all decisions are audited.
pub fn keep_script<P: Keeper + Drop, S: Source, K: Sink, C: Clock, H: RequestHooks>(
    alloc: Global,
    keeper: P,
    source: &mut S,
    sink: &mut K,
    clock: &mut C,
    hooks: &mut H,
) -> (P, Status)
    ensures run { IsRun (Keeps (shelf (P.kept keeper) (P.faults keeper))
        (shelf (P.kept result.0) (P.faults result.0))
        (hooks_of (H.sinks hooks.old) (H.enrichers hooks.old)) (hooks_of (H.sinks hooks.new) (H.enrichers hooks.new)))
        (ports (S.left source.old) (S.ended source.old) (S.faults source.old) (C.given clock.old) (K.held sink.old) (K.faults sink.old))
        (ports (S.left source.new) (S.ended source.new) (S.faults source.new) (C.given clock.new) (K.held sink.new) (K.faults sink.new)) result.1 }
    ensures unread { (result.1 ≡ Status.Usage) ⊎ ((result.1 ≡ Status.ReadFault)
        ⊎ (result.1 ≡ Status.TooLong)) → (clock.new ≡ clock.old) × (hooks.new ≡ hooks.old) }
{
    let bytes = match read_script(alloc, source, sink) {
        Ok(bytes) => bytes,
        Err(status) => return (keeper, status),
    };
    let (keeper, followed) = follow_kept(alloc, keeper, bytes.as_slice(), clock, hooks);
    match followed {
        Ok(worked) => match write_all(sink, worked.text.as_bytes()) {
            Ok(()) => (keeper, worked.status),
            Err(_) => (keeper, Status::WriteFault),
        },
        Err(_) => (keeper, Status::NoMemory),
    }
}
