// The bytes of a script, or what is told where there are none.
ghost use Rattle.std.specs.Prelude.{◌≡◌, ◌≤◌, ℕ, List, Option, true, false, length, IfOk, IfErr, OnOk};
ghost use Rattle.rg_base.specs.declared.numbers.Moment.{Moment};
ghost use Rattle.rg_run_script.specs.Limits.{is_too_long, limit};
ghost use Rattle.rg_run_script.specs.Ports.{ports};
ghost use Rattle.rg_run_script.specs.Runs.{IsRun, IsUnread};
ghost use Rattle.rg_run_script.specs.Streams.{IsAll};

use crate::reading::{Stop, read_all};
use crate::status::Status;
use crate::writing::write_all;
use rg_ports::{Sink, Source};
use std::alloc::Global;

/// All bytes of the source within the limits, or the status that the run ends with.
pub fn read_script<S: Source, K: Sink>(
    alloc: Global,
    source: &mut S,
    sink: &mut K,
) -> Result<Vec<u8>, Status>
    ensures ended { OnOk result (S.ended source.new ≡ true) }
    ensures all { IfOk result (λ bytes. IsAll (S.left source.old) bytes.items) }
    ensures within { IfOk result (λ bytes. length bytes.items ≤ limit) }
    ensures short { IfOk result (λ bytes. is_too_long bytes.items ≡ false) }
    ensures kept { OnOk result ((S.faults source.new ≡ S.faults source.old)
        × (sink.new ≡ sink.old)) }
    ensures unread { IfErr result (λ status. (given : Option (List Moment)) → IsRun IsUnread
        (ports (S.left source.old) (S.ended source.old) (S.faults source.old) given (K.held sink.old) (K.faults sink.old))
        (ports (S.left source.new) (S.ended source.new) (S.faults source.new) given (K.held sink.new) (K.faults sink.new)) status) }
{
    match read_all(alloc, source) {
        Ok(bytes) => Ok(bytes),
        Err(Stop::Fault) => Err(Status::ReadFault),
        Err(Stop::NoMemory) => Err(Status::NoMemory),
        Err(Stop::TooLong) => match write_all(sink, b"too long\n") {
            Ok(()) => Err(Status::TooLong),
            Err(_) => Err(Status::WriteFault),
        },
    }
}
