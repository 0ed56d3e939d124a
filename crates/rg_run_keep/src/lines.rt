// All lines of a script of a kept administration.
ghost use Rattle.std.specs.Prelude.{◌≡◌, ◌≤◌, ◌<◌, ◌^◌, ◌++◌, length, IfOk, OnErr, string_bytes};
ghost use Rattle.rg_run_keep.specs.Custody.{bad_record_text};
ghost use Rattle.rg_run_keep.specs.Stages.{CanEnd, CutOff, Ended, IsNamed};
ghost use Rattle.rg_run_script.specs.Hooked.{hooks_of};

use crate::stage::{KeepStop, Stage};
use rg_base::NoMemory;
use rg_hook::RequestHooks;
use rg_ports::Clock;
use rg_record_store::Keeper;
use rg_run_script::{Status, Worked, name_bad_line, split_line};
use std::alloc::Global;

/// Names the record behind the text.
#[tactic(auto, unfolding(crate::specs::Custody::bad_record_text))]
fn name_bad_record(mut text: String, place: u64) -> Result<Worked, NoMemory>
    ensures { IfOk result (λ worked. (worked.status ≡ Status.BadRecord)
        × (string_bytes worked.text ≡ string_bytes text ++ bad_record_text place)) }
{
    match writeln!(&mut text, "bad record {place}") {
        Ok(()) => Ok(Worked {
            text,
            status: Status::BadRecord,
        }),
        Err(_) => Err(NoMemory),
    }
}

/// What a script printed that stops at this line.
fn name_stop(text: String, number: u64, stop: KeepStop) -> Result<Worked, NoMemory>
    ensures { IfOk result
        (λ w. IsNamed stop number (string_bytes text) (string_bytes w.text) w.status) }
{
    match stop {
        KeepStop::Bad => name_bad_line(text, number),
        KeepStop::BadRecord(place) => name_bad_record(text, place),
        KeepStop::Failed => Ok(Worked {
            text,
            status: Status::KeepFault,
        }),
        KeepStop::NoMemory => Err(NoMemory),
    }
}

/// Works the lines of a script in order, each at the clock's next moment, up to the first bad one, which is named, or up to the
/// one at which the keeper failed or a bad record was found. The keeper comes back.
pub(crate) fn follow_kept<P: Keeper + Drop, C: Clock, H: RequestHooks>(
    alloc: Global,
    keeper: P,
    bytes: &[u8],
    clock: &mut C,
    hooks: &mut H,
) -> (P, Result<Worked, NoMemory>)
    requires { length bytes.now < 2 ^ 32 }
    ensures ended { IfOk result.1 (λ w. Ended
        (P.kept keeper) (P.kept result.0) (hooks_of (H.sinks hooks.old) (H.enrichers hooks.old))
        (hooks_of (H.sinks hooks.new) (H.enrichers hooks.new)) bytes.now
        (C.given clock.old) (C.given clock.new) (string_bytes w.text) w.status) }
    ensures ends { IfOk result.1 (λ w. CanEnd w.status) }
    ensures cut_off { OnErr result.1 (CutOff (P.kept keeper) (P.kept result.0)
        (hooks_of (H.sinks hooks.old) (H.enrichers hooks.old)) (hooks_of (H.sinks hooks.new)
        (H.enrichers hooks.new)) bytes.now (C.given clock.old) (C.given clock.new)) }
    ensures counted { P.faults keeper ≤ P.faults result.0 }
    ensures failed { IfOk result.1 (λ w. w.status ≡ Status.KeepFault
        → P.faults keeper < P.faults result.0) }
{
    let mut stage = Stage::Closed(keeper);
    let mut text = String::new(alloc);
    let mut rest = bytes;
    let mut number: u64 = 1;
    'lines: while !rest.is_empty() {
        let (line, more) = split_line(rest);
        let now = clock.now();
        let (next, worked) = stage.work(alloc, line, now, &mut text, hooks);
        stage = next;
        match worked {
            Ok(()) => {}
            Err(stop) => return (stage.into_keeper(), name_stop(text, number, stop)),
        }
        rest = more;
        number += 1;
    }
    let worked = Worked {
        text,
        status: Status::Done,
    };
    (stage.into_keeper(), Ok(worked))
}
