// From words and the bytes of a script to the explanations of its decisions.
ghost use Rattle.std.specs.Prelude.{◌≡◌, None, map, string_bytes};
ghost use Rattle.rg_run_script.specs.Ports.{ports};
ghost use Rattle.rg_run_script.specs.Runs.{IsRun, OfStatus, Stands};
ghost use Rattle.rg_explain_script.specs.Ends.{Answers};
ghost use Rattle.rg_explain_script.specs.Explained.{explained};
ghost use Rattle.rg_explain_script.specs.Words.{options_of};

use crate::explaining::Explaining;
use crate::options::Options;
use crate::words::options_of;
use rg_ports::{Clock, Sink, Source};
use rg_run_script::{Status, work_script};
use std::alloc::Global;
use std::sync::Wait;

/// Explains a script by these options.
fn explain_by<S: Source, K: Sink, C: Clock, R: Wait>(
    rt: &R,
    alloc: Global,
    options: Options,
    source: &mut S,
    sink: &mut K,
    clock: &mut C,
) -> Status
    ensures { IsRun (Stands _ (explained options))
        (ports (S.left source.old) (S.ended source.old) (S.faults source.old) (C.given clock.old) (K.held sink.old) (K.faults sink.old))
        (ports (S.left source.new) (S.ended source.new) (S.faults source.new) (C.given clock.new) (K.held sink.new) (K.faults sink.new)) result }
{
    let mut explaining = Explaining::new(rt, options);
    let status = work_script(alloc, &mut explaining, source, sink, clock);
    drop(explaining);
    status
}

/// Explains a script as the words ask for, and answers the number of a status, which is that of the script's replay, or that of
/// words that ask for nothing.
pub fn explain<S: Source, K: Sink, C: Clock, R: Wait>(
    rt: &R,
    alloc: Global,
    words: &[String],
    source: &mut S,
    sink: &mut K,
    clock: &mut C,
) -> u8
    // Each status comes as `Answers` says: with Done and BadLine the sink got exactly the explanations of what the source's lines
    // decide, of all or of the one that is wanted, after a failed write a prefix of them, and a count of faults rose exactly where
    // the status says so.
    ensures answers { OfStatus result (IsRun (Answers (options_of (map string_bytes words.now)))
        (ports (S.left source.old) (S.ended source.old) (S.faults source.old) (C.given clock.old) (K.held sink.old) (K.faults sink.old))
        (ports (S.left source.new) (S.ended source.new) (S.faults source.new) (C.given clock.new) (K.held sink.new) (K.faults sink.new))) }
    // Words that ask for nothing leave all as it is.
    ensures refused { options_of (map string_bytes words.now) ≡ None → result ≡ 1 }
    ensures untouched { options_of (map string_bytes words.now) ≡ None →
        (source.new ≡ source.old) × (sink.new ≡ sink.old) × (clock.new ≡ clock.old) }
{
    match options_of(alloc, words) {
        Ok(Some(options)) => explain_by(rt, alloc, options, source, sink, clock).number(),
        Ok(None) => Status::Usage.number(),
        Err(_) => Status::NoMemory.number(),
    }
}
