// The program over the machine.
ghost use Rattle.std.specs.Prelude.{None, Some, map, string_bytes};
ghost use Rattle.std.specs.Process.{exit_status};
ghost use Rattle.rg_explain_script.specs.declared.options.Options as the;
ghost use Rattle.rg_explain_script.specs.Ends.{IsEndOf};
ghost use Rattle.rg_explain_script.specs.Words.{options_of};

use crate::program::explain;
use rg_ports::{StdSink, StdSource, WallClock};
use rg_run_script::Status;
use std::process::ExitCode;
use std::sync::Wait;

/// What `main` ends with where memory is refused before the words are read.
pub fn out_of_memory() -> ExitCode
    ensures { (options : the.Options) → IsEndOf (Some options) (exit_status result) }
{
    ExitCode::from(Status::NoMemory.number())
}

/// What `main` ends with where a word is no text, and so asks for nothing.
pub fn refused() -> ExitCode
    ensures { IsEndOf None (exit_status result) }
{
    ExitCode::from(Status::Usage.number())
}

/// Explains standard input on standard output, as the words ask for. The answer is what `main` ends with.
pub fn start(rt: &HostRuntime, waits: &impl Wait, words: &[String]) -> ExitCode
    ensures { IsEndOf (options_of (map string_bytes words.now)) (exit_status result) }
{
    let mut source = StdSource::new(rt.stdin());
    let mut sink = StdSink::new(rt.stdout());
    let mut clock = WallClock(*rt);
    let status = explain(waits, rt.alloc(), words, &mut source, &mut sink, &mut clock);
    ExitCode::from(status)
}
