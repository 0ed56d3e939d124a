// The program over the machine.
ghost use Rattle.std.specs.Prelude.{None, Some, map, string_bytes};
ghost use Rattle.std.specs.Process.{exit_status};
ghost use Rattle.rg_check.specs.declared.command.Command as the;
ghost use Rattle.rg_check.specs.Commands.{command_of};
ghost use Rattle.rg_check.specs.Ends.{IsEndOf};

use crate::command::{Command, command_of};
use crate::program::check;
use rg_ports::{StdSink, StdSource, WallClock};
use rg_run_script::Status;
use std::process::ExitCode;

/// What `main` ends with where memory is refused before the words are read.
pub fn out_of_memory() -> ExitCode
    ensures { (command : the.Command) → IsEndOf (Some command) (exit_status result) }
{
    ExitCode::from(Status::NoMemory.number())
}

/// What `main` ends with where a word is no text, and so asks for nothing.
pub fn refused() -> ExitCode
    ensures { IsEndOf None (exit_status result) }
{
    ExitCode::from(Status::Usage.number())
}

/// Checks standard input as a script of this command.
fn start_as(rt: &HostRuntime, command: Command) -> ExitCode
    ensures { IsEndOf (Some command) (exit_status result) }
{
    let mut source = StdSource::new(rt.stdin());
    let mut sink = StdSink::new(rt.stdout());
    let mut clock = WallClock(*rt);
    let status = check(rt.alloc(), command, &mut source, &mut sink, &mut clock);
    ExitCode::from(status)
}

/// Checks standard input as a script of the command that the words ask for, and names its bad lines on standard output. The
/// answer is what `main` ends with.
pub fn start(rt: &HostRuntime, words: &[String]) -> ExitCode
    ensures { IsEndOf (command_of (map string_bytes words.now)) (exit_status result) }
{
    match command_of(words) {
        Some(command) => start_as(rt, command),
        None => refused(),
    }
}
