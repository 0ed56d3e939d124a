// A script that is checked line by line.
ghost use Rattle.std.specs.Prelude.{◌≡◌, ◌++◌, IfOk, OnOk, string_bytes};
ghost use Rattle.rg_run_script.specs.Follow.{IsWorked};
ghost use Rattle.rg_check.specs.Causes.{cause_text};
ghost use Rattle.rg_check.specs.Checking.{finding_line, is_bad_end};
ghost use Rattle.rg_check.specs.Walking.{begins, check_step, end_told, ending, status_after};

use crate::command::Command;
use crate::kind::{LineKind, place_after};
use crate::reasons::{Seen, look};
use crate::words::{cause_words, end_words};
use rg_base::{Moment, NoMemory};
use rg_run_script::{Status, Worker};
use rg_script::{Cause, LineFault, Place};
use std::alloc::Global;

/// How far a script is checked.
#[derive(Clone, Copy)]
pub(crate) struct Checker {
    /// Whose script it is.
    pub command: Command,
    /// Where the next line stands.
    pub place: Place,
    /// Its number. The first line has 1; the number stands still at the last `u64`.
    pub number: u64,
    /// Whether a line was bad.
    pub found: bool,
}

/// Adds the line that names a bad line and its cause.
#[tactic(auto, unfolding(crate::specs::Checking::finding_line))]
fn add_finding(text: &mut String, number: u64, why: &str) -> Result<(), NoMemory>
    ensures { OnOk result (string_bytes text.new
        ≡ string_bytes text.old ++ finding_line number why.now) }
{
    match writeln!(text, "line {number}: {why}") {
        Ok(()) => Ok(()),
        Err(_) => Err(NoMemory),
    }
}

/// Whether the end of the lines is bad in this place.
fn is_bad_end(command: Command, place: Place) -> bool
    ensures { result ≡ is_bad_end command place }
{
    match command {
        Command::Serve => match place {
            Place::Start => true,
            Place::Facts | Place::Config => false,
        },
        Command::Replay | Command::Grants | Command::Report | Command::Keep => false,
    }
}

impl Checker {
    /// Nothing is checked yet.
    pub(crate) fn new(command: Command) -> Checker
        ensures { result ≡ begins command }
    {
        Checker {
            command,
            place: Place::Start,
            number: 1,
            found: false,
        }
    }

    /// Names a line of this kind, which is bad.
    fn name(
        self,
        alloc: Global,
        kind: Option<LineKind>,
        cause: &Cause,
        text: &mut String,
    ) -> Result<(), NoMemory>
        ensures { OnOk result (string_bytes text.new ≡ string_bytes text.old
            ++ finding_line self.number (cause_text self.command self.place kind cause.now)) }
    {
        let why = cause_words(alloc, self.command, self.place, kind, cause)?;
        add_finding(text, self.number, why.as_str())
    }

    /// Checks a line.
    fn check(
        self,
        alloc: Global,
        line: &[u8],
        now: Moment,
        text: &mut String,
    ) -> Result<Checker, NoMemory>
        ensures { IfOk result (λ next. IsWorked (check_step self line.now now) next
            (string_bytes text.old) (string_bytes text.new)) }
    {
        let number = self.number.saturating_add(1);
        let Seen { kind, cause } = look(alloc, self.command, self.place, line, now)?;
        match cause {
            None => Ok(Checker {
                command: self.command,
                place: place_after(self.place, kind),
                number,
                found: self.found,
            }),
            Some(cause) => {
                self.name(alloc, kind, &cause, text)?;
                Ok(Checker {
                    command: self.command,
                    place: self.place,
                    number,
                    found: true,
                })
            }
        }
    }

    /// Names the end of the lines, where it is bad. The answer is the status of the check: a script with a bad line isn't done.
    pub(crate) fn finish(self, text: &mut String) -> Result<Status, NoMemory>
        ensures text { OnOk result (string_bytes text.new
            ≡ string_bytes text.old ++ end_told self) }
        ensures status { IfOk result (λ status. status ≡ status_after self.found (ending self)) }
    {
        if is_bad_end(self.command, self.place) {
            add_finding(text, self.number, end_words())?;
            return Ok(Status::BadLine);
        }
        if self.found {
            return Ok(Status::BadLine);
        }
        Ok(Status::Done)
    }
}

impl Worker for Checker {
    ghost use Rattle.rg_check.specs.Walking.{check_step};

    ghost step = { check_step };

    fn work(
        &mut self,
        alloc: Global,
        line: &[u8],
        now: Moment,
        text: &mut String,
    ) -> Result<(), LineFault> {
        let checker = *self;
        match checker.check(alloc, line, now, text) {
            Ok(next) => {
                *self = next;
                Ok(())
            }
            Err(_) => Err(LineFault::NoMemory),
        }
    }
}
