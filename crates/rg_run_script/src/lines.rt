// Work line by line, for every command that reads a script.
ghost use Rattle.std.specs.Prelude.{◌≡◌, ◌⊎◌, ◌+◌, ◌++◌, ◌<◌, ◌≤◌, ◌^◌, ℕ, List, [], Option, None, IfOk, OnOk, OnErr, length, string_bytes};
ghost use Rattle.rg_base.specs.declared.numbers.Moment.{Moment};
ghost use Rattle.rg_run_script.specs.Follow.{Comes, Decided, IsWorked, Output, Step, bad_line_text, worked};

use crate::status::Status;
use rg_base::{Moment, NoMemory};
use rg_ports::Clock;
use rg_script::{LineFault, split_line};
use std::alloc::Global;

/// A command that works a script line by line, seen as the state that it is in.
pub trait Worker {
    ghost use Rattle.std.specs.Prelude.{ℕ, List, Option};
    ghost use Rattle.rg_base.specs.declared.numbers.Moment.{Moment};
    ghost use Rattle.rg_run_script.specs.Follow.{Work};

    /// The work of a line in a state at its moment; None for a bad line.
    ghost step: { Self → List ℕ → Moment → Option (Work Self) };

    /// Works a line, and puts what it prints behind the text.
    fn work(
        &mut self,
        alloc: Global,
        line: &[u8],
        now: Moment,
        text: &mut String,
    ) -> Result<(), LineFault>
        ensures worked { OnOk result (IsWorked (step self.old line.now now) self.new
            (string_bytes text.old) (string_bytes text.new)) }
        ensures bad { result ≡ Err LineFault.Bad → step self.old line.now now ≡ None }
        ensures unchanged { result ≡ Err LineFault.Bad
            → (self.new ≡ self.old) × (string_bytes text.new ≡ string_bytes text.old) };
}

/// What a script printed, and how it ended.
#[derive(Drop)]
pub struct Worked {
    pub text: String,
    pub status: Status,
}

/// Names the line behind the text.
#[tactic(auto, unfolding(crate::specs::Follow::bad_line_text))]
pub fn name_bad_line(mut text: String, number: u64) -> Result<Worked, NoMemory>
    ensures { IfOk result (λ worked. (worked.status ≡ Status.BadLine)
        × (string_bytes worked.text ≡ string_bytes text ++ bad_line_text number)) }
{
    match writeln!(&mut text, "bad line {number}") {
        Ok(()) => Ok(Worked {
            text,
            status: Status::BadLine,
        }),
        Err(_) => Err(NoMemory),
    }
}

/// Works the lines of a script in order, each at the clock's next moment, up to the first bad one, which is named.
pub fn follow<W: Worker, C: Clock>(
    alloc: Global,
    worker: &mut W,
    bytes: &[u8],
    clock: &mut C,
) -> Result<Worked, NoMemory>
    requires { length bytes.now < 2 ^ 32 }
    ensures done { IfOk result (λ w. (decided : List Decided) × Comes _
        (worked W.step worker.old 1) bytes.now (C.given clock.old) (C.given clock.new) []
        (record { text = string_bytes w.text; status = w.status; state = worker.new; decided = decided })) }
    ensures ends { IfOk result (λ w. (w.status ≡ Status.Done) ⊎ (w.status ≡ Status.BadLine)) }
    ensures cut_off { OnErr result ((later : List Moment) × (output : Output W)
        × Comes _ (worked W.step worker.old 1) bytes.now (C.given clock.old) (C.given clock.new) later output) }
{
    let mut text = String::new(alloc);
    let mut rest = bytes;
    let mut number: u64 = 1;
    'lines: while !rest.is_empty() {
        let (line, more) = split_line(rest);
        let now = clock.now();
        match worker.work(alloc, line, now, &mut text) {
            Ok(()) => {}
            Err(LineFault::Bad) => return name_bad_line(text, number),
            Err(LineFault::NoMemory) => return Err(NoMemory),
        }
        rest = more;
        number += 1;
    }
    Ok(Worked {
        text,
        status: Status::Done,
    })
}
