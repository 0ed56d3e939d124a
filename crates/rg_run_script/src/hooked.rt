// Work line by line with hooks, for the commands that decide requests.
ghost use Rattle.std.specs.Prelude.{◌≡◌, ◌⊎◌, ◌<◌, ◌^◌, ℕ, List, [], Option, None, IfOk, OnOk, OnErr, length, string_bytes};
ghost use Rattle.rg_base.specs.declared.numbers.Moment.{Moment};
ghost use Rattle.rg_hook.specs.Enriching.{EnricherState};
ghost use Rattle.rg_run_script.specs.Follow.{Comes, Decided, IsWorked, Output, Work, worked};
ghost use Rattle.rg_run_script.specs.Hooked.{AreAudited, AreAuditedInPart, HaveRunOn, Hooked, IsAudited, hooked, hooks_of, with_enrichers};

use crate::lines::{Worked, name_bad_line};
use crate::status::Status;
use rg_base::{Moment, NoMemory};
use rg_hook::RequestHooks;
use rg_ports::Clock;
use rg_script::{LineFault, split_line};
use std::alloc::Global;

/// A command that works a script line by line and decides requests, seen as the state that it is in.
pub trait HookedWorker {
    ghost use Rattle.std.specs.Prelude.{ℕ, List, Option};
    ghost use Rattle.rg_base.specs.declared.numbers.Moment.{Moment};
    ghost use Rattle.rg_hook.specs.Enriching.{EnricherState};
    ghost use Rattle.rg_run_script.specs.Follow.{Work};
    ghost use Rattle.rg_run_script.specs.Hooked.{Hooked};

    /// The work of a line in a state and with these enrichers, at its moment; None for a bad line.
    ghost hooked_step: { Self → List EnricherState
        → List ℕ → Moment → Option (Work (Hooked Self)) };

    /// Works a line, and puts what it prints behind the text. A request is enriched before it is decided, and an audited
    /// decision is given to the sinks once its line is behind the text.
    fn work_hooked<H: RequestHooks>(
        &mut self,
        alloc: Global,
        line: &[u8],
        now: Moment,
        text: &mut String,
        hooks: &mut H,
    ) -> Result<(), LineFault>
        ensures worked { OnOk result
            (IsWorked (hooked_step self.old (H.enrichers hooks.old) line.now now) (hooked self.new
            (H.enrichers hooks.new)) (string_bytes text.old) (string_bytes text.new)) }
        ensures audited { OnOk result (IsAudited (hooked_step self.old (H.enrichers hooks.old)
            line.now now) (hooks_of (H.sinks hooks.old) (H.enrichers hooks.old))
            (hooks_of (H.sinks hooks.new) (H.enrichers hooks.new))) }
        ensures bad { result ≡ Err LineFault.Bad
            → hooked_step self.old (H.enrichers hooks.old) line.now now ≡ None }
        ensures unchanged { result ≡ Err LineFault.Bad
            → (self.new ≡ self.old) × (string_bytes text.new ≡ string_bytes text.old) }
        ensures unheard { OnErr result (H.sinks hooks.new ≡ H.sinks hooks.old) }
        ensures unenriched { result ≡ Err LineFault.Bad
            → H.enrichers hooks.new ≡ H.enrichers hooks.old }
        ensures in_part { OnErr result
            (HaveRunOn (H.enrichers hooks.old) (H.enrichers hooks.new)) };
}

/// Works the lines of a script in order, each at the clock's next moment, up to the first bad one, which is named.
pub fn follow_hooked<W: HookedWorker, C: Clock, H: RequestHooks>(
    alloc: Global,
    worker: &mut W,
    bytes: &[u8],
    clock: &mut C,
    hooks: &mut H,
) -> Result<Worked, NoMemory>
    requires { length bytes.now < 2 ^ 32 }
    ensures done { IfOk result (λ w. (decided : List Decided)
        × Comes _ (worked (with_enrichers W.hooked_step) (hooked worker.old (H.enrichers hooks.old)) 1) bytes.now (C.given clock.old) (C.given clock.new) []
        (record { text = string_bytes w.text; status = w.status; state = hooked worker.new (H.enrichers hooks.new); decided = decided })
        × AreAudited decided (hooks_of (H.sinks hooks.old) (H.enrichers hooks.old)) (hooks_of (H.sinks hooks.new) (H.enrichers hooks.new))) }
    ensures ends { IfOk result (λ w. (w.status ≡ Status.Done) ⊎ (w.status ≡ Status.BadLine)) }
    ensures cut_off { OnErr result ((later : List Moment) × (output : Output (Hooked W))
        × Comes _ (worked (with_enrichers W.hooked_step) (hooked worker.old (H.enrichers hooks.old)) 1) bytes.now (C.given clock.old) (C.given clock.new) later output
        × AreAuditedInPart output.decided (hooks_of (H.sinks hooks.old) (H.enrichers hooks.old)) (hooks_of (H.sinks hooks.new) (H.enrichers hooks.new))) }
{
    let mut text = String::new(alloc);
    let mut rest = bytes;
    let mut number: u64 = 1;
    'lines: while !rest.is_empty() {
        let (line, more) = split_line(rest);
        let now = clock.now();
        match worker.work_hooked(alloc, line, now, &mut text, hooks) {
            Ok(()) => {}
            Err(LineFault::Bad) => return name_bad_line(text, number),
            Err(LineFault::NoMemory) => return Err(NoMemory),
        }
        rest = more;
        number += 1;
    }
    Ok(Worked {
        text,
        status: Status::Done,
    })
}
