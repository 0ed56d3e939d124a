// A sink in memory.
ghost use Rattle.std.specs.Prelude.{◌≡◌, ◌+◌, ◌↔◌, ◌++◌, ◌∷◌, [], IsTrue, IsErr, OnErr, OnOk};
ghost use Rattle.std.specs.Str.{chars};
ghost use Rattle.rg_base.specs.Listed.{Listed};
ghost use Rattle.rg_hook.specs.Audits.{AuditState, IsToFail, after_fault, after_line};

use crate::sink::AuditSink;
use rg_base::{Failed, NoMemory, Seq, Tally, Text};
use std::alloc::Global;
use std::marker::Model;

/// Lines that are kept in memory.
#[derive(Drop)]
pub struct MemAudit {
    lines: Seq<Text>,
    alloc: Global,
    fails: Seq<u64>,
    // How many calls there were, which stands still at the last `u64`.
    seen: u64,
    made: Tally,
    faults: Tally,
}

impl Model for MemAudit {
    ghost use Rattle.std.specs.Prelude.{◌≡◌, ◌-◌, ◌^◌, min};
    ghost use Rattle.rg_hook.specs.Audits.{AuditState};

    ghost Value = { AuditState };

    ghost view = { λ a. record {
      lines = a.lines.items;
      made = a.made.count;
      faults = a.faults.count;
      fails = a.fails.items;
    } };

    ghost invariant = { λ a. a.seen ≡ min a.made.count (2 ^ 64 - 1) };
}

impl MemAudit {
    /// Keeps lines behind those of `lines`, which is handed in empty, and takes memory from the allocator of that list. `fails`
    /// lists the calls that are to fail, all calls being counted from 1.
    pub fn new(lines: Seq<Text>, fails: Seq<u64>) -> MemAudit
        ensures { result
            ≡ record { lines = lines.items; made = 0; faults = 0; fails = fails.items } }
    {
        let lines = lines.into_vec();
        let alloc = *lines.allocator();
        MemAudit {
            lines: Seq::from_vec(lines),
            alloc,
            fails,
            seen: 0,
            made: Tally::zero(),
            faults: Tally::zero(),
        }
    }

    /// The lines taken.
    pub fn lines(&self) -> &[Text]
        ensures { result.now ≡ self.now.lines }
    {
        self.lines.as_slice()
    }

    // Whether the next call is to fail. A call past the last `u64` has no number that could be listed.
    fn is_to_fail(&self) -> bool
        ensures { IsTrue result ↔ IsToFail self.now }
    {
        let fails = self.fails.as_slice();
        match self.seen.checked_add(1) {
            Some(number) => fails.contains(&number),
            None => false,
        }
    }

    // Keeps the line, and counts nothing.
    fn keep(&mut self, line: &str) -> Result<(), NoMemory>
        ensures ok { OnOk result (self.new
            ≡ record self.old { lines = self.old.lines ++ chars line.now ∷ [] }) }
        ensures err { OnErr result (self.new ≡ self.old) }
    {
        let text = Text::copy_of(self.alloc, line)?;
        self.lines.add(text)
    }

    fn count_call(&mut self)
        ensures { self.new ≡ record self.old { made = self.old.made + 1 } }
    {
        self.seen = self.seen.saturating_add(1);
        self.made.add();
    }

    fn count_fault(&mut self)
        ensures { self.new ≡ record self.old { faults = self.old.faults + 1 } }
    {
        self.faults.add();
    }
}

impl AuditSink for MemAudit {
    ghost use Rattle.std.specs.Prelude.{Some};

    ghost heard = { λ a. Some a.lines };

    ghost sink_faults = { λ a. a.faults };

    /// Fails where the call is listed, or where there is no memory for the line. No contract can say how much memory there is,
    /// so none says that a call that isn't listed succeeds.
    fn write(&mut self, line: &str) -> Result<(), Failed>
        ensures fails { IsToFail self.old → IsErr result }
        ensures failed { OnErr result (self.new ≡ after_fault self.old) }
        ensures after { OnOk result (self.new ≡ after_line (chars line.now) self.old) }
    {
        let is_kept = !self.is_to_fail() && self.keep(line).is_ok();
        self.count_call();
        if is_kept {
            return Ok(());
        }
        self.count_fault();
        Err(Failed)
    }
}
