// Counted work: how often a policy was compiled, an index was edited, and a policy was tried against a request.
ghost use Rattle.std.specs.Prelude.{◌≡◌};
ghost use Rattle.rg_base.specs.Counts.{Counts, zeros, one_compile, one_edit, one_try};

use crate::tally::Tally;
use std::marker::Model;

/// What was done.
#[derive(Clone, Copy, Debug, PartialEq, Eq)]
pub enum StepKind {
    /// A policy was compiled.
    Compile,
    /// An index was edited.
    Edit,
    /// A policy or a tag row was tried against a request.
    Attempt,
}

/// Takes note of each step.
pub trait Ledger: Drop {
    ghost use Rattle.std.specs.Prelude.{ℕ};
    ghost use Rattle.rg_base.specs.Counts.{Counts};
    ghost use Rattle.rg_base.specs.Noted.{noted};

    /// What the ledger holds after so many steps of each kind.
    ghost tells: { Counts → Self → Type 0 };

    /// Notes one step.
    fn note(&mut self, kind: StepKind)
        ensures { (before : Counts) → tells before self.old → tells (noted kind before) self.new };
}

/// A ledger that keeps nothing.
#[derive(Clone, Copy, Debug, PartialEq, Eq)]
pub struct Silent;

impl Ledger for Silent {
    ghost use Rattle.rg_base.specs.Counts.{Counts};

    ghost tells = { λ counts s. Unit {0} };

    fn note(&mut self, _kind: StepKind) {}
}

/// A ledger that keeps the three numbers, each standing still at the last `u64`.
#[derive(Clone, Copy, Debug, PartialEq, Eq)]
pub struct Counted {
    pub compiles: u64,
    pub edits: u64,
    pub tries: u64,
}

impl Ledger for Counted {
    ghost use Rattle.rg_base.specs.Noted.{IsKept};

    ghost tells = { IsKept };

    fn note(&mut self, kind: StepKind) {
        match kind {
            StepKind::Compile => self.compiles = self.compiles.saturating_add(1),
            StepKind::Edit => self.edits = self.edits.saturating_add(1),
            StepKind::Attempt => self.tries = self.tries.saturating_add(1),
        }
    }
}

/// The steps so far. Contracts see the three numbers, without a ceiling; the ledger is told of each step.
#[derive(Drop)]
pub struct Steps<L: Ledger> {
    book: L,
    compiles: Tally,
    edits: Tally,
    tries: Tally,
}

impl<L: Ledger> Model for Steps<L> {
    ghost use Rattle.rg_base.specs.Counts.{Counts};

    ghost Value = { Counts };

    ghost view = { λ s. record {
      compiles = s.compiles.count;
      edits = s.edits.count;
      tries = s.tries.count;
    } };

    ghost invariant = { λ s. L.tells (record {
      compiles = s.compiles.count;
      edits = s.edits.count;
      tries = s.tries.count;
    }) s.book };
}

impl Steps<Silent> {
    /// No step so far, and none will be kept.
    pub fn silent() -> Steps<Silent>
        ensures { result ≡ zeros }
    {
        Steps {
            book: Silent,
            compiles: Tally::zero(),
            edits: Tally::zero(),
            tries: Tally::zero(),
        }
    }
}

impl Steps<Counted> {
    /// No step so far; the numbers will be kept.
    pub fn counted() -> Steps<Counted>
        ensures { result ≡ zeros }
    {
        Steps {
            book: Counted {
                compiles: 0,
                edits: 0,
                tries: 0,
            },
            compiles: Tally::zero(),
            edits: Tally::zero(),
            tries: Tally::zero(),
        }
    }
}

impl<L: Ledger> Steps<L> {
    /// Counts the compiling of a policy.
    pub fn compile(&mut self)
        ensures { self.new ≡ one_compile self.old }
    {
        self.compiles.add();
        self.book.note(StepKind::Compile);
    }

    /// Counts an edit of an index.
    pub fn edit(&mut self)
        ensures { self.new ≡ one_edit self.old }
    {
        self.edits.add();
        self.book.note(StepKind::Edit);
    }

    /// Counts a try of a policy or a tag row against a request.
    pub fn attempt(&mut self)
        ensures { self.new ≡ one_try self.old }
    {
        self.tries.add();
        self.book.note(StepKind::Attempt);
    }

    /// The ledger, which holds what its kind tells of these numbers.
    pub fn ledger(&self) -> &L
        ensures { L.tells self.now result.now }
    {
        &self.book
    }
}
