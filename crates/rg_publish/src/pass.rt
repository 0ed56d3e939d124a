// What decides: a reader of the publications, with the one that it found or learnt last.
ghost use Rattle.std.specs.Prelude.{◌≡◌, ◌⊎◌, ◌<◌, ◌≤◌, length, nat_lt, MatchBool, IfOk, Some, OnOk, OnErr};
ghost use mathlib.Core.List.{IsPrefix};
ghost use Rattle.left_right.specs.Sides.{view as known_by};
ghost use Rattle.rg_engine.specs.Bounds.{TriesWithin, bound_on};
ghost use Rattle.rg_publish.specs.Knowing.{Begins, Knows};
ghost use Rattle.rg_publish.specs.Entries.{GoesOn, IsNewest};
ghost use Rattle.rg_publish.specs.Passes.{Ends, HasEntered, answer_of, decision_of, new_pass, risen, seeing};
ghost use Rattle.rg_publish.specs.Publications.{published};

use crate::shown::{Beginnings, Known, Sees, Shown};
use left_right::reader::Reader;
use rg_base::{Ledger, NoMemory, Serial, Steps};
use rg_engine::{Engine, numbered};
use rg_facts::{Answer, Decision};
use rg_policy::AccessRequest;
use std::alloc::Global;
use std::marker::Model;
use std::mem;

pub(crate) type Entry = Reader<Shown, Option<Known>, Beginnings>;

/// What an entry finds.
#[derive(Drop)]
pub(crate) enum Found {
    /// Nothing that may be kept: the entry or the copy of the shared pointer is refused, or what is kept is later.
    Nothing,
    /// What is kept.
    Same,
    /// A later publication.
    Later(Shown),
}

/// What the publisher tells a pass: its newest publication, shared. Contracts see its whole list.
#[derive(Drop)]
pub struct Told {
    pub(crate) shown: Shown,
}

impl Model for Told {
    ghost use Rattle.rg_publish.specs.Publications.{Published, published};

    ghost Value = { Published };

    ghost view = { λ t. published t.shown.known };
}

/// A reader of what is published. Contracts see which publisher it is of, the publications that it has seen, and how often it
/// entered and answered.
#[derive(Drop)]
pub struct Pass {
    pub(crate) entry: Option<Entry>,
    pub(crate) kept: Shown,
    pub(crate) entered: u64,
    pub(crate) answered: u64,
}

impl Model for Pass {
    ghost use Rattle.std.specs.Prelude.{◌≡◌, IfSome};
    ghost use Rattle.left_right.specs.Sides.{view as known_by};
    ghost use Rattle.rg_publish.specs.Knowing.{Knows};
    ghost use Rattle.rg_publish.specs.Passes.{Seeing, seeing};

    ghost Value = { Seeing };

    ghost view = { λ p. seeing p.kept.known p.entered p.answered };

    ghost invariant = { λ p. IfSome p.entry (λ r. Knows (known_by r.place) p.kept.known) };
}

impl Pass {
    pub(crate) fn of(entry: Entry, kept: Shown) -> Pass
        requires { Knows (known_by entry.place) kept.known }
        ensures { result ≡ new_pass (published kept.known) }
    {
        Pass {
            entry: Some(entry),
            kept,
            entered: 0,
            answered: 0,
        }
    }

    /// Keeps what was told where it is later than what the pass has. It takes no memory, and waits for nobody.
    pub fn learn(&mut self, told: Told)
        requires { told.book ≡ self.old.book }
        ensures same { (self.new.book ≡ self.old.book)
            × (self.new.entered ≡ self.old.entered) × (self.new.answered ≡ self.old.answered) }
        ensures list { MatchBool (nat_lt (length self.old.list) (length told.list))
            (self.new.list ≡ told.list) (self.new.list ≡ self.old.list) }
        ensures begins { IsPrefix self.old.list self.new.list × IsPrefix told.list self.new.list }
    {
        let Told { shown } = told;
        if self.kept.is_before(&shown) {
            let _old = mem::replace(&mut self.kept, shown);
        }
    }

    /// The engine of the publication that it decides by.
    pub fn engine(&self) -> &Engine
        ensures { Ends self.now.list (λ p. result.now ≡ p.facts) }
    {
        &*self.kept.engine
    }

    /// The number of the publication that it decides by.
    pub fn serial(&self) -> Serial
        ensures { result.0 ≡ length self.now.list }
    {
        Serial(self.kept.serial)
    }

    /// How often it found what was published; it stays at its last value.
    pub fn entered(&self) -> u64
        ensures { result ≡ self.now.entered }
    {
        self.entered
    }

    /// How often it answered; it stays at its last value.
    pub fn answered(&self) -> u64
        ensures { result ≡ self.now.answered }
    {
        self.answered
    }

    /// Finds what was published last, without a decision. It takes no memory, and waits for nobody. False where the entry, or
    /// the copy of the shared pointer, is refused: then nothing changes.
    pub fn enter(&mut self) -> bool
        ensures same { (self.new.book ≡ self.old.book) × (self.new.answered ≡ self.old.answered) }
        ensures entered { HasEntered self.old result self.new }
    {
        let Some(entry) = self.entry.take() else {
            return false;
        };
        let (entry, found) = read(entry, &self.kept);
        self.entry = Some(entry);
        if !keep(&mut self.kept, found) {
            return false;
        }
        self.entered = self.entered.saturating_add(1);
        true
    }

    /// The written flow over what it keeps.
    fn judge<L: Ledger>(&self, request: &AccessRequest, steps: &mut Steps<L>) -> Answer
        ensures answer { Ends self.now.list (λ p. result ≡ answer_of p request.now) }
        ensures serial { result.serial.0 ≡ length self.now.list }
        ensures steps { Ends self.now.list
            (λ p. TriesWithin (bound_on p.facts request.now) steps.old steps.new) }
    {
        let engine = &*self.kept.engine;
        Answer {
            verdict: engine.verdict(request, steps),
            serial: Serial(self.kept.serial),
            policy_version: engine.policy_version(),
            tag_version: engine.tag_version(),
            role_version: engine.role_version(),
        }
    }

    /// The same with its texts.
    fn judge_in_full<L: Ledger>(
        &self,
        alloc: Global,
        request: &AccessRequest,
        steps: &mut Steps<L>,
    ) -> Result<Decision, NoMemory>
        ensures decision { Ends self.now.list (λ p. IfOk result (λ d. d ≡ decision_of p request.now)
            × TriesWithin (bound_on p.facts request.now) steps.old steps.new) }
        ensures serial { IfOk result (λ d. d.serial.0 ≡ length self.now.list) }
    {
        let engine = &*self.kept.engine;
        let decision = engine.decide(alloc, request, steps)?;
        Ok(numbered(decision, Serial(self.kept.serial)))
    }

    /// Finds what was published last, and answers by it. Where the entry, or the copy of the shared pointer, is refused it
    /// answers by what it keeps. It takes no memory, waits for nobody, and always answers.
    pub fn verdict<L: Ledger>(&mut self, request: &AccessRequest, steps: &mut Steps<L>) -> Answer
        ensures same { self.new.book ≡ self.old.book }
        ensures begins { IsPrefix self.old.list self.new.list }
        ensures answer { Ends self.new.list (λ p. result ≡ answer_of p request.now) }
        ensures serial { result.serial.0 ≡ length self.new.list }
        ensures answered { self.new.answered ≡ risen self.old.answered }
        ensures entered { ((self.new.entered ≡ self.old.entered) × (self.new.list ≡ self.old.list))
            ⊎ (self.new.entered ≡ risen self.old.entered) }
        ensures steps { Ends self.new.list
            (λ p. TriesWithin (bound_on p.facts request.now) steps.old steps.new) }
    {
        let _entered = self.enter();
        self.answered = self.answered.saturating_add(1);
        self.judge(request, steps)
    }

    /// As `verdict`, with the texts. Where memory is refused for them nothing is counted as answered, and the pass may have
    /// found a later publication.
    pub fn decide<L: Ledger>(
        &mut self,
        alloc: Global,
        request: &AccessRequest,
        steps: &mut Steps<L>,
    ) -> Result<Decision, NoMemory>
        ensures same { self.new.book ≡ self.old.book }
        ensures begins { IsPrefix self.old.list self.new.list }
        ensures decision { Ends self.new.list
            (λ p. IfOk result (λ d. d ≡ decision_of p request.now)) }
        ensures serial { IfOk result (λ d. d.serial.0 ≡ length self.new.list) }
        ensures answered { OnOk result (self.new.answered ≡ risen self.old.answered) }
        ensures unanswered { OnErr result (self.new.answered ≡ self.old.answered) }
        ensures entered { ((self.new.entered ≡ self.old.entered) × (self.new.list ≡ self.old.list))
            ⊎ (self.new.entered ≡ risen self.old.entered) }
        ensures steps { Ends self.new.list
            (λ p. TriesWithin (bound_on p.facts request.now) steps.old steps.new) }
    {
        let _entered = self.enter();
        let decision = self.judge_in_full(alloc, request, steps)?;
        self.answered = self.answered.saturating_add(1);
        Ok(decision)
    }
}

/// Keeps what was found, where it is later. False where nothing was found; then nothing changes.
fn keep(kept: &mut Shown, found: Found) -> bool
    requires { GoesOn kept.old.known found }
    ensures { MatchBool result (Begins kept.old.known kept.new.known) (kept.new ≡ kept.old) }
{
    match found {
        Found::Nothing => false,
        Found::Same => true,
        Found::Later(shown) => {
            let _old = mem::replace(kept, shown);
            true
        }
    }
}

/// Enters, and finds what is shown where it is no earlier than what is kept.
fn read(entry: Entry, kept: &Shown) -> (Entry, Found)
    requires { Knows (known_by entry.place) kept.now.known }
    ensures entry { Knows (known_by result.0.place) kept.now.known }
    ensures found { GoesOn kept.now.known result.1 }
    ensures newest { IsNewest (known_by result.0.place) kept.now.known result.1 }
{
    match entry.enter_as::<Sees>() {
        Err(entry) => (entry, Found::Nothing),
        Ok(reading) => {
            let found = found_in(reading.get(), kept);
            (reading.leave(), found)
        }
    }
}

/// What is shown, where it is no earlier than what is kept. Where it is the same no pointer is copied: all passes would
/// write to the one count of it.
fn found_in(shown: &Shown, kept: &Shown) -> Found
    requires { shown.now.known.book ≡ kept.now.known.book }
    ensures goes_on { GoesOn kept.now.known result }
    ensures newest { IsNewest (Some shown.now.known) kept.now.known result }
{
    if shown.is_before(kept) {
        return Found::Nothing;
    }
    if !kept.is_before(shown) {
        return Found::Same;
    }
    match shown.again() {
        Ok(shown) => Found::Later(shown),
        Err(_) => Found::Nothing,
    }
}
