// A script that is tested line by line.
ghost use Rattle.std.specs.Prelude.{◌≡◌, ◌++◌, ℕ, List, [], Err, None, Some, IfOk, OnOk, option_map, string_bytes, false, true, if◌then◌else◌};
ghost use Rattle.std.specs.Str.{encode_utf8_all};
ghost use Rattle.rg_facts.specs.Sound.{sound};
ghost use Rattle.rg_explain.specs.Explaining.{explanation};
ghost use Rattle.rg_explain_wire.specs.Words.{explanation_words};
ghost use Rattle.rg_script.specs.Line.{is_blank};
ghost use Rattle.rg_run_script.specs.Follow.{IsWorked};
ghost use Rattle.rg_run_replay.specs.Replay.{decide_work, newest_of, replay_step};
ghost use Rattle.rg_test_script.specs.Coming.{CameTo};
ghost use Rattle.rg_test_script.specs.Testing.{begins, counted, ended_by, failure, framed, is_sound, judge_work, judged_text, line_of_outcome, moved, other_work, outcome_by, reason_of, stands_behind};
ghost use Rattle.rg_test_script.specs.Expecting as the;

use crate::expecting::{is_form, is_met, wanted_by};
use crate::form::Form;
use crate::outcome::{Outcome, Printed};
use crate::printing::{failed_text, passed_text, summary, top};
use rg_base::{Moment, NoMemory, Serial, Text};
use rg_explain::Explainer;
use rg_explain_wire::print_words;
use rg_facts::Facts;
use rg_policy::AccessRequest;
use rg_run_replay::Replay;
use rg_run_script::{Status, Worker};
use rg_script::{LineFault, read_line};
use rg_wire::print_decision;
use std::alloc::Global;
use std::marker::Model;
use std::mem;
use std::sync::Wait;

// ---- a line of the replay

fn is_blank(line: &[u8]) -> bool
    ensures { result ≡ is_blank line.now }
{
    match line {
        [] => true,
        [first, ..] => *first == b'#',
    }
}

/// What a line came to that decided nothing.
fn printed(text: String) -> Outcome
    ensures { result ≡ outcome_by [] (string_bytes text) }
{
    if text.is_empty() {
        drop(text);
        return Outcome::Nothing;
    }
    Outcome::Printed(Printed::of(text))
}

/// Decides the request by what is published last.
#[tactic(auto, using(crate::proofs::Working::decisions))]
fn decide<R: Wait>(
    alloc: Global,
    replay: &mut Replay<R>,
    request: AccessRequest,
) -> Result<Outcome, LineFault>
    ensures same { replay.new ≡ replay.old }
    ensures came { IfOk result
        (λ outcome. CameTo (decide_work replay.old request) replay.old outcome) }
    ensures bad { result ≡ Err LineFault.Bad → decide_work replay.old request ≡ None }
{
    match replay.newest_decision(alloc, &request) {
        Ok(Some(decision)) => Ok(Outcome::Decided(request, decision)),
        Ok(None) => {
            drop(request);
            Err(LineFault::Bad)
        }
        Err(_) => {
            drop(request);
            Err(LineFault::NoMemory)
        }
    }
}

/// Works the line as `replay` works it. The answer is what it came to.
#[tactic(auto, using(crate::proofs::Working::replaying))]
fn replay_line<R: Wait>(
    alloc: Global,
    replay: &mut Replay<R>,
    line: &[u8],
    now: Moment,
) -> Result<Outcome, LineFault>
    ensures came { IfOk result
        (λ outcome. CameTo (replay_step replay.old line.now now) replay.new outcome) }
    ensures bad { result ≡ Err LineFault.Bad → replay_step replay.old line.now now ≡ None }
    ensures unchanged { result ≡ Err LineFault.Bad → replay.new ≡ replay.old }
{
    let read = match read_line(alloc, line, now) {
        Ok(read) => read,
        Err(fault) => return Err(fault),
    };
    let mut text = String::new(alloc);
    match replay.prepare(alloc, read, &mut text) {
        Ok(None) => Ok(printed(text)),
        Ok(Some(request)) => match decide(alloc, replay, request) {
            Ok(outcome) => Ok(outcome),
            Err(fault) => Err(fault),
        },
        Err(fault) => Err(fault),
    }
}

// ---- what is told of an outcome

/// The line that was printed.
fn line_of(alloc: Global, outcome: &Outcome) -> Result<String, NoMemory>
    ensures { IfOk result (λ s. string_bytes s ≡ line_of_outcome outcome.now) }
{
    match outcome {
        Outcome::Nothing => Ok(String::new(alloc)),
        Outcome::Printed(line) => Ok(String::from_str(alloc, line.as_str())?),
        Outcome::Decided(_, decision) => {
            let line = print_decision(alloc, decision)?;
            let line = line.as_str();
            Ok(format!(in alloc; "{line}\n")?)
        }
    }
}

/// Why the request is decided so over these facts, which are sound.
fn explained(alloc: Global, facts: Facts, request: &AccessRequest) -> Result<Text, NoMemory>
    requires { sound facts ≡ true }
    ensures { IfOk result (λ t. encode_utf8_all t ≡ explanation_words false request.now
        (explanation facts request.now (record { 0 = 0 }))) }
{
    let explainer = Explainer::build(alloc, facts)?;
    // (its serial isn't printed)
    let explanation = explainer.explain(alloc, request, Serial(0))?;
    print_words(alloc, request, &explanation, false)
}

/// Whether it came to something.
fn stands_behind(outcome: &Outcome) -> bool
    ensures { result ≡ stands_behind outcome.now }
{
    match outcome {
        Outcome::Nothing => false,
        Outcome::Printed(_) | Outcome::Decided(_, _) => true,
    }
}

// ---- the tests

/// A script that is tested. Contracts see how far the tests have come.
#[derive(Drop)]
pub(crate) struct Testing<'a, R: Wait> {
    form: Form,
    replay: Replay<'a, R>,
    /// What the last line came to that isn't a comment.
    last: Outcome,
    /// The number of the next line. The first has 1; the numbers stand still at the last `u64`.
    number: u64,
    passed: u64,
    failed: u64,
}

impl<'a, R: Wait> Model for Testing<'a, R> {
    ghost use Rattle.rg_test_script.specs.Testing.{Progress};

    ghost Value = { Progress };

    ghost view = { λ t. record {
      form = t.form;
      script = t.replay;
      last = t.last;
      number = t.number;
      passed = t.passed;
      failed = t.failed;
    } };
}

impl<'a, R: Wait> Testing<'a, R> {
    /// Tests of which no line is worked yet.
    pub(crate) fn new(rt: &'a R, form: Form) -> Testing<'a, R>
        ensures { result ≡ begins form }
    {
        Testing {
            form,
            replay: Replay::new(rt),
            last: Outcome::Nothing,
            number: 1,
            passed: 0,
            failed: 0,
        }
    }

    /// Why the last line came to what it did, where it is a decision.
    #[tactic(auto, using(crate::proofs::Working::reasons))]
    fn reason(&self, alloc: Global) -> Result<Text, NoMemory>
        ensures { IfOk result
            (λ t. encode_utf8_all t ≡ reason_of (newest_of self.now.script) self.now.last) }
    {
        let request = match &self.last {
            Outcome::Decided(request, _) => request,
            Outcome::Nothing | Outcome::Printed(_) => return Ok(Text::empty(alloc)),
        };
        match self.replay.newest_facts(alloc)? {
            None => Ok(Text::empty(alloc)),
            Some(facts) => explained(alloc, facts, request),
        }
    }

    /// What is printed of an expectation that isn't met.
    fn failure(&self, alloc: Global, wanted: &str) -> Result<String, NoMemory>
        ensures { IfOk result (λ s. string_bytes s ≡ failure self.now wanted.now) }
    {
        let line = line_of(alloc, &self.last)?;
        let reason = self.reason(alloc)?;
        failed_text(
            alloc,
            self.form,
            self.number,
            wanted,
            line.as_str(),
            reason.as_str(),
        )
    }

    /// Whether the expectation is met, and what is printed of it.
    fn verdict(&self, alloc: Global, wanted: &str) -> Result<(bool, String), NoMemory>
        ensures met { IfOk result (λ r. r.0 ≡ the.is_met wanted.now self.now.last) }
        ensures text { IfOk result (λ r. string_bytes r.1 ≡ judged_text self.now wanted.now) }
    {
        if is_met(alloc, wanted, &self.last)? {
            let text = passed_text(alloc, self.form, self.number, wanted)?;
            return Ok((true, text));
        }
        let text = self.failure(alloc, wanted)?;
        Ok((false, text))
    }

    /// The expectation, where it is of a form and stands behind a line that came to something.
    #[tactic(auto, using(crate::proofs::Working::sounding))]
    fn sound<'w>(&self, wanted: &'w [u8]) -> Option<&'w str>
        ensures { option_map (λ text. text.now) result
            ≡ (if is_sound self.now wanted.now then Some wanted.now else None) }
    {
        if !is_form(wanted) {
            return None;
        }
        if !stands_behind(&self.last) {
            return None;
        }
        match str::from_utf8(wanted) {
            Ok(text) => Some(text),
            Err(_) => None,
        }
    }

    fn count(&mut self, met: bool)
        ensures { self.new ≡ counted self.old met }
    {
        self.number = self.number.saturating_add(1);
        if met {
            self.passed = self.passed.saturating_add(1);
        } else {
            self.failed = self.failed.saturating_add(1);
        }
    }

    /// Judges the expectation of a comment.
    #[tactic(auto, using(crate::proofs::Working::judging))]
    fn judge(&mut self, alloc: Global, wanted: &[u8], text: &mut String) -> Result<(), LineFault>
        ensures worked { OnOk result (IsWorked (judge_work self.old wanted.now) self.new
            (string_bytes text.old) (string_bytes text.new)) }
        ensures bad { result ≡ Err LineFault.Bad → judge_work self.old wanted.now ≡ None }
        ensures unchanged { result ≡ Err LineFault.Bad
            → (self.new ≡ self.old) × (string_bytes text.new ≡ string_bytes text.old) }
    {
        let Some(wanted) = self.sound(wanted) else {
            return Err(LineFault::Bad);
        };
        let (met, told) = match self.verdict(alloc, wanted) {
            Ok(verdict) => verdict,
            Err(_) => return Err(LineFault::NoMemory),
        };
        if text.push_str(told.as_str()).is_err() {
            return Err(LineFault::NoMemory);
        }
        self.count(met);
        Ok(())
    }

    /// A line was blank.
    fn pass(&mut self)
        ensures { self.new ≡ moved self.old self.old.script self.old.last }
    {
        self.number = self.number.saturating_add(1);
    }

    /// A line came to this.
    fn come_to(&mut self, outcome: Outcome)
        ensures { self.new ≡ moved self.old self.old.script outcome }
    {
        drop(mem::replace(&mut self.last, outcome));
        self.number = self.number.saturating_add(1);
    }

    /// Works any other line, of which nothing is printed.
    #[tactic(auto, using(crate::proofs::Working::moving))]
    fn other(&mut self, alloc: Global, line: &[u8], now: Moment) -> Result<(), LineFault>
        ensures worked { OnOk result ((text : List ℕ)
            → IsWorked (other_work self.old line.now now) self.new text text) }
        ensures bad { result ≡ Err LineFault.Bad → other_work self.old line.now now ≡ None }
        ensures unchanged { result ≡ Err LineFault.Bad → self.new ≡ self.old }
    {
        if is_blank(line) {
            self.pass();
            return Ok(());
        }
        match replay_line(alloc, &mut self.replay, line, now) {
            Ok(outcome) => {
                self.come_to(outcome);
                Ok(())
            }
            Err(fault) => Err(fault),
        }
    }

    /// The status of tests whose lines end with this one: they are done where all expectations were met, and there was one.
    pub(crate) fn ended(&self, status: Status) -> Status
        ensures { result ≡ ended_by self.now status }
    {
        match status {
            Status::Done if self.failed != 0 || self.passed == 0 => Status::BadLine,
            status => status,
        }
    }

    /// What was printed, between the top and the summary of lines that end with this status.
    pub(crate) fn framed(
        &self,
        alloc: Global,
        status: Status,
        text: &str,
    ) -> Result<String, NoMemory>
        ensures { IfOk result (λ s. string_bytes s ≡ framed self.now status text.now) }
    {
        let top = top(self.form);
        let below = summary(alloc, self.form, status, self.passed, self.failed)?;
        let below = below.as_str();
        Ok(format!(in alloc; "{top}{text}{below}")?)
    }
}

impl<'a, R: Wait> Worker for Testing<'a, R> {
    ghost use Rattle.rg_test_script.specs.Testing.{test_step};

    ghost step = { test_step };

    #[tactic(auto, using(crate::proofs::Working::stepping))]
    fn work(
        &mut self,
        alloc: Global,
        line: &[u8],
        now: Moment,
        text: &mut String,
    ) -> Result<(), LineFault> {
        match wanted_by(line) {
            Some(wanted) => self.judge(alloc, wanted, text),
            None => self.other(alloc, line, now),
        }
    }
}
