// A script that is explained line by line.
ghost use Rattle.std.specs.Prelude.{◌≡◌, ◌++◌, ℕ, Err, IfOk, List, None, OnOk, false, string_bytes, true};
ghost use Rattle.std.specs.Str.{encode_utf8_all};
ghost use Rattle.rg_facts.specs.Sound.{sound};
ghost use Rattle.rg_run_script.specs.Follow.{IsWorked};
ghost use Rattle.rg_explain_script.specs.Explained.{begins, explain_work, explained_text, is_wanted, text_in};

use crate::options::{Form, Options, Style, Wanted};
use rg_base::{Moment, NoMemory, Serial, Text};
use rg_explain::{Explainer, Explanation};
use rg_explain_wire::{print_explanation, print_words};
use rg_facts::Facts;
use rg_policy::AccessRequest;
use rg_run_replay::Replay;
use rg_run_script::Worker;
use rg_script::{LineFault, read_line};
use std::alloc::Global;
use std::marker::Model;
use std::sync::Wait;

/// A script whose decisions are explained. Contracts see how far it has come, as a script that is replayed, how explanations are
/// told, and which of the decisions to come are wanted.
#[derive(Drop)]
pub struct Explaining<'a, R: Wait> {
    replay: Replay<'a, R>,
    style: Style,
    wanted: Wanted,
}

impl<'a, R: Wait> Model for Explaining<'a, R> {
    ghost use Rattle.rg_explain_script.specs.Explained.{Progress, progress};

    ghost Value = { Progress };

    ghost view = { λ e. progress e.style e.replay e.wanted };
}

/// The explanation in this style.
fn print_in(
    alloc: Global,
    style: Style,
    request: &AccessRequest,
    explanation: &Explanation,
) -> Result<Text, NoMemory>
    ensures { IfOk result
        (λ t. encode_utf8_all t ≡ text_in style.form style.all request.now explanation.now) }
{
    match style.form {
        Form::Words => print_words(alloc, request, explanation, style.all),
        Form::Json => print_explanation(alloc, request, explanation, style.all),
    }
}

/// Adds the explanation of the request over these facts, which are sound.
#[tactic(auto, unfolding(crate::specs::Explained::explained_text))]
fn add_explanation(
    alloc: Global,
    style: Style,
    facts: Facts,
    request: &AccessRequest,
    text: &mut String,
) -> Result<(), NoMemory>
    requires { sound facts ≡ true }
    ensures { OnOk result (string_bytes text.new
        ≡ string_bytes text.old ++ explained_text style facts request.now) }
{
    let explainer = Explainer::build(alloc, facts)?;
    // (its serial isn't printed)
    let explanation = explainer.explain(alloc, request, Serial(0))?;
    let printed = print_in(alloc, style, request, &explanation)?;
    let told = printed.as_str();
    match writeln!(text, "{told}") {
        Ok(()) => Ok(()),
        Err(_) => Err(NoMemory),
    }
}

impl<'a, R: Wait> Explaining<'a, R> {
    /// A script of which no line is worked yet.
    pub fn new(rt: &'a R, options: Options) -> Explaining<'a, R>
        ensures { result ≡ begins options }
    {
        Explaining {
            replay: Replay::new(rt),
            style: options.style,
            wanted: options.wanted,
        }
    }

    /// Explains the request, which is wanted, by what is published last.
    #[tactic(auto, using(crate::proofs::Working::requests), unfolding(crate::specs::Explained::explain_work))]
    fn tell(
        &mut self,
        alloc: Global,
        request: &AccessRequest,
        text: &mut String,
    ) -> Result<(), LineFault>
        requires { is_wanted self.old.wanted ≡ true }
        ensures worked { OnOk result (IsWorked (explain_work self.old request.now) self.new
            (string_bytes text.old) (string_bytes text.new)) }
        ensures bad { result ≡ Err LineFault.Bad
            → (explain_work self.old request.now ≡ None) × (self.new ≡ self.old) }
        ensures unwritten { result ≡ Err LineFault.Bad
            → string_bytes text.new ≡ string_bytes text.old }
    {
        let facts = match self.replay.newest_facts(alloc) {
            Ok(Some(facts)) => facts,
            Ok(None) => return Err(LineFault::Bad),
            Err(_) => return Err(LineFault::NoMemory),
        };
        match add_explanation(alloc, self.style, facts, request, text) {
            Ok(()) => {
                self.wanted = self.wanted.then();
                Ok(())
            }
            Err(_) => Err(LineFault::NoMemory),
        }
    }

    /// Lets the request go, which isn't wanted. It is decided, which costs less than its explanation, since the line is bad where
    /// nothing is published.
    #[tactic(auto, using(crate::proofs::Working::requests), unfolding(crate::specs::Explained::explain_work))]
    fn pass(&mut self, alloc: Global, request: &AccessRequest) -> Result<(), LineFault>
        requires { is_wanted self.old.wanted ≡ false }
        ensures worked { OnOk result ((text : List ℕ)
            → IsWorked (explain_work self.old request.now) self.new text text) }
        ensures bad { result ≡ Err LineFault.Bad
            → (explain_work self.old request.now ≡ None) × (self.new ≡ self.old) }
    {
        match self.replay.newest_decision(alloc, request) {
            Ok(None) => Err(LineFault::Bad),
            Ok(Some(_)) => {
                self.wanted = self.wanted.then();
                Ok(())
            }
            Err(_) => Err(LineFault::NoMemory),
        }
    }

    /// Explains the request where it is wanted.
    fn explain(
        &mut self,
        alloc: Global,
        request: &AccessRequest,
        text: &mut String,
    ) -> Result<(), LineFault>
        ensures worked { OnOk result (IsWorked (explain_work self.old request.now) self.new
            (string_bytes text.old) (string_bytes text.new)) }
        ensures bad { result ≡ Err LineFault.Bad
            → (explain_work self.old request.now ≡ None) × (self.new ≡ self.old) }
        ensures unwritten { result ≡ Err LineFault.Bad
            → string_bytes text.new ≡ string_bytes text.old }
    {
        if self.wanted.is_next() {
            self.tell(alloc, request, text)
        } else {
            self.pass(alloc, request)
        }
    }
}

impl<'a, R: Wait> Worker for Explaining<'a, R> {
    ghost use Rattle.rg_explain_script.specs.Explained.{explain_step};

    ghost step = { explain_step };

    #[tactic(auto, using(crate::proofs::Working::preparing))]
    fn work(
        &mut self,
        alloc: Global,
        line: &[u8],
        now: Moment,
        text: &mut String,
    ) -> Result<(), LineFault> {
        let read = match read_line(alloc, line, now) {
            Ok(read) => read,
            Err(fault) => return Err(fault),
        };
        let mut unprinted = String::new(alloc);
        match self.replay.prepare(alloc, read, &mut unprinted) {
            Ok(None) => Ok(()),
            Ok(Some(request)) => self.explain(alloc, &request, text),
            Err(fault) => Err(fault),
        }
    }
}
