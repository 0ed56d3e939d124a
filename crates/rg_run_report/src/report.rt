// The command `report`: a script of facts, and of what is asked about them.
ghost use Rattle.std.specs.Prelude.{◌≡◌, ◌++◌, [], Err, None, IfOk, OnOk, option_map, string_bytes};
ghost use Rattle.rg_acl.specs.Rows.{report_rows};
ghost use Rattle.rg_acl.specs.declared.row.ReportRow.{ReportRow};
ghost use Rattle.rg_run_script.specs.Follow.{IsWorked};
ghost use Rattle.rg_run_report.specs.Report.{ask_work, asked_in, facts_work, json_work, line_work, row_line, row_lines};
ghost use Rattle.rg_script.specs.Line.{line_of};

use rg_acl::{ReportAsk, ReportRow, print_row, read_report, report};
use rg_base::{Moment, NoMemory, Seq, Steps};
use rg_facts::Facts;
use rg_run_replay::{Published, publish};
use rg_run_script::Worker;
use rg_script::{Line, LineFault, read_line, split_word};
use rg_wire::WireFault;
use std::alloc::Global;
use std::marker::Model;
use std::mem;

/// A script of reports that is worked. Contracts see its facts, None before them.
#[derive(Drop)]
pub struct Reports {
    published: Option<Published>,
}

impl Model for Reports {
    ghost use Rattle.std.specs.Prelude.{Option};
    ghost use Rattle.rg_facts.specs.declared.facts.Facts.{Facts};
    ghost use Rattle.rg_run_replay.specs.Replay.{AreSound};

    ghost Value = { Option Facts };

    ghost view = { λ r. r.published };

    ghost invariant = { λ r. AreSound r.published };
}

// ---- printed lines

/// Adds the line of a row.
#[tactic(auto, unfolding(crate::specs::Report::row_line))]
fn add_row(alloc: Global, text: &mut String, row: &ReportRow) -> Result<(), NoMemory>
    ensures { OnOk result (string_bytes text.new ≡ string_bytes text.old ++ row_line row.now) }
{
    let printed = print_row(alloc, row)?;
    let line = printed.as_str();
    match writeln!(text, "{line}") {
        Ok(()) => Ok(()),
        Err(_) => Err(NoMemory),
    }
}

/// Adds the lines of the rows.
fn add_rows(alloc: Global, text: &mut String, rows: &[ReportRow]) -> Result<(), NoMemory>
    ensures { OnOk result (string_bytes text.new ≡ string_bytes text.old ++ row_lines rows.now) }
{
    for row in rows {
        add_row(alloc, text, row)?;
    }
    Ok(())
}

// ---- the work of a line

/// What follows the word `report` and its space, in a line that begins with them.
#[tactic(auto, unfolding(crate::specs::Report::asked_in))]
fn asked_in(line: &[u8]) -> Option<&[u8]>
    ensures { option_map (λ rest. rest.now) result ≡ asked_in line.now }
{
    let (word, rest) = split_word(line);
    if word == b"report".as_slice() {
        return rest;
    }
    None
}

impl Reports {
    /// A script of which no line is worked yet.
    pub fn new() -> Reports
        ensures { result ≡ None }
    {
        Reports { published: None }
    }

    /// Publishes the facts, where the script begins with them and they are sound.
    #[tactic(auto, unfolding(crate::specs::Report::facts_work))]
    fn begin(&mut self, alloc: Global, facts: Facts) -> Result<(), LineFault>
        ensures worked { OnOk result (IsWorked (facts_work self.old facts) self.new [] []) }
        ensures bad { result ≡ Err LineFault.Bad
            → (facts_work self.old facts ≡ None) × (self.new ≡ self.old) }
    {
        if self.published.is_some() {
            return Err(LineFault::Bad);
        }
        match publish(alloc, facts) {
            Ok(None) => Err(LineFault::Bad),
            Ok(Some(published)) => {
                drop(mem::replace(&mut self.published, Some(published)));
                Ok(())
            }
            Err(_) => Err(LineFault::NoMemory),
        }
    }

    /// The rows over the facts; None before them.
    fn rows(&self, alloc: Global, ask: &ReportAsk) -> Result<Option<Seq<ReportRow>>, NoMemory>
        ensures { IfOk result (λ rows. option_map (λ all. all.items) rows
            ≡ option_map (λ facts. report_rows facts ask.now) self.now) }
    {
        match &self.published {
            Some(published) => {
                let rows = report(alloc, published.engine(), ask, &mut Steps::silent())?;
                Ok(Some(rows))
            }
            None => Ok(None),
        }
    }

    /// Prints the rows over the facts.
    #[tactic(auto, unfolding(crate::specs::Report::ask_work))]
    fn ask(&self, alloc: Global, ask: &ReportAsk, text: &mut String) -> Result<(), LineFault>
        ensures worked { OnOk result (IsWorked (ask_work self.now ask.now) self.now
            (string_bytes text.old) (string_bytes text.new)) }
        ensures bad { result ≡ Err LineFault.Bad
            → (ask_work self.now ask.now ≡ None) × (string_bytes text.new ≡ string_bytes text.old) }
    {
        let rows = match self.rows(alloc, ask) {
            Ok(Some(rows)) => rows,
            Ok(None) => return Err(LineFault::Bad),
            Err(_) => return Err(LineFault::NoMemory),
        };
        match add_rows(alloc, text, rows.as_slice()) {
            Ok(()) => Ok(()),
            Err(_) => Err(LineFault::NoMemory),
        }
    }

    /// Reads what is asked, and prints the rows.
    fn json(
        &self,
        alloc: Global,
        json: &[u8],
        now: Moment,
        text: &mut String,
    ) -> Result<(), LineFault>
        ensures worked { OnOk result (IsWorked (json_work self.now json.now now) self.now
            (string_bytes text.old) (string_bytes text.new)) }
        ensures bad { result ≡ Err LineFault.Bad → (json_work self.now json.now now ≡ None)
            × (string_bytes text.new ≡ string_bytes text.old) }
    {
        match read_report(alloc, json, now) {
            Ok(ask) => self.ask(alloc, &ask, text),
            Err(WireFault::Bad { .. }) => Err(LineFault::Bad),
            Err(WireFault::NoMemory) => Err(LineFault::NoMemory),
        }
    }

    /// Works a line that asks for no report.
    fn other(&mut self, alloc: Global, line: &[u8], now: Moment) -> Result<(), LineFault>
        ensures worked { OnOk result
            (IsWorked (line_work self.old (line_of line.now now)) self.new [] []) }
        ensures bad { result ≡ Err LineFault.Bad
            → (line_work self.old (line_of line.now now) ≡ None) × (self.new ≡ self.old) }
    {
        match read_line(alloc, line, now) {
            Ok(Line::Blank) => Ok(()),
            Ok(Line::Facts(facts)) => self.begin(alloc, facts),
            Ok(Line::Config(_)) => Err(LineFault::Bad),
            Ok(Line::Admin(_)) => Err(LineFault::Bad),
            Ok(Line::Refresh) => Err(LineFault::Bad),
            Ok(Line::Decide(_)) => Err(LineFault::Bad),
            Err(fault) => Err(fault),
        }
    }
}

impl Worker for Reports {
    ghost use Rattle.rg_run_report.specs.Report.{report_step};

    ghost step = { report_step };

    fn work(
        &mut self,
        alloc: Global,
        line: &[u8],
        now: Moment,
        text: &mut String,
    ) -> Result<(), LineFault> {
        match asked_in(line) {
            Some(json) => self.json(alloc, json, now, text),
            None => self.other(alloc, line, now),
        }
    }
}
