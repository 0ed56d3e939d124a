// The lines that scripts of one command alone have, read.
ghost use Rattle.std.specs.Prelude.{◌≡◌, IfOk, Some, option_map};
ghost use Rattle.rg_run_grants.specs.Lines.{change_of};
ghost use Rattle.rg_run_report.specs.Report.{asked_in};
ghost use Rattle.rg_check.specs.Own.{admin_line, change_line, command_line, grants_line, is_own, keep_line, kind_of_change, own_line, report_line, row_line};

use crate::command::Command;
use crate::kind::LineKind;
use rg_acl::read_report;
use rg_base::{Moment, NoMemory, Text};
use rg_cmd_wire::read_command;
use rg_grant::read_grant;
use rg_json::WireFault;
use rg_script::{Cause, actor_of, split_word};
use std::alloc::Global;

/// A line of a command's own, read.
#[derive(Drop)]
pub(crate) enum OwnLine {
    /// It is of this kind.
    Read(LineKind),
    /// It isn't read.
    Unread(Cause),
}

// ---- grants

/// What a line is that begins with this word; None where it isn't of `grants` alone.
#[tactic(auto, unfolding(rg_run_grants::specs::Lines::change_of))]
fn change_kind(word: &[u8]) -> Option<LineKind>
    ensures { result ≡ option_map kind_of_change (change_of word.now) }
{
    if word == b"grant".as_slice() {
        return Some(LineKind::Grant);
    }
    if word == b"revoke".as_slice() {
        return Some(LineKind::Revoke);
    }
    None
}

/// What an actor asks of the row in JSON.
fn row_line(alloc: Global, kind: LineKind, actor: Text, json: &[u8]) -> Result<OwnLine, NoMemory>
    ensures { IfOk result (λ own. own ≡ row_line kind (Some actor) (Some json.now)) }
{
    drop(actor);
    match read_grant(alloc, json) {
        Ok(_) => Ok(OwnLine::Read(kind)),
        Err(WireFault::Bad { path, kind }) => Ok(OwnLine::Unread(Cause::Json { path, kind })),
        Err(WireFault::NoMemory) => Err(NoMemory),
    }
}

/// What an actor asks of a row whose name stands before the first space.
fn change_line(alloc: Global, kind: LineKind, rest: &[u8]) -> Result<OwnLine, NoMemory>
    ensures { IfOk result (λ own. own ≡ change_line kind (Some rest.now)) }
{
    let (word, json) = split_word(rest);
    let actor = actor_of(alloc, word)?;
    match (actor, json) {
        (Some(actor), Some(json)) => row_line(alloc, kind, actor, json),
        (_, _) => Ok(OwnLine::Unread(Cause::NoWord)),
    }
}

fn grants_line(alloc: Global, line: &[u8]) -> Result<Option<OwnLine>, NoMemory>
    ensures { IfOk result (λ own. own ≡ grants_line line.now) }
{
    let (word, rest) = split_word(line);
    match (change_kind(word), rest) {
        (Some(kind), Some(rest)) => Ok(Some(change_line(alloc, kind, rest)?)),
        (Some(_), None) => Ok(Some(OwnLine::Unread(Cause::NoWord))),
        (None, _) => Ok(None),
    }
}

// ---- report

/// What follows the word `report` and its space, in a line that begins with them.
#[tactic(auto, unfolding(rg_run_report::specs::Report::asked_in))]
fn asked_in(line: &[u8]) -> Option<&[u8]>
    ensures { option_map (λ rest. rest.now) result ≡ asked_in line.now }
{
    let (word, rest) = split_word(line);
    if word == b"report".as_slice() {
        return rest;
    }
    None
}

fn report_line(alloc: Global, line: &[u8], now: Moment) -> Result<Option<OwnLine>, NoMemory>
    ensures { IfOk result (λ own. own ≡ report_line line.now now) }
{
    let Some(json) = asked_in(line) else {
        return Ok(None);
    };
    match read_report(alloc, json, now) {
        Ok(_) => Ok(Some(OwnLine::Read(LineKind::Report))),
        Err(WireFault::Bad { path, kind }) => {
            Ok(Some(OwnLine::Unread(Cause::Json { path, kind })))
        }
        Err(WireFault::NoMemory) => Err(NoMemory),
    }
}

// ---- keep

/// What an actor asks in JSON.
fn command_line(alloc: Global, actor: Text, json: &[u8]) -> Result<OwnLine, NoMemory>
    ensures { IfOk result (λ own. own ≡ command_line (Some actor) (Some json.now)) }
{
    drop(actor);
    match read_command(alloc, json) {
        Ok(_) => Ok(OwnLine::Read(LineKind::Admin)),
        Err(WireFault::Bad { path, kind }) => Ok(OwnLine::Unread(Cause::Json { path, kind })),
        Err(WireFault::NoMemory) => Err(NoMemory),
    }
}

/// What an actor asks whose name stands before the first space.
fn admin_line(alloc: Global, rest: &[u8]) -> Result<OwnLine, NoMemory>
    ensures { IfOk result (λ own. own ≡ admin_line (Some rest.now)) }
{
    let (word, json) = split_word(rest);
    let actor = actor_of(alloc, word)?;
    match (actor, json) {
        (Some(actor), Some(json)) => command_line(alloc, actor, json),
        (_, _) => Ok(OwnLine::Unread(Cause::NoWord)),
    }
}

#[tactic(auto, unfolding(crate::specs::Own::keep_line))]
fn keep_line(alloc: Global, line: &[u8]) -> Result<Option<OwnLine>, NoMemory>
    ensures { IfOk result (λ own. own ≡ keep_line line.now) }
{
    if line == b"reopen".as_slice() {
        return Ok(Some(OwnLine::Read(LineKind::Reopen)));
    }
    let (word, rest) = split_word(line);
    if word != b"admin".as_slice() {
        return Ok(None);
    }
    match rest {
        Some(rest) => Ok(Some(admin_line(alloc, rest)?)),
        None => Ok(Some(OwnLine::Unread(Cause::NoWord))),
    }
}

/// Whether lines of this kind are of the command's own, which scripts of others have too.
pub(crate) fn is_own(command: Command, kind: LineKind) -> bool
    ensures { result ≡ is_own command kind }
{
    match command {
        Command::Keep => match kind {
            LineKind::Admin => true,
            _ => false,
        },
        Command::Replay | Command::Grants | Command::Report | Command::Serve => false,
    }
}

/// The line as one of the command's own; None where it is no such line.
pub(crate) fn own_line(
    alloc: Global,
    command: Command,
    line: &[u8],
    now: Moment,
) -> Result<Option<OwnLine>, NoMemory>
    ensures { IfOk result (λ own. own ≡ own_line command line.now now) }
{
    match command {
        Command::Replay | Command::Serve => Ok(None),
        Command::Grants => grants_line(alloc, line),
        Command::Report => report_line(alloc, line, now),
        Command::Keep => keep_line(alloc, line),
    }
}
