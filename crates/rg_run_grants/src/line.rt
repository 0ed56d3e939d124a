// The lines of a script of grants, read.
ghost use Rattle.std.specs.Prelude.{◌≡◌, Err, None, Some, IfOk, option_and_then};
ghost use Rattle.rg_script.specs.Line.{actor_of, line_of};
ghost use Rattle.rg_script.specs.Words.{behind_space, front_word};
ghost use Rattle.rg_run_grants.specs.Lines.{Reads, asked, change_of, grant_line_of, plain_line, row_read};

use rg_base::{Moment, Text};
use rg_cmd::Config;
use rg_grant::{GrantAsk, GrantRow, read_grant};
use rg_json::WireFault;
use rg_policy::AccessRequest;
use rg_script::{Line, LineFault, actor_of, read_line, split_word};
use std::alloc::Global;

/// A line of a script of grants.
#[derive(Drop)]
pub enum GrantLine {
    /// An empty line, or one that begins with `#`.
    Blank,
    /// `config JSON`.
    Config(Config),
    /// `admin ACTOR JSON`, `grant ACTOR JSON` or `revoke ACTOR JSON`.
    Ask(GrantAsk),
    /// `decide JSON`.
    Decide(AccessRequest),
}

/// What is asked of a row.
#[derive(Clone, Copy, Debug, PartialEq, Eq)]
pub enum Change {
    Grant,
    Revoke,
}

/// What the word asks of a row; None for any other word.
#[tactic(auto, unfolding(crate::specs::Lines::change_of))]
fn change_of(word: &[u8]) -> Option<Change>
    ensures { result ≡ change_of word.now }
{
    if word == b"grant".as_slice() {
        return Some(Change::Grant);
    }
    if word == b"revoke".as_slice() {
        return Some(Change::Revoke);
    }
    None
}

/// What the actor asks of the row.
fn asked(change: Change, actor: Text, row: GrantRow) -> GrantAsk
    ensures { result ≡ asked change actor row }
{
    match change {
        Change::Grant => GrantAsk::Grant { actor, row },
        Change::Revoke => GrantAsk::Revoke { actor, row },
    }
}

/// What this actor asks of the row in JSON.
fn row_line(alloc: Global, change: Change, actor: Text, json: &[u8]) -> Result<GrantLine, LineFault>
    ensures { Reads result (row_read change (Some actor) (Some json.now)) }
{
    match read_grant(alloc, json) {
        Ok(row) => Ok(GrantLine::Ask(asked(change, actor, row))),
        Err(WireFault::Bad { .. }) => Err(LineFault::Bad),
        Err(WireFault::NoMemory) => Err(LineFault::NoMemory),
    }
}

/// What an actor asks of a row whose name stands before the first space.
fn change_line(alloc: Global, change: Change, rest: &[u8]) -> Result<GrantLine, LineFault>
    ensures { Reads result
        (row_read change (actor_of (front_word rest.now)) (behind_space rest.now)) }
{
    let (word, json) = split_word(rest);
    let actor = match actor_of(alloc, word) {
        Ok(actor) => actor,
        Err(_) => return Err(LineFault::NoMemory),
    };
    match (actor, json) {
        (Some(actor), Some(json)) => row_line(alloc, change, actor, json),
        (_, _) => Err(LineFault::Bad),
    }
}

/// The line, where it may stand in a script of grants.
fn plain_line(line: Line) -> Option<GrantLine>
    ensures { result ≡ plain_line line }
{
    match line {
        Line::Blank => Some(GrantLine::Blank),
        Line::Config(config) => Some(GrantLine::Config(config)),
        Line::Admin(ask) => Some(GrantLine::Ask(GrantAsk::Plain(ask))),
        Line::Decide(request) => Some(GrantLine::Decide(request)),
        Line::Facts(_) | Line::Refresh => None,
    }
}

/// Reads a line that asks nothing of a row.
fn other_line(alloc: Global, line: &[u8], now: Moment) -> Result<GrantLine, LineFault>
    ensures { Reads result (option_and_then plain_line (line_of line.now now)) }
{
    match read_line(alloc, line, now) {
        Ok(read) => match plain_line(read) {
            Some(line) => Ok(line),
            None => Err(LineFault::Bad),
        },
        Err(LineFault::Bad) => Err(LineFault::Bad),
        Err(LineFault::NoMemory) => Err(LineFault::NoMemory),
    }
}

/// Reads a line of either kind.
fn any_line(alloc: Global, line: &[u8], now: Moment) -> Result<GrantLine, LineFault>
    ensures { Reads result (grant_line_of line.now now) }
{
    let (word, rest) = split_word(line);
    match (change_of(word), rest) {
        (Some(change), Some(rest)) => change_line(alloc, change, rest),
        (Some(_), None) => Err(LineFault::Bad),
        (None, _) => other_line(alloc, line, now),
    }
}

/// Reads a line of a script of grants, which is worked at this moment: a line of a script but for `facts` and `refresh`, or
/// `grant` or `revoke`, an actor and a row.
#[tactic(auto, using(crate::proofs::Readings::read_so, crate::proofs::Readings::bad_so))]
pub fn read_grant_line(alloc: Global, line: &[u8], now: Moment) -> Result<GrantLine, LineFault>
    ensures ok { IfOk result (λ read. grant_line_of line.now now ≡ Some read) }
    ensures bad { result ≡ Err LineFault.Bad → grant_line_of line.now now ≡ None }
{
    any_line(alloc, line, now)
}
