// The lines of a script of a kept administration, read.
ghost use Rattle.std.specs.Prelude.{◌≡◌, Err, None, Some, IfOk, option_and_then};
ghost use Rattle.rg_json.specs.Own.{IsText};
ghost use Rattle.rg_script.specs.Line.{actor_of, line_of};
ghost use Rattle.rg_script.specs.Words.{behind_space, front_word};
ghost use Rattle.rg_run_keep.specs.Lines.{IsInOrder, Reads, admin_line, ask_read, keep_line_of, plain_line};

use rg_ask_wire::commands_are_in_order;
use rg_base::{Moment, Text};
use rg_cmd::{Ask, Config};
use rg_cmd_wire::read_command;
use rg_json::WireFault;
use rg_policy::AccessRequest;
use rg_script::{Line, LineFault, actor_of, read_line, split_word};
use std::alloc::Global;

/// A line of a script of a kept administration.
#[derive(Drop)]
pub enum KeepLine {
    /// An empty line, or one that begins with `#`.
    Blank,
    /// `config JSON`.
    Config(Config),
    /// `admin ACTOR JSON`.
    Ask(Ask),
    /// `reopen`.
    Reopen,
    /// `decide JSON`.
    Decide(AccessRequest),
}

/// What this actor asks in JSON. It is in key order.
#[tactic(auto, using(crate::proofs::Readings::orders))]
fn ask_line(alloc: Global, actor: Text, json: &[u8]) -> Result<KeepLine, LineFault>
    requires { IsText actor }
    ensures reads { Reads result (ask_read (Some actor) (Some json.now)) }
    ensures in_order { IfOk result IsInOrder }
{
    match read_command(alloc, json) {
        Ok(command) => match commands_are_in_order(alloc, json) {
            Ok(()) => Ok(KeepLine::Ask(Ask { actor, command })),
            Err(_) => Err(LineFault::NoMemory),
        },
        Err(WireFault::Bad { .. }) => Err(LineFault::Bad),
        Err(WireFault::NoMemory) => Err(LineFault::NoMemory),
    }
}

/// What an actor asks whose name stands before the first space.
#[tactic(auto, using(crate::proofs::Readings::orders))]
fn admin_line(alloc: Global, rest: &[u8]) -> Result<KeepLine, LineFault>
    ensures reads { Reads result (admin_line (Some rest.now)) }
    ensures in_order { IfOk result IsInOrder }
{
    let (word, json) = split_word(rest);
    let actor = match actor_of(alloc, word) {
        Ok(actor) => actor,
        Err(_) => return Err(LineFault::NoMemory),
    };
    match (actor, json) {
        (Some(actor), Some(json)) => ask_line(alloc, actor, json),
        (_, _) => Err(LineFault::Bad),
    }
}

/// The line, where it may stand in such a script and asks nothing of the administration.
fn plain_line(line: Line) -> Option<KeepLine>
    ensures { result ≡ plain_line line }
{
    match line {
        Line::Blank => Some(KeepLine::Blank),
        Line::Config(config) => Some(KeepLine::Config(config)),
        Line::Decide(request) => Some(KeepLine::Decide(request)),
        Line::Admin(_) | Line::Facts(_) | Line::Refresh => None,
    }
}

/// Reads a line that asks nothing of the administration.
fn other_line(alloc: Global, line: &[u8], now: Moment) -> Result<KeepLine, LineFault>
    ensures reads { Reads result (option_and_then plain_line (line_of line.now now)) }
    ensures in_order { IfOk result IsInOrder }
{
    match read_line(alloc, line, now) {
        Ok(read) => match plain_line(read) {
            Some(line) => Ok(line),
            None => Err(LineFault::Bad),
        },
        Err(LineFault::Bad) => Err(LineFault::Bad),
        Err(LineFault::NoMemory) => Err(LineFault::NoMemory),
    }
}

/// Reads a line of any kind.
fn any_line(alloc: Global, line: &[u8], now: Moment) -> Result<KeepLine, LineFault>
    ensures reads { Reads result (keep_line_of line.now now) }
    ensures in_order { IfOk result IsInOrder }
{
    if line == b"reopen".as_slice() {
        return Ok(KeepLine::Reopen);
    }
    let (word, rest) = split_word(line);
    if word != b"admin".as_slice() {
        return other_line(alloc, line, now);
    }
    match rest {
        Some(rest) => admin_line(alloc, rest),
        None => Err(LineFault::Bad),
    }
}

/// Reads a line of a script of a kept administration, which is worked at this moment: a line of a script but for `facts` and
/// `refresh`, or `reopen`. What is asked is in key order.
#[tactic(auto, using(crate::proofs::Readings::read_so, crate::proofs::Readings::bad_so))]
pub fn read_keep_line(alloc: Global, line: &[u8], now: Moment) -> Result<KeepLine, LineFault>
    ensures ok { IfOk result (λ read. keep_line_of line.now now ≡ Some read) }
    ensures in_order { IfOk result IsInOrder }
    ensures bad { result ≡ Err LineFault.Bad → keep_line_of line.now now ≡ None }
{
    any_line(alloc, line, now)
}
