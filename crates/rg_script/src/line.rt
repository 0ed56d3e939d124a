// The lines of a script, read.
ghost use Rattle.std.specs.Prelude.{◌≡◌, Some, None, IfOk, option_map};
ghost use Rattle.rg_script.specs.Line.{Reads, actor_of, ask_read, asked_by, config_read, facts_read, is_blank, line_from, line_of, line_read, request_read, worded};
ghost use Rattle.rg_script.specs.Words.{behind_space, front_word};
ghost use Rattle.rg_cmd_wire.specs.Reading.{command_reading};

use crate::cause::Cause;
use crate::lines::split_word;
use crate::word::Word;
use rg_base::{Moment, NoMemory, Text, is_name};
use rg_cmd::{Ask, Config};
use rg_cmd_wire::{read_command, read_config};
use rg_facts::Facts;
use rg_policy::AccessRequest;
use rg_wire::{WireFault, read_facts, read_request};
use std::alloc::Global;

/// A line of a script.
#[derive(Drop)]
pub enum Line {
    /// An empty line, or one that begins with `#`.
    Blank,
    /// `facts JSON`.
    Facts(Facts),
    /// `config JSON`.
    Config(Config),
    /// `admin ACTOR JSON`.
    Admin(Ask),
    /// `refresh`.
    Refresh,
    /// `decide JSON`.
    Decide(AccessRequest),
}

/// Why there is no line.
#[derive(Clone, Copy, Debug, PartialEq, Eq)]
pub enum LineFault {
    /// It is of no form, or its JSON doesn't read.
    Bad,
    NoMemory,
}

/// Why a line isn't read.
#[derive(Drop)]
pub(crate) enum Unread {
    Bad(Cause),
    NoMemory,
}

fn is_blank(line: &[u8]) -> bool
    ensures { result ≡ is_blank line.now }
{
    match line {
        [] => true,
        [first, ..] => *first == b'#',
    }
}

fn facts_line(alloc: Global, json: &[u8]) -> Result<Line, Unread>
    ensures { Reads result (facts_read json.now) }
{
    match read_facts(alloc, json) {
        Ok(facts) => Ok(Line::Facts(facts)),
        Err(WireFault::Bad { path, kind }) => Err(Unread::Bad(Cause::Json { path, kind })),
        Err(WireFault::NoMemory) => Err(Unread::NoMemory),
    }
}

fn config_line(alloc: Global, json: &[u8]) -> Result<Line, Unread>
    ensures { Reads result (config_read json.now) }
{
    match read_config(alloc, json) {
        Ok(config) => Ok(Line::Config(config)),
        Err(WireFault::Bad { path, kind }) => Err(Unread::Bad(Cause::Json { path, kind })),
        Err(WireFault::NoMemory) => Err(Unread::NoMemory),
    }
}

/// The text, where it is 1 to 256 characters of UTF-8.
#[tactic(auto, unfolding(crate::specs::Line::actor_of))]
pub fn actor_of(alloc: Global, text: &[u8]) -> Result<Option<Text>, NoMemory>
    ensures { IfOk result (λ actor. actor ≡ actor_of text.now) }
{
    let Ok(actor) = str::from_utf8(text) else {
        return Ok(None);
    };
    if !is_name(actor) {
        return Ok(None);
    }
    match Text::copy_of(alloc, actor) {
        Ok(actor) => Ok(Some(actor)),
        Err(NoMemory) => Err(NoMemory),
    }
}

/// What this actor asks.
fn command_line(alloc: Global, actor: Text, json: &[u8]) -> Result<Line, Unread>
    ensures { Reads result (line_from (asked_by actor) (command_reading json.now)) }
{
    match read_command(alloc, json) {
        Ok(command) => Ok(Line::Admin(Ask { actor, command })),
        Err(WireFault::Bad { path, kind }) => Err(Unread::Bad(Cause::Json { path, kind })),
        Err(WireFault::NoMemory) => Err(Unread::NoMemory),
    }
}

/// What an actor asks whose name stands before the first space.
fn admin_line(alloc: Global, rest: &[u8]) -> Result<Line, Unread>
    ensures { Reads result (ask_read (actor_of (front_word rest.now)) (behind_space rest.now)) }
{
    let (word, json) = split_word(rest);
    let actor = match actor_of(alloc, word) {
        Ok(actor) => actor,
        Err(_) => return Err(Unread::NoMemory),
    };
    match (actor, json) {
        (Some(actor), Some(json)) => command_line(alloc, actor, json),
        (_, _) => Err(Unread::Bad(Cause::NoWord)),
    }
}

fn decide_line(alloc: Global, json: &[u8], now: Moment) -> Result<Line, Unread>
    ensures { Reads result (request_read now json.now) }
{
    match read_request(alloc, json, now) {
        Ok(request) => Ok(Line::Decide(request)),
        Err(WireFault::Bad { path, kind }) => Err(Unread::Bad(Cause::Json { path, kind })),
        Err(WireFault::NoMemory) => Err(Unread::NoMemory),
    }
}

/// What a line asks that begins with this word.
fn worded_line(
    alloc: Global,
    word: Option<Word>,
    rest: Option<&[u8]>,
    now: Moment,
) -> Result<Line, Unread>
    ensures { Reads result (worded now word (option_map (λ rest. rest.now) rest.entry)) }
{
    let Some(word) = word else {
        return Err(Unread::Bad(Cause::NoWord));
    };
    match rest {
        Some(rest) => match word {
            Word::Facts => facts_line(alloc, rest),
            Word::Config => config_line(alloc, rest),
            Word::Admin => admin_line(alloc, rest),
            Word::Refresh => Err(Unread::Bad(Cause::NoWord)),
            Word::Decide => decide_line(alloc, rest, now),
        },
        None => match word {
            Word::Refresh => Ok(Line::Refresh),
            _ => Err(Unread::Bad(Cause::NoWord)),
        },
    }
}

/// What a line asks, or why it isn't read.
#[tactic(auto, unfolding(crate::specs::Line::line_read))]
pub(crate) fn line_or_cause(alloc: Global, line: &[u8], now: Moment) -> Result<Line, Unread>
    ensures { Reads result (line_read line.now now) }
{
    if is_blank(line) {
        return Ok(Line::Blank);
    }
    let (word, rest) = split_word(line);
    worded_line(alloc, Word::spelled(word), rest, now)
}

/// Reads a line, which is worked at this moment.
pub fn read_line(alloc: Global, line: &[u8], now: Moment) -> Result<Line, LineFault>
    ensures ok { IfOk result (λ read. line_of line.now now ≡ Some read) }
    ensures bad { result ≡ Err LineFault.Bad → line_of line.now now ≡ None }
{
    match line_or_cause(alloc, line, now) {
        Ok(read) => Ok(read),
        Err(Unread::Bad(_)) => Err(LineFault::Bad),
        Err(Unread::NoMemory) => Err(LineFault::NoMemory),
    }
}
