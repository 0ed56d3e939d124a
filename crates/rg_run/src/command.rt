// The words of the command line.
ghost use Rattle.std.specs.Prelude.{◌≡◌, IfOk, map, string_bytes};
ghost use Rattle.std.specs.Char.{is_ascii_digit};
ghost use Rattle.std.specs.List.{list_all};
ghost use Rattle.clap.specs.Words.{app_of, found_of, matches_of, rows_of};
ghost use Rattle.rg_run.specs.CommandLine.{words_app};
ghost use Rattle.rg_run.specs.Commands.{command_of, drill_of, grants_of, is_numeral, is_plain, keep_of, named, number_in, number_of, replay_of, report_of, serve_of};

use clap::{Arg, ArgAction, ArgMatches};
use rg_base::{NoMemory, Text};
use std::alloc::{AllocError, Global};

/// What the words ask for.
#[derive(Drop)]
pub enum Command {
    /// Reads a script to its end, and then works it line by line.
    Replay,
    /// Serves up to so many links, 1 to 1,000,000, at an address.
    Serve {
        address: Text,
        links: u32,
    },
    /// Makes up to 5,000 policies and 100,000 requests from a seed, and decides the requests.
    Drill {
        seed: u32,
        policies: u32,
        requests: u32,
    },
    /// Reads a script of grants to its end, and then works it line by line.
    Grants,
    /// Reads a script of facts to its end, and then prints who may do what with the resources that it asks about.
    Report,
    /// Reads a script of an administration to its end, and then works it line by line over the records of a keeper.
    Keep,
}

/// Whether the word is neither an option nor `help`.
#[tactic(auto, unfolding(crate::specs::Commands::is_plain))]
fn is_plain(word: &str) -> bool
    ensures { result ≡ is_plain word.now }
{
    match word.as_bytes() {
        [b'-', ..] => false,
        _ => word != "help",
    }
}

fn has_digits_alone(word: &str) -> bool
    ensures { result ≡ list_all is_ascii_digit word.now }
{
    word.bytes().all(|byte| byte.is_ascii_digit())
}

fn is_numeral(word: &str) -> bool
    ensures { result ≡ is_numeral word.now }
{
    1 <= word.len() && word.len() <= 10 && has_digits_alone(word)
}

/// The number that 1 to 10 decimal digits write, where it is a `u32`.
fn number_of(word: &str) -> Option<u32>
    ensures { result ≡ number_of word.now }
{
    if !is_numeral(word) {
        return None;
    }
    word.parse::<u32>().ok()
}

/// The number that the word writes, within the bounds.
#[tactic(auto, unfolding(crate::specs::Commands::number_in))]
fn number_in(low: u32, high: u32, word: &str) -> Option<u32>
    ensures { result ≡ number_in low high word.now }
{
    match number_of(word) {
        Some(number) if low <= number && number <= high => Some(number),
        _ => None,
    }
}

fn replay_of(parts: &[&str]) -> Option<Command>
    ensures { result ≡ replay_of (map (λ part. part.now) parts.now) }
{
    match parts {
        [] => Some(Command::Replay),
        _ => None,
    }
}

fn report_of(parts: &[&str]) -> Option<Command>
    ensures { result ≡ report_of (map (λ part. part.now) parts.now) }
{
    match parts {
        [] => Some(Command::Report),
        _ => None,
    }
}

/// `serve ADDRESS LINKS`.
fn serve_of(alloc: Global, parts: &[&str]) -> Result<Option<Command>, NoMemory>
    ensures { IfOk result (λ command. command ≡ serve_of (map (λ part. part.now) parts.now)) }
{
    let [address, links] = parts else {
        return Ok(None);
    };
    let Some(links) = number_in(1, 1_000_000, links) else {
        return Ok(None);
    };
    let address = Text::copy_of(alloc, address)?;
    Ok(Some(Command::Serve { address, links }))
}

/// `drill SEED POLICIES REQUESTS`.
fn drill_of(parts: &[&str]) -> Option<Command>
    ensures { result ≡ drill_of (map (λ part. part.now) parts.now) }
{
    let [seed, policies, requests] = parts else {
        return None;
    };
    Some(Command::Drill {
        seed: number_in(0, u32::MAX, seed)?,
        policies: number_in(0, 5_000, policies)?,
        requests: number_in(0, 100_000, requests)?,
    })
}

fn grants_of(parts: &[&str]) -> Option<Command>
    ensures { result ≡ grants_of (map (λ part. part.now) parts.now) }
{
    match parts {
        [] => Some(Command::Grants),
        _ => None,
    }
}

fn keep_of(parts: &[&str]) -> Option<Command>
    ensures { result ≡ keep_of (map (λ part. part.now) parts.now) }
{
    match parts {
        [] => Some(Command::Keep),
        _ => None,
    }
}

/// The command of this name with these parts.
#[tactic(auto, unfolding(crate::specs::Commands::named))]
fn named(alloc: Global, word: &str, parts: &[&str]) -> Result<Option<Command>, NoMemory>
    ensures { IfOk result (λ command. command ≡ named word.now (map (λ part. part.now) parts.now)) }
{
    match word {
        "replay" => Ok(replay_of(parts)),
        "serve" => serve_of(alloc, parts),
        "drill" => Ok(drill_of(parts)),
        "grants" => Ok(grants_of(parts)),
        "report" => Ok(report_of(parts)),
        "keep" => Ok(keep_of(parts)),
        _ => Ok(None),
    }
}

/// How the words are read: one that is needed, and any number after it.
fn command_line<'a>(alloc: Global) -> Result<clap::Command<'a>, AllocError>
    ensures { IfOk result (λ line. app_of line ≡ words_app) }
{
    let word = Arg::new(alloc, "WORD")
        .required(true)
        .action(ArgAction::Set);
    let parts = Arg::new(alloc, "PART")
        .num_args(0..)
        .action(ArgAction::Append);
    clap::Command::new(alloc, "rangerd")
        .no_binary_name(true)
        .disable_help_flag(true)
        .arg(word)?
        .arg(parts)
}

/// The words as `clap` reads them. Where all are plain and there is one, it refuses them for want of memory alone.
fn matches_of<'a>(alloc: Global, words: &'a [String]) -> Result<ArgMatches<'a>, NoMemory>
    ensures { IfOk result (λ matches. rows_of (found_of matches)
        ≡ matches_of words_app (map string_bytes words.entry.now)) }
{
    let line = command_line(alloc)?;
    match line.try_get_matches_from(words) {
        Ok(matches) => Ok(matches),
        Err(_) => Err(NoMemory),
    }
}

fn are_plain(words: &[String]) -> bool
    ensures { result ≡ list_all (λ word. is_plain (string_bytes word)) words.now }
{
    words.iter().all(|word| is_plain(word.as_str()))
}

/// The command that the words ask for; None where they ask for none.
pub(crate) fn command_of(alloc: Global, words: &[String]) -> Result<Option<Command>, NoMemory>
    ensures { IfOk result (λ command. command ≡ command_of (map string_bytes words.now)) }
{
    if words.is_empty() {
        return Ok(None);
    }
    if !are_plain(words) {
        return Ok(None);
    }
    let matches = matches_of(alloc, words)?;
    let word = match matches.get_str("WORD") {
        Some(word) => word,
        None => return Ok(None),
    };
    match matches.get_raw("PART") {
        Some(parts) => named(alloc, word, parts),
        None => named(alloc, word, &[]),
    }
}
