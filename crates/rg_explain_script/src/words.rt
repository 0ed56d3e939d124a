// The words of the command line.
ghost use Rattle.std.specs.Prelude.{◌≡◌, Bool, IfOk, OnErr, Some, codes, is_some, length, map, option_and_then, string_bytes, true};
ghost use Rattle.std.specs.Char.{is_ascii_digit};
ghost use Rattle.std.specs.List.{filter, list_all};
ghost use Rattle.clap.specs.Words.{app_of, first_value, found_of, matches_of, one_text, rows_of};
ghost use Rattle.rg_explain_script.specs.CommandLine.{are_spelled, flag_text, words_app};
ghost use Rattle.rg_explain_script.specs.Words.{is_all, is_json, is_known, is_number, is_numeral, number_of, options_by, options_of};

use crate::options::{Form, Options, Style, Wanted};
use clap::{Arg, ArgAction, ArgMatches};
use rg_base::NoMemory;
use std::alloc::{AllocError, Global};

#[tactic(auto, unfolding(crate::specs::Words::is_json))]
fn is_json(word: &str) -> bool
    ensures { result ≡ is_json word.now }
{
    word == "--json"
}

#[tactic(auto, unfolding(crate::specs::Words::is_all))]
fn is_all(word: &str) -> bool
    ensures { result ≡ is_all word.now }
{
    word == "--all"
}

fn has_digits_alone(word: &str) -> bool
    ensures { result ≡ list_all is_ascii_digit word.now }
{
    word.bytes().all(|byte| byte.is_ascii_digit())
}

fn is_numeral(word: &str) -> bool
    ensures { result ≡ is_numeral word.now }
{
    match word.as_bytes() {
        [] | [b'0', ..] => false,
        _ => has_digits_alone(word),
    }
}

/// The number that decimal digits write without a leading zero, where it is a `u32`.
fn number_of(word: &str) -> Option<u32>
    ensures { result ≡ number_of word.now }
{
    if !is_numeral(word) {
        return None;
    }
    word.parse::<u32>().ok()
}

#[tactic(auto, unfolding(crate::specs::Words::is_number))]
fn is_number(word: &str) -> bool
    ensures { result ≡ is_number word.now }
{
    number_of(word).is_some()
}

fn is_known(word: &str) -> bool
    ensures { result ≡ is_known word.now }
{
    is_json(word) || is_all(word) || is_number(word)
}

fn are_known(words: &[String]) -> bool
    ensures { result ≡ list_all (λ word. is_known (string_bytes word)) words.now }
{
    words.iter().all(|word| is_known(word.as_str()))
}

fn times_json(words: &[String]) -> usize
    ensures { result ≡ length (filter (λ word. is_json (string_bytes word)) words.now) }
{
    words.iter().filter(|word| is_json(word.as_str())).count()
}

fn times_all(words: &[String]) -> usize
    ensures { result ≡ length (filter (λ word. is_all (string_bytes word)) words.now) }
{
    words.iter().filter(|word| is_all(word.as_str())).count()
}

fn times_numbered(words: &[String]) -> usize
    ensures { result ≡ length (filter (λ word. is_number (string_bytes word)) words.now) }
{
    words.iter().filter(|word| is_number(word.as_str())).count()
}

/// Whether each word is a flag or a number, and none of the three is there twice.
fn are_fitting(words: &[String]) -> bool
    ensures { result ≡ are_spelled string_bytes words.now }
{
    are_known(words)
        && times_json(words) <= 1
        && times_all(words) <= 1
        && times_numbered(words) <= 1
}

/// How the words are read: two flags, and a number.
fn command_line<'a>(alloc: Global) -> Result<clap::Command<'a>, AllocError>
    ensures { IfOk result (λ line. app_of line ≡ words_app) }
{
    let json = Arg::new(alloc, "json")
        .long("json")
        .action(ArgAction::SetTrue);
    let all = Arg::new(alloc, "all")
        .long("all")
        .action(ArgAction::SetTrue);
    let number = Arg::new(alloc, "N").action(ArgAction::Set);
    clap::Command::new(alloc, "rangerd-explain")
        .no_binary_name(true)
        .disable_help_flag(true)
        .arg(json)?
        .arg(all)?
        .arg(number)
}

/// The words as `clap` reads them. Where they fit, it refuses them for want of memory alone.
fn matches_of<'a>(alloc: Global, words: &'a [String]) -> Result<ArgMatches<'a>, NoMemory>
    ensures { IfOk result (λ matches. rows_of (found_of matches)
        ≡ matches_of words_app (map string_bytes words.entry.now)) }
{
    let line = command_line(alloc)?;
    match line.try_get_matches_from(words) {
        Ok(matches) => Ok(matches),
        Err(_) => Err(NoMemory),
    }
}

fn has_flag(matches: &ArgMatches, id: &str) -> bool
    ensures { (is : Bool) → one_text (found_of matches.now) id.now ≡ Some (flag_text is)
        → result ≡ is }
{
    matches.get_flag(id)
}

fn number_in(matches: &ArgMatches) -> Option<u32>
    ensures { result ≡ option_and_then number_of (first_value (found_of matches.now) (codes "N")) }
{
    match matches.get_str("N") {
        Some(word) => number_of(word),
        None => None,
    }
}

fn options_by(json: bool, all: bool, number: Option<u32>) -> Options
    ensures { result ≡ options_by json all number }
{
    let form = if json { Form::Json } else { Form::Words };
    let wanted = match number {
        Some(number) => Wanted::After(number.saturating_sub(1)),
        None => Wanted::Every,
    };
    Options {
        style: Style { form, all },
        wanted,
    }
}

/// What the words ask for; None where they ask for nothing. Memory is refused only to words that ask for something.
pub(crate) fn options_of(alloc: Global, words: &[String]) -> Result<Option<Options>, NoMemory>
    ensures asked { IfOk result (λ options. options ≡ options_of (map string_bytes words.now)) }
    ensures refused { OnErr result (is_some (options_of (map string_bytes words.now)) ≡ true) }
{
    if !are_fitting(words) {
        return Ok(None);
    }
    let matches = matches_of(alloc, words)?;
    let json = has_flag(&matches, "json");
    let all = has_flag(&matches, "all");
    let number = number_in(&matches);
    Ok(Some(options_by(json, all, number)))
}
