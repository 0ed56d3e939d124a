// The words of the command line.
ghost use Rattle.std.specs.Prelude.{◌≡◌, IfOk, OnErr, is_some, map, string_bytes, true};
ghost use Rattle.clap.specs.Words.{app_of, found_of, matches_of, rows_of};
ghost use Rattle.rg_test_script.specs.CommandLine.{form_of};
ghost use Rattle.rg_test_script.specs.Flags.{form_app};

use crate::form::Form;
use clap::{Arg, ArgAction, ArgMatches};
use rg_base::NoMemory;
use std::alloc::{AllocError, Global};

/// How the words are read: a flag.
fn command_line<'a>(alloc: Global) -> Result<clap::Command<'a>, AllocError>
    ensures { IfOk result (λ line. app_of line ≡ form_app) }
{
    let junit = Arg::new(alloc, "JUNIT")
        .long("junit")
        .action(ArgAction::SetTrue);
    clap::Command::new(alloc, "rangerd-test")
        .no_binary_name(true)
        .disable_help_flag(true)
        .arg(junit)
}

/// The words as `clap` reads them. Where they ask for a form, it refuses them for want of memory alone.
fn matches_of<'a>(alloc: Global, words: &'a [String]) -> Result<ArgMatches<'a>, NoMemory>
    ensures { IfOk result (λ matches. rows_of (found_of matches)
        ≡ matches_of form_app (map string_bytes words.entry.now)) }
{
    let line = command_line(alloc)?;
    match line.try_get_matches_from(words) {
        Ok(matches) => Ok(matches),
        Err(_) => Err(NoMemory),
    }
}

fn ask_for_form(words: &[String]) -> bool
    ensures { result ≡ is_some (form_of (map string_bytes words.now)) }
{
    match words {
        [] => true,
        [word] => word.as_str() == "--junit",
        _ => false,
    }
}

/// The form that the words ask for; None where they ask for none.
pub(crate) fn form_of(alloc: Global, words: &[String]) -> Result<Option<Form>, NoMemory>
    ensures form { IfOk result (λ form. form ≡ form_of (map string_bytes words.now)) }
    ensures refused { OnErr result (is_some (form_of (map string_bytes words.now)) ≡ true) }
{
    if !ask_for_form(words) {
        return Ok(None);
    }
    let matches = matches_of(alloc, words)?;
    if matches.get_flag("JUNIT") {
        Ok(Some(Form::Junit))
    } else {
        Ok(Some(Form::Words))
    }
}
