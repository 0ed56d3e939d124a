// What a comment of a script expects of the line before it.
ghost use Rattle.std.specs.Prelude.{◌≡◌, ◌++◌, IfOk, codes, option_map};
ghost use Rattle.std.specs.Fmt.{signed_decimal};
ghost use Rattle.std.specs.List.{list_any};
ghost use Rattle.std.specs.Str.{bytes_eq, encode_utf8_all};
ghost use Rattle.serde_json.specs.Written.{compact_text};
ghost use Rattle.rg_json.specs.Printing.{option_data, text_data};
ghost use Rattle.rg_wire.specs.Printing.{decision_text};
ghost use Rattle.rg_test_script.specs.Expecting.{begins_object, form_words, is_form, is_met, mask_type, said_of, wanted_by};

use crate::outcome::Outcome;
use rg_base::{NoMemory, PolicyId, Text};
use rg_facts::{Decision, MaskText};
use rg_json::{ToJson, text_of};
use rg_script::split_word;
use rg_wire::{Key, access_word, print_decision};
use std::alloc::Global;

/// What is expected by such a comment; None of any other line.
pub(crate) fn wanted_by(line: &[u8]) -> Option<&[u8]>
    ensures { option_map (λ wanted. wanted.now) result ≡ wanted_by line.now }
{
    line.strip_prefix(b"# expect ")
}

fn begins_object(wanted: &[u8]) -> bool
    ensures { result ≡ begins_object wanted.now }
{
    match wanted {
        [] => false,
        [first, ..] => *first == b'{',
    }
}

fn is_word(word: &[u8], form: &str) -> bool
    ensures { result ≡ bytes_eq word.now form.now }
{
    word == form.as_bytes()
}

/// Whether a form begins with the word.
fn is_form_word(word: &[u8]) -> bool
    ensures { result ≡ list_any (bytes_eq word.now) form_words }
{
    is_word(word, "ALLOWED")
        || is_word(word, "DENIED")
        || is_word(word, "UNDETERMINED")
        || is_word(word, "filter")
        || is_word(word, "mask")
}

/// Whether it is of a form.
#[tactic(auto, unfolding(crate::specs::Expecting::is_form))]
pub(crate) fn is_form(wanted: &[u8]) -> bool
    ensures { result ≡ is_form wanted.now }
{
    is_form_word(split_word(wanted).0) || begins_object(wanted)
}

// ---- what can be expected of a decision

fn is_access_by(
    alloc: Global,
    wanted: &str,
    access: &str,
    policy: PolicyId,
) -> Result<bool, NoMemory>
    ensures { IfOk result
        (λ is. is ≡ bytes_eq wanted.now (access.now ++ (codes " " ++ signed_decimal policy.0))) }
{
    let id = policy.0;
    let said = format!(in alloc; "{access} {id}")?;
    Ok(wanted == said.as_str())
}

/// The row filter as the decision line spells it.
#[tactic(auto, using(crate::proofs::Said::filters))]
fn filter_text(alloc: Global, filter: &Option<Text>) -> Result<Text, NoMemory>
    ensures { IfOk result
        (λ t. encode_utf8_all t ≡ compact_text (option_data text_data filter.now)) }
{
    let value = <Option<Text> as ToJson<Key>>::json(filter, alloc)?;
    text_of(alloc, &value)
}

fn is_filter(alloc: Global, wanted: &str, filter: &Option<Text>) -> Result<bool, NoMemory>
    ensures { IfOk result (λ is. is ≡ bytes_eq wanted.now
        (codes "filter " ++ compact_text (option_data text_data filter.now))) }
{
    let filter = filter_text(alloc, filter)?;
    let filter = filter.as_str();
    let said = format!(in alloc; "filter {filter}")?;
    Ok(wanted == said.as_str())
}

fn mask_type(mask: &Option<MaskText>) -> &str
    ensures { result.now ≡ mask_type mask.now }
{
    match mask {
        None => "null",
        Some(mask) => mask.kind.as_str(),
    }
}

fn is_mask(alloc: Global, wanted: &str, mask: &Option<MaskText>) -> Result<bool, NoMemory>
    ensures { IfOk result (λ is. is ≡ bytes_eq wanted.now (codes "mask " ++ mask_type mask.now)) }
{
    let mask = mask_type(mask);
    let said = format!(in alloc; "mask {mask}")?;
    Ok(wanted == said.as_str())
}

fn is_decision(alloc: Global, wanted: &str, decision: &Decision) -> Result<bool, NoMemory>
    ensures { IfOk result (λ is. is ≡ bytes_eq wanted.now (decision_text decision.now)) }
{
    let said = print_decision(alloc, decision)?;
    Ok(wanted == said.as_str())
}

/// Whether a decision is as it is expected.
fn is_said(alloc: Global, wanted: &str, decision: &Decision) -> Result<bool, NoMemory>
    ensures { IfOk result (λ is. is ≡ list_any (bytes_eq wanted.now) (said_of decision.now)) }
{
    let access = access_word(decision.access);
    if wanted == access {
        return Ok(true);
    }
    if is_access_by(alloc, wanted, access, decision.policy)? {
        return Ok(true);
    }
    if is_filter(alloc, wanted, &decision.filter)? {
        return Ok(true);
    }
    if is_mask(alloc, wanted, &decision.mask)? {
        return Ok(true);
    }
    is_decision(alloc, wanted, decision)
}

// ---- what a line came to

fn is_line(alloc: Global, wanted: &str, line: &str) -> Result<bool, NoMemory>
    ensures { IfOk result (λ is. is ≡ bytes_eq line.now (wanted.now ++ codes "\n")) }
{
    let said = format!(in alloc; "{wanted}\n")?;
    Ok(line == said.as_str())
}

/// Whether what is expected is so.
pub(crate) fn is_met(alloc: Global, wanted: &str, outcome: &Outcome) -> Result<bool, NoMemory>
    ensures { IfOk result (λ met. met ≡ is_met wanted.now outcome.now) }
{
    match outcome {
        Outcome::Nothing => Ok(false),
        Outcome::Printed(line) => is_line(alloc, wanted, line.as_str()),
        Outcome::Decided(_, decision) => is_said(alloc, wanted, decision),
    }
}
