// What is told of one policy, in words.
ghost use Rattle.std.specs.Prelude.{◌≡◌, ◌++◌, IfOk, codes, flat_map, option_map, string_bytes};
ghost use Rattle.rg_facts.specs.Flow.{denies};
ghost use Rattle.rg_explain_wire.specs.Words.{by_words, denies_by_item, effect_word, effect_words, match_words, matches_words, miss_words, standing_words, subject_words};

use crate::names::{after_word, owned, with_name};
use rg_base::NoMemory;
use rg_standing::{Match, Matches, Miss, Standing, Subject};
use std::alloc::Global;

// ---- what matches

#[tactic(auto, unfolding(crate::specs::Words::subject_words))]
fn subject_words(alloc: Global, subject: &Subject) -> Result<String, NoMemory>
    ensures { IfOk result (λ s. string_bytes s ≡ subject_words subject.now) }
{
    match subject {
        Subject::EveryUser => owned(alloc, "{USER}"),
        Subject::Owner => owned(alloc, "{OWNER}"),
        Subject::User => owned(alloc, "the user's name"),
        Subject::Group(name) => after_word(alloc, "group ", name),
        Subject::Everybody => owned(alloc, "public"),
        Subject::Role(name) => after_word(alloc, "role ", name),
    }
}

/// By whom an item matches or a role holds the user. Each has a subject.
#[tactic(auto, unfolding(crate::specs::Words::by_words))]
pub(crate) fn by_words(alloc: Global, subject: Option<&Subject>) -> Result<String, NoMemory>
    ensures { IfOk result (λ s. string_bytes s ≡ by_words (option_map (λ x. x.now) subject.entry)) }
{
    match subject {
        Some(subject) => {
            let name = subject_words(alloc, subject)?;
            let name = name.as_str();
            Ok(format!(in alloc; " by {name}")?)
        }
        None => Ok(String::new(alloc)),
    }
}

/// The item of one list, if one matches.
#[tactic(auto, unfolding(crate::specs::Words::match_words))]
fn match_words(alloc: Global, list: &str, found: Option<&Match>) -> Result<String, NoMemory>
    ensures { IfOk result
        (λ s. string_bytes s ≡ match_words list.now (option_map (λ m. m.now) found.entry)) }
{
    match found {
        Some(found) => {
            let item = found.item;
            let by = by_words(alloc, found.subject.as_ref())?;
            let by = by.as_str();
            Ok(format!(in alloc; "; {list} {item} matches{by}")?)
        }
        None => Ok(String::new(alloc)),
    }
}

/// The first item of each list that matches.
#[tactic(auto, unfolding(crate::specs::Words::matches_words))]
fn matches_words(alloc: Global, matches: &Matches) -> Result<String, NoMemory>
    ensures { IfOk result (λ s. string_bytes s ≡ matches_words matches.now) }
{
    let deny = match_words(alloc, "deny item", matches.deny.as_ref())?;
    let not_denied = match_words(alloc, "deny exception", matches.deny_exception.as_ref())?;
    let allow = match_words(alloc, "allow item", matches.allow.as_ref())?;
    let not_allowed = match_words(alloc, "allow exception", matches.allow_exception.as_ref())?;
    let mask = match_words(alloc, "mask item", matches.mask.as_ref())?;
    let filter = match_words(alloc, "row filter item", matches.filter.as_ref())?;
    let deny = deny.as_str();
    let not_denied = not_denied.as_str();
    let allow = allow.as_str();
    let not_allowed = not_allowed.as_str();
    let mask = mask.as_str();
    let filter = filter.as_str();
    Ok(format!(in alloc; "{deny}{not_denied}{allow}{not_allowed}{mask}{filter}")?)
}

fn denies(cell: u8) -> bool
    ensures { result ≡ denies cell }
{
    cell == 1 || (cell == 2 || (cell == 5 || cell == 6))
}

/// Whether it denies by an item, and not by isDenyAllElse.
fn denies_by_item(matches: &Matches) -> bool
    ensures { result ≡ denies_by_item matches.now }
{
    matches.deny.is_some() && !matches.deny_exception.is_some()
}

#[tactic(auto, unfolding(crate::specs::Words::effect_word))]
fn effect_word(denies: bool, by_item: bool) -> &'static str
    ensures { result.now ≡ effect_word denies by_item }
{
    match (denies, by_item) {
        (false, _) => "allows",
        (true, true) => "denies",
        (true, false) => "denies all else",
    }
}

/// What a policy in play gives.
#[tactic(auto, unfolding(crate::specs::Words::effect_words))]
fn effect_words(alloc: Global, cell: Option<u8>, matches: &Matches) -> Result<String, NoMemory>
    ensures { IfOk result (λ s. string_bytes s ≡ effect_words cell matches.now) }
{
    match cell {
        Some(cell) => {
            let effect = effect_word(denies(cell), denies_by_item(matches));
            Ok(format!(in alloc; "{effect} in cell {cell}")?)
        }
        None => owned(alloc, "gives no access"),
    }
}

// ---- what keeps a policy out

#[tactic(auto, unfolding(crate::specs::Words::miss_words))]
fn miss_words(alloc: Global, miss: &Miss) -> Result<String, NoMemory>
    ensures { IfOk result (λ s. string_bytes s ≡ miss_words miss.now) }
{
    match miss {
        Miss::Level(name) => with_name(alloc, "; level ", name, " doesn't match"),
        Miss::Beyond(name) => after_word(alloc, "; it has no level ", name),
        Miss::Apart => owned(alloc, "; its levels lie on another path"),
    }
}

fn all_misses(alloc: Global, misses: &[Miss]) -> Result<String, NoMemory>
    ensures { IfOk result (λ s. string_bytes s ≡ flat_map miss_words misses.now) }
{
    let mut text = String::new(alloc);
    for miss in misses {
        let words = miss_words(alloc, miss)?;
        text.push_str(words.as_str())?;
    }
    Ok(text)
}

fn elsewhere_words(alloc: Global, misses: &[Miss]) -> Result<String, NoMemory>
    ensures { IfOk result
        (λ s. string_bytes s ≡ codes "lies elsewhere" ++ flat_map miss_words misses.now) }
{
    let misses = all_misses(alloc, misses)?;
    let misses = misses.as_str();
    Ok(format!(in alloc; "lies elsewhere{misses}")?)
}

fn in_play_words(alloc: Global, cell: Option<u8>, matches: &Matches) -> Result<String, NoMemory>
    ensures { IfOk result (λ s. string_bytes s ≡ codes "is in play and "
        ++ (effect_words cell matches.now ++ matches_words matches.now)) }
{
    let effect = effect_words(alloc, cell, matches)?;
    let items = matches_words(alloc, matches)?;
    let effect = effect.as_str();
    let items = items.as_str();
    Ok(format!(in alloc; "is in play and {effect}{items}")?)
}

/// How a policy that stands in this cell stands to the request.
#[tactic(auto, unfolding(crate::specs::Words::standing_words))]
pub(crate) fn standing_words(
    alloc: Global,
    cell: Option<u8>,
    standing: &Standing,
) -> Result<String, NoMemory>
    ensures { IfOk result (λ s. string_bytes s ≡ standing_words cell standing.now) }
{
    match standing {
        Standing::FarOff => owned(alloc, "is far off"),
        Standing::Disabled => owned(alloc, "is disabled"),
        Standing::Unscheduled => owned(alloc, "has no schedule that contains the moment"),
        Standing::Elsewhere(misses) => elsewhere_words(alloc, misses.as_slice()),
        Standing::Unmet(name) => with_name(
            alloc,
            "has the condition ",
            name,
            ", which doesn't hold",
        ),
        Standing::InPlay(matches) => in_play_words(alloc, cell, matches),
    }
}
