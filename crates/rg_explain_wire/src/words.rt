// An explanation in words for people.
ghost use Rattle.std.specs.Prelude.{◌≡◌, ◌++◌, IfOk, codes, flat_map, option_map, string_bytes};
ghost use Rattle.std.specs.Fmt.{signed_decimal};
ghost use Rattle.std.specs.Str.{chars, encode_utf8_all};
ghost use Rattle.rg_explain_wire.specs.Listing.{listed_policies};
ghost use Rattle.rg_explain_wire.specs.Words.{decided_words, decision_words, explanation_words, far_words, for_words, given_words, head_words, line_words, quoted, standing_words};

use crate::listing::{far_count, is_listed};
use crate::names::{quoted, with_name};
use crate::place::place_words;
use crate::reasons::standing_words;
use rg_base::{NoMemory, Text};
use rg_explain::{Explanation, Told};
use rg_facts::{ItemPlace, Verdict};
use rg_policy::AccessRequest;
use rg_wire::access_word;
use std::alloc::Global;

// ---- the decision

/// The policy of the deciding cell, or that there is none.
#[tactic(auto, unfolding(crate::specs::Words::decided_words))]
fn decided_words(alloc: Global, verdict: &Verdict, cell: Option<u8>) -> Result<String, NoMemory>
    ensures { IfOk result (λ s. string_bytes s ≡ decided_words verdict.now cell) }
{
    let access = access_word(verdict.access);
    let id = verdict.policy.0;
    match cell {
        Some(cell) => Ok(format!(in alloc; "{access} by policy {id} in cell {cell}.\n")?),
        None => Ok(format!(in alloc; "{access}, since no policy decides.\n")?),
    }
}

/// What an item gives beside the decision, if one does.
#[tactic(auto, unfolding(crate::specs::Words::given_words))]
fn given_words(alloc: Global, what: &str, place: Option<&ItemPlace>) -> Result<String, NoMemory>
    ensures { IfOk result
        (λ s. string_bytes s ≡ given_words what.now (option_map (λ p. p.now) place.entry)) }
{
    match place {
        Some(place) => {
            let item = place.item;
            let id = place.policy.0;
            Ok(format!(in alloc; "{what} by item {item} of policy {id}.\n")?)
        }
        None => Ok(String::new(alloc)),
    }
}

/// The decision, with the row filter and the mask.
#[tactic(auto, unfolding(crate::specs::Words::decision_words))]
fn decision_words(alloc: Global, explanation: &Explanation) -> Result<String, NoMemory>
    ensures { IfOk result (λ s. string_bytes s ≡ decision_words explanation.now) }
{
    let verdict = &explanation.verdict;
    let decided = decided_words(alloc, verdict, explanation.cell)?;
    let filter = given_words(alloc, "Rows are filtered", verdict.filter.as_ref())?;
    let mask = given_words(alloc, "Values are masked", verdict.mask.as_ref())?;
    let decided = decided.as_str();
    let filter = filter.as_str();
    let mask = mask.as_str();
    Ok(format!(in alloc; "{decided}{filter}{mask}")?)
}

#[tactic(auto, unfolding(crate::specs::Words::head_words))]
fn head_words(
    alloc: Global,
    request: &AccessRequest,
    explanation: &Explanation,
) -> Result<String, NoMemory>
    ensures { IfOk result (λ s. string_bytes s ≡ head_words request.now explanation.now) }
{
    let decision = decision_words(alloc, explanation)?;
    let place = place_words(alloc, request, explanation)?;
    let decision = decision.as_str();
    let place = place.as_str();
    Ok(format!(in alloc; "{decision}{place}")?)
}

// ---- the policies

/// Of a tag policy the tag that it is asked for.
#[tactic(auto, unfolding(crate::specs::Words::for_words))]
fn for_words(alloc: Global, tag: Option<&Text>) -> Result<String, NoMemory>
    ensures { IfOk result (λ s. string_bytes s ≡ for_words (option_map (λ t. t.now) tag.entry)) }
{
    match tag {
        Some(tag) => with_name(alloc, ", asked for the tag ", tag, ","),
        None => Ok(String::new(alloc)),
    }
}

/// Which policy it is, and the rest.
fn policy_line(alloc: Global, id: i64, name: &Text, rest: &str) -> Result<String, NoMemory>
    ensures { IfOk result (λ s. string_bytes s ≡ codes "Policy "
        ++ (signed_decimal id ++ (codes " " ++ (quoted name.now ++ rest.now)))) }
{
    let name = quoted(alloc, name)?;
    let name = name.as_str();
    Ok(format!(in alloc; "Policy {id} {name}{rest}")?)
}

/// For which tag it is asked, and how it stands to the request.
fn told_words(alloc: Global, told: &Told) -> Result<String, NoMemory>
    ensures { let rest = standing_words told.now.cell told.now.standing ++ codes ".\n" in
        IfOk result (λ s. string_bytes s ≡ for_words told.now.tag ++ (codes " " ++ rest)) }
{
    let asked = for_words(alloc, told.tag.as_ref())?;
    let standing = standing_words(alloc, told.cell, &told.standing)?;
    let asked = asked.as_str();
    let standing = standing.as_str();
    Ok(format!(in alloc; "{asked} {standing}.\n")?)
}

/// The line of a policy.
#[tactic(auto, unfolding(crate::specs::Words::line_words))]
fn line_words(alloc: Global, told: &Told) -> Result<String, NoMemory>
    ensures { IfOk result (λ s. string_bytes s ≡ line_words told.now) }
{
    let rest = told_words(alloc, told)?;
    policy_line(alloc, told.policy.0, &told.name, rest.as_str())
}

/// The lines of those that are listed.
fn listed_words(alloc: Global, explanation: &Explanation, all: bool) -> Result<String, NoMemory>
    ensures { IfOk result
        (λ s. string_bytes s ≡ flat_map line_words (listed_policies all explanation.now)) }
{
    let mut text = String::new(alloc);
    for told in explanation.policies.as_slice() {
        if is_listed(all, told) {
            let words = line_words(alloc, told)?;
            text.push_str(words.as_str())?;
        }
    }
    Ok(text)
}

/// How many are far off, where they aren't listed.
#[tactic(auto, unfolding(crate::specs::Words::far_words))]
fn far_words(alloc: Global, all: bool, count: usize) -> Result<String, NoMemory>
    ensures { IfOk result (λ s. string_bytes s ≡ far_words all count) }
{
    if all {
        return Ok(String::new(alloc));
    }
    Ok(format!(in alloc; "Further policies, of which no level matches: {count}.\n")?)
}

// ---- the whole

#[tactic(auto, unfolding(crate::specs::Words::explanation_words))]
fn all_words(
    alloc: Global,
    request: &AccessRequest,
    explanation: &Explanation,
    all: bool,
) -> Result<String, NoMemory>
    ensures { IfOk result
        (λ s. string_bytes s ≡ explanation_words all request.now explanation.now) }
{
    let head = head_words(alloc, request, explanation)?;
    let listed = listed_words(alloc, explanation, all)?;
    let far = far_words(alloc, all, far_count(explanation))?;
    let head = head.as_str();
    let listed = listed.as_str();
    let far = far.as_str();
    Ok(format!(in alloc; "{head}{listed}{far}")?)
}

/// Prints an explanation of a request in words, with all policies or with those that aren't far off: lines, each with its LF. A
/// name stands as a JSON string, so that none breaks a line.
#[tactic(auto, using(rg_json::proofs::Printed::printed))]
pub fn print_words(
    alloc: Global,
    request: &AccessRequest,
    explanation: &Explanation,
    all: bool,
) -> Result<Text, NoMemory>
    ensures text { IfOk result
        (λ t. t ≡ chars (explanation_words all request.now explanation.now)) }
    ensures bytes { IfOk result
        (λ t. encode_utf8_all t ≡ explanation_words all request.now explanation.now) }
{
    let words = all_words(alloc, request, explanation, all)?;
    Ok(Text::of(words))
}
