// What is asked and where it stands, in words.
ghost use Rattle.std.specs.Prelude.{◌≡◌, ◌++◌, IfOk, codes, flat_map, option_map, string_bytes};
ghost use Rattle.std.specs.Fmt.{signed_decimal};
ghost use Rattle.std.specs.Str.{encode_utf8_all};
ghost use Rattle.serde_json.specs.Written.{compact_text};
ghost use Rattle.rg_explain_wire.specs.Printing.{elements_data};
ghost use Rattle.rg_explain_wire.specs.Words.{asked_words, by_map_words, by_words, owner_words, place_words, quoted, quoted_list, role_words, roles_words, row_words, rows_words, zone_words};

use crate::names::{owned, quoted, quoted_list, with_name};
use crate::reasons::by_words;
use crate::request::elements_json;
use rg_base::{NoMemory, Seq, Text, is_empty};
use rg_explain::{Explanation, HeldBy, InZone, TaggedBy};
use rg_json::text_of;
use rg_policy::{AccessRequest, Element};
use std::alloc::Global;

// ---- what is asked

/// The elements as a JSON map.
#[tactic(auto, using(crate::proofs::Plain::names))]
fn quoted_elements(alloc: Global, elements: &Seq<Element>) -> Result<Text, NoMemory>
    ensures { IfOk result (λ t. encode_utf8_all t ≡ compact_text (elements_data elements.now)) }
{
    let value = elements_json(alloc, elements)?;
    text_of(alloc, &value)
}

/// On which levels, and when.
fn levels_words(alloc: Global, request: &AccessRequest) -> Result<String, NoMemory>
    ensures { let rest = codes ", at " ++ (signed_decimal request.now.moment.0 ++ codes ".\n") in
        IfOk result (λ s. string_bytes s ≡ codes ", " ++ (compact_text (elements_data request.now.resource.elements) ++ rest)) }
{
    let elements = quoted_elements(alloc, &request.resource.elements)?;
    let elements = elements.as_str();
    let moment = request.moment.0;
    Ok(format!(in alloc; ", {elements}, at {moment}.\n")?)
}

/// What is asked for on which path, and the rest.
fn access_words(alloc: Global, access: &Text, path: &Text, rest: &str) -> Result<String, NoMemory>
    ensures { IfOk result (λ s. string_bytes s ≡ codes " asks for "
        ++ (quoted access.now ++ (codes " on " ++ (quoted path.now ++ rest.now)))) }
{
    let access = quoted(alloc, access)?;
    let path = quoted(alloc, path)?;
    let access = access.as_str();
    let path = path.as_str();
    Ok(format!(in alloc; " asks for {access} on {path}{rest}")?)
}

/// With which groups, and the rest.
fn groups_words(alloc: Global, groups: &Seq<Text>, rest: &str) -> Result<String, NoMemory>
    ensures { IfOk result
        (λ s. string_bytes s ≡ codes " with the groups " ++ (quoted_list groups.now ++ rest.now)) }
{
    let groups = quoted_list(alloc, groups)?;
    let groups = groups.as_str();
    Ok(format!(in alloc; " with the groups {groups}{rest}")?)
}

/// Who asks for what, on which path of which levels, and when.
#[tactic(auto, unfolding(crate::specs::Words::asked_words))]
fn asked_words(alloc: Global, request: &AccessRequest, path: &Text) -> Result<String, NoMemory>
    ensures { IfOk result (λ s. string_bytes s ≡ asked_words request.now path.now) }
{
    let levels = levels_words(alloc, request)?;
    let access = access_words(alloc, &request.access, path, levels.as_str())?;
    let groups = groups_words(alloc, &request.groups, access.as_str())?;
    with_name(alloc, "User ", &request.user, groups.as_str())
}

/// Nothing where nobody owns the resource.
#[tactic(auto, unfolding(crate::specs::Words::owner_words))]
fn owner_words(alloc: Global, owner: &Text) -> Result<String, NoMemory>
    ensures { IfOk result (λ s. string_bytes s ≡ owner_words owner.now) }
{
    if is_empty(owner.as_str()) {
        return Ok(String::new(alloc));
    }
    with_name(alloc, "The resource belongs to ", owner, ".\n")
}

// ---- the zone

/// A zone in which a resource lies has such a map.
#[tactic(auto, unfolding(crate::specs::Words::by_map_words))]
fn by_map_words(alloc: Global, map: Option<usize>) -> Result<String, NoMemory>
    ensures { IfOk result (λ s. string_bytes s ≡ by_map_words map) }
{
    match map {
        Some(place) => Ok(format!(in alloc; " by its resource map {place}")?),
        None => Ok(String::new(alloc)),
    }
}

fn in_zone_words(alloc: Global, zone: &InZone) -> Result<String, NoMemory>
    ensures { let rest = by_map_words zone.now.map ++ codes ".\n" in
        IfOk result (λ s. string_bytes s ≡ codes "The resource lies in zone " ++ (quoted zone.now.zone ++ rest)) }
{
    let name = quoted(alloc, &zone.zone)?;
    let map = by_map_words(alloc, zone.map)?;
    let name = name.as_str();
    let map = map.as_str();
    Ok(format!(in alloc; "The resource lies in zone {name}{map}.\n")?)
}

#[tactic(auto, unfolding(crate::specs::Words::zone_words))]
fn zone_words(alloc: Global, zone: Option<&InZone>) -> Result<String, NoMemory>
    ensures { IfOk result (λ s. string_bytes s ≡ zone_words (option_map (λ z. z.now) zone.entry)) }
{
    match zone {
        Some(zone) => in_zone_words(alloc, zone),
        None => owned(alloc, "The resource lies in no zone.\n"),
    }
}

// ---- the roles

#[tactic(auto, unfolding(crate::specs::Words::role_words))]
fn role_words(alloc: Global, held: &HeldBy) -> Result<String, NoMemory>
    ensures { IfOk result (λ s. string_bytes s ≡ role_words held.now) }
{
    let role = quoted(alloc, &held.role)?;
    let by = by_words(alloc, held.by.as_ref())?;
    let role = role.as_str();
    let by = by.as_str();
    Ok(format!(in alloc; "Role {role} holds the user{by}.\n")?)
}

fn all_roles(alloc: Global, roles: &[HeldBy]) -> Result<String, NoMemory>
    ensures { IfOk result (λ s. string_bytes s ≡ flat_map role_words roles.now) }
{
    let mut text = String::new(alloc);
    for held in roles {
        let words = role_words(alloc, held)?;
        text.push_str(words.as_str())?;
    }
    Ok(text)
}

#[tactic(auto, unfolding(crate::specs::Words::roles_words))]
fn roles_words(alloc: Global, roles: &[HeldBy]) -> Result<String, NoMemory>
    ensures { IfOk result (λ s. string_bytes s ≡ roles_words roles.now) }
{
    match roles {
        [] => owned(alloc, "No role holds the user.\n"),
        _ => all_roles(alloc, roles),
    }
}

// ---- the tag rows

fn row_line(alloc: Global, id: i64, tags: &str) -> Result<String, NoMemory>
    ensures { let rest = codes " reaches down to the resource, with the tags "
        ++ (tags.now ++ codes ".\n") in
        IfOk result (λ s. string_bytes s ≡ codes "Tag row " ++ (signed_decimal id ++ rest)) }
{
    Ok(format!(in alloc; "Tag row {id} reaches down to the resource, with the tags {tags}.\n")?)
}

#[tactic(auto, unfolding(crate::specs::Words::row_words))]
fn row_words(alloc: Global, row: &TaggedBy) -> Result<String, NoMemory>
    ensures { IfOk result (λ s. string_bytes s ≡ row_words row.now) }
{
    let tags = quoted_list(alloc, &row.tags)?;
    row_line(alloc, row.row, tags.as_str())
}

fn all_rows(alloc: Global, rows: &[TaggedBy]) -> Result<String, NoMemory>
    ensures { IfOk result (λ s. string_bytes s ≡ flat_map row_words rows.now) }
{
    let mut text = String::new(alloc);
    for row in rows {
        let words = row_words(alloc, row)?;
        text.push_str(words.as_str())?;
    }
    Ok(text)
}

#[tactic(auto, unfolding(crate::specs::Words::rows_words))]
fn rows_words(alloc: Global, rows: &[TaggedBy]) -> Result<String, NoMemory>
    ensures { IfOk result (λ s. string_bytes s ≡ rows_words rows.now) }
{
    match rows {
        [] => owned(alloc, "No tag row reaches down to the resource.\n"),
        _ => all_rows(alloc, rows),
    }
}

// ---- the whole

/// In which zone the resource lies, which roles hold the user, and where the tags come from.
fn standing_place(alloc: Global, explanation: &Explanation) -> Result<String, NoMemory>
    ensures { let rows = rows_words explanation.now.rows.items in
        IfOk result (λ s. string_bytes s ≡ zone_words explanation.now.zone ++ (roles_words explanation.now.roles.items ++ rows)) }
{
    let zone = zone_words(alloc, explanation.zone.as_ref())?;
    let roles = roles_words(alloc, explanation.roles.as_slice())?;
    let rows = rows_words(alloc, explanation.rows.as_slice())?;
    let zone = zone.as_str();
    let roles = roles.as_str();
    let rows = rows.as_str();
    Ok(format!(in alloc; "{zone}{roles}{rows}")?)
}

/// What is asked, and where it stands.
#[tactic(auto, unfolding(crate::specs::Words::place_words))]
pub(crate) fn place_words(
    alloc: Global,
    request: &AccessRequest,
    explanation: &Explanation,
) -> Result<String, NoMemory>
    ensures { IfOk result (λ s. string_bytes s ≡ place_words request.now explanation.now) }
{
    let asked = asked_words(alloc, request, &explanation.decision.path)?;
    let owner = owner_words(alloc, &request.resource.owner)?;
    let standing = standing_place(alloc, explanation)?;
    let asked = asked.as_str();
    let owner = owner.as_str();
    let standing = standing.as_str();
    Ok(format!(in alloc; "{asked}{owner}{standing}")?)
}
