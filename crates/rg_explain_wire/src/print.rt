// An explanation, printed.
ghost use Rattle.std.specs.Prelude.{◌≡◌, IfOk};
ghost use Rattle.std.specs.Str.{chars, encode_utf8_all};
ghost use Rattle.serde_json.specs.View.{members_view, view};
ghost use Rattle.rg_base.specs.Listed.{listed};
ghost use Rattle.rg_json.specs.Printing.{count_data, list_data, option_data, with_members};
ghost use Rattle.rg_explain_wire.specs.Listing.{listed_policies};
ghost use Rattle.rg_explain_wire.specs.Printing.{asked_members, decided_members, explanation_data, explanation_text, name_of, told_data};

use crate::key::Key;
use crate::listing::{far_count, is_listed};
use crate::policies::{put_cell, word_json};
use rg_base::{NoMemory, Text};
use rg_explain::{Explanation, HeldBy, InZone, TaggedBy};
use rg_facts::{Access, ItemPlace};
use rg_json::{Name, ToJson, put, put_value, text_of};
use rg_policy::AccessRequest;
use rg_wire::access_word;
use serde_json::{Map, Value};
use std::alloc::Global;

impl ToJson<Key> for ItemPlace {
    ghost use Rattle.rg_explain_wire.specs.Printing.{place_data};

    ghost printing = { place_data };

    #[tactic(auto, unfolding(crate::specs::Printing::place_data))]
    fn json(&self, alloc: Global) -> Result<Value, NoMemory> {
        let mut members = Map::new(alloc);
        let item = self.item as u64;
        put(alloc, &mut members, Key::Id, &self.policy.0)?;
        put(alloc, &mut members, Key::Item, &item)?;
        put(alloc, &mut members, Key::Tag, &self.tag)?;
        Ok(Value::Object(members))
    }
}

impl ToJson<Key> for TaggedBy {
    ghost use Rattle.rg_explain_wire.specs.Printing.{row_data};

    ghost printing = { row_data };

    #[tactic(auto, unfolding(crate::specs::Printing::row_data))]
    fn json(&self, alloc: Global) -> Result<Value, NoMemory> {
        let mut members = Map::new(alloc);
        put(alloc, &mut members, Key::Id, &self.row)?;
        put(alloc, &mut members, Key::Tags, &self.tags)?;
        Ok(Value::Object(members))
    }
}

/// The place of a zone's map, null where there is none.
fn map_json(map: Option<usize>) -> Value
    ensures { view result ≡ option_data count_data map }
{
    match map {
        Some(place) => Value::from(place as u64),
        None => Value::Null,
    }
}

impl ToJson<Key> for InZone {
    ghost use Rattle.rg_explain_wire.specs.Printing.{zone_data};

    ghost printing = { zone_data };

    #[tactic(auto, unfolding(crate::specs::Printing::zone_data))]
    fn json(&self, alloc: Global) -> Result<Value, NoMemory> {
        let mut members = Map::new(alloc);
        let map = map_json(self.map);
        put_value(alloc, &mut members, Key::Map.name(), map)?;
        put(alloc, &mut members, Key::Name, &self.zone)?;
        Ok(Value::Object(members))
    }
}

impl ToJson<Key> for HeldBy {
    ghost use Rattle.rg_explain_wire.specs.Printing.{role_data};

    ghost printing = { role_data };

    #[tactic(auto, unfolding(crate::specs::Printing::role_data))]
    fn json(&self, alloc: Global) -> Result<Value, NoMemory> {
        let mut members = Map::new(alloc);
        put(alloc, &mut members, Key::By, &self.by)?;
        put(alloc, &mut members, Key::Name, &self.role)?;
        Ok(Value::Object(members))
    }
}

impl ToJson<Key> for Access {
    ghost use Rattle.rg_wire.specs.Printing.{access_data};

    ghost printing = { access_data };

    fn json(&self, alloc: Global) -> Result<Value, NoMemory> {
        word_json(alloc, access_word(*self))
    }
}

/// The policies that are listed.
#[tactic(auto, unfolding(rg_json::specs::Printing::list_data))]
fn policies_json(alloc: Global, explanation: &Explanation, all: bool) -> Result<Value, NoMemory>
    ensures { IfOk result
        (λ v. view v ≡ list_data told_data (listed (listed_policies all explanation.now))) }
{
    let mut made = Vec::new(alloc);
    for told in explanation.policies.as_slice() {
        if is_listed(all, told) {
            made.push(told.json(alloc)?)?;
        }
    }
    Ok(Value::Array(made))
}

/// Puts what is decided, and by what.
fn put_decided(
    alloc: Global,
    members: &mut Map<String, Value>,
    explanation: &Explanation,
) -> Result<(), NoMemory>
    ensures { IfOk result (λ u. members_view members.new.entries ≡ with_members name_of
        (members_view members.old.entries) (decided_members explanation.now)) }
{
    let verdict = &explanation.verdict;
    put(alloc, members, Key::Access, &verdict.access)?;
    put_cell(alloc, members, Key::Cell, explanation.cell)?;
    put(alloc, members, Key::Mask, &verdict.mask)?;
    put(alloc, members, Key::PolicyId, &verdict.policy.0)?;
    put(alloc, members, Key::RowFilter, &verdict.filter)
}

/// Puts what is asked, and where it stands.
fn put_asked(
    alloc: Global,
    members: &mut Map<String, Value>,
    request: &AccessRequest,
    explanation: &Explanation,
) -> Result<(), NoMemory>
    ensures { IfOk result (λ u. members_view members.new.entries ≡ with_members name_of
        (members_view members.old.entries) (asked_members request.now explanation.now)) }
{
    put(alloc, members, Key::Path, &explanation.decision.path)?;
    put(alloc, members, Key::Request, request)?;
    put(alloc, members, Key::Roles, &explanation.roles)?;
    put(alloc, members, Key::Rows, &explanation.rows)?;
    put(alloc, members, Key::Zone, &explanation.zone)
}

/// An explanation of a request.
#[tactic(auto, unfolding(crate::specs::Printing::explanation_data))]
fn explanation_json(
    alloc: Global,
    request: &AccessRequest,
    explanation: &Explanation,
    all: bool,
) -> Result<Value, NoMemory>
    ensures { IfOk result (λ v. view v ≡ explanation_data all request.now explanation.now) }
{
    let mut members = Map::new(alloc);
    let far_off = far_count(explanation) as u64;
    let policies = policies_json(alloc, explanation, all)?;
    put_decided(alloc, &mut members, explanation)?;
    put_asked(alloc, &mut members, request, explanation)?;
    put(alloc, &mut members, Key::FarOff, &far_off)?;
    put_value(alloc, &mut members, Key::Policies.name(), policies)?;
    Ok(Value::Object(members))
}

/// Prints an explanation of a request, with all policies or with those that aren't far off: one line, without its LF.
#[tactic(auto, using(crate::proofs::Plain::explanations), unfolding(crate::specs::Printing::explanation_text))]
pub fn print_explanation(
    alloc: Global,
    request: &AccessRequest,
    explanation: &Explanation,
    all: bool,
) -> Result<Text, NoMemory>
    ensures text { IfOk result (λ t. t ≡ chars (explanation_text all request.now explanation.now)) }
    ensures bytes { IfOk result
        (λ t. encode_utf8_all t ≡ explanation_text all request.now explanation.now) }
{
    let value = explanation_json(alloc, request, explanation, all)?;
    text_of(alloc, &value)
}
