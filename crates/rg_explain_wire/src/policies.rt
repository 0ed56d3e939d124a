// What is told of a policy, in JSON.
ghost use Rattle.std.specs.Prelude.{◌≡◌, IfOk, option_map};
ghost use Rattle.serde_json.specs.Data.{put, string};
ghost use Rattle.serde_json.specs.View.{members_view, view};
ghost use Rattle.rg_json.specs.Printing.{count_data, option_data, with_members};
ghost use Rattle.rg_explain_wire.specs.Printing.{miss_level, miss_word, name_of, standing_members, standing_word, subject_name, subject_word, told_condition, told_matches, told_misses};

use crate::key::Key;
use rg_base::{NoMemory, Seq, Text};
use rg_explain::Told;
use rg_json::{Name, ToJson, put, put_value};
use rg_standing::{Match, Matches, Miss, Standing, Subject};
use serde_json::{Map, Value};
use std::alloc::Global;

/// A word as JSON.
pub(crate) fn word_json(alloc: Global, word: &str) -> Result<Value, NoMemory>
    ensures { IfOk result (λ v. view v ≡ string word.now) }
{
    Ok(Value::String(String::from_str(alloc, word)?))
}

/// Puts a word.
fn put_word(
    alloc: Global,
    members: &mut Map<String, Value>,
    key: Key,
    word: &str,
) -> Result<(), NoMemory>
    ensures { IfOk result (λ u. members_view members.new.entries
        ≡ put (name_of key) (string word.now) (members_view members.old.entries)) }
{
    let value = word_json(alloc, word)?;
    put_value(alloc, members, key.name(), value)
}

/// What is there as JSON, null where nothing is.
fn option_json<X: ToJson<Key>>(alloc: Global, part: Option<&X>) -> Result<Value, NoMemory>
    ensures { IfOk result
        (λ v. view v ≡ option_data X.printing (option_map (λ x. x.now) part.entry)) }
{
    match part {
        Some(part) => part.json(alloc),
        None => Ok(Value::Null),
    }
}

/// Puts what is there, null where nothing is.
fn put_option<X: ToJson<Key>>(
    alloc: Global,
    members: &mut Map<String, Value>,
    key: Key,
    part: Option<&X>,
) -> Result<(), NoMemory>
    ensures { let told = option_data X.printing (option_map (λ x. x.now) part.entry) in
        IfOk result (λ u. members_view members.new.entries ≡ put (name_of key) told (members_view members.old.entries)) }
{
    let value = option_json(alloc, part)?;
    put_value(alloc, members, key.name(), value)
}

fn cell_json(cell: Option<u8>) -> Value
    ensures { view result ≡ option_data count_data cell }
{
    match cell {
        Some(cell) => Value::from(cell as u64),
        None => Value::Null,
    }
}

/// Puts a cell, null where there is none.
pub(crate) fn put_cell(
    alloc: Global,
    members: &mut Map<String, Value>,
    key: Key,
    cell: Option<u8>,
) -> Result<(), NoMemory>
    ensures { IfOk result (λ u. members_view members.new.entries
        ≡ put (name_of key) (option_data count_data cell) (members_view members.old.entries)) }
{
    put_value(alloc, members, key.name(), cell_json(cell))
}

#[tactic(auto, unfolding(crate::specs::Printing::miss_word))]
fn miss_word(miss: &Miss) -> &'static str
    ensures { result.now ≡ miss_word miss.now }
{
    match miss {
        Miss::Level(_) => "level",
        Miss::Beyond(_) => "beyond",
        Miss::Apart => "apart",
    }
}

fn miss_level(miss: &Miss) -> Option<&Text>
    ensures { option_map (λ t. t.now) result ≡ miss_level miss.now }
{
    match miss {
        Miss::Level(name) => Some(name),
        Miss::Beyond(name) => Some(name),
        Miss::Apart => None,
    }
}

impl ToJson<Key> for Miss {
    ghost use Rattle.rg_explain_wire.specs.Printing.{miss_data};

    ghost printing = { miss_data };

    #[tactic(auto, unfolding(crate::specs::Printing::miss_data))]
    fn json(&self, alloc: Global) -> Result<Value, NoMemory> {
        let mut members = Map::new(alloc);
        put_word(alloc, &mut members, Key::Is, miss_word(self))?;
        put_option(alloc, &mut members, Key::Level, miss_level(self))?;
        Ok(Value::Object(members))
    }
}

#[tactic(auto, unfolding(crate::specs::Printing::subject_word))]
fn subject_word(subject: &Subject) -> &'static str
    ensures { result.now ≡ subject_word subject.now }
{
    match subject {
        Subject::EveryUser => "{USER}",
        Subject::Owner => "{OWNER}",
        Subject::User => "user",
        Subject::Group(_) => "group",
        Subject::Everybody => "public",
        Subject::Role(_) => "role",
    }
}

fn subject_name(subject: &Subject) -> Option<&Text>
    ensures { option_map (λ t. t.now) result ≡ subject_name subject.now }
{
    match subject {
        Subject::Group(name) => Some(name),
        Subject::Role(name) => Some(name),
        _ => None,
    }
}

impl ToJson<Key> for Subject {
    ghost use Rattle.rg_explain_wire.specs.Printing.{subject_data};

    ghost printing = { subject_data };

    #[tactic(auto, unfolding(crate::specs::Printing::subject_data))]
    fn json(&self, alloc: Global) -> Result<Value, NoMemory> {
        let mut members = Map::new(alloc);
        put_word(alloc, &mut members, Key::Is, subject_word(self))?;
        put_option(alloc, &mut members, Key::Name, subject_name(self))?;
        Ok(Value::Object(members))
    }
}

impl ToJson<Key> for Match {
    ghost use Rattle.rg_explain_wire.specs.Printing.{match_data};

    ghost printing = { match_data };

    #[tactic(auto, unfolding(crate::specs::Printing::match_data))]
    fn json(&self, alloc: Global) -> Result<Value, NoMemory> {
        let mut members = Map::new(alloc);
        let item = self.item as u64;
        put(alloc, &mut members, Key::By, &self.subject)?;
        put(alloc, &mut members, Key::Item, &item)?;
        Ok(Value::Object(members))
    }
}

impl ToJson<Key> for Matches {
    ghost use Rattle.rg_explain_wire.specs.Printing.{matches_data};

    ghost printing = { matches_data };

    #[tactic(auto, unfolding(crate::specs::Printing::matches_data))]
    fn json(&self, alloc: Global) -> Result<Value, NoMemory> {
        let mut members = Map::new(alloc);
        put(alloc, &mut members, Key::Allow, &self.allow)?;
        put(
            alloc,
            &mut members,
            Key::AllowException,
            &self.allow_exception,
        )?;
        put(alloc, &mut members, Key::Deny, &self.deny)?;
        put(
            alloc,
            &mut members,
            Key::DenyException,
            &self.deny_exception,
        )?;
        put(alloc, &mut members, Key::Filter, &self.filter)?;
        put(alloc, &mut members, Key::Mask, &self.mask)?;
        Ok(Value::Object(members))
    }
}

#[tactic(auto, unfolding(crate::specs::Printing::standing_word))]
fn standing_word(standing: &Standing) -> &'static str
    ensures { result.now ≡ standing_word standing.now }
{
    match standing {
        Standing::FarOff => "far off",
        Standing::Disabled => "disabled",
        Standing::Unscheduled => "unscheduled",
        Standing::Elsewhere(_) => "elsewhere",
        Standing::Unmet(_) => "unmet",
        Standing::InPlay(_) => "in play",
    }
}

fn told_misses(standing: &Standing) -> Option<&Seq<Miss>>
    ensures { option_map (λ l. l.now) result ≡ told_misses standing.now }
{
    match standing {
        Standing::Elsewhere(misses) => Some(misses),
        _ => None,
    }
}

fn told_condition(standing: &Standing) -> Option<&Text>
    ensures { option_map (λ t. t.now) result ≡ told_condition standing.now }
{
    match standing {
        Standing::Unmet(condition) => Some(condition),
        _ => None,
    }
}

fn told_matches(standing: &Standing) -> Option<&Matches>
    ensures { option_map (λ m. m.now) result ≡ told_matches standing.now }
{
    match standing {
        Standing::InPlay(matches) => Some(matches),
        _ => None,
    }
}

/// Puts which policy it is, and how it stands.
fn put_standing(
    alloc: Global,
    members: &mut Map<String, Value>,
    told: &Told,
) -> Result<(), NoMemory>
    ensures { IfOk result (λ u. members_view members.new.entries
        ≡ with_members name_of (members_view members.old.entries) (standing_members told.now)) }
{
    let standing = &told.standing;
    put_cell(alloc, members, Key::Cell, told.cell)?;
    put(alloc, members, Key::Id, &told.policy.0)?;
    put_word(alloc, members, Key::Is, standing_word(standing))?;
    put_option(alloc, members, Key::Items, told_matches(standing))?;
    put_option(alloc, members, Key::Maps, told_misses(standing))
}

impl ToJson<Key> for Told {
    ghost use Rattle.rg_explain_wire.specs.Printing.{told_data};

    ghost printing = { told_data };

    #[tactic(auto, unfolding(crate::specs::Printing::told_data))]
    fn json(&self, alloc: Global) -> Result<Value, NoMemory> {
        let mut members = Map::new(alloc);
        let condition = told_condition(&self.standing);
        put_standing(alloc, &mut members, self)?;
        put(alloc, &mut members, Key::Name, &self.name)?;
        put(alloc, &mut members, Key::Tag, &self.tag)?;
        put_option(alloc, &mut members, Key::Unmet, condition)?;
        Ok(Value::Object(members))
    }
}
