// Records, lists and maps in JSON.
ghost use Rattle.std.specs.Prelude.{◌≡◌, IfOk, map, string_bytes};
ghost use Rattle.serde_json.specs.View.{view};
ghost use Rattle.rg_base.specs.Listed.{listed};
ghost use Rattle.rg_json.specs.Fields.{list_at, list_of, map_at, map_of, members_in, optional_at, within};
ghost use Rattle.rg_json.specs.Own.{IsSorted, OwnList, OwnOption};

use crate::fields::{find, items_in, members_in};
use crate::name::Name;
use rg_base::{NoMemory, Seq};
use serde_json::{Map, Value};
use std::alloc::Global;

/// A way to read records.
pub trait Reader<X> {
    ghost use Rattle.serde_json.specs.Data.{Data};

    /// What a value stands for. Where it does not fit, parts have their usual values.
    ghost reading: { Self → Data → X };

    /// What is true of each record that was read.
    ghost owned: { X → Type 0 };

    /// Reads the value.
    fn read(&self, alloc: Global, value: &Value) -> Result<X, NoMemory>
        ensures reads { IfOk result (λ x. x ≡ reading self.now (view value.now)) }
        ensures owned { IfOk result (λ x. owned x) };
}

/// A way to read records that stand in maps.
pub trait MemberReader<X> {
    ghost use Rattle.std.specs.Prelude.{List, ℕ};
    ghost use Rattle.serde_json.specs.Data.{Data};

    /// What a key with its value stands for.
    ghost member_reading: { Self → List ℕ × Data → X };

    /// What is true of each record that was read.
    ghost member_owned: { X → Type 0 };

    /// Reads the key and the value.
    fn read_member(&self, alloc: Global, key: &str, value: &Value) -> Result<X, NoMemory>
        ensures reads { IfOk result (λ x. x ≡ member_reading self.now (key.now, view value.now)) }
        ensures owned { IfOk result (λ x. member_owned x) };
}

/// The record of a field; that of null, where it is missing.
#[tactic(auto, unfolding(crate::specs::Fields::within))]
pub fn record_at<X: Drop, W: Reader<X>, K: Name>(
    alloc: Global,
    reader: &W,
    value: &Value,
    key: K,
) -> Result<X, NoMemory>
    ensures reads { IfOk result
        (λ x. x ≡ W.reading reader.now (within (K.name_of key) (view value.now))) }
    ensures owned { IfOk result (λ x. W.owned x) }
{
    match find(value, key) {
        None => {
            let null = Value::Null;
            reader.read(alloc, &null)
        }
        Some(found) => reader.read(alloc, found),
    }
}

/// The record of a field that may be missing.
#[tactic(auto, unfolding(crate::specs::Fields::optional_at))]
pub fn optional_at<X: Drop, W: Reader<X>, K: Name>(
    alloc: Global,
    reader: &W,
    value: &Value,
    key: K,
) -> Result<Option<X>, NoMemory>
    ensures reads { IfOk result
        (λ o. o ≡ optional_at (W.reading reader.now) (K.name_of key) (view value.now)) }
    ensures owned { IfOk result (λ o. OwnOption W.owned o) }
{
    match find(value, key) {
        None => Ok(None),
        Some(found) => Ok(Some(reader.read(alloc, found)?)),
    }
}

/// Each value in turn.
#[tactic(auto, using(crate::proofs::Owned::owns))]
fn read_each<X: Drop, W: Reader<X>>(
    alloc: Global,
    reader: &W,
    values: &[Value],
) -> Result<Seq<X>, NoMemory>
    ensures reads { IfOk result
        (λ xs. xs ≡ listed (map (W.reading reader.now) (map view values.now))) }
    ensures owned { IfOk result (λ xs. OwnList W.owned xs) }
{
    let mut read = Seq::new(alloc);
    for value in values {
        read.add(reader.read(alloc, value)?)?;
    }
    Ok(read)
}

/// The items of a list.
#[tactic(auto, unfolding(crate::specs::Fields::list_of))]
pub fn list_in<X: Drop, W: Reader<X>>(
    alloc: Global,
    reader: &W,
    value: &Value,
) -> Result<Seq<X>, NoMemory>
    ensures reads { IfOk result (λ xs. xs ≡ list_of (W.reading reader.now) (view value.now)) }
    ensures owned { IfOk result (λ xs. OwnList W.owned xs) }
{
    read_each(alloc, reader, items_in(value))
}

/// The items of a field.
#[tactic(auto, unfolding(crate::specs::Fields::list_at, crate::specs::Fields::within, crate::specs::Fields::list_of, crate::specs::Fields::items_in))]
pub fn list_at<X: Drop, W: Reader<X>, K: Name>(
    alloc: Global,
    reader: &W,
    value: &Value,
    key: K,
) -> Result<Seq<X>, NoMemory>
    ensures reads { IfOk result
        (λ xs. xs ≡ list_at (W.reading reader.now) (K.name_of key) (view value.now)) }
    ensures owned { IfOk result (λ xs. OwnList W.owned xs) }
{
    match find(value, key) {
        None => Ok(Seq::new(alloc)),
        Some(found) => list_in(alloc, reader, found),
    }
}

/// Each member in turn.
#[tactic(auto, using(crate::proofs::Owned::owns))]
fn read_members<X: Drop, W: MemberReader<X>>(
    alloc: Global,
    reader: &W,
    members: &Map<String, Value>,
) -> Result<Seq<X>, NoMemory>
    ensures reads { IfOk result (λ xs. xs ≡ listed (map (W.member_reading reader.now)
        (map (λ m. (string_bytes m.0, view m.1)) members.now.entries))) }
    ensures owned { IfOk result (λ xs. OwnList W.member_owned xs) }
    ensures sorted { IfOk result
        (λ xs. IsSorted (map (λ m. (string_bytes m.0, view m.1)) members.now.entries)) }
{
    let mut read = Seq::new(alloc);
    for (key, value) in members.iter() {
        read.add(reader.read_member(alloc, key.as_str(), value)?)?;
    }
    Ok(read)
}

/// The members of a map, in byte order of their keys.
#[tactic(auto, unfolding(crate::specs::Fields::map_of))]
pub fn map_in<X: Drop, W: MemberReader<X>>(
    alloc: Global,
    reader: &W,
    value: &Value,
) -> Result<Seq<X>, NoMemory>
    ensures reads { IfOk result (λ xs. xs ≡ map_of (W.member_reading reader.now) (view value.now)) }
    ensures owned { IfOk result (λ xs. OwnList W.member_owned xs) }
    ensures sorted { IfOk result (λ xs. IsSorted (members_in (view value.now))) }
{
    match members_in(value) {
        None => Ok(Seq::new(alloc)),
        Some(members) => read_members(alloc, reader, members),
    }
}

/// The members of a field, in byte order of their keys.
#[tactic(auto, unfolding(crate::specs::Fields::map_at, crate::specs::Fields::within, crate::specs::Fields::map_of, crate::specs::Fields::members_in))]
pub fn map_at<X: Drop, W: MemberReader<X>, K: Name>(
    alloc: Global,
    reader: &W,
    value: &Value,
    key: K,
) -> Result<Seq<X>, NoMemory>
    ensures reads { IfOk result
        (λ xs. xs ≡ map_at (W.member_reading reader.now) (K.name_of key) (view value.now)) }
    ensures owned { IfOk result (λ xs. OwnList W.member_owned xs) }
    ensures sorted { IfOk result
        (λ xs. IsSorted (members_in (within (K.name_of key) (view value.now)))) }
{
    match find(value, key) {
        None => Ok(Seq::new(alloc)),
        Some(found) => map_in(alloc, reader, found),
    }
}
