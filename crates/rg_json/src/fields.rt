// Fields of a JSON map.
ghost use Rattle.std.specs.Prelude.{◌≡◌, [], IfOk, MatchOption, map, option_map, string_bytes};
ghost use Rattle.serde_json.specs.Data.{null as null_data};
ghost use Rattle.serde_json.specs.View.{view};
ghost use Rattle.rg_json.specs.Fields.{bool_at, field, i64_at, is_filled, items_in, members_in, text_at, text_of, text_or_at, truth_word_at, truth_word_of, u64_at, within, word_truth};
ghost use Rattle.rg_json.specs.Own.{IsInteger, IsText};

use crate::name::Name;
use rg_base::{NoMemory, Text};
use serde_json::{Map, Value};
use std::alloc::Global;

/// The field, unless it is missing or null.
#[tactic(auto, unfolding(crate::specs::Fields::field))]
pub fn find<'a, K: Name>(value: &'a Value, key: K) -> Option<&'a Value>
    ensures { option_map (λ v. view v.now) result ≡ field (K.name_of key) (view value.now) }
{
    match value.get(key.name()) {
        None => None,
        Some(Value::Null) => None,
        Some(found) => Some(found),
    }
}

/// The field; null where it is missing. Null is handed in, so that it outlives the call.
#[tactic(auto, unfolding(crate::specs::Fields::within))]
pub fn find_or<'a, K: Name>(value: &'a Value, key: K, null: &'a Value) -> &'a Value
    ensures { view null.now ≡ null_data
        → view result.now ≡ within (K.name_of key) (view value.now) }
{
    match find(value, key) {
        None => null,
        Some(found) => found,
    }
}

#[tactic(auto, using(crate::proofs::Chars::texts, crate::proofs::Owned::owns), unfolding(crate::specs::Fields::text_of))]
pub fn text_in(alloc: Global, value: &Value) -> Result<Text, NoMemory>
    ensures reads { IfOk result (λ t. t ≡ text_of (view value.now)) }
    ensures owned { IfOk result (λ t. IsText t) }
{
    match value.as_str() {
        None => Ok(Text::empty(alloc)),
        Some(text) => Text::copy_of(alloc, text),
    }
}

#[tactic(auto, using(crate::proofs::Chars::texts, crate::proofs::Owned::owns), unfolding(crate::specs::Fields::text_of, crate::specs::Fields::text_at))]
pub fn text_at<K: Name>(alloc: Global, value: &Value, key: K) -> Result<Text, NoMemory>
    ensures reads { IfOk result (λ t. t ≡ text_at (K.name_of key) (view value.now)) }
    ensures owned { IfOk result (λ t. IsText t) }
{
    match find(value, key) {
        None => Ok(Text::empty(alloc)),
        Some(found) => text_in(alloc, found),
    }
}

/// A text, or the text of this field where it is a map.
#[tactic(auto, unfolding(crate::specs::Fields::text_or_at))]
pub fn text_or_at<K: Name>(alloc: Global, value: &Value, key: K) -> Result<Text, NoMemory>
    ensures { IfOk result (λ t. t ≡ text_or_at (K.name_of key) (view value.now)) }
{
    if value.is_object() {
        text_at(alloc, value, key)
    } else {
        text_in(alloc, value)
    }
}

#[tactic(auto, unfolding(crate::specs::Fields::bool_at))]
pub fn bool_at<K: Name>(value: &Value, key: K, usual: bool) -> bool
    ensures { result ≡ bool_at usual (K.name_of key) (view value.now) }
{
    match find(value, key) {
        None => usual,
        Some(found) => found.as_bool().unwrap_or(usual),
    }
}

/// One of the texts `true` and `false`.
#[tactic(auto, unfolding(crate::specs::Fields::word_truth))]
fn word_truth(word: &str) -> Option<bool>
    ensures { result ≡ word_truth word.now }
{
    if word == "true" {
        Some(true)
    } else if word == "false" {
        Some(false)
    } else {
        None
    }
}

/// True or false, be it as a text.
#[tactic(auto, unfolding(crate::specs::Fields::truth_word_of))]
pub fn truth_word(value: &Value) -> Option<bool>
    ensures { result ≡ truth_word_of (view value.now) }
{
    match value.as_bool() {
        Some(truth) => Some(truth),
        None => match value.as_str() {
            Some(word) => word_truth(word),
            None => None,
        },
    }
}

#[tactic(auto, unfolding(crate::specs::Fields::truth_word_at))]
pub fn truth_word_at<K: Name>(value: &Value, key: K, usual: bool) -> bool
    ensures { result ≡ truth_word_at usual (K.name_of key) (view value.now) }
{
    match find(value, key) {
        None => usual,
        Some(found) => truth_word(found).unwrap_or(usual),
    }
}

#[tactic(auto, using(crate::proofs::Owned::owns), unfolding(crate::specs::Fields::i64_at))]
pub fn i64_at<K: Name>(value: &Value, key: K, usual: i64) -> i64
    ensures reads { result ≡ i64_at usual (K.name_of key) (view value.now) }
    ensures owned { IsInteger result }
{
    match find(value, key) {
        None => usual,
        Some(found) => found.as_i64().unwrap_or(usual),
    }
}

#[tactic(auto, unfolding(crate::specs::Fields::u64_at))]
pub fn u64_at<K: Name>(value: &Value, key: K, usual: u64) -> u64
    ensures { result ≡ u64_at usual (K.name_of key) (view value.now) }
{
    match find(value, key) {
        None => usual,
        Some(found) => found.as_u64().unwrap_or(usual),
    }
}

/// The items of a list; none where the value is another.
#[tactic(auto, using(crate::proofs::Views::views), unfolding(crate::specs::Fields::items_in))]
pub fn items_in<'a>(value: &'a Value) -> &'a [Value]
    ensures { map view result.now ≡ items_in (view value.now) }
{
    match value.as_array() {
        None => &[],
        Some(values) => values.as_slice(),
    }
}

/// The members, where the value is a map.
#[tactic(auto, using(crate::proofs::Views::views), unfolding(crate::specs::Fields::members_in))]
pub fn members_in<'a>(value: &'a Value) -> Option<&'a Map<String, Value>>
    ensures { MatchOption result (members_in (view value.now) ≡ [])
        (λ members. map (λ m. (string_bytes m.0, view m.1)) members.now.entries ≡ members_in (view value.now)) }
{
    value.as_object()
}

/// Whether the field is a list that has items.
#[tactic(auto, unfolding(crate::specs::Fields::is_filled, crate::specs::Fields::within, crate::specs::Fields::items_in))]
pub fn is_filled<K: Name>(value: &Value, key: K) -> bool
    ensures { result ≡ is_filled (K.name_of key) (view value.now) }
{
    match find(value, key) {
        None => false,
        Some(found) => !items_in(found).is_empty(),
    }
}
