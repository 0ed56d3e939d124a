// The walk over a value that finds its first fault, by the data of its kind.
ghost use Rattle.std.specs.Prelude.{◌≡◌, IfOk, map, string_bytes};
ghost use Rattle.std.specs.Str.{chars};
ghost use Rattle.serde_json.specs.Find.{as_array, as_object};
ghost use Rattle.serde_json.specs.View.{view};
ghost use Rattle.rg_json.specs.Fields.{field};
ghost use Rattle.rg_json.specs.Faults.{below, count_fault, fault_of, field_fault, fields_fault, integer_fault, is_value, items_fault, key_passes, list_fault, map_fault, member_fault, members_fault, name_fault, unless, value_fault};
ghost use Rattle.rg_json.specs.Kinds.{fields_from, shape_of};

use crate::fault::{Fault, WireKind, below, below_place, here};
use crate::fields::{find, truth_word};
use crate::name::Name;
use crate::shape::{Field, Form, Keys, Kind, Need, Table, form_of};
use rg_base::{NoMemory, char_count, is_name};
use serde_json::{Map, Value};
use std::alloc::Global;

fn unless(alloc: Global, fits: bool) -> Option<Fault>
    ensures { result ≡ unless fits }
{
    if fits {
        None
    } else {
        here(alloc, WireKind::Mistyped)
    }
}

/// Whether the text has at most 4,096 characters.
fn is_value(text: &str) -> bool
    ensures { result ≡ is_value (chars text.now) }
{
    char_count(text) <= 4096
}

#[tactic(auto, unfolding(crate::specs::Faults::name_fault))]
fn name_fault(alloc: Global, value: &Value) -> Option<Fault>
    ensures { result ≡ name_fault (view value.now) }
{
    match value.as_str() {
        None => here(alloc, WireKind::Mistyped),
        Some(text) => {
            if is_name(text) {
                None
            } else {
                here(alloc, WireKind::Range)
            }
        }
    }
}

#[tactic(auto, unfolding(crate::specs::Faults::value_fault))]
fn value_fault(alloc: Global, value: &Value) -> Option<Fault>
    ensures { result ≡ value_fault (view value.now) }
{
    match value.as_str() {
        None => here(alloc, WireKind::Mistyped),
        Some(text) => {
            if is_value(text) {
                None
            } else {
                here(alloc, WireKind::Range)
            }
        }
    }
}

#[tactic(auto, unfolding(crate::specs::Faults::integer_fault))]
fn integer_fault(alloc: Global, value: &Value) -> Option<Fault>
    ensures { result ≡ integer_fault (view value.now) }
{
    if value.as_i64().is_some() {
        None
    } else if value.as_u64().is_some() {
        here(alloc, WireKind::Range)
    } else {
        here(alloc, WireKind::Mistyped)
    }
}

#[tactic(auto, unfolding(crate::specs::Faults::count_fault))]
fn count_fault(alloc: Global, value: &Value) -> Option<Fault>
    ensures { result ≡ count_fault (view value.now) }
{
    if value.as_u64().is_some() {
        None
    } else if value.as_i64().is_some() {
        here(alloc, WireKind::Range)
    } else {
        here(alloc, WireKind::Mistyped)
    }
}

fn key_passes(keys: Keys, name: &str) -> bool
    ensures { result ≡ key_passes keys name.now }
{
    match keys {
        Keys::Any => true,
        Keys::Names => is_name(name),
    }
}

/// The first fault of a value. Calls nest as deep as the kind does, whatever the value.
#[cycle(walk)]
pub(crate) fn fault_in<K: Name, R: Table<K>>(
    alloc: Global,
    kind: Kind<R>,
    value: &Value,
) -> Result<Option<Fault>, NoMemory>
    ensures { IfOk result (λ o. o ≡ fault_of (shape_of R.record_shape kind) (view value.now)) }
{
    match form_of::<K, R>(kind) {
        Form::Text => Ok(unless(alloc, value.is_string())),
        Form::Name => Ok(name_fault(alloc, value)),
        Form::Value => Ok(value_fault(alloc, value)),
        Form::Truth => Ok(unless(alloc, value.is_boolean())),
        Form::TruthWord => Ok(unless(alloc, truth_word(value).is_some())),
        Form::Integer => Ok(integer_fault(alloc, value)),
        Form::Count => Ok(count_fault(alloc, value)),
        Form::Anything => Ok(None),
        Form::TextOr(inner) => {
            if value.is_object() {
                fault_in::<K, R>(alloc, inner, value)
            } else {
                Ok(unless(alloc, value.is_string()))
            }
        }
        Form::List(inner) => list_fault::<K, R>(alloc, inner, value),
        Form::Map(keys, inner) => map_fault::<K, R>(alloc, keys, inner, value),
        Form::Record(fields) => {
            if value.is_object() {
                fields_fault(alloc, fields, value)
            } else {
                Ok(here(alloc, WireKind::Mistyped))
            }
        }
    }
}

#[cycle(walk)]
#[tactic(auto, using(crate::proofs::Views::views))]
fn list_fault<K: Name, R: Table<K>>(
    alloc: Global,
    kind: Kind<R>,
    value: &Value,
) -> Result<Option<Fault>, NoMemory>
    ensures { IfOk result (λ o. o
        ≡ list_fault (fault_of (shape_of R.record_shape kind)) (as_array (view value.now))) }
{
    match value.as_array() {
        None => Ok(here(alloc, WireKind::Mistyped)),
        Some(items) => items_fault::<K, R>(alloc, kind, items.as_slice()),
    }
}

#[cycle(walk)]
fn items_fault<K: Name, R: Table<K>>(
    alloc: Global,
    kind: Kind<R>,
    items: &[Value],
) -> Result<Option<Fault>, NoMemory>
    ensures { IfOk result
        (λ o. o ≡ items_fault (fault_of (shape_of R.record_shape kind)) 0 (map view items.now)) }
{
    for place in 0..items.len() {
        let inner = fault_in::<K, R>(alloc, kind, &items[place])?;
        let fault = below_place(alloc, place, inner)?;
        if fault.is_some() {
            return Ok(fault);
        }
    }
    Ok(None)
}

#[cycle(walk)]
fn member_fault<K: Name, R: Table<K>>(
    alloc: Global,
    keys: Keys,
    kind: Kind<R>,
    name: &str,
    value: &Value,
) -> Result<Option<Fault>, NoMemory>
    ensures { IfOk result (λ o. o ≡ member_fault keys
        (fault_of (shape_of R.record_shape kind)) (name.now, view value.now)) }
{
    let inner = if key_passes(keys, name) {
        fault_in::<K, R>(alloc, kind, value)?
    } else {
        here(alloc, WireKind::Range)
    };
    below(alloc, name, inner)
}

#[cycle(walk)]
fn members_fault<K: Name, R: Table<K>>(
    alloc: Global,
    keys: Keys,
    kind: Kind<R>,
    members: &Map<String, Value>,
) -> Result<Option<Fault>, NoMemory>
    ensures { IfOk result (λ o. o ≡ members_fault keys (fault_of (shape_of R.record_shape kind))
        (map (λ m. (string_bytes m.0, view m.1)) members.now.entries)) }
{
    for (name, value) in members.iter() {
        let fault = member_fault::<K, R>(alloc, keys, kind, name.as_str(), value)?;
        if fault.is_some() {
            return Ok(fault);
        }
    }
    Ok(None)
}

#[cycle(walk)]
#[tactic(auto, using(crate::proofs::Views::views))]
fn map_fault<K: Name, R: Table<K>>(
    alloc: Global,
    keys: Keys,
    kind: Kind<R>,
    value: &Value,
) -> Result<Option<Fault>, NoMemory>
    ensures { IfOk result (λ o. o ≡ map_fault keys
        (fault_of (shape_of R.record_shape kind)) (as_object (view value.now))) }
{
    match value.as_object() {
        None => Ok(here(alloc, WireKind::Mistyped)),
        Some(members) => members_fault::<K, R>(alloc, keys, kind, members),
    }
}

#[cycle(walk)]
fn field_fault<K: Name, R: Table<K>>(
    alloc: Global,
    row: Field<K, R>,
    value: &Value,
) -> Result<Option<Fault>, NoMemory>
    ensures { IfOk result (λ o. o ≡ below (chars (K.name_of row.0)) (field_fault row.1 (fault_of
        (shape_of R.record_shape row.2)) (field (K.name_of row.0) (view value.now)))) }
{
    let inner = match find(value, row.0) {
        None => match row.1 {
            Need::Must => here(alloc, WireKind::Missing),
            Need::May => None,
        },
        Some(found) => fault_in::<K, R>(alloc, row.2, found)?,
    };
    below(alloc, row.0.name(), inner)
}

/// The fields in their order.
#[cycle(walk)]
pub(crate) fn fields_fault<K: Name, R: Table<K>>(
    alloc: Global,
    fields: &[Field<K, R>],
    value: &Value,
) -> Result<Option<Fault>, NoMemory>
    ensures { IfOk result
        (λ o. o ≡ fields_fault (fields_from K.name_of R.record_shape fields.now) (view value.now)) }
{
    for place in 0..fields.len() {
        let fault = field_fault(alloc, fields[place], value)?;
        if fault.is_some() {
            return Ok(fault);
        }
    }
    Ok(None)
}
