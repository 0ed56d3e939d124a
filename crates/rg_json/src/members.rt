// Values and maps of JSON, made from what records hold.
ghost use Rattle.std.specs.Prelude.{◌≡◌, ◌≤◌, IfOk, Some, false, map};
ghost use Rattle.std.specs.Str.{chars, encode_utf8_all};
ghost use Rattle.serde_json.specs.Data.{depth, put};
ghost use Rattle.serde_json.specs.Read.{max_depth};
ghost use Rattle.serde_json.specs.View.{members_view, view};
ghost use Rattle.serde_json.specs.Written.{compact_text, has_float};
ghost use Rattle.rg_json.specs.Texts.{data_of};

use crate::name::Name;
use rg_base::{NoMemory, Seq, Text};
use serde_json::{Map, Value};
use std::alloc::Global;

/// What JSON can stand for, where `K` names the fields.
pub trait ToJson<K> {
    ghost use Rattle.serde_json.specs.Data.{Data};

    /// The JSON.
    ghost printing: { Self → Data };

    /// Makes it.
    fn json(&self, alloc: Global) -> Result<Value, NoMemory>
        ensures { IfOk result (λ v. view v ≡ printing self.now) };
}

/// Puts a member. A member of that name is replaced.
#[tactic(auto, using(crate::proofs::Puts::puts))]
pub fn put_value(
    alloc: Global,
    members: &mut Map<String, Value>,
    name: &str,
    value: Value,
) -> Result<(), NoMemory>
    ensures { IfOk result (λ u. members_view members.new.entries
        ≡ put name.now (view value) (members_view members.old.entries)) }
{
    let key = String::from_str(alloc, name)?;
    let _replaced = members.insert(key, value)?;
    Ok(())
}

/// Puts a field.
pub fn put<K: Name, X: ToJson<K>>(
    alloc: Global,
    members: &mut Map<String, Value>,
    key: K,
    part: &X,
) -> Result<(), NoMemory>
    ensures { IfOk result (λ u. members_view members.new.entries
        ≡ put (K.name_of key) (X.printing part.now) (members_view members.old.entries)) }
{
    let value = part.json(alloc)?;
    put_value(alloc, members, key.name(), value)
}

impl<K: Name> ToJson<K> for Text {
    ghost use Rattle.rg_json.specs.Printing.{text_data};

    ghost printing = { text_data };

    #[tactic(auto, unfolding(crate::specs::Printing::text_data))]
    fn json(&self, alloc: Global) -> Result<Value, NoMemory> {
        Ok(Value::String(String::from_str(alloc, self.as_str())?))
    }
}

impl<K: Name> ToJson<K> for bool {
    ghost use Rattle.rg_json.specs.Printing.{bool_data};

    ghost printing = { bool_data };

    fn json(&self, alloc: Global) -> Result<Value, NoMemory> {
        Ok(Value::from(*self))
    }
}

impl<K: Name> ToJson<K> for i64 {
    ghost use Rattle.rg_json.specs.Printing.{integer_data};

    ghost printing = { integer_data };

    #[tactic(auto, unfolding(crate::specs::Printing::integer_data))]
    fn json(&self, alloc: Global) -> Result<Value, NoMemory> {
        Ok(Value::from(*self))
    }
}

impl<K: Name> ToJson<K> for u64 {
    ghost use Rattle.rg_json.specs.Printing.{count_data};

    ghost printing = { count_data };

    fn json(&self, alloc: Global) -> Result<Value, NoMemory> {
        Ok(Value::from(*self))
    }
}

/// The JSON of each.
fn each<K: Name, X: ToJson<K>>(alloc: Global, items: &[X]) -> Result<Vec<Value>, NoMemory>
    ensures { IfOk result (λ vs. map view vs.items ≡ map X.printing items.now) }
{
    let mut made = Vec::new(alloc);
    for item in items {
        made.push(item.json(alloc)?)?;
    }
    Ok(made)
}

impl<K: Name, X: ToJson<K>> ToJson<K> for Seq<X> {
    ghost use Rattle.rg_json.specs.Printing.{list_data};

    ghost printing = { λ xs. list_data X.printing xs };

    #[tactic(auto, unfolding(crate::specs::Printing::list_data))]
    fn json(&self, alloc: Global) -> Result<Value, NoMemory> {
        Ok(Value::Array(each::<K, X>(alloc, self.as_slice())?))
    }
}

impl<K: Name, X: ToJson<K>> ToJson<K> for Option<X> {
    ghost use Rattle.rg_json.specs.Printing.{option_data};

    ghost printing = { λ o. option_data X.printing o };

    fn json(&self, alloc: Global) -> Result<Value, NoMemory> {
        match self {
            None => Ok(Value::Null),
            Some(x) => x.json(alloc),
        }
    }
}

/// The compact text of a value. Where the value nests at most 127 deep, it is read again from that text.
#[tactic(auto, using(crate::proofs::Printed::printed))]
pub fn text_of(alloc: Global, value: &Value) -> Result<Text, NoMemory>
    ensures text { IfOk result (λ t. has_float (view value.now) ≡ false
        → t ≡ chars (compact_text (view value.now))) }
    ensures bytes { IfOk result (λ t. has_float (view value.now) ≡ false
        → encode_utf8_all t ≡ compact_text (view value.now)) }
    ensures back { IfOk result (λ t. has_float (view value.now) ≡ false
        → depth (view value.now) ≤ max_depth
        → data_of (compact_text (view value.now)) ≡ Some (view value.now)) }
{
    Ok(Text::of(value.to_string(alloc)?))
}
