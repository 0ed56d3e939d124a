// What is wrong with a body, printed.
ghost use Rattle.std.specs.Prelude.{◌≡◌, IfOk};
ghost use Rattle.std.specs.Str.{encode_utf8_all};
ghost use Rattle.serde_json.specs.View.{view};
ghost use Rattle.rg_rest.specs.Bodies.{fault_data, fault_text, word_of};

use rg_base::{NoMemory, Text};
use rg_json::{Name, WireKind, put, put_value, text_of};
use serde_json::{Map, Value};
use std::alloc::Global;

/// A field of what is wrong.
#[derive(Clone, Copy, Debug, PartialEq, Eq)]
pub(crate) enum FaultKey {
    Kind,
    Path,
}

impl Name for FaultKey {
    ghost use Rattle.rg_rest.specs.Bodies.{name_of};

    ghost name_of = { name_of };

    #[tactic(auto, unfolding(crate::specs::Bodies::name_of))]
    fn name(self) -> &'static str {
        match self {
            FaultKey::Kind => "kind",
            FaultKey::Path => "path",
        }
    }
}

#[tactic(auto, unfolding(crate::specs::Bodies::word_of))]
fn word_of(kind: WireKind) -> &'static str
    ensures { result.now ≡ word_of kind }
{
    match kind {
        WireKind::Syntax => "syntax",
        WireKind::Mistyped => "type",
        WireKind::Missing => "missing",
        WireKind::Range => "range",
    }
}

#[tactic(auto, unfolding(crate::specs::Bodies::fault_data))]
fn fault_json(alloc: Global, path: &Text, kind: WireKind) -> Result<Value, NoMemory>
    ensures { IfOk result (λ v. view v ≡ fault_data (record { path = path.now; kind = kind })) }
{
    let mut members = Map::new(alloc);
    let word = Value::String(String::from_str(alloc, word_of(kind))?);
    put_value(alloc, &mut members, FaultKey::Kind.name(), word)?;
    put(alloc, &mut members, FaultKey::Path, path)?;
    Ok(Value::Object(members))
}

/// What is wrong, and where.
#[tactic(auto, using(crate::proofs::Plain::faults), unfolding(crate::specs::Bodies::fault_text))]
pub(crate) fn fault_text(alloc: Global, path: &Text, kind: WireKind) -> Result<Text, NoMemory>
    ensures { IfOk result
        (λ t. encode_utf8_all t ≡ fault_text (record { path = path.now; kind = kind })) }
{
    let value = fault_json(alloc, path, kind)?;
    text_of(alloc, &value)
}
