// Texts to records.
ghost use Rattle.std.specs.Prelude.{◌≡◌, IfOk, IfErr, Some, None};
ghost use Rattle.serde_json.specs.View.{view};
ghost use Rattle.rg_json.specs.Faults.{fault_of};
ghost use Rattle.rg_json.specs.Kinds.{fields_from};
ghost use Rattle.rg_json.specs.Reading.{Answers, Refuses, reading, text_fault};
ghost use Rattle.rg_json.specs.Shape.{record_of};
ghost use Rattle.rg_json.specs.Texts.{data_of};

use crate::fault::{WireFault, WireKind};
use crate::lists::Reader;
use crate::name::Name;
use crate::shape::{Field, Table};
use crate::texts::{ParseFault, parse};
use crate::walk::fields_fault;
use rg_base::Text;
use serde_json::Value;
use std::alloc::Global;

/// Judges a value that is to be a map with these fields. Those that are not among them are passed over.
pub fn judge<K: Name, R: Table<K>>(
    alloc: Global,
    fields: &[Field<K, R>],
    value: &Value,
) -> Result<(), WireFault>
    ensures right { IfOk result (λ u. fault_of
        (record_of (fields_from K.name_of R.record_shape fields.now)) (view value.now) ≡ None) }
    ensures wrong { IfErr result (λ e. Refuses e (fault_of
        (record_of (fields_from K.name_of R.record_shape fields.now)) (view value.now))) }
{
    if !value.is_object() {
        return Err(WireFault::Bad {
            path: Text::empty(alloc),
            kind: WireKind::Mistyped,
        });
    }
    match fields_fault(alloc, fields, value) {
        Err(_) => Err(WireFault::NoMemory),
        Ok(Some(fault)) => Err(WireFault::Bad {
            path: fault.path,
            kind: fault.kind,
        }),
        Ok(None) => Ok(()),
    }
}

/// The JSON of a text that has no fault.
fn judged<K: Name, R: Table<K>>(alloc: Global, table: R, text: &[u8]) -> Result<Value, WireFault>
    ensures json { IfOk result (λ v. data_of text.now ≡ Some (view v)) }
    ensures right { IfOk result (λ v. text_fault (R.record_shape table) (data_of text.now) ≡ None) }
    ensures wrong { IfErr result
        (λ e. Refuses e (text_fault (R.record_shape table) (data_of text.now))) }
{
    let value = match parse(alloc, text) {
        Ok(value) => value,
        Err(ParseFault::NoMemory) => return Err(WireFault::NoMemory),
        Err(ParseFault::Syntax) => {
            return Err(WireFault::Bad {
                path: Text::empty(alloc),
                kind: WireKind::Syntax,
            });
        }
    };
    judge::<K, R>(alloc, table.fields(), &value)?;
    Ok(value)
}

/// Reads the text as a record of this table: the record, or else the first fault of the text.
#[tactic(auto, using(crate::proofs::Refusals::refusals))]
pub fn read_as<X: Drop, W: Reader<X>, K: Name, R: Table<K>>(
    alloc: Global,
    reader: &W,
    table: R,
    text: &[u8],
) -> Result<X, WireFault>
    ensures reads { Answers result
        (reading (R.record_shape table) (W.reading reader.now) text.now) }
    ensures owned { IfOk result W.owned }
{
    match judged::<K, R>(alloc, table, text) {
        Err(fault) => Err(fault),
        Ok(value) => match reader.read(alloc, &value) {
            Err(_) => Err(WireFault::NoMemory),
            Ok(read) => Ok(read),
        },
    }
}
