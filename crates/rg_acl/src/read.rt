// Texts to asks.
ghost use Rattle.std.specs.Prelude.{◌≡◌, IfOk, Some};
ghost use Rattle.serde_json.specs.View.{view};
ghost use Rattle.rg_json.specs.Kinds.{fields_from};
ghost use Rattle.rg_json.specs.Reading.{Answers, reading, reading_of};
ghost use Rattle.rg_json.specs.Shape.{record_of};
ghost use Rattle.rg_wire.specs.Names.{name_of};
ghost use Rattle.rg_wire.specs.Shapes.{record_shape};
ghost use Rattle.rg_acl.specs.Asks.{ask_of, ask_shape};

use crate::ask::ReportAsk;
use rg_base::{Moment, NoMemory, Text};
use rg_json::Need::{May, Must};
use rg_json::{Field, Kind, WireFault, WireKind, i64_at, json_of, judge, list_at, record_at};
use rg_wire::{Key, Record, Wire};
use serde_json::Value;
use std::alloc::Global;

/// The fields of an ask, in the order of the format.
#[tactic(auto, unfolding(rg_json::specs::Kinds::shape_of, rg_wire::specs::Shapes::record_shape))]
fn ask_fields() -> &'static [Field<Key, Record>]
    ensures { record_of (fields_from name_of record_shape result.now) ≡ ask_shape }
{
    &[
        Field(Key::Resource, Must, Kind::Record(Record::Resource)),
        Field(Key::AccessTypes, May, Kind::Names),
        Field(Key::AccessTime, May, Kind::Integer),
    ]
}

/// The ask that the fields make; one without a time is made at this moment.
#[tactic(auto, unfolding(crate::specs::Asks::ask_of))]
fn ask_of(alloc: Global, value: &Value, now: Moment) -> Result<ReportAsk, NoMemory>
    ensures { IfOk result (λ ask. ask ≡ ask_of now (view value.now)) }
{
    let seconds = i64_at(value, Key::AccessTime, now.0);
    Ok(ReportAsk {
        resource: record_at(alloc, &Wire, value, Key::Resource)?,
        accesses: list_at(alloc, &Wire, value, Key::AccessTypes)?,
        moment: Moment(seconds),
    })
}

/// The ask of a value, or the value's first fault.
#[tactic(auto, using(crate::proofs::Refusals::refusals))]
fn ask_in(alloc: Global, value: &Value, now: Moment) -> Result<ReportAsk, WireFault>
    ensures { Answers result (reading_of ask_shape (ask_of now) (Some (view value.now))) }
{
    judge::<Key, Record>(alloc, ask_fields(), value)?;
    match ask_of(alloc, value, now) {
        Err(_) => Err(WireFault::NoMemory),
        Ok(ask) => Ok(ask),
    }
}

/// Reads what a report is asked about: `resource`, `accessTypes` and `accessTime`. Its level names, values and access types
/// keep the limits of a request's. One without a time is made at `now`.
pub fn read_report(alloc: Global, text: &[u8], now: Moment) -> Result<ReportAsk, WireFault>
    ensures { Answers result (reading ask_shape (ask_of now) text.now) }
{
    match json_of(alloc, text) {
        Err(_) => Err(WireFault::NoMemory),
        Ok(None) => Err(WireFault::Bad {
            path: Text::empty(alloc),
            kind: WireKind::Syntax,
        }),
        Ok(Some(value)) => ask_in(alloc, &value, now),
    }
}
