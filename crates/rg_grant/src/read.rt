// Texts to rows.
ghost use Rattle.std.specs.Prelude.{◌≡◌, IfOk, Some};
ghost use Rattle.serde_json.specs.View.{view};
ghost use Rattle.rg_json.specs.Kinds.{fields_from};
ghost use Rattle.rg_json.specs.Reading.{Answers, reading, reading_of};
ghost use Rattle.rg_json.specs.Shape.{record_of};
ghost use Rattle.rg_wire.specs.Names.{name_of};
ghost use Rattle.rg_wire.specs.Shapes.{record_shape};
ghost use Rattle.rg_grant.specs.Rows.{grant_shape, row_of};

use crate::row::GrantRow;
use rg_base::{NoMemory, Text};
use rg_json::Need::{May, Must};
use rg_json::{
    Field, Kind, WireFault, WireKind, bool_at, json_of, judge, list_at, map_at, text_at,
};
use rg_wire::{Key, Record, Wire};
use serde_json::Value;
use std::alloc::Global;

/// The fields of a row, in the order of the format.
#[tactic(auto, unfolding(rg_json::specs::Kinds::shape_of, rg_wire::specs::Shapes::record_shape))]
fn grant_fields() -> &'static [Field<Key, Record>]
    ensures { record_of (fields_from name_of record_shape result.now) ≡ grant_shape }
{
    &[
        Field(Key::Service, Must, Kind::Text),
        Field(Key::ZoneName, May, Kind::Text),
        Field(Key::Resources, May, Kind::Map(Record::PolicyResource)),
        Field(Key::Users, May, Kind::Texts),
        Field(Key::Groups, May, Kind::Texts),
        Field(Key::Roles, May, Kind::Texts),
        Field(Key::AccessTypes, May, Kind::Texts),
        Field(Key::DelegateAdmin, May, Kind::Truth),
    ]
}

/// The row that the fields make.
#[tactic(auto, unfolding(crate::specs::Rows::row_of))]
fn row_of(alloc: Global, value: &Value) -> Result<GrantRow, NoMemory>
    ensures { IfOk result (λ row. row ≡ row_of (view value.now)) }
{
    Ok(GrantRow {
        service: text_at(alloc, value, Key::Service)?,
        zone: text_at(alloc, value, Key::ZoneName)?,
        resources: map_at(alloc, &Wire, value, Key::Resources)?,
        users: list_at(alloc, &Wire, value, Key::Users)?,
        groups: list_at(alloc, &Wire, value, Key::Groups)?,
        roles: list_at(alloc, &Wire, value, Key::Roles)?,
        accesses: list_at(alloc, &Wire, value, Key::AccessTypes)?,
        delegate: bool_at(value, Key::DelegateAdmin, false),
    })
}

/// The row of a value, or the value's first fault.
#[tactic(auto, using(crate::proofs::Refusals::refusals))]
fn row_in(alloc: Global, value: &Value) -> Result<GrantRow, WireFault>
    ensures { Answers result (reading_of grant_shape row_of (Some (view value.now))) }
{
    judge::<Key, Record>(alloc, grant_fields(), value)?;
    match row_of(alloc, value) {
        Err(_) => Err(WireFault::NoMemory),
        Ok(row) => Ok(row),
    }
}

/// Reads what is to be granted or revoked (after Ranger's GrantRevokeRequest).
pub fn read_grant(alloc: Global, text: &[u8]) -> Result<GrantRow, WireFault>
    ensures { Answers result (reading grant_shape row_of text.now) }
{
    match json_of(alloc, text) {
        Err(_) => Err(WireFault::NoMemory),
        Ok(None) => Err(WireFault::Bad {
            path: Text::empty(alloc),
            kind: WireKind::Syntax,
        }),
        Ok(Some(value)) => row_in(alloc, &value),
    }
}
