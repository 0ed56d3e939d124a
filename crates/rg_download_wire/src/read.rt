// Texts to the parts of a download.
ghost use Rattle.std.specs.Prelude.{◌≡◌, IfErr, IfOk, None, Some, is_some, true};
ghost use Rattle.serde_json.specs.Find.{as_object};
ghost use Rattle.serde_json.specs.View.{view};
ghost use Rattle.rg_json.specs.Faults.{fault_of};
ghost use Rattle.rg_json.specs.Reading.{Answers, Refuses};
ghost use Rattle.rg_json.specs.Texts.{data_of};
ghost use Rattle.rg_wire.specs.Shapes.{record_shape};
ghost use Rattle.rg_download_wire.specs.Reading.{no_map, no_whole, policy_part_in, policy_part_reading, role_part_in, role_part_reading, tag_part_in, tag_part_reading};

use crate::parts::DownloadWire;
use rg_base::Text;
use rg_cmd::{PolicyPart, RolePart, TagPart};
use rg_json::{Reader, Table, WireFault, WireKind, find, json_of, judge};
use rg_wire::{Key, Record};
use serde_json::Value;
use std::alloc::Global;

/// The record of a value by its table, or else the value's first fault.
fn record_in<X: Drop, W: Reader<X>>(
    alloc: Global,
    reader: &W,
    table: Record,
    value: &Value,
) -> Result<X, WireFault>
    ensures right { IfOk result (λ x. fault_of (record_shape table) (view value.now) ≡ None) }
    ensures reads { IfOk result (λ x. x ≡ W.reading reader.now (view value.now)) }
    ensures wrong { IfErr result (λ e. Refuses e (fault_of (record_shape table) (view value.now))) }
{
    judge::<Key, Record>(alloc, table.fields(), value)?;
    match reader.read(alloc, value) {
        Err(_) => Err(WireFault::NoMemory),
        Ok(read) => Ok(read),
    }
}

/// The fault where a map has neither `delta` nor `whole`.
#[tactic(auto, using(crate::proofs::Refusals::spellings))]
fn no_whole(alloc: Global) -> WireFault
    ensures { Refuses result (Some no_whole) }
{
    match Text::copy_of(alloc, "/whole") {
        Err(_) => WireFault::NoMemory,
        Ok(path) => WireFault::Bad {
            path,
            kind: WireKind::Missing,
        },
    }
}

#[tactic(auto, using(crate::proofs::Refusals::refusals), unfolding(rg_wire::specs::Shapes::record_shape))]
fn policy_part_in(alloc: Global, value: &Value) -> Result<PolicyPart, WireFault>
    ensures { Answers result (policy_part_in (view value.now)) }
{
    if let Some(delta) = find(value, Key::Delta) {
        let delta = record_in(alloc, &DownloadWire, Record::PolicyDelta, delta)?;
        return Ok(PolicyPart::Delta(delta));
    }
    match find(value, Key::Whole) {
        None => Err(no_whole(alloc)),
        Some(whole) => {
            let whole = record_in(alloc, &DownloadWire, Record::PolicyWhole, whole)?;
            Ok(PolicyPart::Whole(whole))
        }
    }
}

#[tactic(auto, using(crate::proofs::Refusals::refusals), unfolding(rg_wire::specs::Shapes::record_shape))]
fn tag_part_in(alloc: Global, value: &Value) -> Result<TagPart, WireFault>
    ensures { Answers result (tag_part_in (view value.now)) }
{
    if let Some(delta) = find(value, Key::Delta) {
        let delta = record_in(alloc, &DownloadWire, Record::TagDelta, delta)?;
        return Ok(TagPart::Delta(delta));
    }
    match find(value, Key::Whole) {
        None => Err(no_whole(alloc)),
        Some(whole) => {
            let whole = record_in(alloc, &DownloadWire, Record::TagWhole, whole)?;
            Ok(TagPart::Whole(whole))
        }
    }
}

#[tactic(auto, using(crate::proofs::Refusals::refusals), unfolding(rg_wire::specs::Shapes::record_shape))]
fn role_part_in(alloc: Global, value: &Value) -> Result<RolePart, WireFault>
    ensures { Answers result (role_part_in (view value.now)) }
{
    match find(value, Key::Whole) {
        None => Err(no_whole(alloc)),
        Some(whole) => {
            let whole = record_in(alloc, &DownloadWire, Record::RoleWhole, whole)?;
            Ok(RolePart::Whole(whole))
        }
    }
}

/// The JSON of a text, which has to be a map.
#[tactic(auto, using(crate::proofs::Refusals::refusals))]
fn map_in(alloc: Global, text: &[u8]) -> Result<Value, WireFault>
    ensures json { IfOk result (λ v. data_of text.now ≡ Some (view v)) }
    ensures map { IfOk result (λ v. is_some (as_object (view v)) ≡ true) }
    ensures wrong { IfErr result (λ e. Refuses e (no_map (data_of text.now))) }
{
    let kind = match json_of(alloc, text) {
        Err(_) => return Err(WireFault::NoMemory),
        Ok(None) => WireKind::Syntax,
        Ok(Some(value)) => {
            if value.is_object() {
                return Ok(value);
            }
            WireKind::Mistyped
        }
    };
    Err(WireFault::Bad {
        path: Text::empty(alloc),
        kind,
    })
}

/// Reads the policies part of a download: a map with `delta` or `whole`, as the administration prints it where the policies
/// are not unchanged. The path of a fault is within what `delta` or `whole` has.
#[tactic(auto, using(crate::proofs::Refusals::maps))]
pub fn read_policy_part(alloc: Global, text: &[u8]) -> Result<PolicyPart, WireFault>
    ensures { Answers result (policy_part_reading text.now) }
{
    let value = map_in(alloc, text)?;
    policy_part_in(alloc, &value)
}

/// Reads the tags part of a download: a map with `delta` or `whole`, as the administration prints it where the tag rows are
/// not unchanged. The path of a fault is within what `delta` or `whole` has.
#[tactic(auto, using(crate::proofs::Refusals::maps))]
pub fn read_tag_part(alloc: Global, text: &[u8]) -> Result<TagPart, WireFault>
    ensures { Answers result (tag_part_reading text.now) }
{
    let value = map_in(alloc, text)?;
    tag_part_in(alloc, &value)
}

/// Reads the roles part of a download: a map with `whole`, as the administration prints it where the roles are not unchanged.
/// The path of a fault is within what `whole` has.
#[tactic(auto, using(crate::proofs::Refusals::maps))]
pub fn read_role_part(alloc: Global, text: &[u8]) -> Result<RolePart, WireFault>
    ensures { Answers result (role_part_reading text.now) }
{
    let value = map_in(alloc, text)?;
    role_part_in(alloc, &value)
}
