// Rows about copies of records, which are read as JSON and written out, and about tags.
use crate::rows::{field, pairs, records, spread, tell_yes_or_no, told};
use crate::shown::Show;
use rg_base::{Moment, NoMemory, Seq, Text, TryCopy};
use rg_defs::ServiceDef;
use rg_json::{Reader, ToJson, text_of};
use rg_policy::{Policy, ResourceMap, Tag, TimeZoneRow, maps_of};
use rg_roles::RoleRow;
use rg_tags::{TagRow, attribute, tags_fit};
use rg_wire::{Key, Wire, print_policy, read_policy, read_request};
use std::alloc::Global;

/// What the copies of the records of a list are.
fn tell_copies<X: Drop + TryCopy + Show, W: Reader<X>>(
    alloc: Global,
    reader: &W,
    row: &str,
) -> Result<String, NoMemory> {
    let copies = records(alloc, reader, field(row, 1))?.try_copy(alloc)?;
    let mut answer = String::new(alloc);
    for copy in copies.as_slice() {
        copy.show(&mut answer)?;
    }
    Ok(answer)
}

/// `request|REQUEST`: what the copy of a request is.
fn tell_request(alloc: Global, row: &str) -> Result<String, NoMemory> {
    let Ok(request) = read_request(alloc, field(row, 1).as_bytes(), Moment(0)) else {
        return told(alloc, "no request");
    };
    let copy = request.try_copy(alloc)?;
    let mut answer = String::new(alloc);
    copy.show(&mut answer)?;
    Ok(answer)
}

fn copy_printed(alloc: Global, policy: &Policy) -> Result<Text, NoMemory> {
    let copy = policy.try_copy(alloc)?;
    print_policy(alloc, &copy)
}

/// The copies of the policy's resource maps.
fn maps_printed(alloc: Global, policy: &Policy) -> Result<Text, NoMemory> {
    let maps = maps_of(alloc, policy)?.try_copy(alloc)?;
    let value = <Seq<ResourceMap> as ToJson<Key>>::json(&maps, alloc)?;
    text_of(alloc, &value)
}

/// `policy|POLICY`: what the copy of a policy is. `maps|POLICY`: what its resource maps are.
fn tell_policy(alloc: Global, row: &str) -> Result<String, NoMemory> {
    let Ok(policy) = read_policy(alloc, field(row, 1).as_bytes()) else {
        return told(alloc, "no policy");
    };
    let printed = match field(row, 0) {
        "policy" => copy_printed(alloc, &policy),
        _ => maps_printed(alloc, &policy),
    };
    drop(policy);
    told(alloc, printed?.as_str())
}

/// `fits|TAGS`: whether they are few and have kinds.
fn tell_fit(alloc: Global, row: &str) -> Result<String, NoMemory> {
    let text = spread(alloc, field(row, 1))?;
    let tags = records::<Tag, Wire>(alloc, &Wire, text.as_str())?;
    tell_yes_or_no(alloc, tags_fit(tags.as_slice()))
}

/// `attribute|KIND|PAIRS|NAME`: the kind and the number of the attributes of a tag's copy, and the attribute of this name.
fn tell_attribute(alloc: Global, row: &str) -> Result<String, NoMemory> {
    let kind = Text::copy_of(alloc, field(row, 1))?;
    let attributes = pairs(alloc, field(row, 2))?;
    let tag = Tag { kind, attributes }.try_copy(alloc)?;
    let value = attribute(&tag, field(row, 3)).unwrap_or("-");
    let count = tag.attributes.len();
    Ok(format!(in alloc; "{} of {count}: {value}", tag.kind.as_str())?)
}

pub(crate) fn answer(alloc: Global, row: &str) -> Result<String, NoMemory> {
    match field(row, 0) {
        "request" => tell_request(alloc, row),
        "policy" | "maps" => tell_policy(alloc, row),
        "definitions" => tell_copies::<ServiceDef, Wire>(alloc, &Wire, row),
        "roles" => tell_copies::<RoleRow, Wire>(alloc, &Wire, row),
        "tags" => tell_copies::<Tag, Wire>(alloc, &Wire, row),
        "tag_rows" => tell_copies::<TagRow, Wire>(alloc, &Wire, row),
        "time_zones" => tell_copies::<TimeZoneRow, Wire>(alloc, &Wire, row),
        "fits" => tell_fit(alloc, row),
        "attribute" => tell_attribute(alloc, row),
        _ => told(alloc, "no such row"),
    }
}
