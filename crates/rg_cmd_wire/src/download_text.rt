// The parts of a download, printed.
ghost use Rattle.std.specs.Prelude.{◌≡◌, IfOk};
ghost use Rattle.std.specs.Str.{chars, encode_utf8_all};
ghost use Rattle.serde_json.specs.View.{view};
ghost use Rattle.rg_cmd_wire.specs.PrintedNames.{only_data};
ghost use Rattle.rg_cmd_wire.specs.PrintedParts.{policy_part_text, role_part_text, tag_part_text, unchanged_data};

use crate::reply_key::ReplyKey;
use rg_base::{NoMemory, Text};
use rg_cmd::{PolicyPart, RolePart, TagPart};
use rg_json::{ToJson, put, text_of};
use serde_json::{Map, Value};
use std::alloc::Global;

fn unchanged(alloc: Global) -> Result<Value, NoMemory>
    ensures { IfOk result (λ v. view v ≡ unchanged_data) }
{
    Ok(Value::String(String::from_str(alloc, "unchanged")?))
}

/// A map of this one field.
#[tactic(auto, unfolding(crate::specs::PrintedNames::only_data))]
pub(crate) fn only<X: ToJson<ReplyKey>>(
    alloc: Global,
    key: ReplyKey,
    held: &X,
) -> Result<Value, NoMemory>
    ensures { IfOk result (λ v. view v ≡ only_data key (X.printing held.now)) }
{
    let mut members = Map::new(alloc);
    put(alloc, &mut members, key, held)?;
    Ok(Value::Object(members))
}

impl ToJson<ReplyKey> for PolicyPart {
    ghost use Rattle.rg_cmd_wire.specs.PrintedParts.{policy_part_data};

    ghost printing = { policy_part_data };

    #[tactic(auto, unfolding(crate::specs::PrintedParts::policy_part_data))]
    fn json(&self, alloc: Global) -> Result<Value, NoMemory> {
        match self {
            PolicyPart::Unchanged => unchanged(alloc),
            PolicyPart::Delta(delta) => only(alloc, ReplyKey::Delta, delta),
            PolicyPart::Whole(whole) => only(alloc, ReplyKey::Whole, whole),
        }
    }
}

impl ToJson<ReplyKey> for TagPart {
    ghost use Rattle.rg_cmd_wire.specs.PrintedParts.{tag_part_data};

    ghost printing = { tag_part_data };

    #[tactic(auto, unfolding(crate::specs::PrintedParts::tag_part_data))]
    fn json(&self, alloc: Global) -> Result<Value, NoMemory> {
        match self {
            TagPart::Unchanged => unchanged(alloc),
            TagPart::Delta(delta) => only(alloc, ReplyKey::Delta, delta),
            TagPart::Whole(whole) => only(alloc, ReplyKey::Whole, whole),
        }
    }
}

impl ToJson<ReplyKey> for RolePart {
    ghost use Rattle.rg_cmd_wire.specs.PrintedParts.{role_part_data};

    ghost printing = { role_part_data };

    #[tactic(auto, unfolding(crate::specs::PrintedParts::role_part_data))]
    fn json(&self, alloc: Global) -> Result<Value, NoMemory> {
        match self {
            RolePart::Unchanged => unchanged(alloc),
            RolePart::Whole(whole) => only(alloc, ReplyKey::Whole, whole),
        }
    }
}

/// Prints the policies part of a download: a map whose one field is `delta` or `whole`, or else the text `unchanged`.
#[tactic(auto, using(crate::proofs::Plain::parts), unfolding(crate::specs::PrintedParts::policy_part_text))]
pub fn print_policy_part(alloc: Global, part: &PolicyPart) -> Result<Text, NoMemory>
    ensures text { IfOk result (λ t. t ≡ chars (policy_part_text part.now)) }
    ensures bytes { IfOk result (λ t. encode_utf8_all t ≡ policy_part_text part.now) }
{
    let value = part.json(alloc)?;
    text_of(alloc, &value)
}

/// Prints the tags part of a download: a map whose one field is `delta` or `whole`, or else the text `unchanged`.
#[tactic(auto, using(crate::proofs::Plain::parts), unfolding(crate::specs::PrintedParts::tag_part_text))]
pub fn print_tag_part(alloc: Global, part: &TagPart) -> Result<Text, NoMemory>
    ensures text { IfOk result (λ t. t ≡ chars (tag_part_text part.now)) }
    ensures bytes { IfOk result (λ t. encode_utf8_all t ≡ tag_part_text part.now) }
{
    let value = part.json(alloc)?;
    text_of(alloc, &value)
}

/// Prints the roles part of a download: a map whose one field is `whole`, or else the text `unchanged`.
#[tactic(auto, using(crate::proofs::Plain::parts), unfolding(crate::specs::PrintedParts::role_part_text))]
pub fn print_role_part(alloc: Global, part: &RolePart) -> Result<Text, NoMemory>
    ensures text { IfOk result (λ t. t ≡ chars (role_part_text part.now)) }
    ensures bytes { IfOk result (λ t. encode_utf8_all t ≡ role_part_text part.now) }
{
    let value = part.json(alloc)?;
    text_of(alloc, &value)
}
