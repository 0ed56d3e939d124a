// The law of reading and printing parts of a download.
ghost use Rattle.std.specs.Prelude.{◌≡◌, IfOk, Ok, OnOk};
ghost use Rattle.rg_cmd.specs.declared.download.PolicyPart.{PolicyPart};
ghost use Rattle.rg_cmd.specs.declared.download.RolePart.{RolePart};
ghost use Rattle.rg_cmd.specs.declared.download.TagPart.{TagPart};
ghost use Rattle.rg_cmd_wire.specs.PrintedParts.{policy_part_text, role_part_text, tag_part_text};
ghost use Rattle.rg_json.specs.Reading.{Answers, first_of};
ghost use Rattle.rg_download_wire.specs.InOrder.{IsPolicyPart, IsRolePart, IsTagPart};
ghost use Rattle.rg_download_wire.specs.Reading.{policy_part_reading, role_part_reading, tag_part_reading};

use crate::read::{read_policy_part, read_role_part, read_tag_part};
use rg_ask_wire::json_is_orderly;
use rg_base::NoMemory;
use rg_cmd::{PolicyPart, RolePart, TagPart};
use rg_cmd_wire::{ReplyKey, print_policy_part, print_role_part, print_tag_part};
use rg_json::{ToJson, WireFault, text_of};
use std::alloc::Global;

/// A part that reads from this text is in key order. Nothing is answered: it looks at the text.
fn policies_are_in_order(alloc: Global, text: &[u8]) -> Result<(), NoMemory>
    ensures { OnOk result ((part : PolicyPart)
        → policy_part_reading text.now ≡ Ok part → IsPolicyPart part) }
{
    json_is_orderly(alloc, text)
}

fn policies_in_order(alloc: Global, text: &[u8]) -> Result<PolicyPart, WireFault>
    ensures reads { Answers result (policy_part_reading text.now) }
    ensures owned { IfOk result IsPolicyPart }
{
    let part = read_policy_part(alloc, text)?;
    match policies_are_in_order(alloc, text) {
        Err(_) => Err(WireFault::NoMemory),
        Ok(()) => Ok(part),
    }
}

/// A part in key order is read again from its text. Nothing is answered: it looks at the text.
fn policies_are_read(alloc: Global, part: &PolicyPart) -> Result<(), NoMemory>
    ensures { OnOk result (IsPolicyPart part.now
        → policy_part_reading (policy_part_text part.now) ≡ Ok part.now) }
{
    let value = <PolicyPart as ToJson<ReplyKey>>::json(part, alloc)?;
    let _text = text_of(alloc, &value)?;
    Ok(())
}

/// A policies part that was read is read again, from the text that is printed for it, as itself. The answer has the part as it
/// was read first, and as it was read again.
pub fn policies_read_again(
    alloc: Global,
    text: &[u8],
) -> Result<(PolicyPart, PolicyPart), WireFault>
    ensures first { Answers (first_of result) (policy_part_reading text.now) }
    ensures again { IfOk result (λ r. r.1 ≡ r.0) }
{
    let part = policies_in_order(alloc, text)?;
    let Ok(()) = policies_are_read(alloc, &part) else {
        return Err(WireFault::NoMemory);
    };
    let Ok(printed) = print_policy_part(alloc, &part) else {
        return Err(WireFault::NoMemory);
    };
    let again = read_policy_part(alloc, printed.as_str().as_bytes())?;
    Ok((part, again))
}

/// A part that reads from this text is in key order. Nothing is answered: it looks at the text.
fn tags_are_in_order(alloc: Global, text: &[u8]) -> Result<(), NoMemory>
    ensures { OnOk result ((part : TagPart)
        → tag_part_reading text.now ≡ Ok part → IsTagPart part) }
{
    json_is_orderly(alloc, text)
}

fn tags_in_order(alloc: Global, text: &[u8]) -> Result<TagPart, WireFault>
    ensures reads { Answers result (tag_part_reading text.now) }
    ensures owned { IfOk result IsTagPart }
{
    let part = read_tag_part(alloc, text)?;
    match tags_are_in_order(alloc, text) {
        Err(_) => Err(WireFault::NoMemory),
        Ok(()) => Ok(part),
    }
}

/// A part in key order is read again from its text. Nothing is answered: it looks at the text.
fn tags_are_read(alloc: Global, part: &TagPart) -> Result<(), NoMemory>
    ensures { OnOk result (IsTagPart part.now
        → tag_part_reading (tag_part_text part.now) ≡ Ok part.now) }
{
    let value = <TagPart as ToJson<ReplyKey>>::json(part, alloc)?;
    let _text = text_of(alloc, &value)?;
    Ok(())
}

/// A tags part that was read is read again, from the text that is printed for it, as itself. The answer has the part as it was
/// read first, and as it was read again.
pub fn tags_read_again(alloc: Global, text: &[u8]) -> Result<(TagPart, TagPart), WireFault>
    ensures first { Answers (first_of result) (tag_part_reading text.now) }
    ensures again { IfOk result (λ r. r.1 ≡ r.0) }
{
    let part = tags_in_order(alloc, text)?;
    let Ok(()) = tags_are_read(alloc, &part) else {
        return Err(WireFault::NoMemory);
    };
    let Ok(printed) = print_tag_part(alloc, &part) else {
        return Err(WireFault::NoMemory);
    };
    let again = read_tag_part(alloc, printed.as_str().as_bytes())?;
    Ok((part, again))
}

/// A part that reads from this text is in key order. Nothing is answered: it looks at the text.
fn roles_are_in_order(alloc: Global, text: &[u8]) -> Result<(), NoMemory>
    ensures { OnOk result ((part : RolePart)
        → role_part_reading text.now ≡ Ok part → IsRolePart part) }
{
    json_is_orderly(alloc, text)
}

fn roles_in_order(alloc: Global, text: &[u8]) -> Result<RolePart, WireFault>
    ensures reads { Answers result (role_part_reading text.now) }
    ensures owned { IfOk result IsRolePart }
{
    let part = read_role_part(alloc, text)?;
    match roles_are_in_order(alloc, text) {
        Err(_) => Err(WireFault::NoMemory),
        Ok(()) => Ok(part),
    }
}

/// A part in key order is read again from its text. Nothing is answered: it looks at the text.
fn roles_are_read(alloc: Global, part: &RolePart) -> Result<(), NoMemory>
    ensures { OnOk result (IsRolePart part.now
        → role_part_reading (role_part_text part.now) ≡ Ok part.now) }
{
    let value = <RolePart as ToJson<ReplyKey>>::json(part, alloc)?;
    let _text = text_of(alloc, &value)?;
    Ok(())
}

/// A roles part that was read is read again, from the text that is printed for it, as itself. The answer has the part as it was
/// read first, and as it was read again.
pub fn roles_read_again(alloc: Global, text: &[u8]) -> Result<(RolePart, RolePart), WireFault>
    ensures first { Answers (first_of result) (role_part_reading text.now) }
    ensures again { IfOk result (λ r. r.1 ≡ r.0) }
{
    let part = roles_in_order(alloc, text)?;
    let Ok(()) = roles_are_read(alloc, &part) else {
        return Err(WireFault::NoMemory);
    };
    let Ok(printed) = print_role_part(alloc, &part) else {
        return Err(WireFault::NoMemory);
    };
    let again = read_role_part(alloc, printed.as_str().as_bytes())?;
    Ok((part, again))
}
