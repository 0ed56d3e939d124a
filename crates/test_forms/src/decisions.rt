// How a decision is answered, and its audit line. The cells of a row: access, policy, serial, the versions of policies, tags and
// roles, the path; for an audit line also the user and the moment. A control character is written as its picture, LF as ␊.
use crate::cells::{cell, signed, unsigned};
use crate::messages::shown;
use rg_base::{Moment, NoMemory, PolicyId, Seq, Serial, Text, Version};
use rg_facts::{Access, Decision};
use rg_policy::{AccessRequest, Resource};
use rg_rest::decision_response;
use rg_wire::print_audit;
use std::alloc::Global;

/// The control character that a picture shows; every other character itself.
fn pictured(letter: char) -> char {
    let place = u32::from(letter).wrapping_sub(0x2400);
    if place < 32 {
        char::from_u32(place).unwrap_or(letter)
    } else {
        letter
    }
}

fn text_of(alloc: Global, cell: &str) -> Result<Text, NoMemory> {
    let mut text = String::new(alloc);
    for letter in cell.chars() {
        text.push(pictured(letter))?;
    }
    Text::copy_of(alloc, text.as_str())
}

fn access_of(word: &str) -> Access {
    match word.as_bytes() {
        b"ALLOWED" => Access::Allowed,
        b"DENIED" => Access::Denied,
        _ => Access::Undetermined,
    }
}

fn decision_of(alloc: Global, row: &str) -> Result<Decision, NoMemory> {
    Ok(Decision {
        access: access_of(cell(row, 0)),
        policy: PolicyId(signed(row, 1)),
        audited: true,
        filter: None,
        mask: None,
        serial: Serial(unsigned(row, 2)),
        policy_version: Version(unsigned(row, 3)),
        tag_version: Version(unsigned(row, 4)),
        role_version: Version(unsigned(row, 5)),
        path: text_of(alloc, cell(row, 6))?,
    })
}

fn request_of(alloc: Global, row: &str) -> Result<AccessRequest, NoMemory> {
    Ok(AccessRequest {
        user: text_of(alloc, cell(row, 7))?,
        groups: Seq::new(alloc),
        resource: Resource {
            elements: Seq::new(alloc),
            owner: Text::empty(alloc),
        },
        access: Text::copy_of(alloc, "select")?,
        moment: Moment(signed(row, 8)),
        address: Text::empty(alloc),
        context: Seq::new(alloc),
    })
}

/// The answer to a decision, after which the connection is closed.
pub(crate) fn answered(alloc: Global, row: &str) -> Result<String, NoMemory> {
    let decision = decision_of(alloc, row)?;
    let answer = decision_response(alloc, &decision, true)?;
    let (shown, closes) = (shown(alloc, &answer)?, answer.close);
    Ok(format!(in alloc; "{shown} close={closes}")?)
}

/// The audit line of a decision.
pub(crate) fn audited(alloc: Global, row: &str) -> Result<String, NoMemory> {
    let request = request_of(alloc, row)?;
    let decision = decision_of(alloc, row)?;
    let line = print_audit(alloc, "hive1", &request, &decision)?;
    Ok(String::from_str(alloc, line.as_str())?)
}
