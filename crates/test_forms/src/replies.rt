// How a reply to a message's command is answered. The cells of a row: those of the message, and the reply.
use crate::cells::cell;
use crate::messages::{call_of, shown};
use rg_base::{NoMemory, PolicyId, Seq, Version};
use rg_cmd::{AdminReply, Download, PolicyPart, RolePart, RoleWhole, Rule, TagDelta, TagPart};
use rg_http::print_response;
use rg_rest::{Call, response_of};
use std::alloc::Global;

/// A download that has no news of policies, a delta of the tags without changes, and all roles, of which there are none.
fn some_download(alloc: Global) -> Download {
    Download {
        seq: 4,
        policies: PolicyPart::Unchanged,
        tags: TagPart::Delta(TagDelta {
            from: Version(1),
            to: Version(2),
            changes: Seq::new(alloc),
        }),
        roles: RolePart::Whole(RoleWhole {
            version: Version(5),
            roles: Seq::new(alloc),
        }),
    }
}

/// The reply that a word stands for: the name of the rule that refuses, where it is none of the others.
fn reply_of(alloc: Global, word: &str) -> AdminReply {
    match word.as_bytes() {
        b"done" => AdminReply::Done,
        b"kept" => AdminReply::Kept {
            id: PolicyId(3),
            version: Version(2),
        },
        b"listed" => AdminReply::Listed(Seq::new(alloc)),
        b"downloaded" => AdminReply::Downloaded(some_download(alloc)),
        b"L1" => AdminReply::Refused(Rule::L1),
        b"E2" => AdminReply::Refused(Rule::E2),
        b"A3" => AdminReply::Refused(Rule::A3),
        _ => AdminReply::Refused(Rule::V5),
    }
}

/// The answer to a command with this reply, as its status and its body, or as it is written.
fn answer_text(
    alloc: Global,
    call: &Call,
    reply: &AdminReply,
    is_written: bool,
) -> Result<String, NoMemory> {
    if !call.is_command() {
        return Ok(String::from_str(alloc, "no command")?);
    }
    let answer = response_of(alloc, call, reply, false)?;
    if !is_written {
        return shown(alloc, &answer);
    }
    let bytes = print_response(alloc, &answer)?;
    let text = str::from_utf8(bytes.as_slice()).unwrap_or("?");
    Ok(format!(in alloc; "{text:?}")?)
}

/// The answer to a row's command with its reply.
pub(crate) fn answered(alloc: Global, row: &str, is_written: bool) -> Result<String, NoMemory> {
    match call_of(alloc, row) {
        Ok(call) => {
            let reply = reply_of(alloc, cell(row, 4));
            let text = answer_text(alloc, &call, &reply, is_written);
            drop(call);
            drop(reply);
            text
        }
        Err(NoMemory) => Err(NoMemory),
    }
}
