// The audit line of a decision.
ghost use Rattle.std.specs.Prelude.{◌≡◌, IfOk, OnOk};
ghost use Rattle.std.specs.Str.{chars, encode_utf8_all};
ghost use Rattle.rg_wire.specs.Printing.{audit_data, audit_line};
ghost use Rattle.rg_wire.specs.Tokens.{Adds, tokens_of};

use crate::decision_text::LINE_ROOM;
use crate::key::Key;
use crate::writing::{begin, end, member, text_member, written};
use json::Writer;
use rg_base::{NoMemory, Text};
use rg_facts::Decision;
use rg_policy::AccessRequest;
use std::alloc::Global;

fn write_audit(
    out: &mut Writer,
    service: &str,
    request: &AccessRequest,
    decision: &Decision,
) -> Result<(), NoMemory>
    ensures { OnOk result (Adds out.old out.new
        (tokens_of (audit_data (chars service.now) request.now decision.now))) }
{
    begin(out)?;
    member(out, Key::Access, &request.access)?;
    member(out, Key::EvtTime, &request.moment.0)?;
    member(out, Key::Policy, &decision.policy.0)?;
    text_member(out, Key::Repo, service)?;
    member(out, Key::ReqUser, &request.user)?;
    member(out, Key::Resource, &decision.path)?;
    member(out, Key::Result, &decision.access)?;
    member(out, Key::Serial, &decision.serial.0)?;
    end(out)?;
    Ok(())
}

/// Prints the audit line of a request to the service, without its LF: what was asked, when and by whom, on which resource, and
/// what was decided, by which policy and over which publication. Whether the decision is audited is for the caller.
#[tactic(auto, using(crate::proofs::Tokens::tokens_printed), unfolding(crate::specs::Printing::audit_line))]
pub fn print_audit(
    alloc: Global,
    service: &str,
    request: &AccessRequest,
    decision: &Decision,
) -> Result<Text, NoMemory>
    ensures text { IfOk result
        (λ t. t ≡ chars (audit_line (chars service.now) request.now decision.now)) }
    ensures bytes { IfOk result
        (λ t. encode_utf8_all t ≡ audit_line (chars service.now) request.now decision.now) }
{
    let mut out = Writer::new(Vec::with_capacity(alloc, LINE_ROOM)?);
    write_audit(&mut out, service, request, decision)?;
    Ok(written(out))
}
