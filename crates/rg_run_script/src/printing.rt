// The lines of replies and decisions.
ghost use Rattle.std.specs.Prelude.{◌≡◌, ◌++◌, IfOk, OnOk, string_bytes};
ghost use Rattle.std.specs.Str.{encode_utf8_all};
ghost use Rattle.rg_script.specs.PrintedReplies.{reply_text};
ghost use Rattle.rg_run_script.specs.Printed.{decision_line, reply_line};

use rg_base::{NoMemory, Text};
use rg_cmd::AdminReply;
use rg_facts::Decision;
use rg_script::print_reply;
use rg_wire::print_decision;
use std::alloc::Global;

/// Adds the decision line.
#[tactic(auto, unfolding(crate::specs::Printed::decision_line))]
pub fn add_decision(alloc: Global, text: &mut String, decision: &Decision) -> Result<(), NoMemory>
    ensures { OnOk result (string_bytes text.new
        ≡ string_bytes text.old ++ decision_line decision.now) }
{
    let printed = print_decision(alloc, decision)?;
    let line = printed.as_str();
    match writeln!(text, "{line}") {
        Ok(()) => Ok(()),
        Err(_) => Err(NoMemory),
    }
}

/// The text of a reply, which is let go.
fn spelled(alloc: Global, reply: AdminReply) -> Result<Text, NoMemory>
    ensures { IfOk result (λ t. encode_utf8_all t ≡ reply_text reply) }
{
    print_reply(alloc, &reply)
}

/// Adds the line of a reply.
#[tactic(auto, unfolding(crate::specs::Printed::reply_line))]
pub fn add_reply(alloc: Global, text: &mut String, reply: AdminReply) -> Result<(), NoMemory>
    ensures { OnOk result (string_bytes text.new ≡ string_bytes text.old ++ reply_line reply) }
{
    let printed = spelled(alloc, reply)?;
    let line = printed.as_str();
    match writeln!(text, "{line}") {
        Ok(()) => Ok(()),
        Err(_) => Err(NoMemory),
    }
}
