// The answers of the administration, printed.
ghost use Rattle.std.specs.Prelude.{◌≡◌, IfOk};
ghost use Rattle.std.specs.Str.{chars, encode_utf8_all};
ghost use Rattle.serde_json.specs.View.{view};
ghost use Rattle.rg_cmd_wire.specs.PrintedReplies.{kept_data, kept_text, policies_data, policies_text, refusal_data, refusal_text, reply_text};

use crate::download_text::only;
use crate::reply_key::ReplyKey::{self, Wire};
use rg_base::{NoMemory, PolicyId, Seq, Text, Version};
use rg_cmd::{AdminReply, Download, Rule};
use rg_json::{ToJson, put, text_of};
use rg_policy::Policy;
use rg_shared::Shared;
use rg_wire::Key;
use serde_json::{Map, Value};
use std::alloc::Global;

impl ToJson<ReplyKey> for Rule {
    ghost use Rattle.rg_cmd_wire.specs.PrintedReplies.{rule_data};

    ghost printing = { rule_data };

    fn json(&self, alloc: Global) -> Result<Value, NoMemory> {
        Ok(Value::String(String::from_str(alloc, self.name())?))
    }
}

impl ToJson<ReplyKey> for Download {
    ghost use Rattle.rg_cmd_wire.specs.PrintedReplies.{download_data};

    ghost printing = { download_data };

    #[tactic(auto, unfolding(crate::specs::PrintedReplies::download_data))]
    fn json(&self, alloc: Global) -> Result<Value, NoMemory> {
        let mut members = Map::new(alloc);
        put(alloc, &mut members, Wire(Key::Policies), &self.policies)?;
        put(alloc, &mut members, Wire(Key::Roles), &self.roles)?;
        put(alloc, &mut members, ReplyKey::Seq, &self.seq)?;
        put(alloc, &mut members, Wire(Key::Tags), &self.tags)?;
        Ok(Value::Object(members))
    }
}

#[tactic(auto, unfolding(crate::specs::PrintedReplies::kept_data))]
fn kept_json(alloc: Global, id: PolicyId, version: Version) -> Result<Value, NoMemory>
    ensures { IfOk result (λ v. view v ≡ kept_data id version) }
{
    let mut members = Map::new(alloc);
    put(alloc, &mut members, Wire(Key::Id), &id.0)?;
    put(alloc, &mut members, Wire(Key::Version), &version.0)?;
    Ok(Value::Object(members))
}

fn policies_json(alloc: Global, policies: &Seq<Shared<Policy>>) -> Result<Value, NoMemory>
    ensures { IfOk result (λ v. view v ≡ policies_data policies.now) }
{
    <Seq<Shared<Policy>> as ToJson<ReplyKey>>::json(policies, alloc)
}

impl ToJson<ReplyKey> for AdminReply {
    ghost use Rattle.rg_cmd_wire.specs.PrintedReplies.{reply_data};

    ghost printing = { reply_data };

    #[tactic(auto, unfolding(crate::specs::PrintedReplies::reply_data))]
    fn json(&self, alloc: Global) -> Result<Value, NoMemory> {
        match self {
            AdminReply::Done => only(alloc, ReplyKey::Done, &true),
            AdminReply::Kept { id, version } => kept_json(alloc, *id, *version),
            AdminReply::Found(policy) => only(alloc, Wire(Key::Policy), policy),
            AdminReply::Listed(policies) => only(alloc, Wire(Key::Policies), policies),
            AdminReply::Downloaded(download) => download.json(alloc),
            AdminReply::Refused(rule) => only(alloc, ReplyKey::Refused, rule),
        }
    }
}

/// Prints a reply: the line of a script, without its LF.
#[tactic(auto, using(crate::proofs::Plain::replies), unfolding(crate::specs::PrintedReplies::reply_text))]
pub fn print_reply(alloc: Global, reply: &AdminReply) -> Result<Text, NoMemory>
    ensures text { IfOk result (λ t. t ≡ chars (reply_text reply.now)) }
    ensures bytes { IfOk result (λ t. encode_utf8_all t ≡ reply_text reply.now) }
{
    let value = reply.json(alloc)?;
    text_of(alloc, &value)
}

// The bodies of answers to HTTP.

/// Prints the id and the version of a policy that was created or updated.
#[tactic(auto, using(crate::proofs::Plain::replies), unfolding(crate::specs::PrintedReplies::kept_text))]
pub fn print_kept(alloc: Global, id: PolicyId, version: Version) -> Result<Text, NoMemory>
    ensures text { IfOk result (λ t. t ≡ chars (kept_text id version)) }
    ensures bytes { IfOk result (λ t. encode_utf8_all t ≡ kept_text id version) }
{
    let value = kept_json(alloc, id, version)?;
    text_of(alloc, &value)
}

/// Prints a list of policies.
#[tactic(auto, using(crate::proofs::Plain::replies), unfolding(crate::specs::PrintedReplies::policies_text))]
pub fn print_policies(alloc: Global, policies: &Seq<Shared<Policy>>) -> Result<Text, NoMemory>
    ensures text { IfOk result (λ t. t ≡ chars (policies_text policies.now)) }
    ensures bytes { IfOk result (λ t. encode_utf8_all t ≡ policies_text policies.now) }
{
    let value = policies_json(alloc, policies)?;
    text_of(alloc, &value)
}

#[tactic(auto, unfolding(crate::specs::PrintedReplies::refusal_data))]
fn refusal_json(alloc: Global, rule: Rule) -> Result<Value, NoMemory>
    ensures { IfOk result (λ v. view v ≡ refusal_data rule) }
{
    only(alloc, Wire(Key::Rule), &rule)
}

/// Prints a refusal: the rule that was broken.
#[tactic(auto, using(crate::proofs::Plain::replies), unfolding(crate::specs::PrintedReplies::refusal_text))]
pub fn print_refusal(alloc: Global, rule: Rule) -> Result<Text, NoMemory>
    ensures text { IfOk result (λ t. t ≡ chars (refusal_text rule)) }
    ensures bytes { IfOk result (λ t. encode_utf8_all t ≡ refusal_text rule) }
{
    let value = refusal_json(alloc, rule)?;
    text_of(alloc, &value)
}
