// Facts, printed.
ghost use Rattle.std.specs.Prelude.{◌≡◌, IfOk, Ok};
ghost use Rattle.std.specs.Str.{chars, encode_utf8_all};
ghost use Rattle.serde_json.specs.View.{members_view, view};
ghost use Rattle.rg_json.specs.Printing.{with_members};
ghost use Rattle.rg_json.specs.Reading.{reading};
ghost use Rattle.rg_wire.specs.Records.{facts_of};
ghost use Rattle.rg_wire.specs.Shapes.{facts_shape};
ghost use Rattle.rg_cmd_wire.specs.PrintedNames.{name_of};
ghost use Rattle.rg_download_wire.specs.InOrder.{AreFacts};
ghost use Rattle.rg_download_wire.specs.PrintedFacts.{facts_data, facts_text, row_members, rule_members};

use rg_base::{NoMemory, Text};
use rg_cmd_wire::ReplyKey::{self, Wire};
use rg_facts::Facts;
use rg_json::{put, text_of};
use rg_wire::Key;
use serde_json::{Map, Value};
use std::alloc::Global;

/// Puts what the policies are, and what they are of.
fn put_rules(alloc: Global, members: &mut Map<String, Value>, facts: &Facts) -> Result<(), NoMemory>
    ensures { IfOk result (λ u. members_view members.new.entries
        ≡ with_members name_of (members_view members.old.entries) (rule_members facts.now)) }
{
    put(alloc, members, Wire(Key::Service), &facts.service)?;
    put(alloc, members, Wire(Key::Fallback), &facts.fallback)?;
    put(alloc, members, Wire(Key::ServiceDef), &facts.def)?;
    put(alloc, members, Wire(Key::TagServiceDef), &facts.tag_def)?;
    put(alloc, members, Wire(Key::Policies), &facts.policies)?;
    put(alloc, members, Wire(Key::TagPolicies), &facts.tag_policies)
}

/// Puts the rows, and the versions.
fn put_rows(alloc: Global, members: &mut Map<String, Value>, facts: &Facts) -> Result<(), NoMemory>
    ensures { IfOk result (λ u. members_view members.new.entries
        ≡ with_members name_of (members_view members.old.entries) (row_members facts.now)) }
{
    put(alloc, members, Wire(Key::Zones), &facts.zones)?;
    put(alloc, members, Wire(Key::Roles), &facts.roles)?;
    put(alloc, members, Wire(Key::Resources), &facts.tag_rows)?;
    put(alloc, members, Wire(Key::TimeZones), &facts.time_zones)?;
    let (policies, tags, roles) = (facts.policy_version, facts.tag_version, facts.role_version);
    put(alloc, members, Wire(Key::PolicyVersion), &policies.0)?;
    put(alloc, members, Wire(Key::TagVersion), &tags.0)?;
    put(alloc, members, Wire(Key::RoleVersion), &roles.0)
}

#[tactic(auto, unfolding(crate::specs::PrintedFacts::facts_data))]
fn facts_json(alloc: Global, facts: &Facts) -> Result<Value, NoMemory>
    ensures { IfOk result (λ v. view v ≡ facts_data facts.now) }
{
    let mut members = Map::new(alloc);
    put_rules(alloc, &mut members, facts)?;
    put_rows(alloc, &mut members, facts)?;
    Ok(Value::Object(members))
}

/// Prints facts: compact JSON, keys in byte order, every field present. Facts that were read are read again from
/// this text as themselves.
#[tactic(auto, using(crate::proofs::Plain::facts), unfolding(crate::specs::PrintedFacts::facts_text))]
pub fn print_facts(alloc: Global, facts: &Facts) -> Result<Text, NoMemory>
    ensures text { IfOk result (λ t. t ≡ chars (facts_text facts.now)) }
    ensures bytes { IfOk result (λ t. encode_utf8_all t ≡ facts_text facts.now) }
    ensures again { IfOk result (λ t. AreFacts facts.now
        → reading facts_shape facts_of (facts_text facts.now) ≡ Ok facts.now) }
{
    let value = facts_json(alloc, facts)?;
    text_of(alloc, &value)
}
