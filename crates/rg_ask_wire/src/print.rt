// Asks, printed.
ghost use Rattle.std.specs.Prelude.{◌≡◌, ◌∷◌, [], IfOk, Ok, true};
ghost use Rattle.std.specs.Str.{chars, encode_utf8_all};
ghost use Rattle.serde_json.specs.View.{members_view, view};
ghost use Rattle.rg_json.specs.Printing.{option_data, with_members};
ghost use Rattle.rg_wire.specs.declared.key.Key.TheVariants as key;
ghost use Rattle.rg_wire.specs.Names.{name_of};
ghost use Rattle.rg_ask_wire.specs.Asks.{ask_data, ask_text, command_data, field_members, service_data, user_data, version_data, word_data, word_of_command};
ghost use Rattle.rg_ask_wire.specs.Keeping.{is_keeping};
ghost use Rattle.rg_ask_wire.specs.KeyOrder.{IsInKeyOrder};
ghost use Rattle.rg_ask_wire.specs.Reading.{ask_reading};

use crate::key::AskKey;
use rg_base::{NoMemory, Text, Version};
use rg_cmd::{AdminCommand, Ask, ServiceRow, UserRow};
use rg_json::{Name, ToJson, put, put_value, text_of};
use rg_policy::Policy;
use rg_wire::Key;
use serde_json::{Map, Value};
use std::alloc::Global;

#[tactic(auto, unfolding(crate::specs::Asks::service_data))]
fn service_json(alloc: Global, service: &ServiceRow) -> Result<Value, NoMemory>
    ensures { IfOk result (λ v. view v ≡ service_data service.now) }
{
    let mut members = Map::new(alloc);
    put(alloc, &mut members, Key::Name, &service.name)?;
    put(alloc, &mut members, Key::Type, &service.def)?;
    put(alloc, &mut members, Key::TagService, &service.tag_service)?;
    put(alloc, &mut members, Key::Fallback, &service.fallback)?;
    Ok(Value::Object(members))
}

#[tactic(auto, unfolding(crate::specs::Asks::user_data))]
fn user_json(alloc: Global, user: &UserRow) -> Result<Value, NoMemory>
    ensures { IfOk result (λ v. view v ≡ user_data user.now) }
{
    let mut members = Map::new(alloc);
    put(alloc, &mut members, Key::Name, &user.name)?;
    put(alloc, &mut members, Key::Groups, &user.groups)?;
    Ok(Value::Object(members))
}

/// A version, null where there is none.
fn version_json(alloc: Global, version: &Option<Version>) -> Result<Value, NoMemory>
    ensures { IfOk result (λ v. view v ≡ option_data version_data version.now) }
{
    match version {
        None => Ok(Value::Null),
        Some(version) => <u64 as ToJson<Key>>::json(&version.0, alloc),
    }
}

/// What the command is called.
#[tactic(auto, unfolding(crate::specs::Asks::word_of_command))]
fn command_word(command: &AdminCommand) -> &'static str
    ensures { result.now ≡ word_of_command command.now }
{
    match command {
        AdminCommand::PutDef { .. } => "putDef",
        AdminCommand::CreateService { .. } => "createService",
        AdminCommand::UpdateService { .. } => "updateService",
        AdminCommand::DeleteService { .. } => "deleteService",
        AdminCommand::CreatePolicy { .. } => "createPolicy",
        AdminCommand::UpdatePolicy { .. } => "updatePolicy",
        AdminCommand::DeletePolicy { .. } => "deletePolicy",
        AdminCommand::GetPolicy { .. } => "getPolicy",
        AdminCommand::ListPolicies { .. } => "listPolicies",
        AdminCommand::PutRole { .. } => "putRole",
        AdminCommand::DeleteRole { .. } => "deleteRole",
        AdminCommand::PutZone { .. } => "putZone",
        AdminCommand::DeleteZone { .. } => "deleteZone",
        AdminCommand::PutTags { .. } => "putTags",
        AdminCommand::DeleteTags { .. } => "deleteTags",
        AdminCommand::PutUser { .. } => "putUser",
        AdminCommand::DeleteUser { .. } => "deleteUser",
        AdminCommand::Download { .. } => "download",
    }
}

#[tactic(auto, unfolding(crate::specs::Asks::word_data))]
fn word_json(alloc: Global, command: &AdminCommand) -> Result<Value, NoMemory>
    ensures { IfOk result (λ v. view v ≡ word_data command.now) }
{
    let word = String::from_str(alloc, command_word(command))?;
    Ok(Value::String(word))
}

/// Puts the versions from which a download is asked.
fn put_versions(
    alloc: Global,
    members: &mut Map<String, Value>,
    policies_from: &Option<Version>,
    tags_from: &Option<Version>,
    roles_from: &Option<Version>,
) -> Result<(), NoMemory>
    ensures { IfOk result (λ u. members_view members.new.entries
        ≡ with_members name_of (members_view members.old.entries)
        ((key.PoliciesFrom, option_data version_data policies_from.now) ∷ (key.TagsFrom, option_data version_data tags_from.now) ∷ (key.RolesFrom, option_data version_data roles_from.now) ∷ [])) }
{
    let policies = version_json(alloc, policies_from)?;
    put_value(alloc, members, Key::PoliciesFrom.name(), policies)?;
    let tags = version_json(alloc, tags_from)?;
    put_value(alloc, members, Key::TagsFrom.name(), tags)?;
    let roles = version_json(alloc, roles_from)?;
    put_value(alloc, members, Key::RolesFrom.name(), roles)
}

/// Puts the fields of the command.
#[tactic(auto, unfolding(crate::specs::Asks::field_members))]
fn put_fields(
    alloc: Global,
    members: &mut Map<String, Value>,
    command: &AdminCommand,
) -> Result<(), NoMemory>
    ensures { IfOk result (λ u. members_view members.new.entries
        ≡ with_members name_of (members_view members.old.entries) (field_members command.now)) }
{
    match command {
        AdminCommand::PutDef { def } => {
            let def = def.json(alloc)?;
            put_value(alloc, members, Key::Def.name(), def)
        }
        AdminCommand::CreateService { service } | AdminCommand::UpdateService { service } => {
            let service = service_json(alloc, service)?;
            put_value(alloc, members, Key::Service.name(), service)
        }
        AdminCommand::CreatePolicy { policy } | AdminCommand::UpdatePolicy { policy } => {
            put::<Key, Policy>(alloc, members, Key::Policy, policy)
        }
        AdminCommand::DeletePolicy { id } | AdminCommand::GetPolicy { id } => {
            put(alloc, members, Key::Id, &id.0)
        }
        AdminCommand::ListPolicies { service } => put(alloc, members, Key::Service, service),
        AdminCommand::PutRole { role } => {
            let role = role.json(alloc)?;
            put_value(alloc, members, Key::Role.name(), role)
        }
        AdminCommand::PutZone { zone } => {
            let zone = zone.json(alloc)?;
            put_value(alloc, members, Key::Zone.name(), zone)
        }
        AdminCommand::PutTags { id, row } => {
            put(alloc, members, Key::Id, id)?;
            let row = row.json(alloc)?;
            put_value(alloc, members, Key::Row.name(), row)
        }
        AdminCommand::DeleteTags { id } => put(alloc, members, Key::Id, id),
        AdminCommand::PutUser { user } => {
            let user = user_json(alloc, user)?;
            put_value(alloc, members, Key::User.name(), user)
        }
        AdminCommand::DeleteService { name }
        | AdminCommand::DeleteRole { name }
        | AdminCommand::DeleteZone { name }
        | AdminCommand::DeleteUser { name } => put(alloc, members, Key::Name, name),
        AdminCommand::Download {
            service,
            policies_from,
            tags_from,
            roles_from,
        } => {
            put(alloc, members, Key::Service, service)?;
            put_versions(alloc, members, policies_from, tags_from, roles_from)
        }
    }
}

#[tactic(auto, unfolding(crate::specs::Asks::command_data))]
fn command_json(alloc: Global, command: &AdminCommand) -> Result<Value, NoMemory>
    ensures { IfOk result (λ v. view v ≡ command_data command.now) }
{
    let mut members = Map::new(alloc);
    let word = word_json(alloc, command)?;
    put_value(alloc, &mut members, Key::Command.name(), word)?;
    put_fields(alloc, &mut members, command)?;
    Ok(Value::Object(members))
}

#[tactic(auto, unfolding(crate::specs::Asks::ask_data))]
fn ask_json(alloc: Global, ask: &Ask) -> Result<Value, NoMemory>
    ensures { IfOk result (λ v. view v ≡ ask_data ask.now) }
{
    let mut members = Map::new(alloc);
    put(alloc, &mut members, AskKey::Actor, &ask.actor)?;
    let command = command_json(alloc, &ask.command)?;
    put_value(alloc, &mut members, AskKey::Command.name(), command)?;
    Ok(Value::Object(members))
}

/// Prints an ask: the record that is kept of it, `{"actor":A,"command":X}` as compact JSON. A command that is kept, in an ask
/// in key order, is read again from this text as itself.
#[tactic(auto, using(crate::proofs::Plain::asks), unfolding(crate::specs::Asks::ask_text))]
pub fn print_ask(alloc: Global, ask: &Ask) -> Result<Text, NoMemory>
    ensures text { IfOk result (λ t. t ≡ chars (ask_text ask.now)) }
    ensures bytes { IfOk result (λ t. encode_utf8_all t ≡ ask_text ask.now) }
    ensures again { IfOk result (λ t. IsInKeyOrder ask.now
        → is_keeping ask.now.command ≡ true → ask_reading (ask_text ask.now) ≡ Ok ask.now) }
{
    let value = ask_json(alloc, ask)?;
    text_of(alloc, &value)
}
