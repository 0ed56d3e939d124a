// What a state holds under a name or an id.
ghost use Rattle.std.specs.Prelude.{◌≡◌, ◌||◌, option_and_then, option_map};
ghost use Rattle.rg_cmd.specs.Lookups.{has_def, has_tag_service, service_at, tag_row_at, tag_service_in};
ghost use Rattle.rg_validate.specs.Valid.{IsValid};
ghost use Rattle.rg_admin.specs.Planning.{policy_named, tag_def_named, tag_row_named};

use rg_base::{Text, is_empty, same_text};
use rg_cmd::{AdminCommand, ServiceRow, State, service_at};
use rg_defs::tag_name;
use rg_policy::Policy;
use rg_shared::Shared;
use rg_tags::TagRow;
use rg_validate::policy_at;

/// The name of the row's tag service, if it has one.
pub(crate) fn tag_service_in(row: &ServiceRow) -> Option<&Text>
    ensures { option_map (λ t. t.now) result ≡ tag_service_in row.now }
{
    if is_empty(row.tag_service.as_str()) {
        None
    } else {
        Some(&row.tag_service)
    }
}

/// The service of this name, which is looked for at the place first: the logs stand in the order of the services.
pub(crate) fn service_near<'a>(
    state: &'a State,
    place: usize,
    name: &Text,
) -> Option<&'a ServiceRow>
    requires { IsValid state.now }
    ensures { option_map (λ r. r.now) result ≡ service_at state.now name.now }
{
    if let Some(row) = state.services.as_slice().get(place) {
        if same_text(row.name.as_str(), name.as_str()) {
            return Some(row);
        }
    }
    service_at(state, name)
}

/// Whether there is a service, which has this definition.
fn has_def(row: Option<&ServiceRow>, def: &Text) -> bool
    ensures { result ≡ has_def def.now (option_map (λ r. r.now) row.entry) }
{
    match row {
        Some(row) => same_text(row.def.as_str(), def.as_str()),
        None => false,
    }
}

/// Whether there is a service with a tag service, and the definition is the one that tag services have.
fn has_tag_def(row: Option<&ServiceRow>, def: &Text) -> bool
    ensures { result ≡ tag_def_named def.now (option_map (λ r. r.now) row.entry) }
{
    match row {
        Some(row) => { !is_empty(row.tag_service.as_str()) && same_text(tag_name(), def.as_str()) }
        None => false,
    }
}

/// Whether there is a service that has this definition, or whose tag service has it.
pub(crate) fn uses_def(row: Option<&ServiceRow>, def: &Text) -> bool
    ensures { result ≡ (has_def def.now (option_map (λ r. r.now) row.entry)
        || tag_def_named def.now (option_map (λ r. r.now) row.entry)) }
{
    has_def(row, def) || has_tag_def(row, def)
}

/// Whether there is a service, which has this tag service.
pub(crate) fn has_tag_service(row: Option<&ServiceRow>, name: &Text) -> bool
    ensures { result ≡ has_tag_service name.now
        (option_and_then tag_service_in (option_map (λ r. r.now) row.entry)) }
{
    let Some(row) = row else {
        return false;
    };
    match tag_service_in(row) {
        Some(tag_service) => same_text(tag_service.as_str(), name.as_str()),
        None => false,
    }
}

/// The tag row of this id.
pub(crate) fn tag_row_at(state: &State, id: i64) -> Option<&TagRow>
    ensures { option_map (λ r. r.now) result ≡ tag_row_at state.now id }
{
    state.tag_rows.as_slice().iter().find(|row| row.id == id)
}

/// The policy that the command updates or deletes.
pub(crate) fn policy_named<'a>(
    state: &'a State,
    command: &AdminCommand,
) -> Option<&'a Shared<Policy>>
    requires { IsValid state.now }
    ensures { option_map (λ p. p.now) result ≡ policy_named state.now command.now }
{
    match command {
        AdminCommand::UpdatePolicy { policy } => policy_at(state, policy.id),
        AdminCommand::DeletePolicy { id } => policy_at(state, *id),
        _ => None,
    }
}

/// The tag row that the command deletes.
pub(crate) fn tag_row_named<'a>(state: &'a State, command: &AdminCommand) -> Option<&'a TagRow>
    ensures { option_map (λ r. r.now) result ≡ tag_row_named state.now command.now }
{
    match command {
        AdminCommand::DeleteTags { id } => tag_row_at(state, *id),
        _ => None,
    }
}
