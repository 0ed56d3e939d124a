// What an accepted command does to the logs of a service.
ghost use Rattle.std.specs.Prelude.{◌≡◌, IfOk, option_and_then, option_map};
ghost use Rattle.rg_cmd.specs.Lookups.{service_at, tag_service_in};
ghost use Rattle.rg_cmd.specs.declared.changes.LogEntry.TheVariants.{Policy as OfPolicy};
ghost use Rattle.rg_delta.specs.declared.touch.Touch.TheVariants.{Notes};
ghost use Rattle.rg_admin_laws.specs.Changes.{stored_row, version_after};
ghost use Rattle.rg_admin_laws.specs.Touches.{policy_touch, put_type, restarts_if, row_touch_of, row_touch_of_old, tag_touch};
ghost use Rattle.rg_validate.specs.Valid.{IsValid};
ghost use Rattle.rg_admin.specs.Planning.{noted_policy, tag_row_named, touch_of_noted};

use crate::lookups::{has_tag_service, uses_def};
use rg_base::{NoMemory, PolicyId, Text, TryCopy, Version, same_text};
use rg_cmd::{
    AdminCommand, CREATED, DELETED, LogEntry, PolicyChange, ServiceRow, State, TagChange, UPDATED,
};
use rg_delta::Touch;
use rg_policy::Policy;
use rg_shared::Shared;
use rg_tags::TagRow;
use rg_validate::{policy_at, tag_row_exists};
use std::alloc::Global;

/// One version more than that of the policy.
pub(crate) fn version_after(prior: Option<&Shared<Policy>>) -> Version
    ensures { result ≡ version_after (option_map (λ p. p.now) prior.entry) }
{
    match prior {
        Some(old) => Version(old.version.0.saturating_add(1)),
        None => Version(1),
    }
}

/// A copy of the policy with this id and version, to be shared.
fn stored(
    alloc: Global,
    policy: &Policy,
    id: PolicyId,
    version: Version,
) -> Result<Shared<Policy>, NoMemory>
    ensures { IfOk result (λ p. p ≡ record policy.now { id = id; version = version }) }
{
    let mut policy = policy.try_copy(alloc)?;
    policy.id = id;
    policy.version = version;
    Shared::new(alloc, policy)
}

/// The policy that logs note of the command, once accepted: as it is stored then, or as it was before it is deleted. However
/// many logs note it, it is copied once.
pub(crate) fn noted_policy(
    alloc: Global,
    state: &State,
    command: &AdminCommand,
) -> Result<Option<Shared<Policy>>, NoMemory>
    requires { IsValid state.now }
    ensures { IfOk result (λ noted. noted ≡ noted_policy state.now command.now) }
{
    match command {
        AdminCommand::CreatePolicy { policy } => {
            let id = PolicyId(state.next_id);
            Ok(Some(stored(alloc, policy, id, Version(1))?))
        }
        AdminCommand::UpdatePolicy { policy } => {
            let version = version_after(policy_at(state, policy.id));
            Ok(Some(stored(alloc, policy, policy.id, version)?))
        }
        AdminCommand::DeletePolicy { id } => match policy_at(state, *id) {
            Some(old) => Ok(Some(old.try_copy(alloc)?)),
            None => Ok(None),
        },
        _ => Ok(None),
    }
}

/// A note of the policy, which the log shares.
fn note_of(
    alloc: Global,
    change_type: u8,
    tag: bool,
    policy: &Shared<Policy>,
) -> Result<Touch<LogEntry>, NoMemory>
    ensures { IfOk result (λ t. t ≡ Notes
        (OfPolicy (record { change_type = change_type; tag = tag; policy = policy.now }))) }
{
    let policy = policy.try_copy(alloc)?;
    Ok(Touch::Notes(LogEntry::Policy(PolicyChange {
        change_type,
        tag,
        policy,
    })))
}

/// What a change of the policy, if there is one, does to the policy log of the service of this row.
fn touch_of(
    alloc: Global,
    change_type: u8,
    noted: Option<&Shared<Policy>>,
    row: Option<&ServiceRow>,
    service: &Text,
) -> Result<Touch<LogEntry>, NoMemory>
    ensures { IfOk result (λ t. t ≡ touch_of_noted change_type (option_map (λ p. p.now) noted.entry)
        service.now (option_and_then tag_service_in (option_map (λ r. r.now) row.entry))) }
{
    let Some(policy) = noted else {
        return Ok(Touch::Leaves);
    };
    if same_text(policy.service.as_str(), service.as_str()) {
        return note_of(alloc, change_type, false, policy);
    }
    if has_tag_service(row, &policy.service) {
        return note_of(alloc, change_type, true, policy);
    }
    Ok(Touch::Leaves)
}

fn restarts_if<C>(restarts: bool) -> Touch<C>
    ensures { result ≡ restarts_if restarts }
{
    if restarts {
        Touch::Restarts
    } else {
        Touch::Leaves
    }
}

/// What the command, once accepted, does to the policy log of the service. The policy that logs note of it and the service's
/// row are given, so that neither is looked up for each log.
pub(crate) fn policy_touch(
    alloc: Global,
    state: &State,
    command: &AdminCommand,
    noted: Option<&Shared<Policy>>,
    row: Option<&ServiceRow>,
    service: &Text,
) -> Result<Touch<LogEntry>, NoMemory>
    requires valid { IsValid state.now }
    requires noted { option_map (λ p. p.now) noted ≡ noted_policy state.now command.now }
    requires service { option_map (λ r. r.now) row ≡ service_at state.now service.now }
    ensures { IfOk result (λ t. t ≡ policy_touch state.now command.now service.now) }
{
    match command {
        AdminCommand::PutDef { def } => Ok(restarts_if(uses_def(row, &def.name))),
        AdminCommand::UpdateService { service: changed } => Ok(restarts_if(
            same_text(changed.name.as_str(), service.as_str())
                || has_tag_service(row, &changed.name),
        )),
        AdminCommand::CreatePolicy { policy: _ } => touch_of(alloc, CREATED, noted, row, service),
        AdminCommand::UpdatePolicy { policy: _ } => touch_of(alloc, UPDATED, noted, row, service),
        AdminCommand::DeletePolicy { id: _ } => touch_of(alloc, DELETED, noted, row, service),
        AdminCommand::PutZone { .. } | AdminCommand::DeleteZone { .. } => {
            Ok(Touch::Notes(LogEntry::Zones))
        }
        _ => Ok(Touch::Leaves),
    }
}

/// What a change of the row, with this id, does to the tag log of the service.
fn row_touch_of(
    alloc: Global,
    change_type: u8,
    row: &TagRow,
    id: i64,
    service: &Text,
) -> Result<Touch<TagChange>, NoMemory>
    ensures { IfOk result (λ t. t ≡ row_touch_of change_type (stored_row id row.now) service.now) }
{
    if !same_text(row.service.as_str(), service.as_str()) {
        return Ok(Touch::Leaves);
    }
    let mut row = row.try_copy(alloc)?;
    row.id = id;
    Ok(Touch::Notes(TagChange { change_type, row }))
}

fn row_touch_of_old(
    alloc: Global,
    prior: Option<&TagRow>,
    service: &Text,
) -> Result<Touch<TagChange>, NoMemory>
    ensures { IfOk result
        (λ t. t ≡ row_touch_of_old (option_map (λ r. r.now) prior.entry) service.now) }
{
    match prior {
        Some(old) => row_touch_of(alloc, DELETED, old, old.id, service),
        None => Ok(Touch::Leaves),
    }
}

/// What kind of change it is to put a row with this id.
fn put_type(state: &State, id: i64) -> u8
    ensures { result ≡ put_type state.now id }
{
    if tag_row_exists(state, id) {
        UPDATED
    } else {
        CREATED
    }
}

/// What it does to the tag log of the service to put the row with this id. The id is looked for where the row is the service's.
fn put_touch(
    alloc: Global,
    state: &State,
    row: &TagRow,
    id: i64,
    service: &Text,
) -> Result<Touch<TagChange>, NoMemory>
    ensures { IfOk result
        (λ t. t ≡ row_touch_of (put_type state.now id) (stored_row id row.now) service.now) }
{
    if !same_text(row.service.as_str(), service.as_str()) {
        return Ok(Touch::Leaves);
    }
    row_touch_of(alloc, put_type(state, id), row, id, service)
}

/// What the command, once accepted, does to the tag log of the service. The tag row that it deletes is given.
pub(crate) fn tag_touch(
    alloc: Global,
    state: &State,
    command: &AdminCommand,
    prior: Option<&TagRow>,
    service: &Text,
) -> Result<Touch<TagChange>, NoMemory>
    requires { option_map (λ r. r.now) prior ≡ tag_row_named state.now command.now }
    ensures { IfOk result (λ t. t ≡ tag_touch state.now command.now service.now) }
{
    match command {
        AdminCommand::PutTags { id, row } => put_touch(alloc, state, row, *id, service),
        AdminCommand::DeleteTags { id: _ } => row_touch_of_old(alloc, prior, service),
        _ => Ok(Touch::Leaves),
    }
}
