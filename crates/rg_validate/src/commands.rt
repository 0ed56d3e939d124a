// The first rule that each command breaks, but for L1 and the rules of authority.
ghost use Rattle.std.specs.Prelude.{◌≡◌, ◌∷◌, [], IfOk};
ghost use Rattle.rg_cmd.specs.declared.ask.AdminCommand.TheVariants.{CreatePolicy, CreateService, DeleteRole, DeleteService, DeleteZone, PutDef, PutRole, PutTags, PutZone, UpdatePolicy, UpdateService};
ghost use Rattle.rg_same_resources.specs.Counts.{IsCounted};
ghost use Rattle.rg_validate.specs.Definitions.{definition_rule, definition_rules};
ghost use Rattle.rg_validate.specs.Failing.{first_failing};
ghost use Rattle.rg_validate.specs.Rules.{command_rules};
ghost use Rattle.rg_validate.specs.Steps.{member_role_rules};
ghost use Rattle.rg_validate.specs.Valid.{IsValid};

use crate::definitions::definition_suits;
use crate::existence::{
    definition_exists, policy_exists, role_exists, service_exists, tag_row_exists, user_exists,
    zone_exists,
};
use crate::policies::policy_fault;
use crate::roles::{goes_in_no_circle, member_roles_exist, role_is_unused, roles_with};
use crate::services::{keeps_definition, service_is_unused, service_name_is_new, tag_service_fits};
use crate::tags::{row_id_fits, tagged_resources_fit, tagged_service_fits};
use crate::users::user_fits;
use crate::zone_apart::zone_is_apart;
use crate::zones::{
    zone_is_unused, zone_keeps_policies, zone_levels_suit, zone_services_fit, zone_subjects_exist,
    zone_values_suit,
};
use rg_base::{NoMemory, Text, is_name};
use rg_cmd::{AdminCommand, Rule, ServiceRow, State, def_of};
use rg_defs::{DefFault, ServiceDef, check_def};
use rg_policy::Policy;
use rg_roles::RoleRow;
use rg_roles::laws::{leads_is_decided, row_may_be_put, sound_in_lists};
use rg_same_resources::PrintCounts;
use rg_tags::{TagRow, tags_fit};
use rg_zone_rules::ZoneRow;
use std::alloc::Global;

/// The rule, where it fails.
fn unless(holds: bool, rule: Rule) -> Option<Rule>
    ensures { result ≡ first_failing ((rule, holds) ∷ []) }
{
    if holds { None } else { Some(rule) }
}

/// The rule of this number, of the eight of a definition.
fn definition_rule(number: u8) -> Rule
    ensures { result ≡ definition_rule number }
{
    match number {
        1 => Rule::S1,
        2 => Rule::S2,
        3 => Rule::S3,
        4 => Rule::S4,
        5 => Rule::S5,
        6 => Rule::S6,
        7 => Rule::S7,
        _ => Rule::S8,
    }
}

/// The first of S1 to S8 that fails.
#[tactic(auto, using(crate::proofs::Firsts::definition_is))]
pub fn definition_fault(alloc: Global, def: &ServiceDef) -> Result<Option<Rule>, NoMemory>
    ensures { IfOk result (λ fault. fault ≡ first_failing (definition_rules def.now)) }
{
    match check_def(alloc, def) {
        Ok(()) => Ok(None),
        Err(DefFault::Rule(number)) => Ok(Some(definition_rule(number))),
        Err(DefFault::NoMemory) => Err(NoMemory),
    }
}

fn put_def_fault(alloc: Global, state: &State, def: &ServiceDef) -> Result<Option<Rule>, NoMemory>
    ensures { IfOk result
        (λ fault. fault ≡ first_failing (command_rules state.now (PutDef def.now))) }
{
    if let Some(rule) = definition_fault(alloc, def)? {
        return Ok(Some(rule));
    }
    let suits = definition_suits(alloc, state, def)?;
    Ok(unless(suits, Rule::C1))
}

fn create_service_fault(state: &State, row: &ServiceRow) -> Option<Rule>
    ensures { result ≡ first_failing (command_rules state.now (CreateService row.now)) }
{
    if !definition_exists(state, &row.def) {
        return Some(Rule::E3);
    }
    if !service_name_is_new(state, &row.name) {
        return Some(Rule::C2);
    }
    if !tag_service_fits(state, row) {
        return Some(Rule::C3);
    }
    None
}

fn update_service_fault(state: &State, row: &ServiceRow) -> Option<Rule>
    ensures { result ≡ first_failing (command_rules state.now (UpdateService row.now)) }
{
    if !service_exists(state, &row.name) {
        return Some(Rule::E1);
    }
    if !definition_exists(state, &row.def) {
        return Some(Rule::E3);
    }
    if !tag_service_fits(state, row) {
        return Some(Rule::C3);
    }
    if !keeps_definition(state, row) {
        return Some(Rule::C4);
    }
    None
}

fn delete_service_fault(state: &State, name: &Text) -> Option<Rule>
    ensures { result ≡ first_failing (command_rules state.now (DeleteService name.now)) }
{
    if !service_exists(state, name) {
        return Some(Rule::E1);
    }
    unless(service_is_unused(state, name), Rule::C5)
}

fn create_policy_fault(
    alloc: Global,
    state: &State,
    counts: &PrintCounts,
    policy: &Policy,
) -> Result<Option<Rule>, NoMemory>
    requires valid { IsValid state.now }
    requires counted { IsCounted counts.now state.now.policies.items }
    ensures { IfOk result
        (λ fault. fault ≡ first_failing (command_rules state.now (CreatePolicy policy.now))) }
{
    let Some(def) = def_of(state, &policy.service) else {
        return Ok(Some(Rule::E1));
    };
    policy_fault(alloc, state, counts, None, policy, def)
}

fn update_policy_fault(
    alloc: Global,
    state: &State,
    counts: &PrintCounts,
    policy: &Policy,
) -> Result<Option<Rule>, NoMemory>
    requires valid { IsValid state.now }
    requires counted { IsCounted counts.now state.now.policies.items }
    ensures { IfOk result
        (λ fault. fault ≡ first_failing (command_rules state.now (UpdatePolicy policy.now))) }
{
    if !policy_exists(state, policy.id) {
        return Ok(Some(Rule::E2));
    }
    let Some(def) = def_of(state, &policy.service) else {
        return Ok(Some(Rule::E1));
    };
    policy_fault(alloc, state, counts, Some(policy.id), policy, def)
}

/// The first of O2 and O3 that fails. A role that names no other takes no memory: it goes in no circle, whatever the others are.
fn member_roles_fault(
    alloc: Global,
    state: &State,
    role: &RoleRow,
) -> Result<Option<Rule>, NoMemory>
    requires valid { IsValid state.now }
    ensures { IfOk result (λ fault. fault ≡ first_failing (member_role_rules state.now role.now)) }
{
    leads_is_decided();
    row_may_be_put();
    sound_in_lists();
    if role.roles.is_empty() {
        return Ok(None);
    }
    let rows = roles_with(alloc, state, role)?;
    if !member_roles_exist(alloc, rows.as_slice(), role)? {
        return Ok(Some(Rule::O2));
    }
    if !goes_in_no_circle(alloc, state, rows.as_slice(), role)? {
        return Ok(Some(Rule::O3));
    }
    Ok(None)
}

fn put_role_fault(alloc: Global, state: &State, role: &RoleRow) -> Result<Option<Rule>, NoMemory>
    requires valid { IsValid state.now }
    ensures { IfOk result
        (λ fault. fault ≡ first_failing (command_rules state.now (PutRole role.now))) }
{
    if !is_name(role.name.as_str()) {
        return Ok(Some(Rule::O1));
    }
    member_roles_fault(alloc, state, role)
}

fn delete_role_fault(state: &State, name: &Text) -> Option<Rule>
    ensures { result ≡ first_failing (command_rules state.now (DeleteRole name.now)) }
{
    if !role_exists(state, name) {
        return Some(Rule::E4);
    }
    unless(role_is_unused(state, name), Rule::O4)
}

fn put_zone_fault(alloc: Global, state: &State, zone: &ZoneRow) -> Result<Option<Rule>, NoMemory>
    requires valid { IsValid state.now }
    ensures { IfOk result
        (λ fault. fault ≡ first_failing (command_rules state.now (PutZone zone.now))) }
{
    if !is_name(zone.name.as_str()) {
        return Ok(Some(Rule::Z1));
    }
    if !zone_services_fit(alloc, state, zone)? {
        return Ok(Some(Rule::Z2));
    }
    if !zone_levels_suit(alloc, state, zone)? {
        return Ok(Some(Rule::Z3));
    }
    if !zone_values_suit(zone) {
        return Ok(Some(Rule::Z4));
    }
    if !zone_subjects_exist(alloc, state, zone)? {
        return Ok(Some(Rule::Z5));
    }
    if !zone_is_apart(alloc, state, zone)? {
        return Ok(Some(Rule::Z6));
    }
    Ok(unless(zone_keeps_policies(state, zone), Rule::Z7))
}

fn delete_zone_fault(state: &State, name: &Text) -> Option<Rule>
    ensures { result ≡ first_failing (command_rules state.now (DeleteZone name.now)) }
{
    if !zone_exists(state, name) {
        return Some(Rule::E5);
    }
    unless(zone_is_unused(state, name), Rule::Z8)
}

fn put_tags_fault(
    alloc: Global,
    state: &State,
    id: i64,
    row: &TagRow,
) -> Result<Option<Rule>, NoMemory>
    requires valid { IsValid state.now }
    ensures { IfOk result
        (λ fault. fault ≡ first_failing (command_rules state.now (PutTags id row.now))) }
{
    if !service_exists(state, &row.service) {
        return Ok(Some(Rule::E1));
    }
    if !tagged_service_fits(state, row) {
        return Ok(Some(Rule::G1));
    }
    if !tagged_resources_fit(alloc, state, row)? {
        return Ok(Some(Rule::G2));
    }
    if !tags_fit(row.tags.as_slice()) {
        return Ok(Some(Rule::G3));
    }
    Ok(unless(row_id_fits(state, id, row), Rule::G4))
}

/// The first rule that the command breaks, but for L1 and the rules of authority.
pub fn command_fault(
    alloc: Global,
    state: &State,
    counts: &PrintCounts,
    command: &AdminCommand,
) -> Result<Option<Rule>, NoMemory>
    requires valid { IsValid state.now }
    requires counted { IsCounted counts.now state.now.policies.items }
    ensures { IfOk result (λ fault. fault ≡ first_failing (command_rules state.now command.now)) }
{
    match command {
        AdminCommand::PutDef { def } => put_def_fault(alloc, state, def),
        AdminCommand::CreateService { service } => Ok(create_service_fault(state, service)),
        AdminCommand::UpdateService { service } => Ok(update_service_fault(state, service)),
        AdminCommand::DeleteService { name } => Ok(delete_service_fault(state, name)),
        AdminCommand::CreatePolicy { policy } => create_policy_fault(alloc, state, counts, policy),
        AdminCommand::UpdatePolicy { policy } => update_policy_fault(alloc, state, counts, policy),
        AdminCommand::DeletePolicy { id } => Ok(unless(policy_exists(state, *id), Rule::E2)),
        AdminCommand::GetPolicy { id } => Ok(unless(policy_exists(state, *id), Rule::E2)),
        AdminCommand::ListPolicies { service } => {
            Ok(unless(service_exists(state, service), Rule::E1))
        }
        AdminCommand::PutRole { role } => put_role_fault(alloc, state, role),
        AdminCommand::DeleteRole { name } => Ok(delete_role_fault(state, name)),
        AdminCommand::PutZone { zone } => put_zone_fault(alloc, state, zone),
        AdminCommand::DeleteZone { name } => Ok(delete_zone_fault(state, name)),
        AdminCommand::PutTags { id, row } => put_tags_fault(alloc, state, *id, row),
        AdminCommand::DeleteTags { id } => Ok(unless(tag_row_exists(state, *id), Rule::E6)),
        AdminCommand::PutUser { user } => Ok(unless(user_fits(user), Rule::U1)),
        AdminCommand::DeleteUser { name } => Ok(unless(user_exists(state, name), Rule::E7)),
        AdminCommand::Download {
            service,
            policies_from: _,
            tags_from: _,
            roles_from: _,
        } => Ok(unless(service_exists(state, service), Rule::E1)),
    }
}
