// A configuration that is put row by row.
ghost use Rattle.std.specs.Prelude.{◌≡◌, [], IfErr, None, OnOk, option_map};
ghost use Rattle.std.specs.List.{list_any};
ghost use Rattle.rg_base.specs.Places.{IsIndex};
ghost use Rattle.rg_cmd.specs.Lookups.{is_def, is_service, is_tag_service, service_at};
ghost use Rattle.rg_cmd.specs.declared.ask.AdminCommand.TheVariants.{CreateService, PutDef, PutUser};
ghost use Rattle.rg_cmd.specs.declared.config.Config.{Config as Configuration};
ghost use Rattle.rg_validate.specs.Definitions.{service_name_is_new, tag_service_fits};
ghost use Rattle.rg_validate.specs.Failing.{first_failing};
ghost use Rattle.rg_validate.specs.Rules.{command_rules};
ghost use Rattle.rg_admin_laws.specs.Changes.{after_command};
ghost use Rattle.rg_admin.specs.Puts.{IsPutting};
ghost use Rattle.rg_admin.specs.Starting.{IsCause, bare_state, start_rules};

use crate::places::{Places, add_placed, find_placed, has_place, put_placed};
use crate::start::StartFault;
use rg_base::{NoMemory, Seq, Text, Version, is_empty, is_name, same_text};
use rg_cmd::{Rule, ServiceRow, State, UserRow};
use rg_defs::{ServiceDef, tag_name};
use rg_validate::{definition_fault, user_fits, zones_apart_by_pairs};
use std::alloc::Global;
use std::collections::BTreeMap;

/// A state into which a configuration is being put, and the places of the names in it.
#[derive(Drop)]
pub(crate) struct Putting {
    pub(crate) state: State,
    defs: Places,
    services: Places,
    users: Places,
}

/// The state before anything is put.
pub(crate) fn bare_state(alloc: Global, admins: Seq<Text>, plugin: Text) -> State
    ensures { (c : Configuration) → c.admins ≡ admins → c.plugin ≡ plugin → result ≡ bare_state c }
{
    State {
        admins,
        users: Seq::new(alloc),
        time_zones: Seq::new(alloc),
        defs: Seq::new(alloc),
        services: Seq::new(alloc),
        policies: Seq::new(alloc),
        zones: Seq::new(alloc),
        roles: Seq::new(alloc),
        tag_rows: Seq::new(alloc),
        plugin,
        next_id: 1,
        count: 0,
        role_version: Version(1),
    }
}

/// The state, with the places of no names.
pub(crate) fn nothing_put(alloc: Global, state: State) -> Putting
    ensures state { result.state ≡ state }
    ensures defs { IsIndex result.defs [] }
    ensures services { IsIndex result.services [] }
    ensures users { IsIndex result.users [] }
{
    Putting {
        state,
        defs: BTreeMap::new(alloc),
        services: BTreeMap::new(alloc),
        users: BTreeMap::new(alloc),
    }
}

/// A row of a configuration.
pub(crate) trait Configured {
    ghost use Rattle.std.specs.Prelude.{◌≡◌, IfErr, None, OnOk};
    ghost use Rattle.rg_cmd.specs.declared.ask.AdminCommand.{AdminCommand as Commands};
    ghost use Rattle.rg_validate.specs.Failing.{first_failing};
    ghost use Rattle.rg_admin_laws.specs.Changes.{after_command};
    ghost use Rattle.rg_admin.specs.Puts.{IsPutting};
    ghost use Rattle.rg_admin.specs.Starting.{IsCause, start_rules};

    /// The command that puts it.
    ghost put_by: { Self → Commands };

    /// Puts the row, in time that grows as the logarithm of those before. No policy, zone or tag row is there that C1 could
    /// ask about.
    fn put(self, alloc: Global, putting: &mut Putting) -> Result<(), StartFault>
        requires { IsPutting putting.old }
        ensures passed { OnOk result (first_failing (start_rules putting.old.state (put_by self))
            ≡ None) }
        ensures made { OnOk result (putting.new.state
            ≡ after_command putting.old.state (put_by self)) }
        ensures putting { OnOk result (IsPutting putting.new) }
        ensures err { IfErr result (λ fault.
            IsCause fault (first_failing (start_rules putting.old.state (put_by self)))) };
}

impl Configured for ServiceDef {
    ghost use Rattle.rg_cmd.specs.declared.ask.AdminCommand.TheVariants.{PutDef};

    ghost put_by = { λ def. PutDef def };

    fn put(self, alloc: Global, putting: &mut Putting) -> Result<(), StartFault> {
        put_def(alloc, putting, self)
    }
}

impl Configured for ServiceRow {
    ghost use Rattle.rg_cmd.specs.declared.ask.AdminCommand.TheVariants.{CreateService};

    ghost put_by = { λ row. CreateService row };

    fn put(self, alloc: Global, putting: &mut Putting) -> Result<(), StartFault> {
        put_service(alloc, putting, self)
    }
}

impl Configured for UserRow {
    ghost use Rattle.rg_cmd.specs.declared.ask.AdminCommand.TheVariants.{PutUser};

    ghost put_by = { λ row. PutUser row };

    fn put(self, alloc: Global, putting: &mut Putting) -> Result<(), StartFault> {
        put_user(alloc, putting, self)
    }
}

fn put_def(alloc: Global, putting: &mut Putting, def: ServiceDef) -> Result<(), StartFault>
    requires { IsPutting putting.old }
    ensures passed { OnOk result (first_failing (start_rules putting.old.state (PutDef def))
        ≡ None) }
    ensures made { OnOk result (putting.new.state ≡ after_command putting.old.state (PutDef def)) }
    ensures putting { OnOk result (IsPutting putting.new) }
    ensures err { IfErr result
        (λ fault. IsCause fault (first_failing (start_rules putting.old.state (PutDef def)))) }
{
    zones_apart_by_pairs();
    match definition_fault(alloc, &def) {
        Ok(None) => match put_placed(alloc, &mut putting.state.defs, &mut putting.defs, def) {
            Ok(()) => Ok(()),
            Err(_) => Err(StartFault::NoMemory),
        },
        Ok(Some(rule)) => {
            drop(def);
            Err(StartFault::Rule(rule))
        }
        Err(_) => {
            drop(def);
            Err(StartFault::NoMemory)
        }
    }
}

fn definition_is_put(putting: &Putting, name: &Text) -> bool
    requires { IsPutting putting.now }
    ensures { result ≡ list_any (is_def name.now) putting.now.state.defs.items }
{
    has_place(&putting.defs, name)
}

fn service_is_put(putting: &Putting, name: &Text) -> bool
    requires { IsPutting putting.now }
    ensures { result ≡ list_any (is_service name.now) putting.now.state.services.items }
{
    has_place(&putting.services, name)
}

/// Rule C2.
fn service_name_is_new(putting: &Putting, name: &Text) -> bool
    requires { IsPutting putting.now }
    ensures { result ≡ service_name_is_new putting.now.state name.now }
{
    is_name(name.as_str()) && !service_is_put(putting, name)
}

/// The service of this name.
fn service_at<'a>(putting: &'a Putting, name: &Text) -> Option<&'a ServiceRow>
    requires { IsPutting putting.now }
    ensures { option_map (λ r. r.now) result ≡ service_at putting.now.state name.now }
{
    find_placed(
        putting.state.services.as_slice(),
        &putting.services,
        name.as_str(),
    )
}

/// Whether there is a service of this name, and its definition is named `tag`.
fn is_tag_service(putting: &Putting, name: &Text) -> bool
    requires { IsPutting putting.now }
    ensures { result ≡ is_tag_service putting.now.state name.now }
{
    match service_at(putting, name) {
        Some(row) => same_text(row.def.as_str(), tag_name()),
        None => false,
    }
}

/// Rule C3.
fn tag_service_fits(putting: &Putting, row: &ServiceRow) -> bool
    requires { IsPutting putting.now }
    ensures { result ≡ tag_service_fits putting.now.state row.now }
{
    is_empty(row.tag_service.as_str())
        || (is_tag_service(putting, &row.tag_service) && !same_text(row.def.as_str(), tag_name()))
}

/// The first of E3, C2 and C3 that fails.
fn service_fault(putting: &Putting, row: &ServiceRow) -> Option<Rule>
    requires { IsPutting putting.now }
    ensures { result ≡ first_failing (command_rules putting.now.state (CreateService row.now)) }
{
    if !definition_is_put(putting, &row.def) {
        return Some(Rule::E3);
    }
    if !service_name_is_new(putting, &row.name) {
        return Some(Rule::C2);
    }
    if !tag_service_fits(putting, row) {
        return Some(Rule::C3);
    }
    None
}

fn put_service(alloc: Global, putting: &mut Putting, row: ServiceRow) -> Result<(), StartFault>
    requires { IsPutting putting.old }
    ensures passed { OnOk result (first_failing (start_rules putting.old.state (CreateService row))
        ≡ None) }
    ensures made { OnOk result (putting.new.state
        ≡ after_command putting.old.state (CreateService row)) }
    ensures putting { OnOk result (IsPutting putting.new) }
    ensures err { IfErr result (λ fault.
        IsCause fault (first_failing (start_rules putting.old.state (CreateService row)))) }
{
    zones_apart_by_pairs();
    match service_fault(putting, &row) {
        None => match add_placed(
            alloc,
            &mut putting.state.services,
            &mut putting.services,
            row,
        ) {
            Ok(()) => Ok(()),
            Err(_) => Err(StartFault::NoMemory),
        },
        Some(rule) => {
            drop(row);
            Err(StartFault::Rule(rule))
        }
    }
}

fn put_user(alloc: Global, putting: &mut Putting, user: UserRow) -> Result<(), StartFault>
    requires { IsPutting putting.old }
    ensures passed { OnOk result (first_failing (start_rules putting.old.state (PutUser user))
        ≡ None) }
    ensures made { OnOk result (putting.new.state
        ≡ after_command putting.old.state (PutUser user)) }
    ensures putting { OnOk result (IsPutting putting.new) }
    ensures err { IfErr result
        (λ fault. IsCause fault (first_failing (start_rules putting.old.state (PutUser user)))) }
{
    zones_apart_by_pairs();
    if !user_fits(&user) {
        drop(user);
        return Err(StartFault::Rule(Rule::U1));
    }
    match put_placed(alloc, &mut putting.state.users, &mut putting.users, user) {
        Ok(()) => Ok(()),
        Err(_) => Err(StartFault::NoMemory),
    }
}
