// The change of a state, in place.
ghost use Rattle.std.specs.Prelude.{◌≡◌, OnErr, OnOk};
ghost use Rattle.std.specs.Str.{bytes_eq};
ghost use Rattle.rg_cmd.specs.declared.ask.AdminCommand.TheVariants.{CreateService, DeleteRole, DeleteService, DeleteUser, DeleteZone, PutDef, PutRole, PutUser, PutZone, UpdateService};
ghost use Rattle.rg_cmd.specs.declared.state.ServiceRow.{ServiceRow};
ghost use Rattle.rg_cmd.specs.declared.state.State.{State};
ghost use Rattle.rg_cmd.specs.declared.state.UserRow.{UserRow};
ghost use Rattle.rg_defs.specs.declared.service_def.ServiceDef.{ServiceDef};
ghost use Rattle.rg_roles.specs.declared.row.RoleRow.{RoleRow};
ghost use Rattle.rg_zone_rules.specs.declared.row.ZoneRow.{ZoneRow};
ghost use Rattle.rg_admin_laws.specs.Changes.{after_command, with_roles_changed};
ghost use Rattle.rg_validate.specs.Valid.{IsKept};
ghost use Rattle.rg_admin.specs.Reached.{IsPacked};
ghost use Rattle.rg_admin.specs.Tight.{IsTight, IsTightList};

use crate::lists::{append, put_named, remove_named};
use crate::numbered::{create_policy, delete_policy, delete_tags, put_tags, update_policy};
use rg_base::{NoMemory, Text, Version};
use rg_cmd::{AdminCommand, ServiceRow, State, UserRow};
use rg_defs::ServiceDef;
use rg_roles::RoleRow;
use rg_roles::laws::sound_in_lists;
use rg_zone_rules::ZoneRow;
use std::alloc::Global;

pub(crate) fn put_def(alloc: Global, state: &mut State, def: ServiceDef) -> Result<(), NoMemory>
    requires { IsTightList (λ (a b : ServiceDef). bytes_eq b.name a.name) state.old.defs }
    ensures ok { OnOk result (state.new ≡ after_command state.old (PutDef def)) }
    ensures err { OnErr result (state.new ≡ state.old) }
{
    put_named(alloc, &mut state.defs, def)
}

pub(crate) fn create_service(state: &mut State, service: ServiceRow) -> Result<(), NoMemory>
    requires { state.old.services.spare ≡ 0 }
    ensures ok { OnOk result (state.new ≡ after_command state.old (CreateService service)) }
    ensures err { OnErr result (state.new ≡ state.old) }
{
    append(&mut state.services, service)
}

fn update_service(alloc: Global, state: &mut State, service: ServiceRow) -> Result<(), NoMemory>
    requires { IsTightList (λ (a b : ServiceRow). bytes_eq b.name a.name) state.old.services }
    ensures ok { OnOk result (state.new ≡ after_command state.old (UpdateService service)) }
    ensures err { OnErr result (state.new ≡ state.old) }
{
    put_named(alloc, &mut state.services, service)
}

fn delete_service(alloc: Global, state: &mut State, name: &Text)
    requires { IsTightList (λ (a b : ServiceRow). bytes_eq b.name a.name) state.old.services }
    ensures { state.new ≡ after_command state.old (DeleteService name.now) }
{
    remove_named(alloc, &mut state.services, name.as_str());
}

/// The roles have a version of their own, which all services share.
fn count_role_change(state: &mut State)
    ensures { state.new ≡ with_roles_changed state.old }
{
    state.role_version = Version(state.role_version.0.saturating_add(1));
}

fn put_role(alloc: Global, state: &mut State, role: RoleRow) -> Result<(), NoMemory>
    requires { IsTightList (λ (a b : RoleRow). bytes_eq b.name a.name) state.old.roles }
    ensures ok { OnOk result (state.new ≡ after_command state.old (PutRole role)) }
    ensures err { OnErr result (state.new ≡ state.old) }
{
    put_named(alloc, &mut state.roles, role)?;
    count_role_change(state);
    Ok(())
}

fn delete_role(alloc: Global, state: &mut State, name: &Text)
    requires { IsTightList (λ (a b : RoleRow). bytes_eq b.name a.name) state.old.roles }
    ensures { state.new ≡ after_command state.old (DeleteRole name.now) }
{
    remove_named(alloc, &mut state.roles, name.as_str());
    count_role_change(state);
}

fn put_zone(alloc: Global, state: &mut State, zone: ZoneRow) -> Result<(), NoMemory>
    requires { IsTightList (λ (a b : ZoneRow). bytes_eq b.name a.name) state.old.zones }
    ensures ok { OnOk result (state.new ≡ after_command state.old (PutZone zone)) }
    ensures err { OnErr result (state.new ≡ state.old) }
{
    put_named(alloc, &mut state.zones, zone)
}

fn delete_zone(alloc: Global, state: &mut State, name: &Text)
    requires { IsTightList (λ (a b : ZoneRow). bytes_eq b.name a.name) state.old.zones }
    ensures { state.new ≡ after_command state.old (DeleteZone name.now) }
{
    remove_named(alloc, &mut state.zones, name.as_str());
}

pub(crate) fn put_user(alloc: Global, state: &mut State, user: UserRow) -> Result<(), NoMemory>
    requires { IsTightList (λ (a b : UserRow). bytes_eq b.name a.name) state.old.users }
    ensures ok { OnOk result (state.new ≡ after_command state.old (PutUser user)) }
    ensures err { OnErr result (state.new ≡ state.old) }
{
    put_named(alloc, &mut state.users, user)
}

fn delete_user(alloc: Global, state: &mut State, name: &Text)
    requires { IsTightList (λ (a b : UserRow). bytes_eq b.name a.name) state.old.users }
    ensures { state.new ≡ after_command state.old (DeleteUser name.now) }
{
    remove_named(alloc, &mut state.users, name.as_str());
}

/// A state that is kept is tight where no list of it has spare room.
pub(crate) fn kept_is_tight()
    ensures { (s : State) → IsKept s → IsPacked s → IsTight s }
{
    sound_in_lists();
}

/// Makes the change of a command that passed its rules, but for the count of entries. Nothing is copied.
pub fn change(alloc: Global, state: &mut State, command: AdminCommand) -> Result<(), NoMemory>
    requires { IsTight state.old }
    ensures ok { OnOk result (state.new ≡ after_command state.old command) }
    ensures err { OnErr result (state.new ≡ state.old) }
{
    match command {
        AdminCommand::PutDef { def } => put_def(alloc, state, def),
        AdminCommand::CreateService { service } => create_service(state, service),
        AdminCommand::UpdateService { service } => update_service(alloc, state, service),
        AdminCommand::DeleteService { name } => {
            delete_service(alloc, state, &name);
            Ok(())
        }
        AdminCommand::CreatePolicy { policy } => create_policy(alloc, state, policy),
        AdminCommand::UpdatePolicy { policy } => update_policy(alloc, state, policy),
        AdminCommand::DeletePolicy { id } => {
            delete_policy(alloc, state, id);
            Ok(())
        }
        AdminCommand::PutRole { role } => put_role(alloc, state, role),
        AdminCommand::DeleteRole { name } => {
            delete_role(alloc, state, &name);
            Ok(())
        }
        AdminCommand::PutZone { zone } => put_zone(alloc, state, zone),
        AdminCommand::DeleteZone { name } => {
            delete_zone(alloc, state, &name);
            Ok(())
        }
        AdminCommand::PutTags { id, row } => put_tags(alloc, state, id, row),
        AdminCommand::DeleteTags { id } => {
            delete_tags(alloc, state, id);
            Ok(())
        }
        AdminCommand::PutUser { user } => put_user(alloc, state, user),
        AdminCommand::DeleteUser { name } => {
            delete_user(alloc, state, &name);
            Ok(())
        }
        AdminCommand::GetPolicy { .. }
        | AdminCommand::ListPolicies { .. }
        | AdminCommand::Download { .. } => Ok(()),
    }
}
