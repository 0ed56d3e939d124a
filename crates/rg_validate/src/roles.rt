// The rules of roles.
ghost use Rattle.std.specs.Prelude.{◌≡◌, IfOk, map, true, if◌then◌else◌};
ghost use Rattle.std.specs.List.{list_all, list_any};
ghost use Rattle.rg_base.specs.Texts.{is_among};
ghost use Rattle.rg_policy.specs.declared.policy.Item.{Item};
ghost use Rattle.rg_roles.specs.Members.{names_of};
ghost use Rattle.rg_roles.specs.declared.row.RoleRow.{RoleRow};
ghost use Rattle.rg_cmd.specs.Lookups.{is_role};
ghost use Rattle.rg_validate.specs.Roles.{goes_in_no_circle, member_roles_exist, other_names_role, policy_names_role, role_is_unused, roles_with, zone_names_role};
ghost use Rattle.rg_validate.specs.Valid.{IsValid};

use crate::existence::role_exists;
use rg_base::{NameIndex, NoMemory, Text, TryCopy, is_among, same_text};
use rg_cmd::State;
use rg_items::all_among;
use rg_policy::{Item, Policy, item_lists};
use rg_roles::laws::{leads_is_decided, row_may_be_put, sound_in_lists};
use rg_roles::{RoleRow, role_fault};
use rg_shared::Shared;
use rg_zone_rules::ZoneRow;
use std::alloc::Global;

fn is_role(row: &RoleRow, name: &Text) -> bool
    ensures { result ≡ is_role name.now row.now }
{
    same_text(row.name.as_str(), name.as_str())
}

/// A copy of the new row where it has the old one's name, else of the old one.
fn kept_row(alloc: Global, old: &RoleRow, new: &RoleRow) -> Result<RoleRow, NoMemory>
    ensures { IfOk result
        (λ row. row ≡ (if is_role new.now.name old.now then new.now else old.now)) }
{
    if is_role(old, &new.name) {
        new.try_copy(alloc)
    } else {
        old.try_copy(alloc)
    }
}

fn kept_rows(alloc: Global, rows: &[RoleRow], new: &RoleRow) -> Result<Vec<RoleRow>, NoMemory>
    ensures { IfOk result (λ kept. kept.items
        ≡ map (λ (old : RoleRow). if is_role new.now.name old then new.now else old) rows.now) }
{
    let mut kept = Vec::new(alloc);
    for row in rows {
        kept.push(kept_row(alloc, row, new)?)?;
    }
    Ok(kept)
}

/// Copies of the roles, with this one in its place.
#[tactic(auto, using(crate::proofs::Putting::put_there, crate::proofs::Putting::put_new))]
pub(crate) fn roles_with(
    alloc: Global,
    state: &State,
    role: &RoleRow,
) -> Result<Vec<RoleRow>, NoMemory>
    ensures { IfOk result (λ rows. rows.items ≡ roles_with state.now role.now) }
{
    let mut rows = kept_rows(alloc, state.roles.as_slice(), role)?;
    if !role_exists(state, &role.name) {
        rows.push(role.try_copy(alloc)?)?;
    }
    Ok(rows)
}

/// Whether each role that the row names is there (rule O2).
pub(crate) fn member_roles_exist(
    alloc: Global,
    rows: &[RoleRow],
    role: &RoleRow,
) -> Result<bool, NoMemory>
    ensures { IfOk result (λ exist. exist
        ≡ list_all (λ name. is_among name (names_of rows.now)) role.now.roles.items) }
{
    let names = NameIndex::build(alloc, rows)?;
    Ok(all_among(&names, role.roles.as_slice()))
}

/// Whether no role holds itself by a chain (rule O3). The rows are the state's with this one in its place, and each
/// role that it names is there.
pub(crate) fn goes_in_no_circle(
    alloc: Global,
    state: &State,
    rows: &[RoleRow],
    role: &RoleRow,
) -> Result<bool, NoMemory>
    requires valid { IsValid state.now }
    requires rows { rows.now ≡ roles_with state.now role.now }
    requires exist { member_roles_exist state.now role.now ≡ true }
    ensures { IfOk result (λ apart. apart ≡ goes_in_no_circle state.now role.now) }
{
    leads_is_decided();
    row_may_be_put();
    sound_in_lists();
    let fault = role_fault(alloc, rows)?;
    Ok(fault.is_none())
}

fn other_names_role(name: &Text, row: &RoleRow) -> bool
    ensures { result ≡ other_names_role name.now row.now }
{
    !is_role(row, name) && is_among(name.as_str(), row.roles.as_slice())
}

fn some_role_names(rows: &[RoleRow], name: &Text) -> bool
    ensures { result ≡ list_any (other_names_role name.now) rows.now }
{
    rows.iter().any(|row| other_names_role(name, row))
}

fn some_item_names(items: &[Item], name: &Text) -> bool
    ensures { result ≡ list_any (λ (i : Item). is_among name.now i.roles.items) items.now }
{
    items
        .iter()
        .any(|item| is_among(name.as_str(), item.roles.as_slice()))
}

fn some_list_names(lists: &[&[Item]], name: &Text) -> bool
    ensures { result ≡ list_any
        (λ list. list_any (λ (i : Item). is_among name.now i.roles.items) list.now) lists.now }
{
    lists.iter().any(|items| some_item_names(items, name))
}

fn policy_names_role(name: &Text, policy: &Policy) -> bool
    ensures { result ≡ policy_names_role name.now policy.now }
{
    let lists = item_lists(policy);
    some_list_names(&lists, name)
}

fn some_policy_names(policies: &[Shared<Policy>], name: &Text) -> bool
    ensures { result ≡ list_any (policy_names_role name.now) policies.now }
{
    policies
        .iter()
        .any(|policy| policy_names_role(name, policy))
}

fn zone_names_role(name: &Text, zone: &ZoneRow) -> bool
    ensures { result ≡ zone_names_role name.now zone.now }
{
    is_among(name.as_str(), zone.admins.roles.as_slice())
        || is_among(name.as_str(), zone.auditors.roles.as_slice())
}

fn some_zone_names(zones: &[ZoneRow], name: &Text) -> bool
    ensures { result ≡ list_any (zone_names_role name.now) zones.now }
{
    zones.iter().any(|zone| zone_names_role(name, zone))
}

/// Whether no other role, policy or zone names the role (rule O4).
pub fn role_is_unused(state: &State, name: &Text) -> bool
    ensures { result ≡ role_is_unused state.now name.now }
{
    !some_role_names(state.roles.as_slice(), name)
        && (!some_policy_names(state.policies.as_slice(), name)
            && !some_zone_names(state.zones.as_slice(), name))
}
