// Rows about whom a role holds, and what is at fault in roles.
use crate::rows::{field, names, records, spread, told};
use rg_base::NoMemory;
use rg_roles::{RoleRow, Roles, role_fault};
use rg_wire::Wire;
use std::alloc::Global;

/// Whether the role holds the user with the groups that the row names.
fn told_held(alloc: Global, roles: &Roles, row: &str) -> Result<String, NoMemory> {
    let groups = names(alloc, field(row, 4))?;
    if roles.holds(field(row, 2), field(row, 3), groups.as_slice()) {
        told(alloc, "held")
    } else {
        told(alloc, "not held")
    }
}

/// The same of these roles, or their fault, where two calls agree on it.
fn told_of(alloc: Global, roles: &[RoleRow], row: &str) -> Result<String, NoMemory> {
    let found = role_fault(alloc, roles)?;
    match Roles::build(alloc, roles) {
        Err(fault) if found == Some(fault) => Ok(format!(in alloc; "{fault:?}")?),
        Ok(built) if found.is_none() => told_held(alloc, &built, row),
        _ => Ok(format!(in alloc; "another fault: {found:?}")?),
    }
}

/// `holds|ROLES|ROLE|USER|GROUPS`: whether the role holds the user with these groups, or what is at fault in the roles.
fn tell_held(alloc: Global, row: &str) -> Result<String, NoMemory> {
    let text = spread(alloc, field(row, 1))?;
    let roles = records::<RoleRow, Wire>(alloc, &Wire, text.as_str())?;
    told_of(alloc, roles.as_slice(), row)
}

pub(crate) fn answer(alloc: Global, row: &str) -> Result<String, NoMemory> {
    match field(row, 0) {
        "holds" => tell_held(alloc, row),
        _ => told(alloc, "no such row"),
    }
}
