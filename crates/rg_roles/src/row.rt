// The record of a role (Ranger's RangerRole).
use rg_base::{Named, NoMemory, Seq, Text, TryCopy};
use std::alloc::Global;

/// A role with its members.
pub struct RoleRow {
    pub name: Text,
    pub users: Seq<Text>,
    pub groups: Seq<Text>,
    /// The names of the roles whose members this role has too.
    pub roles: Seq<Text>,
}

impl Drop for RoleRow {
    fn drop(self) {
        let Self {
            name: _,
            users: _,
            groups: _,
            roles: _,
        } = self;
    }
}

impl Named for RoleRow {
    ghost named = { λ row. row.name };

    fn name(&self) -> &str {
        self.name.as_str()
    }
}

impl TryCopy for RoleRow {
    fn try_copy(&self, alloc: Global) -> Result<RoleRow, NoMemory> {
        Ok(RoleRow {
            name: self.name.try_copy(alloc)?,
            users: self.users.try_copy(alloc)?,
            groups: self.groups.try_copy(alloc)?,
            roles: self.roles.try_copy(alloc)?,
        })
    }
}
