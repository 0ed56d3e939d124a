// What is asked of the administration, and what it answers.
use crate::download::Download;
use crate::rule::Rule;
use crate::state::{ServiceRow, UserRow};
use rg_base::{NoMemory, PolicyId, Seq, Text, TryCopy, Version};
use rg_defs::ServiceDef;
use rg_policy::Policy;
use rg_roles::RoleRow;
use rg_shared::Shared;
use rg_tags::TagRow;
use rg_zone_rules::ZoneRow;
use std::alloc::Global;

/// A command of an actor, who is named by a user's name.
#[derive(Drop)]
pub struct Ask {
    pub actor: Text,
    pub command: AdminCommand,
}

/// What an actor may ask. To put something is to replace what has its name or id, or else to add it.
#[derive(Drop)]
pub enum AdminCommand {
    PutDef {
        def: ServiceDef,
    },
    CreateService {
        service: ServiceRow,
    },
    UpdateService {
        service: ServiceRow,
    },
    DeleteService {
        name: Text,
    },
    /// The policy gets an id and version 1, whatever it came with.
    CreatePolicy {
        policy: Policy,
    },
    /// The policy is found by its id.
    UpdatePolicy {
        policy: Policy,
    },
    DeletePolicy {
        id: PolicyId,
    },
    GetPolicy {
        id: PolicyId,
    },
    ListPolicies {
        service: Text,
    },
    PutRole {
        role: RoleRow,
    },
    DeleteRole {
        name: Text,
    },
    PutZone {
        zone: ZoneRow,
    },
    DeleteZone {
        name: Text,
    },
    /// The row is stored with this id, whatever it came with.
    PutTags {
        id: i64,
        row: TagRow,
    },
    DeleteTags {
        id: i64,
    },
    PutUser {
        user: UserRow,
    },
    DeleteUser {
        name: Text,
    },
    /// What the service's plugin lacks from these versions on; from none it lacks all.
    Download {
        service: Text,
        policies_from: Option<Version>,
        tags_from: Option<Version>,
        roles_from: Option<Version>,
    },
}

/// The answer to a command.
#[derive(Drop)]
pub enum AdminReply {
    Done,
    /// The policy that was created or updated, with the version that it has now.
    Kept { id: PolicyId, version: Version },
    Found(Shared<Policy>),
    Listed(Seq<Shared<Policy>>),
    Downloaded(Download),
    /// The first rule that the command breaks. It changed nothing.
    Refused(Rule),
}

impl TryCopy for Ask {
    fn try_copy(&self, alloc: Global) -> Result<Ask, NoMemory> {
        Ok(Ask {
            actor: self.actor.try_copy(alloc)?,
            command: self.command.try_copy(alloc)?,
        })
    }
}

impl TryCopy for AdminCommand {
    fn try_copy(&self, alloc: Global) -> Result<AdminCommand, NoMemory> {
        Ok(match self {
            AdminCommand::PutDef { def } => AdminCommand::PutDef {
                def: def.try_copy(alloc)?,
            },
            AdminCommand::CreateService { service } => AdminCommand::CreateService {
                service: service.try_copy(alloc)?,
            },
            AdminCommand::UpdateService { service } => AdminCommand::UpdateService {
                service: service.try_copy(alloc)?,
            },
            AdminCommand::DeleteService { name } => AdminCommand::DeleteService {
                name: name.try_copy(alloc)?,
            },
            AdminCommand::CreatePolicy { policy } => AdminCommand::CreatePolicy {
                policy: policy.try_copy(alloc)?,
            },
            AdminCommand::UpdatePolicy { policy } => AdminCommand::UpdatePolicy {
                policy: policy.try_copy(alloc)?,
            },
            AdminCommand::DeletePolicy { id } => AdminCommand::DeletePolicy { id: *id },
            AdminCommand::GetPolicy { id } => AdminCommand::GetPolicy { id: *id },
            AdminCommand::ListPolicies { service } => AdminCommand::ListPolicies {
                service: service.try_copy(alloc)?,
            },
            AdminCommand::PutRole { role } => AdminCommand::PutRole {
                role: role.try_copy(alloc)?,
            },
            AdminCommand::DeleteRole { name } => AdminCommand::DeleteRole {
                name: name.try_copy(alloc)?,
            },
            AdminCommand::PutZone { zone } => AdminCommand::PutZone {
                zone: zone.try_copy(alloc)?,
            },
            AdminCommand::DeleteZone { name } => AdminCommand::DeleteZone {
                name: name.try_copy(alloc)?,
            },
            AdminCommand::PutTags { id, row } => AdminCommand::PutTags {
                id: *id,
                row: row.try_copy(alloc)?,
            },
            AdminCommand::DeleteTags { id } => AdminCommand::DeleteTags { id: *id },
            AdminCommand::PutUser { user } => AdminCommand::PutUser {
                user: user.try_copy(alloc)?,
            },
            AdminCommand::DeleteUser { name } => AdminCommand::DeleteUser {
                name: name.try_copy(alloc)?,
            },
            AdminCommand::Download {
                service,
                policies_from,
                tags_from,
                roles_from,
            } => AdminCommand::Download {
                service: service.try_copy(alloc)?,
                policies_from: *policies_from,
                tags_from: *tags_from,
                roles_from: *roles_from,
            },
        })
    }
}

impl TryCopy for AdminReply {
    fn try_copy(&self, alloc: Global) -> Result<AdminReply, NoMemory> {
        match self {
            AdminReply::Done => Ok(AdminReply::Done),
            AdminReply::Kept { id, version } => Ok(AdminReply::Kept {
                id: *id,
                version: *version,
            }),
            AdminReply::Found(policy) => Ok(AdminReply::Found(policy.try_copy(alloc)?)),
            AdminReply::Listed(policies) => Ok(AdminReply::Listed(policies.try_copy(alloc)?)),
            AdminReply::Downloaded(download) => {
                Ok(AdminReply::Downloaded(download.try_copy(alloc)?))
            }
            AdminReply::Refused(rule) => Ok(AdminReply::Refused(*rule)),
        }
    }
}
