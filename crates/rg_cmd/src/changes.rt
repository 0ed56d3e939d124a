// Changes, and the log of a service that notes them.
use rg_base::{Named, NoMemory, Seq, Text, TryCopy, Version};
use rg_policy::Policy;
use rg_shared::Shared;
use rg_tags::TagRow;
use std::alloc::Global;

/// The type of a change that created something.
pub const CREATED: u8 = 0;

/// The type of a change that updated something.
pub const UPDATED: u8 = 1;

/// The type of a change that deleted something.
pub const DELETED: u8 = 2;

/// A policy that was created, updated or deleted (RangerPolicyDelta).
#[derive(Drop)]
pub struct PolicyChange {
    /// [`CREATED`], [`UPDATED`] or [`DELETED`].
    pub change_type: u8,
    /// Whether it is a policy of the tag service.
    pub tag: bool,
    /// The policy as it is now, or was before it was deleted.
    pub policy: Shared<Policy>,
}

/// A tag row that was created, updated or deleted.
#[derive(Drop)]
pub struct TagChange {
    /// [`CREATED`], [`UPDATED`] or [`DELETED`].
    pub change_type: u8,
    /// The row as it is now, or was before it was deleted.
    pub row: TagRow,
}

/// What the policy log of a service notes.
#[derive(Drop)]
pub enum LogEntry {
    Policy(PolicyChange),
    /// Some zone was put or deleted. The present zones tell what came of it.
    Zones,
}

/// The versions of a service, and the last of the changes that led to them, the oldest first.
pub struct Log {
    pub service: Text,
    pub policy_version: Version,
    pub tag_version: Version,
    pub policy_changes: Seq<LogEntry>,
    pub tag_changes: Seq<TagChange>,
}

impl Drop for Log {
    fn drop(self) {
        let Self {
            service: _,
            policy_version: _,
            tag_version: _,
            policy_changes: _,
            tag_changes: _,
        } = self;
    }
}

impl Named for Log {
    ghost named = { λ log. log.service };

    fn name(&self) -> &str {
        self.service.as_str()
    }
}

impl TryCopy for PolicyChange {
    fn try_copy(&self, alloc: Global) -> Result<PolicyChange, NoMemory> {
        Ok(PolicyChange {
            change_type: self.change_type,
            tag: self.tag,
            policy: self.policy.try_copy(alloc)?,
        })
    }
}

impl TryCopy for TagChange {
    fn try_copy(&self, alloc: Global) -> Result<TagChange, NoMemory> {
        Ok(TagChange {
            change_type: self.change_type,
            row: self.row.try_copy(alloc)?,
        })
    }
}

impl TryCopy for LogEntry {
    fn try_copy(&self, alloc: Global) -> Result<LogEntry, NoMemory> {
        match self {
            LogEntry::Policy(change) => Ok(LogEntry::Policy(change.try_copy(alloc)?)),
            LogEntry::Zones => Ok(LogEntry::Zones),
        }
    }
}

impl TryCopy for Log {
    fn try_copy(&self, alloc: Global) -> Result<Log, NoMemory> {
        Ok(Log {
            service: self.service.try_copy(alloc)?,
            policy_version: self.policy_version,
            tag_version: self.tag_version,
            policy_changes: self.policy_changes.try_copy(alloc)?,
            tag_changes: self.tag_changes.try_copy(alloc)?,
        })
    }
}
