// What a request gets.
use rg_base::{NoMemory, PolicyId, Serial, Text, TryCopy, Version};
use std::alloc::Global;

/// Whether access is given.
#[derive(Clone, Copy, Debug, PartialEq, Eq)]
pub enum Access {
    Allowed,
    Denied,
    /// No policy decides, and the service leaves the request to another authority.
    Undetermined,
}

/// Where an item stands.
#[derive(Clone, Copy, Debug, PartialEq, Eq)]
pub struct ItemPlace {
    pub policy: PolicyId,
    /// Whether the policy is one of the tag service.
    pub tag: bool,
    /// The place in the policy's list of items, counted from 0.
    pub item: u32,
}

/// A decision in numbers.
#[derive(Clone, Copy, Debug, PartialEq, Eq)]
pub struct Verdict {
    pub access: Access,
    /// The deciding policy, or -1.
    pub policy: PolicyId,
    pub audited: bool,
    /// The item whose row filter applies.
    pub filter: Option<ItemPlace>,
    /// The item whose mask applies.
    pub mask: Option<ItemPlace>,
}

/// A verdict with the publication that it was found in.
#[derive(Clone, Copy, Debug, PartialEq, Eq)]
pub struct Answer {
    pub verdict: Verdict,
    pub serial: Serial,
    pub policy_version: Version,
    pub tag_version: Version,
    pub role_version: Version,
}

/// A mask as text.
#[derive(Drop)]
pub struct MaskText {
    /// The mask type.
    pub kind: Text,
    pub expr: Text,
}

/// A decision with its texts.
pub struct Decision {
    pub access: Access,
    /// The deciding policy, or -1.
    pub policy: PolicyId,
    pub audited: bool,
    /// The row filter's expression.
    pub filter: Option<Text>,
    pub mask: Option<MaskText>,
    pub serial: Serial,
    pub policy_version: Version,
    pub tag_version: Version,
    pub role_version: Version,
    /// The values of the named levels from the root, joined by `/`.
    pub path: Text,
}

impl Drop for Decision {
    fn drop(self) {
        let Self {
            access: _,
            policy: _,
            audited: _,
            filter: _,
            mask: _,
            serial: _,
            policy_version: _,
            tag_version: _,
            role_version: _,
            path: _,
        } = self;
    }
}

impl TryCopy for ItemPlace {
    fn try_copy(&self, _alloc: Global) -> Result<ItemPlace, NoMemory> {
        Ok(*self)
    }
}

impl TryCopy for Verdict {
    fn try_copy(&self, _alloc: Global) -> Result<Verdict, NoMemory> {
        Ok(*self)
    }
}

impl TryCopy for Answer {
    fn try_copy(&self, _alloc: Global) -> Result<Answer, NoMemory> {
        Ok(*self)
    }
}

impl TryCopy for MaskText {
    fn try_copy(&self, alloc: Global) -> Result<MaskText, NoMemory> {
        Ok(MaskText {
            kind: self.kind.try_copy(alloc)?,
            expr: self.expr.try_copy(alloc)?,
        })
    }
}

impl TryCopy for Decision {
    fn try_copy(&self, alloc: Global) -> Result<Decision, NoMemory> {
        Ok(Decision {
            access: self.access,
            policy: self.policy,
            audited: self.audited,
            filter: self.filter.try_copy(alloc)?,
            mask: self.mask.try_copy(alloc)?,
            serial: self.serial,
            policy_version: self.policy_version,
            tag_version: self.tag_version,
            role_version: self.role_version,
            path: self.path.try_copy(alloc)?,
        })
    }
}
