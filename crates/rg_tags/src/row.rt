// The record of a tagged resource (Ranger's ServiceTags).
use rg_base::{NoMemory, Seq, Text, TryCopy};
use rg_policy::{PolicyResource, Tag};
use std::alloc::Global;

/// A resource with its tags (RangerServiceResource).
pub struct TagRow {
    pub id: i64,
    pub service: Text,
    pub resources: Seq<PolicyResource>,
    pub tags: Seq<Tag>,
}

impl Drop for TagRow {
    fn drop(self) {
        let Self {
            id: _,
            service: _,
            resources: _,
            tags: _,
        } = self;
    }
}

impl TryCopy for TagRow {
    fn try_copy(&self, alloc: Global) -> Result<TagRow, NoMemory> {
        Ok(TagRow {
            id: self.id,
            service: self.service.try_copy(alloc)?,
            resources: self.resources.try_copy(alloc)?,
            tags: self.tags.try_copy(alloc)?,
        })
    }
}
