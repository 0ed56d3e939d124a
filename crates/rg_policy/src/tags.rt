// The record of a tag.
use rg_base::{NoMemory, Pair, Seq, Text, TryCopy};
use std::alloc::Global;

/// A tag with its attributes (RangerTag).
#[derive(Drop)]
pub struct Tag {
    /// The tag's type, such as `PII`.
    pub kind: Text,
    pub attributes: Seq<Pair>,
}

impl TryCopy for Tag {
    fn try_copy(&self, alloc: Global) -> Result<Tag, NoMemory> {
        Ok(Tag {
            kind: self.kind.try_copy(alloc)?,
            attributes: self.attributes.try_copy(alloc)?,
        })
    }
}
