// What is filed of a policy or a tag row.
use rg_base::{NoMemory, Seq, TryCopy};
use rg_policy::ResourceMap;
use rg_resmatch::Reach;
use std::alloc::Global;

/// The resource maps of a policy or of a tag row.
#[derive(Drop)]
pub struct Form {
    /// The id of the policy or the row.
    pub id: i64,
    pub maps: Seq<ResourceMap>,
    pub reach: Reach,
}

impl TryCopy for Form {
    fn try_copy(&self, alloc: Global) -> Result<Form, NoMemory> {
        Ok(Form {
            id: self.id,
            maps: self.maps.try_copy(alloc)?,
            reach: self.reach,
        })
    }
}
