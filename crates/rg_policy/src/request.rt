// The records of a request (Ranger's RangerAccessRequest).
use rg_base::{Moment, Named, NoMemory, Pair, Seq, Text, TryCopy};
use std::alloc::Global;

/// One resource level that a request names.
#[derive(Drop)]
pub struct Element {
    pub level: Text,
    pub value: Text,
}

/// What a request asks about (RangerAccessResource).
#[derive(Drop)]
pub struct Resource {
    /// In byte order of the levels. Of elements with one level the first counts.
    pub elements: Seq<Element>,
    /// The owner's name, or empty.
    pub owner: Text,
}

/// A request for access.
pub struct AccessRequest {
    pub user: Text,
    pub groups: Seq<Text>,
    pub resource: Resource,
    /// The asked access type.
    pub access: Text,
    pub moment: Moment,
    /// The client's address, or empty.
    pub address: Text,
    pub context: Seq<Pair>,
}

impl Drop for AccessRequest {
    fn drop(self) {
        let Self {
            user: _,
            groups: _,
            resource: _,
            access: _,
            moment: _,
            address: _,
            context: _,
        } = self;
    }
}

impl TryCopy for Element {
    fn try_copy(&self, alloc: Global) -> Result<Element, NoMemory> {
        Ok(Element {
            level: self.level.try_copy(alloc)?,
            value: self.value.try_copy(alloc)?,
        })
    }
}

impl TryCopy for Resource {
    fn try_copy(&self, alloc: Global) -> Result<Resource, NoMemory> {
        Ok(Resource {
            elements: self.elements.try_copy(alloc)?,
            owner: self.owner.try_copy(alloc)?,
        })
    }
}

impl TryCopy for AccessRequest {
    fn try_copy(&self, alloc: Global) -> Result<AccessRequest, NoMemory> {
        Ok(AccessRequest {
            user: self.user.try_copy(alloc)?,
            groups: self.groups.try_copy(alloc)?,
            resource: self.resource.try_copy(alloc)?,
            access: self.access.try_copy(alloc)?,
            moment: self.moment,
            address: self.address.try_copy(alloc)?,
            context: self.context.try_copy(alloc)?,
        })
    }
}

impl Named for Element {
    ghost named = { λ e. e.level };

    fn name(&self) -> &str {
        self.level.as_str()
    }
}
