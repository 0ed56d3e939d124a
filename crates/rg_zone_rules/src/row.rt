// The records of a security zone (Ranger's RangerSecurityZone).
use rg_base::{Named, NoMemory, Seq, Text, TryCopy};
use std::alloc::Global;

/// The values of one level of a zone's resource.
#[derive(Drop)]
pub struct ZoneLevel {
    pub level: Text,
    pub values: Seq<Text>,
}

/// The resources of one service in a zone.
#[derive(Drop)]
pub struct ZoneService {
    pub service: Text,
    /// Each a resource map, of which one has to match.
    pub resources: Seq<Seq<ZoneLevel>>,
}

/// Users, groups and roles by name.
pub struct Subjects {
    pub users: Seq<Text>,
    pub groups: Seq<Text>,
    pub roles: Seq<Text>,
}

impl Drop for Subjects {
    fn drop(self) {
        let Self {
            users: _,
            groups: _,
            roles: _,
        } = self;
    }
}

/// A security zone.
pub struct ZoneRow {
    pub name: Text,
    pub services: Seq<ZoneService>,
    /// The names of the tag services whose policies with this zone's name count in it.
    pub tag_services: Seq<Text>,
    pub admins: Subjects,
    pub auditors: Subjects,
}

impl Drop for ZoneRow {
    fn drop(self) {
        let Self {
            name: _,
            services: _,
            tag_services: _,
            admins: _,
            auditors: _,
        } = self;
    }
}

impl TryCopy for ZoneLevel {
    fn try_copy(&self, alloc: Global) -> Result<ZoneLevel, NoMemory> {
        Ok(ZoneLevel {
            level: self.level.try_copy(alloc)?,
            values: self.values.try_copy(alloc)?,
        })
    }
}

impl TryCopy for ZoneService {
    fn try_copy(&self, alloc: Global) -> Result<ZoneService, NoMemory> {
        Ok(ZoneService {
            service: self.service.try_copy(alloc)?,
            resources: self.resources.try_copy(alloc)?,
        })
    }
}

impl TryCopy for Subjects {
    fn try_copy(&self, alloc: Global) -> Result<Subjects, NoMemory> {
        Ok(Subjects {
            users: self.users.try_copy(alloc)?,
            groups: self.groups.try_copy(alloc)?,
            roles: self.roles.try_copy(alloc)?,
        })
    }
}

impl TryCopy for ZoneRow {
    fn try_copy(&self, alloc: Global) -> Result<ZoneRow, NoMemory> {
        Ok(ZoneRow {
            name: self.name.try_copy(alloc)?,
            services: self.services.try_copy(alloc)?,
            tag_services: self.tag_services.try_copy(alloc)?,
            admins: self.admins.try_copy(alloc)?,
            auditors: self.auditors.try_copy(alloc)?,
        })
    }
}

impl Named for ZoneLevel {
    ghost named = { λ l. l.level };

    fn name(&self) -> &str {
        self.level.as_str()
    }
}

impl Named for ZoneService {
    ghost named = { λ s. s.service };

    fn name(&self) -> &str {
        self.service.as_str()
    }
}

impl Named for ZoneRow {
    ghost named = { λ z. z.name };

    fn name(&self) -> &str {
        self.name.as_str()
    }
}
