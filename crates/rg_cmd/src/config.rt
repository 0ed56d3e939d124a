// What an administration starts from.
use crate::state::{ServiceRow, UserRow};
use rg_base::{NoMemory, Seq, Text, TryCopy};
use rg_defs::ServiceDef;
use rg_policy::TimeZoneRow;
use std::alloc::Global;

/// The administrators, users, time zones, definitions and services of the start.
#[derive(Drop)]
pub struct Config {
    pub admins: Seq<Text>,
    pub users: Seq<UserRow>,
    pub time_zones: Seq<TimeZoneRow>,
    pub defs: Seq<ServiceDef>,
    pub services: Seq<ServiceRow>,
    /// The name of the service whose plugin this is.
    pub plugin: Text,
}

impl TryCopy for Config {
    fn try_copy(&self, alloc: Global) -> Result<Config, NoMemory> {
        Ok(Config {
            admins: self.admins.try_copy(alloc)?,
            users: self.users.try_copy(alloc)?,
            time_zones: self.time_zones.try_copy(alloc)?,
            defs: self.defs.try_copy(alloc)?,
            services: self.services.try_copy(alloc)?,
            plugin: self.plugin.try_copy(alloc)?,
        })
    }
}
