// The rules of users and time zones.
ghost use Rattle.std.specs.Prelude.{◌≡◌, IfOk};
ghost use Rattle.std.specs.List.{list_all};
ghost use Rattle.rg_base.specs.Texts.{is_name};
ghost use Rattle.rg_validate.specs.Users.{time_zones_read, user_fits};

use rg_base::{NoMemory, Text, is_name};
use rg_cmd::{State, UserRow};
use rg_cond::{TimeZoneFault, TimeZones};
use std::alloc::Global;

fn are_names(texts: &[Text]) -> bool
    ensures { result ≡ list_all is_name texts.now }
{
    texts.iter().all(|text| is_name(text.as_str()))
}

/// Whether the name and each group have 1 to 256 characters (rule U1).
pub fn user_fits(row: &UserRow) -> bool
    ensures { result ≡ user_fits row.now }
{
    is_name(row.name.as_str()) && are_names(row.groups.as_slice())
}

/// Whether the rule of each time zone reads (rule U2).
pub fn time_zones_read(alloc: Global, state: &State) -> Result<bool, NoMemory>
    ensures { IfOk result (λ read. read ≡ time_zones_read state.now) }
{
    match TimeZones::build(alloc, state.time_zones.as_slice()) {
        Ok(_) => Ok(true),
        Err(TimeZoneFault::BadRule(_)) => Ok(false),
        Err(TimeZoneFault::NoMemory) => Err(NoMemory),
    }
}
