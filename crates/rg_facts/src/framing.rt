// What policies are read under.
ghost use Rattle.std.specs.Prelude.{◌≡◌, IfOk};
ghost use Rattle.rg_facts.specs.Candidates.{frame_of};

use crate::facts::Facts;
use rg_base::{NoMemory, TryCopy};
use rg_evalr::{Frame, TimeZones};
use rg_policy::TimeZoneRow;
use std::alloc::Global;

/// The time zones of sound facts.
fn time_zones(alloc: Global, rows: &[TimeZoneRow]) -> Result<TimeZones, NoMemory>
    ensures { IfOk result (λ zones. zones ≡ rows.now) }
{
    match TimeZones::build(alloc, rows) {
        Ok(zones) => Ok(zones),
        Err(_) => Err(NoMemory),
    }
}

/// What the policies are read under: the definitions, and the time zones, of which the rules read.
pub fn frame_of(alloc: Global, facts: &Facts) -> Result<Frame, NoMemory>
    ensures { IfOk result (λ frame. frame ≡ frame_of facts.now) }
{
    Ok(Frame {
        def: facts.def.try_copy(alloc)?,
        tag_def: facts.tag_def.try_copy(alloc)?,
        time_zones: time_zones(alloc, facts.time_zones.as_slice())?,
    })
}
