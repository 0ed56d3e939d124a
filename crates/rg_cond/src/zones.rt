// The handed-in list of time zones.
ghost use Rattle.std.specs.Prelude.{◌≡◌, ◌-◌, ◌^◌, min, option_map, IfOk, IfNone, IfSome, IfErr, None, is_some, is_none, position};
ghost use Rattle.std.specs.List.{find};
ghost use Rattle.std.specs.Str.{bytes_eq, chars, encode_utf8_all};
ghost use Rattle.jiff_tz.specs.PosixReader.{read_whole};
ghost use Rattle.rg_cond.specs.Zones.{bad_rule, place_number};
ghost use Rattle.rg_policy.specs.declared.policy.TimeZoneRow.{TimeZoneRow};

use crate::faults::TimeZoneFault;
use jiff::tz::TimeZone;
use rg_base::{NoMemory, Seq, TryCopy, same_text};
use rg_policy::TimeZoneRow;
use std::alloc::Global;
use std::marker::Model;

/// Time zones with POSIX rules that read. Contracts see the rows that it was built of.
#[derive(Drop)]
pub struct TimeZones {
    rows: Seq<TimeZoneRow>,
}

impl Model for TimeZones {
    ghost use Rattle.std.specs.Prelude.{List};
    ghost use Rattle.rg_policy.specs.declared.policy.TimeZoneRow.{TimeZoneRow};

    ghost Value = { List TimeZoneRow };

    ghost view = { λ z. z.rows.items };
}

/// Whether the rule is none.
fn is_bad(rule: &str) -> bool
    ensures { result ≡ is_none (read_whole rule.now) }
{
    TimeZone::posix(rule).is_err()
}

/// The place of the first row whose rule is none.
fn first_bad_rule(rows: &[TimeZoneRow]) -> Option<usize>
    ensures { result ≡ bad_rule rows.now }
{
    rows.iter().position(|row| is_bad(row.rule.as_str()))
}

/// The number of a place, which stands still at the last u32.
fn place_number(place: usize) -> u32
    ensures { result ≡ place_number place }
{
    if place < u32::MAX as usize {
        place as u32
    } else {
        u32::MAX
    }
}

/// A copy of the rows.
fn copy_rows(alloc: Global, rows: &[TimeZoneRow]) -> Result<Seq<TimeZoneRow>, NoMemory>
    ensures { IfOk result (λ copy. copy.items ≡ rows.now) }
{
    let mut copy = Seq::new(alloc);
    for row in rows {
        copy.add(row.try_copy(alloc)?)?;
    }
    Ok(copy)
}

impl TimeZones {
    /// The time zones of these rows. Every rule has to read, also that of a row which plays no part, because
    /// an earlier row has its name or its name stands for UTC.
    pub fn build(alloc: Global, rows: &[TimeZoneRow]) -> Result<TimeZones, TimeZoneFault>
        ensures built { IfOk result (λ zones. zones ≡ rows.now) }
        ensures sound { IfOk result (λ _. bad_rule rows.now ≡ None) }
        ensures refused { IfSome (bad_rule rows.now)
            (λ place. result ≡ Err (TimeZoneFault.BadRule (place_number place))) }
        ensures accepted { IfNone (bad_rule rows.now)
            (IfErr result (λ fault. fault ≡ TimeZoneFault.NoMemory)) }
    {
        if let Some(place) = first_bad_rule(rows) {
            return Err(TimeZoneFault::BadRule(place_number(place)));
        }
        let rows = copy_rows(alloc, rows)?;
        Ok(TimeZones { rows })
    }

    /// The first row of this name.
    pub(crate) fn row_named(&self, name: &str) -> Option<&TimeZoneRow>
        ensures { option_map (λ r. r.now) result
            ≡ find (λ row. bytes_eq row.name (chars name.now)) self.now }
    {
        for row in self.rows.as_slice() {
            if same_text(row.name.as_str(), name) {
                return Some(row);
            }
        }
        None
    }
}
