// The clocks that schedules are written by.
ghost use Rattle.std.specs.Prelude.{◌≡◌, ◌-ℤ◌, Some, IsTrue};
ghost use Rattle.std.specs.Str.{chars};
ghost use Rattle.rg_cond.specs.ClockViews.{said, has_rule};
ghost use Rattle.rg_cond.specs.Clocks.{clock_of, instant_on, is_utc};

use crate::dates::LocalTime;
use crate::zones::TimeZones;
use jiff::tz::TimeZone;
use rg_base::{Moment, same_text};
use std::marker::Model;

/// A clock in UTC, or in the zone of a POSIX rule. Contracts see what the rule says, None for UTC.
#[derive(Drop)]
pub(crate) struct Clock {
    rule: Option<TimeZone<'static>>,
}

impl Model for Clock {
    ghost use Rattle.std.specs.Prelude.{Option, IsTrue};
    ghost use Rattle.jiff_tz.specs.PosixText.{TzText};
    ghost use Rattle.rg_cond.specs.ClockViews.{said, has_rule};

    ghost Value = { Option TzText };

    ghost view = { λ c. said c.rule };

    ghost invariant = { λ c. IsTrue (has_rule c.rule) };
}

/// Whether the name stands for UTC.
#[tactic(auto, using(crate::proofs::Spelled::words))]
fn is_utc(name: &str) -> bool
    ensures { result ≡ is_utc (chars name.now) }
{
    same_text(name, "") || same_text(name, "UTC") || same_text(name, "GMT")
}

/// The instant at which a clock in the zone shows this, where `jiff` holds it.
fn zone_instant(zone: &TimeZone<'static>, local: &LocalTime) -> Option<Moment>
    requires { IsTrue (has_rule (Some zone.now)) }
    ensures { result ≡ instant_on (said (Some zone.now)) local.now }
{
    match zone.to_timestamp(local.shown) {
        Ok(instant) => {
            let second = instant.as_second();
            Some(Moment(second))
        }
        Err(_) => None,
    }
}

impl Clock {
    /// The clock of the zone of this name, None where there is no such zone.
    #[tactic(auto, unfolding(crate::specs::Clocks::clock_of))]
    pub(crate) fn named(name: &str, zones: &TimeZones) -> Option<Clock>
        ensures { result ≡ clock_of zones.now (chars name.now) }
    {
        if is_utc(name) {
            return Some(Clock { rule: None });
        }
        let row = zones.row_named(name)?;
        match TimeZone::posix(row.rule.as_str()) {
            Ok(zone) => Some(Clock { rule: Some(zone) }),
            Err(_) => None,
        }
    }

    /// The instant at which the clock shows this, where there is one. A time in a gap is taken with the offset
    /// before the gap, and one in a fold is the earlier.
    pub(crate) fn instant(&self, local: &LocalTime) -> Option<Moment>
        ensures { result ≡ instant_on self.now local.now }
    {
        match &self.rule {
            None => Some(Moment(local.second())),
            Some(zone) => zone_instant(zone, local),
        }
    }
}
