// Dates, alone or with a time of day, from the digits of a text.
ghost use Rattle.std.specs.Prelude.{◌≡◌, ◌≤◌, length, pos, is_some, option_map, IfSome, ℕ};
ghost use Rattle.jiff.specs.Words.{IsYmd, IsHms};
ghost use Rattle.rg_cond.specs.Dates.{begins_with_date, day_form, day_of, ends_with_time, moment_form, moment_of};
ghost use Rattle.rg_cond.specs.Digits.{two_at, four_at};

use crate::digits::{four_at, has_form, two_at};
use jiff::civil::{Date, DateTime, Time};
use std::marker::Model;

/// What a clock shows, in whole seconds.
#[derive(Drop)]
pub(crate) struct LocalTime {
    pub(crate) shown: DateTime,
}

impl Model for LocalTime {
    ghost use Rattle.std.specs.Prelude.{◌≡◌};
    ghost use Rattle.rg_cond.specs.Dates.{Shown, shown_of};

    ghost Value = { Shown };

    ghost view = { λ l. shown_of l.shown };

    ghost invariant = { λ l. l.shown.time.subsec_nanosecond ≡ 0 };
}

#[tactic(auto, unfolding(crate::specs::Dates::day_form))]
fn day_form() -> &'static [u8; 10]
    ensures { result.now ≡ day_form }
{
    b"dddd/dd/dd"
}

#[tactic(auto, unfolding(crate::specs::Dates::moment_form))]
fn moment_form() -> &'static [u8; 19]
    ensures { result.now ≡ moment_form }
{
    b"dddd/dd/dd dd:dd:dd"
}

/// The date at the beginning of the text.
fn read_date(text: &[u8]) -> Option<Date>
    requires { 10 ≤ length text.now }
    ensures some { is_some result ≡ begins_with_date text.now }
    ensures date { IfSome result
        (IsYmd (pos (four_at text.now 0)) (pos (two_at text.now 5)) (pos (two_at text.now 8))) }
{
    let year = four_at(text, 0) as i16;
    let month = two_at(text, 5) as i8;
    let day = two_at(text, 8) as i8;
    Date::new(year, month, day).ok()
}

/// The time of day after a date.
fn read_time(text: &[u8]) -> Option<Time>
    requires { 19 ≤ length text.now }
    ensures some { is_some result ≡ ends_with_time text.now }
    ensures time { IfSome result (IsHms (pos (two_at text.now 11))
        (pos (two_at text.now 14)) (pos (two_at text.now 17)) (pos 0)) }
{
    let hour = two_at(text, 11) as i8;
    let minute = two_at(text, 14) as i8;
    let second = two_at(text, 17) as i8;
    Time::new(hour, minute, second, 0).ok()
}

/// The date with a time of day that the text writes as `yyyy/MM/dd HH:mm:ss`.
#[tactic(auto, using(crate::proofs::Shown::moment_shown), unfolding(crate::specs::Dates::moment_of))]
pub(crate) fn read_moment(text: &str) -> Option<LocalTime>
    ensures { result ≡ moment_of text.now }
{
    let text = text.as_bytes();
    if !has_form(moment_form(), text) {
        return None;
    }
    let date = read_date(text)?;
    let time = read_time(text)?;
    Some(LocalTime {
        shown: date.to_datetime(time),
    })
}

/// The beginning of the day that the text writes as `yyyy/MM/dd`.
#[tactic(auto, using(crate::proofs::Shown::day_shown), unfolding(crate::specs::Dates::day_of))]
pub(crate) fn read_day(text: &str) -> Option<LocalTime>
    ensures { result ≡ day_of text.now }
{
    let text = text.as_bytes();
    if !has_form(day_form(), text) {
        return None;
    }
    let date = read_date(text)?;
    Some(LocalTime {
        shown: date.to_datetime(Time::midnight()),
    })
}

impl LocalTime {
    /// The seconds since the clock showed the beginning of 1970.
    pub(crate) fn second(&self) -> i64
        ensures { result ≡ self.now.second }
    {
        self.shown.to_plain().to_second()
    }
}
