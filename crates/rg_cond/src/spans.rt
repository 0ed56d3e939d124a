// Validity schedules and their spans.
ghost use Rattle.std.specs.Prelude.{◌≡◌, IfOk, IfErr, Some, None};
ghost use Rattle.rg_cond.specs.Spans.{contains, has_begun, is_not_over, end_on, end_shown, ends_first, placing_fault, schedule_fault, span_of, span_on};

use crate::clocks::Clock;
use crate::dates::{LocalTime, read_moment};
use crate::faults::ScheduleFault;
use crate::zones::TimeZones;
use rg_base::Moment;
use rg_policy::ScheduleText;
use std::alloc::Global;

/// From one instant to another, both included. An end that is None is open.
#[derive(Clone, Copy, Debug, PartialEq, Eq)]
pub struct Span {
    pub start: Option<Moment>,
    pub end: Option<Moment>,
}

/// The reading of schedules (Ranger's RangerValiditySchedule).
pub struct Schedule;

/// What an end of a schedule shows: `Some(None)` where it is open, None where it is no time.
#[tactic(auto, unfolding(crate::specs::Spans::end_shown))]
fn read_end(text: &str) -> Option<Option<LocalTime>>
    ensures { result ≡ end_shown text.now }
{
    if text.is_empty() {
        return Some(None);
    }
    match read_moment(text) {
        Some(local) => Some(Some(local)),
        None => None,
    }
}

/// The instant of an end on the clock, None where it is out of range.
fn end_on(clock: &Clock, end: &Option<LocalTime>) -> Option<Option<Moment>>
    ensures { result ≡ end_on clock.now end.now }
{
    match end {
        None => Some(None),
        Some(local) => match clock.instant(local) {
            Some(moment) => Some(Some(moment)),
            None => None,
        },
    }
}

fn ends_first(span: Span) -> bool
    ensures { result ≡ ends_first span }
{
    match (span.start, span.end) {
        (Some(start), Some(end)) => end < start,
        _ => false,
    }
}

/// The span between two ends on a clock.
fn place(
    clock: &Clock,
    start: &Option<LocalTime>,
    end: &Option<LocalTime>,
) -> Result<Span, ScheduleFault>
    ensures read { IfOk result (λ span. span ≡ span_on clock.now start.now end.now) }
    ensures sound { IfOk result (λ _. placing_fault clock.now start.now end.now ≡ None) }
    ensures refused { IfErr result
        (λ fault. placing_fault clock.now start.now end.now ≡ Some fault) }
{
    let Some(start) = end_on(clock, start) else {
        return Err(ScheduleFault::OutOfRange);
    };
    let Some(end) = end_on(clock, end) else {
        return Err(ScheduleFault::OutOfRange);
    };
    let span = Span { start, end };
    if ends_first(span) {
        return Err(ScheduleFault::EndFirst);
    }
    Ok(span)
}

/// The span of a schedule, or why it doesn't read.
#[tactic(auto, unfolding(crate::specs::Spans::schedule_fault))]
fn read_span(text: &ScheduleText, zones: &TimeZones) -> Result<Span, ScheduleFault>
    ensures read { IfOk result (λ span. span ≡ span_of zones.now text.now) }
    ensures sound { IfOk result (λ _. schedule_fault zones.now text.now ≡ None) }
    ensures refused { IfErr result (λ fault. schedule_fault zones.now text.now ≡ Some fault) }
{
    let Some(start) = read_end(text.start_time.as_str()) else {
        return Err(ScheduleFault::BadTime);
    };
    let Some(end) = read_end(text.end_time.as_str()) else {
        return Err(ScheduleFault::BadTime);
    };
    let Some(clock) = Clock::named(text.time_zone.as_str(), zones) else {
        return Err(ScheduleFault::UnknownZone);
    };
    place(&clock, &start, &end)
}

/// Why a schedule doesn't read, None where it does. It takes no memory.
pub fn schedule_fault(text: &ScheduleText, zones: &TimeZones) -> Option<ScheduleFault>
    ensures { result ≡ schedule_fault zones.now text.now }
{
    read_span(text, zones).err()
}

impl Schedule {
    /// The span of a schedule. Its times are `yyyy/MM/dd HH:mm:ss` or empty for open, its time zone is empty,
    /// `UTC` or `GMT` for UTC, else the name of a row of the list. A time in a gap is taken with the offset
    /// before the gap, and one in a fold is the earlier. A recurrence plays no part. Reading takes no memory, so
    /// the allocator isn't used and want of memory is never answered.
    pub fn read(
        _alloc: Global,
        text: &ScheduleText,
        zones: &TimeZones,
    ) -> Result<Span, ScheduleFault>
        ensures read { IfOk result (λ span. span ≡ span_of zones.now text.now) }
        ensures sound { IfOk result (λ _. schedule_fault zones.now text.now ≡ None) }
        ensures refused { IfErr result (λ fault. schedule_fault zones.now text.now ≡ Some fault) }
    {
        read_span(text, zones)
    }
}

fn has_begun(start: Option<Moment>, moment: Moment) -> bool
    ensures { result ≡ has_begun start moment }
{
    match start {
        Some(start) => start <= moment,
        None => true,
    }
}

fn is_not_over(end: Option<Moment>, moment: Moment) -> bool
    ensures { result ≡ is_not_over end moment }
{
    match end {
        Some(end) => moment <= end,
        None => true,
    }
}

impl Span {
    /// Whether the moment lies in the span. Both ends do.
    #[tactic(auto, unfolding(crate::specs::Spans::contains))]
    pub fn contains(&self, moment: Moment) -> bool
        ensures { result ≡ contains self.now moment }
    {
        has_begun(self.start, moment) && is_not_over(self.end, moment)
    }
}
