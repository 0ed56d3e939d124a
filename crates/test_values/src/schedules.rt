// Rows about schedules and time zones. What is given is a list of time zones in JSON.
use crate::rows::{field, number, records, tell_yes_or_no, told};
use rg_base::{Moment, NoMemory, Seq, Text};
use rg_cond::{Schedule, ScheduleFault, Span, TimeZoneFault, TimeZones};
use rg_policy::{ScheduleText, TimeZoneRow};
use rg_wire::Wire;
use std::alloc::Global;

fn schedule(alloc: Global, start: &str, end: &str, zone: &str) -> Result<ScheduleText, NoMemory> {
    Ok(ScheduleText {
        start_time: Text::copy_of(alloc, start)?,
        end_time: Text::copy_of(alloc, end)?,
        time_zone: Text::copy_of(alloc, zone)?,
        recurring: false,
    })
}

/// The seconds of an end, `-` where it is open.
fn tell_end(alloc: Global, end: Option<Moment>) -> Result<String, NoMemory> {
    match end {
        Some(moment) => Ok(format!(in alloc; "{}", moment.0)?),
        None => told(alloc, "-"),
    }
}

/// `instant|ZONE|TIME`: the span from the time to itself.
fn tell_instant(alloc: Global, zones: &TimeZones, row: &str) -> Result<String, NoMemory> {
    let time = field(row, 2);
    let text = schedule(alloc, time, time, field(row, 1))?;
    match Schedule::read(alloc, &text, zones) {
        Ok(span) => {
            let start = tell_end(alloc, span.start)?;
            let end = tell_end(alloc, span.end)?;
            Ok(format!(in alloc; "{} to {}", start.as_str(), end.as_str())?)
        }
        Err(_) => told(alloc, "not read"),
    }
}

fn name_of(fault: ScheduleFault) -> &'static str {
    match fault {
        ScheduleFault::BadTime => "BadTime",
        ScheduleFault::UnknownZone => "UnknownZone",
        ScheduleFault::OutOfRange => "OutOfRange",
        ScheduleFault::EndFirst => "EndFirst",
        ScheduleFault::NoMemory => "NoMemory",
    }
}

/// `schedule|START|END|ZONE`: whether it is read, or why not.
fn tell_schedule(alloc: Global, zones: &TimeZones, row: &str) -> Result<String, NoMemory> {
    let text = schedule(alloc, field(row, 1), field(row, 2), field(row, 3))?;
    match Schedule::read(alloc, &text, zones) {
        Ok(_) => told(alloc, "read"),
        Err(fault) => told(alloc, name_of(fault)),
    }
}

/// The moment of an end, none where the field is empty.
fn end_of(text: &str) -> Option<Moment> {
    if text.is_empty() {
        return None;
    }
    Some(Moment(number(text)))
}

/// `contains|START|END|MOMENT`: whether the moment lies in the span.
fn tell_contains(alloc: Global, row: &str) -> Result<String, NoMemory> {
    let span = Span {
        start: end_of(field(row, 1)),
        end: end_of(field(row, 2)),
    };
    tell_yes_or_no(alloc, span.contains(Moment(number(field(row, 3)))))
}

/// A row of each rule, with a name that stands for UTC.
fn rows_of_rules(alloc: Global, row: &str) -> Result<Seq<TimeZoneRow>, NoMemory> {
    let mut rows = Seq::new(alloc);
    for rule in row.split('|').skip(1) {
        rows.add(TimeZoneRow {
            name: Text::copy_of(alloc, "UTC")?,
            rule: Text::copy_of(alloc, rule)?,
        })?;
    }
    Ok(rows)
}

/// `rules|RULE|..`: the place of the first bad rule, `-` for none.
fn tell_rules(alloc: Global, row: &str) -> Result<String, NoMemory> {
    let rows = rows_of_rules(alloc, row)?;
    match TimeZones::build(alloc, rows.as_slice()) {
        Ok(_) => told(alloc, "-"),
        Err(TimeZoneFault::BadRule(place)) => Ok(format!(in alloc; "{place}")?),
        Err(TimeZoneFault::NoMemory) => Err(NoMemory),
    }
}

fn answer_in_zones(alloc: Global, given: &str, row: &str) -> Result<String, NoMemory> {
    let rows = records::<TimeZoneRow, Wire>(alloc, &Wire, given)?;
    let Ok(zones) = TimeZones::build(alloc, rows.as_slice()) else {
        return told(alloc, "no time zones");
    };
    match field(row, 0) {
        "instant" => tell_instant(alloc, &zones, row),
        "schedule" => tell_schedule(alloc, &zones, row),
        _ => told(alloc, "no such row"),
    }
}

pub(crate) fn answer(alloc: Global, given: &str, row: &str) -> Result<String, NoMemory> {
    match field(row, 0) {
        "contains" => tell_contains(alloc, row),
        "rules" => tell_rules(alloc, row),
        _ => answer_in_zones(alloc, given, row),
    }
}
