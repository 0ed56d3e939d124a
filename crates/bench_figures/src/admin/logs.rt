// A log of changes that stands at its limit.
use rg_base::Version;
use rg_delta::{DeltaLog, Since};
use std::alloc::Global;

/// A change of this number.
#[derive(Drop)]
struct Change {
    number: u32,
}

/// Notes a change. Whether memory sufficed.
fn note_one(log: &mut DeltaLog<Change>, number: u32) -> bool {
    log.reserve().is_ok() && log.note(Change { number }).is_ok()
}

/// Notes so many changes.
fn note(log: &mut DeltaLog<Change>, count: u32) -> u32 {
    let mut sum = 0u32;
    for number in 0..count {
        if note_one(log, number) {
            sum = sum.saturating_add(1);
        }
    }
    sum
}

/// A log after so many changes.
fn log_of(alloc: Global, before: u32) -> Option<DeltaLog<Change>> {
    let Ok(mut log) = DeltaLog::new(alloc, Version(1)) else {
        return None;
    };
    if note(&mut log, before) == before {
        return Some(log);
    }
    None
}

/// Notes so many changes in a log that has some before.
pub(super) fn noted(alloc: Global, before: u32, count: u32) -> Option<u32> {
    let mut log = log_of(alloc, before)?;
    Some(note(&mut log, count))
}

/// 1 where the last so many changes are known, else 0.
fn knows_last<C: Drop>(log: &DeltaLog<C>, count: u32) -> u32 {
    let from = Version(log.version().0.saturating_sub(u64::from(count)));
    match log.since(Some(from)) {
        Since::Changes(changes) => u32::from(changes.count() == count as usize),
        _ => 0,
    }
}

/// Asks so many times for the last few changes, from one to ten.
pub(super) fn asked(alloc: Global, before: u32, count: u32) -> Option<u32> {
    let log = log_of(alloc, before)?;
    let mut sum = 0u32;
    for number in 0..count {
        let few = number % 10;
        sum = sum.saturating_add(knows_last(&log, few.saturating_add(1)));
    }
    Some(sum)
}
