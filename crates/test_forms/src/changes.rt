// What a log knows of the changes after a version.
//
// `changes|FROM`: the log stands behind its last change; change n led from version n to the next. FROM that is no number stands for
// no version.
use rg_base::{NoMemory, Version};
use rg_delta::{DeltaLog, Since};
use std::alloc::{AllocError, Global};
use std::collections::vec_deque::Iter;

/// What is told of a change.
trait Numbered {
    fn number(&self) -> u64;
}

/// A change of this number.
#[derive(Drop)]
pub(crate) struct Change {
    number: u64,
}

impl Numbered for Change {
    fn number(&self) -> u64 {
        self.number
    }
}

/// Notes a change.
fn note(log: &mut DeltaLog<Change>, number: u64) -> Result<(), NoMemory> {
    log.reserve()?;
    match log.note(Change { number }) {
        Ok(()) => Ok(()),
        Err(_) => Err(NoMemory),
    }
}

/// A log that noted so many changes, which are numbered from 1.
pub(crate) fn noted(alloc: Global, count: u64) -> Result<DeltaLog<Change>, NoMemory> {
    let mut log = DeltaLog::new(alloc, Version(1))?;
    for n in 0..count {
        note(&mut log, n.saturating_add(1))?;
    }
    Ok(log)
}

fn tell_changes<C: Numbered>(alloc: Global, changes: Iter<'_, C>) -> Result<String, AllocError> {
    let mut count = 0u64;
    let mut first = 0;
    let mut last = 0;
    for change in changes {
        if count == 0 {
            first = change.number();
        }
        last = change.number();
        count = count.saturating_add(1);
    }
    format!(in alloc; "{count} changes, {first} to {last}")
}

/// The changes of the log after this version.
fn tell_since<C: Numbered + Drop>(
    alloc: Global,
    log: &DeltaLog<C>,
    from: Option<Version>,
) -> Result<String, AllocError> {
    match log.since(from) {
        Since::Unchanged => String::from_str(alloc, "unchanged"),
        Since::Changes(changes) => tell_changes(alloc, changes),
        Since::Whole => String::from_str(alloc, "whole"),
    }
}

/// The version that a row names, if it names one.
fn version(line: &str) -> Option<Version> {
    match line.parse::<u64>() {
        Ok(number) => Some(Version(number)),
        Err(_) => None,
    }
}

/// What the log answers for the version of a row.
pub(crate) fn tell(
    alloc: Global,
    log: &DeltaLog<Change>,
    from: &str,
) -> Result<String, AllocError> {
    let told = tell_since(alloc, log, version(from))?;
    format!(in alloc; "{from}: {told}")
}
