// Single calls of an administration with many policies, and what they stand on: commands read, replies printed, a log that is full.
mod administration;
mod logs;
mod texts;

use crate::words::{number, refused};
use administration::{Call, called};
use anyhow::{Context, Result};
use std::alloc::Global;

/// The work, the policies or changes that are there before, and how often the work is done.
#[derive(Clone, Copy)]
struct Load {
    work: Work,
    before: u32,
    count: u32,
}

#[derive(Clone, Copy)]
enum Work {
    Call(Call),
    Read,
    Print,
    Note,
    Since,
}

/// All of them.
const WORKS: [Work; 8] = [
    Work::Call(Call::Fault),
    Work::Call(Call::Create),
    Work::Call(Call::Update),
    Work::Call(Call::Delete),
    Work::Read,
    Work::Print,
    Work::Note,
    Work::Since,
];

fn work_of(word: &str) -> Option<Work> {
    match word {
        "fault" => Some(Work::Call(Call::Fault)),
        "create" => Some(Work::Call(Call::Create)),
        "update" => Some(Work::Call(Call::Update)),
        "delete" => Some(Work::Call(Call::Delete)),
        "read" => Some(Work::Read),
        "print" => Some(Work::Print),
        "note" => Some(Work::Note),
        "since" => Some(Work::Since),
        _ => None,
    }
}

/// The load that the words name; None where there are none.
fn load_of(words: &[String]) -> Result<Option<Load>> {
    let Some(work) = words.first() else {
        return Ok(None);
    };
    Ok(Some(Load {
        work: work_of(work.as_str()).context("there is no such work")?,
        before: number(words, 1, "the policies are missing")?,
        count: number(words, 2, "the count is missing")?,
    }))
}

/// How often the work was done with success.
fn done(alloc: Global, load: Load) -> Option<u32> {
    match load.work {
        Work::Call(call) => called(alloc, call, load.before, load.count),
        Work::Read => texts::read(alloc, load.count),
        Work::Print => texts::printed(alloc, load.count),
        Work::Note => logs::noted(alloc, load.before, load.count),
        Work::Since => logs::asked(alloc, load.before, load.count),
    }
}

/// Each work a few times.
fn each(alloc: Global) -> Option<u32> {
    let mut sum = 0u32;
    for work in WORKS {
        let load = Load {
            work,
            before: 20,
            count: 10,
        };
        sum = sum.saturating_add(done(alloc, load)?);
    }
    Some(sum)
}

/// `WORK BEFORE COUNT`: the work so many times.
pub(crate) fn run(rt: &impl Print, alloc: Global, words: &[String]) -> Result<()> {
    let count = match load_of(words)? {
        Some(load) => done(alloc, load),
        None => each(alloc),
    };
    let Some(count) = count else {
        return Err(refused());
    };
    println!(rt; "done={count}")?;
    Ok(())
}
