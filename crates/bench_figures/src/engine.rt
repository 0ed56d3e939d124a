// What an engine costs over the workload of the drill. A small one is counted, as `checks/drill.py 1 60 20000` counts it too.
mod changes;
mod counting;
mod work;
mod workload;

use crate::words::{number, refused};
use anyhow::{Context, Result};
use std::alloc::Global;
use work::{Load, work_of};

/// The load that the words name; None where there are none.
fn load_of(words: &[String]) -> Result<Option<Load>> {
    let Some(work) = words.first() else {
        return Ok(None);
    };
    Ok(Some(Load {
        work: work_of(work.as_str()).context("there is no such work")?,
        policies: number(words, 1, "the policies are missing")?,
        count: number(words, 2, "the count is missing")?,
    }))
}

/// `WORK POLICIES COUNT`: the work so many times.
pub(crate) fn run(rt: &impl Print, alloc: Global, words: &[String]) -> Result<()> {
    if let Some(load) = load_of(words)? {
        let Ok(done) = work::done(alloc, load) else {
            return Err(refused());
        };
        println!(rt; "done={done}")?;
        return Ok(());
    }
    let Ok(counts) = counting::counted(alloc) else {
        return Err(refused());
    };
    println!(rt;
        "compiles={} edits={} allowed={} denied={} tries={}",
        counts.compiles, counts.edits, counts.allowed, counts.denied, counts.tries
    )?;
    Ok(())
}
