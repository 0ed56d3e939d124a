// Decides by passes on threads of their own, while changes of an administration are published.
mod deciding;
mod publishing;
mod threads;

use crate::words::number;
use anyhow::Result;
use std::alloc::Global;
use std::sync::Wait;
use std::thread::Threads;
use std::time::Clock;

/// How much is done.
#[derive(Clone, Copy)]
struct Load {
    /// How many passes decide, each on a thread of its own, 64 at most. Where it is 0 the engine decides, on one thread.
    passes: u32,
    policies: u32,
    /// How often each pass decides each of a hundred requests.
    rounds: u32,
    /// Milliseconds from one change to the next; none is made where it is 0.
    pause: u32,
    /// Whether the time is printed.
    is_timed: bool,
}

/// The load that the words name; a small one where there are none.
fn load_of(words: &[String]) -> Result<Load> {
    if words.is_empty() {
        return Ok(Load {
            passes: 2,
            policies: 20,
            rounds: 3,
            pause: 1,
            is_timed: false,
        });
    }
    Ok(Load {
        passes: number(words, 0, "the passes are missing")?,
        policies: number(words, 1, "the policies are missing")?,
        rounds: number(words, 2, "the rounds are missing")?,
        pause: number(words, 3, "the pause is missing")?,
        is_timed: true,
    })
}

/// `PASSES POLICIES ROUNDS PAUSE`: so many passes over so many policies, and a change after each pause.
pub(crate) fn run<R: Print + Threads + Wait + Clock>(
    rt: &R,
    alloc: Global,
    words: &[String],
) -> Result<()> {
    let load = load_of(words)?;
    let done = threads::measured(rt, alloc, load)?;
    println!(rt; "decisions={} falling={}", done.decisions, done.falling)?;
    if load.is_timed {
        println!(rt;
            "microseconds={} publications={} serials={}",
            done.micros, done.publications, done.serials
        )?;
    }
    Ok(())
}
