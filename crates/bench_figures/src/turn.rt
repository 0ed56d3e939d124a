// Calls a machine by turns, from one thread or from four.
ghost use Rattle.std.specs.Prelude.{◌≡◌};

use crate::words::{number, refused};
use anyhow::{Result, anyhow};
use rg_base::NoMemory;
use rg_turn::{Machine, Seat, Turn};
use std::alloc::Global;
use std::sync::Wait;
use std::thread;
use std::thread::Threads;

/// Counts its calls.
#[derive(Drop)]
struct Counter {
    calls: u64,
}

impl Machine for Counter {
    type Ask = ();

    type Reply = u64;

    type State = u64;

    ghost use Rattle.std.specs.Prelude.{◌+◌, ◌%◌, ◌^◌};

    ghost state = { λ m. m.calls };

    ghost transition = { λ s _. ((s + 1) % 2 ^ 64, (s + 1) % 2 ^ 64) };

    fn step(&mut self, _alloc: Global, _ask: ()) -> Result<u64, NoMemory> {
        self.calls = self.calls.wrapping_add(1);
        Ok(self.calls)
    }
}

/// How much is done.
#[derive(Clone, Copy)]
struct Load {
    /// Whether four threads call, or one.
    is_shared: bool,
    /// How often each thread calls.
    calls: u32,
}

/// The load that the words name; a small one where there are none.
fn load_of(words: &[String]) -> Result<Load> {
    let Some(threads) = words.first() else {
        return Ok(Load {
            is_shared: true,
            calls: 100,
        });
    };
    Ok(Load {
        is_shared: threads.as_str() == "4",
        calls: number(words, 1, "the calls are missing")?,
    })
}

/// How many calls were made by this seat.
fn called<R: Wait>(
    rt: &R,
    alloc: Global,
    turn: &Turn<Counter>,
    mut seat: Seat<Counter>,
    calls: u32,
) -> u64
    requires { seat.turn ≡ turn.now.turn }
{
    for _ in 0..calls {
        let _count = turn.call(rt, alloc, &mut seat, ());
    }
    seat.calls()
}

/// How many calls two threads made.
fn called_by_two<R: Threads + Wait + Sync>(
    rt: &R,
    alloc: Global,
    turn: &Turn<Counter>,
    one: Seat<Counter>,
    two: Seat<Counter>,
    calls: u32,
) -> u64
    requires { (one.turn ≡ turn.now.turn) × (two.turn ≡ turn.now.turn) }
{
    let (a, b) = thread::join(
        rt,
        || -> u64
            requires { one.turn ≡ turn.now.turn }
        { called(rt, alloc, turn, one, calls) },
        || -> u64
            requires { two.turn ≡ turn.now.turn }
        { called(rt, alloc, turn, two, calls) },
    );
    a.saturating_add(b)
}

fn measured<R: Threads + Wait + Sync>(rt: &R, alloc: Global, load: Load) -> Result<u64> {
    let Ok((turn, mut seats)) = Turn::new(alloc, Counter { calls: 0 }, 4) else {
        return Err(refused());
    };
    let (Some(one), Some(two), Some(three), Some(four)) = (
        seats.pop(),
        seats.pop(),
        seats.pop(),
        seats.pop(),
    ) else {
        return Err(anyhow!("there are four seats"));
    };
    if !load.is_shared {
        return Ok(called(rt, alloc, &turn, one, load.calls));
    }
    let (a, b) = thread::join(
        rt,
        || -> u64
            requires { (one.turn ≡ turn.turn) × (two.turn ≡ turn.turn) }
        { called_by_two(rt, alloc, &turn, one, two, load.calls) },
        || -> u64
            requires { (three.turn ≡ turn.turn) × (four.turn ≡ turn.turn) }
        { called_by_two(rt, alloc, &turn, three, four, load.calls) },
    );
    Ok(a.saturating_add(b))
}

/// `THREADS CALLS`: so many calls from each thread.
pub(crate) fn run<R: Print + Threads + Wait + Sync>(
    rt: &R,
    alloc: Global,
    words: &[String],
) -> Result<()> {
    let calls = measured(rt, alloc, load_of(words)?)?;
    println!(rt; "calls={calls}")?;
    Ok(())
}
