// Turns over small machines: what is answered, how often each seat called, and what the end gives.
ghost use Rattle.std.specs.Prelude.{◌≡◌, All, length};

mod board;
mod ids;

use crate::callers::{
    Asked, Worked, asked_by_two, ended, ids_of, ids_of_two, tell_ids, told_of_calls,
};
use crate::lists::{both, pair};
use crate::printing::print_row;
use anyhow::Result;
use ids::{Ids, Wanted};
use rg_base::NoMemory;
use rg_turn::{Seat, Turn};
use std::alloc::{AllocError, Global};
use std::sync::Wait;
use std::thread;
use std::thread::Threads;

/// How often the four threads are started.
const RUNS: u32 = 5;

/// Asks so, and appends the answers.
fn tell_asks<R: Wait>(
    told: &mut String,
    rt: &R,
    alloc: Global,
    turn: &Turn<Ids>,
    seat: &mut Seat<Ids>,
    asks: &[bool],
) -> Result<(), AllocError>
    requires { seat.old.turn ≡ turn.now.turn }
    ensures { seat.new.turn ≡ seat.old.turn }
{
    for is_wanted in asks {
        let asked = if *is_wanted { "wanted" } else { "unwanted" };
        match turn.call(rt, alloc, seat, *is_wanted) {
            Ok(Some(id)) => write!(told, "{asked} {id}, ")?,
            Ok(None) => write!(told, "{asked} none, ")?,
            Err(NoMemory) => write!(told, "{asked} no memory, ")?,
        }
    }
    Ok(())
}

/// Ends the turn, of which these are all seats. The last id, and the entries of the history.
fn told_of_end(alloc: Global, turn: Turn<Ids>, seats: Vec<Seat<Ids>>) -> Option<String>
    requires turn { All (λ s. s.turn ≡ turn.turn) seats.items }
    requires all { length seats.items ≡ turn.seats }
{
    let (machine, entries) = ended(alloc, turn, seats)?;
    let last = machine.last;
    format!(in alloc; "last {last}, entries {entries}").ok()
}

/// One seat alone gets the replies in the order of its calls. A refused ask is an entry too, a step without memory is none.
fn one_seat_in_order<R: Wait>(rt: &R, alloc: Global) -> Option<String> {
    let Ok((turn, mut seats)) = Turn::new(alloc, Ids::fresh(4), 1) else {
        return None;
    };
    let mut seat = seats.pop()?;
    let mut told = String::new(alloc);
    let asks = [true, false, true, true, true];
    tell_asks(&mut told, rt, alloc, &turn, &mut seat, &asks).ok()?;
    let calls = seat.calls();
    if seats.push(seat).is_err() {
        return None;
    }
    let end = told_of_end(alloc, turn, seats)?;
    write!(told, "calls {calls}, {}", end.as_str()).ok()?;
    Some(told)
}

/// Where one seat's call finds no memory, the other seat goes on.
fn two_seats_in_order<R: Wait>(rt: &R, alloc: Global) -> Option<String> {
    let Ok((turn, seats)) = Turn::new(alloc, Ids::fresh(2), 2) else {
        return None;
    };
    let (mut one, mut two) = both(seats)?;
    let mut told = String::from_str(alloc, "one: ").ok()?;
    tell_asks(&mut told, rt, alloc, &turn, &mut one, &[true, true]).ok()?;
    told.push_str("two: ").ok()?;
    tell_asks(&mut told, rt, alloc, &turn, &mut two, &[true]).ok()?;
    let (calls, other_calls) = (one.calls(), two.calls());
    let end = told_of_end(alloc, turn, pair(alloc, one, two)?)?;
    write!(told, "calls {calls}+{other_calls}, {}", end.as_str()).ok()?;
    Some(told)
}

/// As many seats as there may be, none of which calls.
fn all_seats(alloc: Global) -> Option<String> {
    let Ok((turn, seats)) = Turn::new(alloc, Ids::fresh(0), 65) else {
        return None;
    };
    let count = seats.len();
    let end = told_of_end(alloc, turn, seats)?;
    format!(in alloc; "{count}, {}", end.as_str()).ok()
}

/// One seat alone never waits for another.
fn one_seat_often<R: Wait>(rt: &R, alloc: Global) -> Option<String> {
    let Ok((turn, mut seats)) = Turn::new(alloc, Ids::fresh(0), 1) else {
        return None;
    };
    let seat = seats.pop()?;
    let (seat, ids) = ids_of(rt, alloc, &turn, seat, &Wanted(5000));
    let mut told = format!(in alloc; "calls {}, ", seat.calls()).ok()?;
    tell_ids(&mut told, alloc, &[ids.as_slice()]).ok()?;
    Some(told)
}

fn told_of_asked(alloc: Global, asked: &Asked<Ids>) -> Option<String> {
    let calls = told_of_calls(alloc, asked).ok()?;
    let last = asked.machine.last;
    let entries = asked.entries;
    format!(in alloc; "{}, last {last}, entries {entries}", calls.as_str()).ok()
}

/// Two threads ask 100 times each.
fn two_threads<R: Threads + Wait + Sync>(rt: &R, alloc: Global) -> Option<String> {
    let asks = Wanted(100);
    let asked = asked_by_two(rt, alloc, Ids::fresh(0), (&asks, &asks))?;
    told_of_asked(alloc, &asked)
}

/// What four threads got that ask 2,000 times each, two by two.
fn asked_by_four<R: Threads + Wait + Sync>(
    rt: &R,
    alloc: Global,
) -> Option<((Worked<Ids>, Worked<Ids>), (Worked<Ids>, Worked<Ids>))> {
    let Ok((turn, mut seats)) = Turn::new(alloc, Ids::fresh(0), 4) else {
        return None;
    };
    let (Some(one), Some(two), Some(three), Some(four)) = (
        seats.pop(),
        seats.pop(),
        seats.pop(),
        seats.pop(),
    ) else {
        return None;
    };
    let asks = Wanted(2000);
    Some(thread::join(
        rt,
        || -> (Worked<Ids>, Worked<Ids>)
            requires { (one.turn ≡ turn.turn) × (two.turn ≡ turn.turn) }
        { ids_of_two(rt, alloc, &turn, (one, two), (&asks, &asks)) },
        || -> (Worked<Ids>, Worked<Ids>)
            requires { (three.turn ≡ turn.turn) × (four.turn ≡ turn.turn) }
        { ids_of_two(rt, alloc, &turn, (three, four), (&asks, &asks)) },
    ))
}

/// Four threads ask 2,000 times each: no call is lost, and none hangs.
fn four_threads<R: Threads + Wait + Sync>(rt: &R, alloc: Global) -> Option<String> {
    let ((one, two), (three, four)) = asked_by_four(rt, alloc)?;
    let calls = (one.0.calls(), two.0.calls());
    let other_calls = (three.0.calls(), four.0.calls());
    let mut told = format!(in alloc;
        "calls {}+{}+{}+{}, ",
        calls.0, calls.1, other_calls.0, other_calls.1
    )
    .ok()?;
    let lists = [
        one.1.as_slice(),
        two.1.as_slice(),
        three.1.as_slice(),
        four.1.as_slice(),
    ];
    tell_ids(&mut told, alloc, &lists).ok()?;
    Some(told)
}

/// Prints the row of each run of four threads.
fn print_four_threads<R: Print + Threads + Wait + Sync>(rt: &R, alloc: Global) -> Result<()> {
    for _ in 0..RUNS {
        print_row(rt, "four threads, 2000 asks each", four_threads(rt, alloc))?;
    }
    Ok(())
}

/// Prints the table.
pub(crate) fn print<R: Print + Threads + Wait + Sync>(rt: &R, alloc: Global) -> Result<()> {
    print_row(
        rt,
        "one seat, no memory at step 4",
        one_seat_in_order(rt, alloc),
    )?;
    print_row(
        rt,
        "two seats, no memory at step 2",
        two_seats_in_order(rt, alloc),
    )?;
    print_row(rt, "seats without calls", all_seats(alloc))?;
    print_row(rt, "one seat, 5000 asks", one_seat_often(rt, alloc))?;
    print_row(rt, "two threads, 100 asks each", two_threads(rt, alloc))?;
    print_four_threads(rt, alloc)?;
    print_row(rt, "two posts on a board", board::two_posts(rt, alloc))?;
    Ok(())
}
