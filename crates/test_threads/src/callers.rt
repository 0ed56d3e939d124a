// Threads that ask one machine for ids, each through a seat of its own.
ghost use Rattle.std.specs.Prelude.{◌≡◌, All, length};

use crate::lists::{both, pair};
use rg_turn::{Machine, Seat, Turn};
use std::alloc::{AllocError, Global};
use std::sync::Wait;
use std::thread;
use std::thread::Threads;

/// What a thread asks.
pub(crate) trait Asks<M: Machine> {
    /// How often it asks.
    fn count(&self) -> u32;

    /// The ask of this number, from 0 on. None where memory is refused.
    fn ask(&self, alloc: Global, number: u32) -> Option<M::Ask>;

    /// The id that a reply gives, if it gives one.
    fn id_of(&self, reply: M::Reply) -> Option<u64>;
}

/// A seat, and the ids that were got through it.
pub(crate) type Worked<M> = (Seat<M>, Vec<u64>);

/// The id that the ask of this number gets, if it gets one.
fn id_got<M: Machine, Q: Asks<M>, R: Wait>(
    rt: &R,
    alloc: Global,
    turn: &Turn<M>,
    seat: &mut Seat<M>,
    asks: &Q,
    number: u32,
) -> Option<u64>
    requires { seat.old.turn ≡ turn.now.turn }
    ensures { seat.new.turn ≡ seat.old.turn }
{
    match asks.ask(alloc, number) {
        Some(ask) => match turn.call(rt, alloc, seat, ask) {
            Ok(reply) => asks.id_of(reply),
            Err(_) => None,
        },
        None => None,
    }
}

/// Asks all that is to be asked, and keeps the ids.
pub(crate) fn ids_of<M: Machine, Q: Asks<M>, R: Wait>(
    rt: &R,
    alloc: Global,
    turn: &Turn<M>,
    mut seat: Seat<M>,
    asks: &Q,
) -> Worked<M>
    requires { seat.turn ≡ turn.now.turn }
    ensures { result.0.turn ≡ seat.turn }
{
    let mut ids = Vec::new(alloc);
    for number in 0..asks.count() {
        if let Some(id) = id_got(rt, alloc, turn, &mut seat, asks, number) {
            let _pushed = ids.push(id);
        }
    }
    (seat, ids)
}

/// Two threads ask at once. A turn may be shared, and a seat sent, for every machine that may be sent.
pub(crate) fn ids_of_two<M: Machine + Send, Q: Asks<M> + Sync, R: Threads + Wait + Sync>(
    rt: &R,
    alloc: Global,
    turn: &Turn<M>,
    seats: (Seat<M>, Seat<M>),
    asks: (&Q, &Q),
) -> (Worked<M>, Worked<M>)
    requires { (seats.0.turn ≡ turn.now.turn) × (seats.1.turn ≡ turn.now.turn) }
    ensures { (result.0.0.turn ≡ turn.now.turn) × (result.1.0.turn ≡ turn.now.turn) }
{
    let (one, two) = seats;
    let (asks_of_one, asks_of_two) = asks;
    thread::join(
        rt,
        || -> Worked<M>
            requires { one.turn ≡ turn.now.turn }
            ensures { result.0.turn ≡ turn.exit.now.turn }
        { ids_of(rt, alloc, turn, one, asks_of_one) },
        || -> Worked<M>
            requires { two.turn ≡ turn.now.turn }
            ensures { result.0.turn ≡ turn.exit.now.turn }
        { ids_of(rt, alloc, turn, two, asks_of_two) },
    )
}

/// Ends the turn, of which these are all seats. Gives the machine and how many entries its history has.
pub(crate) fn ended<M: Machine>(
    alloc: Global,
    turn: Turn<M>,
    seats: Vec<Seat<M>>,
) -> Option<(M, u64)>
    requires turn { All (λ s. s.turn ≡ turn.turn) seats.items }
    requires all { length seats.items ≡ turn.seats }
{
    match turn.close(alloc, seats) {
        Ok((machine, past)) => {
            let entries = past.entries();
            drop(past);
            Some((machine, entries))
        }
        Err(_) => None,
    }
}

/// What two threads left of a machine that they asked at once.
#[derive(Drop)]
pub(crate) struct Asked<M> {
    pub(crate) machine: M,
    /// The entries of its history.
    pub(crate) entries: u64,
    /// How often each thread called.
    pub(crate) calls: (u64, u64),
    /// The ids that each thread got.
    pub(crate) ids: (Vec<u64>, Vec<u64>),
}

/// Two threads ask the machine at once. None where memory is refused.
pub(crate) fn asked_by_two<M: Machine + Send, Q: Asks<M> + Sync, R: Threads + Wait + Sync>(
    rt: &R,
    alloc: Global,
    machine: M,
    asks: (&Q, &Q),
) -> Option<Asked<M>> {
    let Ok((turn, seats)) = Turn::new(alloc, machine, 2) else {
        return None;
    };
    let Some(seats) = both(seats) else {
        return None;
    };
    let ((one, ids), (two, other_ids)) = ids_of_two(rt, alloc, &turn, seats, asks);
    let calls = (one.calls(), two.calls());
    let Some(seats) = pair(alloc, one, two) else {
        return None;
    };
    let Some((machine, entries)) = ended(alloc, turn, seats) else {
        return None;
    };
    Some(Asked {
        machine,
        entries,
        calls,
        ids: (ids, other_ids),
    })
}

/// The numbers of these lists, in order.
fn merged(alloc: Global, lists: &[&[u64]]) -> Result<Vec<u64>, AllocError> {
    let mut all = Vec::new(alloc);
    for list in lists {
        all.extend_from_slice(list)?;
    }
    all.sort()?;
    Ok(all)
}

/// Whether these are the numbers from 1 on, each once.
fn are_each_once(ids: &[u64]) -> bool {
    let mut wanted: u64 = 0;
    for id in ids {
        wanted = wanted.wrapping_add(1);
        if *id != wanted {
            return false;
        }
    }
    true
}

/// Appends how many ids these are, and whether they are the numbers from 1 on, each once.
pub(crate) fn tell_ids(
    told: &mut String,
    alloc: Global,
    lists: &[&[u64]],
) -> Result<(), AllocError> {
    let ids = merged(alloc, lists)?;
    let count = ids.len();
    let once = are_each_once(ids.as_slice());
    write!(told, "{count} ids, each once: {once}")
}

/// How often two threads called, and which ids they got.
pub(crate) fn told_of_calls<M>(alloc: Global, asked: &Asked<M>) -> Result<String, AllocError> {
    let (calls, other_calls) = asked.calls;
    let (ids, other_ids) = &asked.ids;
    let mut told = format!(in alloc; "calls {calls}+{other_calls}, ")?;
    tell_ids(&mut told, alloc, &[ids.as_slice(), other_ids.as_slice()])?;
    Ok(told)
}
