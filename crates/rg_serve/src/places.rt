// What each worker has for itself, under locks of its own.
ghost use Rattle.std.specs.Prelude.{◌≡◌, ◌≤◌, ◌<◌, ◌+◌, All, ◌++◌, ◌∷◌, [], length, IfOk, OnOk, MatchBool};
ghost use Rattle.rg_turn.specs.Values.{new_seat};
ghost use Rattle.rg_publish.specs.Passes.{new_pass};
ghost use Rattle.rg_serve.specs.Held.{Trail};

use crate::naming::Naming;
use crate::sessions::Sessions;
use rg_admin::{Admin, Recorder};
use rg_base::NoMemory;
use rg_hook::RequestHooks;
use rg_ports::{Clock, Gate, Link};
use rg_publish::Pass;
use rg_threads::{Queue, Waiting};
use rg_turn::Seat;
use std::alloc::Global;
use std::marker::{Model, PhantomData};
use std::sync::ledger::Share;
use std::sync::{Mutex, Wait};

/// The seat and the pass of a worker. Contracts see nothing of it but the names of its type; it keeps what its sessions did.
#[derive(Drop)]
pub(crate) struct Parts<J: Naming, P: Recorder> {
    seat: Seat<Admin<P>>,
    pass: Pass,
    /// As much as links that it was given.
    share: Share<J>,
    /// The worker's number, from 0 on.
    number: u32,
    /// Whether a link met want of memory.
    is_short: bool,
    of: PhantomData<J>,
}

impl<J: Naming, P: Recorder> Model for Parts<J, P> {
    ghost use Rattle.rg_serve.specs.Held.{IsAtWork};

    ghost Value = { Unit {0} };

    ghost view = { λ p. tt };

    ghost invariant = { λ p.
        IsAtWork J.turn J.opening J.plugin p.seat p.pass p.share.parts p.share.amount p.is_short };
}

/// Where they lie.
pub(crate) type Place<J, P> = Mutex<Parts<J, P>>;

/// A place for each worker, and its hooks.
#[derive(Drop)]
pub(crate) struct Workers<J: Naming, P: Recorder, H: Drop> {
    pub places: Vec<Place<J, P>>,
    pub hooks: Vec<Mutex<H>>,
    pub ghost some: { (0 < length places.items) × (0 < length hooks.items) },
}

impl<J: Naming, P: Recorder> Parts<J, P> {
    fn new(seat: Seat<Admin<P>>, pass: Pass, share: Share<J>, number: u32) -> Parts<J, P>
        requires new { (seat ≡ new_seat J.turn) × (pass ≡ new_pass J.opening) }
        requires share { (share.parts ≡ 1) × (share.amount ≡ 0) }
    {
        Parts {
            seat,
            pass,
            share,
            number,
            is_short: false,
            of: PhantomData,
        }
    }

    /// Serves a link of the other's amount.
    pub fn take_handed<T: Link + Drop, C: Clock, G: Gate, H: RequestHooks, R: Wait + Sync>(
        &mut self,
        rt: &R,
        sessions: &Sessions<J, P, C, G>,
        hooks: &mut H,
        link: T,
        mine: &mut Share<J>,
    )
        requires mine { (0 < mine.old.parts) × (1 ≤ mine.old.amount) }
        ensures parts { mine.new.parts ≡ mine.old.parts }
        ensures amount { mine.new.amount + 1 ≡ mine.old.amount }
    {
        mine.transfer(&mut self.share, 1);
        if sessions.hold_session(rt, &mut self.seat, &mut self.pass, hooks, self.number, link) {
            self.is_short = true;
        }
    }

    /// Serves the next link of the queue. False once the queue is closed and has none.
    pub fn take_next<T: Link + Drop, C: Clock, G: Gate, H: RequestHooks, R: Wait + Sync>(
        &mut self,
        rt: &R,
        sessions: &Sessions<J, P, C, G>,
        hooks: &mut H,
        queue: &Queue<J, T>,
    ) -> bool {
        let Some(link) = queue.take(rt, &mut self.share) else {
            return false;
        };
        if sessions.hold_session(rt, &mut self.seat, &mut self.pass, hooks, self.number, link) {
            self.is_short = true;
        }
        true
    }

    /// Serves one of those that are left. False where there is none.
    pub fn take_left<T: Link + Drop, C: Clock, G: Gate, H: RequestHooks, R: Wait + Sync>(
        &mut self,
        rt: &R,
        sessions: &Sessions<J, P, C, G>,
        hooks: &mut H,
        left: &mut Waiting<J, T>,
    ) -> bool
        ensures { MatchBool result (left.new.share.amount + 1 ≡ left.old.share.amount)
            (left.new.share.amount ≡ 0) }
    {
        let Some(link) = left.pop(&mut self.share) else {
            return false;
        };
        if sessions.hold_session(rt, &mut self.seat, &mut self.pass, hooks, self.number, link) {
            self.is_short = true;
        }
        true
    }

    /// The seat, the pass and the share. Refused where a link met want of memory.
    pub fn into_all(self) -> Result<(Seat<Admin<P>>, Pass, Share<J>), NoMemory>
        ensures seated { IfOk result (λ t. (t.0.turn ≡ J.turn) × (t.1.book ≡ J.opening.book)) }
        ensures part { IfOk result (λ t. t.2.parts ≡ 1) }
        ensures trail { IfOk result (λ t. Trail J.turn J.opening J.plugin t.0 t.1 t.2.amount) }
    {
        let Parts {
            seat,
            pass,
            share,
            number: _,
            is_short,
            of: _,
        } = self;
        if is_short {
            return Err(NoMemory);
        }
        Ok((seat, pass, share))
    }
}

/// Adds it at the end.
pub(crate) fn add<T: Drop>(all: &mut Vec<T>, x: T) -> Result<(), NoMemory>
    ensures { OnOk result (all.new.items ≡ all.old.items ++ x ∷ []) }
{
    match all.push(x) {
        Ok(()) => Ok(()),
        Err(_) => Err(NoMemory),
    }
}

/// A place for each seat, with a pass and a part of the share. The last comes first.
fn places_of<J: Naming, P: Recorder>(
    alloc: Global,
    seats: Vec<Seat<Admin<P>>>,
    passes: Vec<Pass>,
    share: &mut Share<J>,
) -> Result<Vec<Place<J, P>>, NoMemory>
    requires seats { All (λ s. s ≡ new_seat J.turn) seats.items }
    requires passes { All (λ p. p ≡ new_pass J.opening) passes.items }
    requires few { length seats.items ≤ 64 }
    requires share { (share.old.amount ≡ 0) × (share.old.parts ≡ length seats.items + 1) }
    ensures number { IfOk result (λ v. length v.items ≡ length seats.items) }
    ensures share { OnOk result ((share.new.amount ≡ 0) × (share.new.parts ≡ 1)) }
{
    let mut seats = seats;
    let mut passes = passes;
    let mut places = Vec::new(alloc);
    while let Some(seat) = seats.pop() {
        let Some(pass) = passes.pop() else {
            return Err(NoMemory);
        };
        let number = seats.len() as u32;
        let part = share.split_off(1, 0);
        add(
            &mut places,
            Mutex::new(Parts::new(seat, pass, part, number)),
        )?;
    }
    Ok(places)
}

/// Each of them under a lock of its own. The last comes first.
fn under_locks<T: Drop>(alloc: Global, all: Vec<T>) -> Result<Vec<Mutex<T>>, NoMemory>
    ensures { IfOk result (λ v. length v.items ≡ length all.items) }
{
    let mut all = all;
    let mut locks = Vec::new(alloc);
    while let Some(x) = all.pop() {
        add(&mut locks, Mutex::new(x))?;
    }
    Ok(locks)
}

/// A worker for each seat, with a pass, hooks and a part of the share.
pub(crate) fn workers_of<J: Naming, P: Recorder, H: Drop>(
    alloc: Global,
    seats: Vec<Seat<Admin<P>>>,
    passes: Vec<Pass>,
    hooks: Vec<H>,
    share: &mut Share<J>,
) -> Result<Workers<J, P, H>, NoMemory>
    requires seats { All (λ s. s ≡ new_seat J.turn) seats.items }
    requires passes { All (λ p. p ≡ new_pass J.opening) passes.items }
    requires hooks { length hooks.items ≡ length seats.items }
    requires some { (1 ≤ length seats.items) × (length seats.items ≤ 64) }
    requires share { (share.old.amount ≡ 0) × (share.old.parts ≡ length seats.items + 1) }
    ensures number { IfOk result (λ w. length w.places.items ≡ length seats.items) }
    ensures share { OnOk result ((share.new.amount ≡ 0) × (share.new.parts ≡ 1)) }
{
    let places = places_of::<J, P>(alloc, seats, passes, share)?;
    let hooks = under_locks(alloc, hooks)?;
    Ok(Workers { places, hooks })
}
