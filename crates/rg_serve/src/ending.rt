// The end of a service that has served its links.
ghost use Rattle.std.specs.Prelude.{◌≡◌, ◌≤◌, ◌+◌, ℕ, Some, length, IfOk, OnOk};
ghost use mathlib.Core.List.{IsPrefix};
ghost use Rattle.rg_admin_laws.specs.Steps.{step};
ghost use Rattle.rg_turn.specs.History.{IsLegal, state_after};
ghost use Rattle.rg_session.specs.Right.{AreDownloadedFor, AreRightFor};
ghost use Rattle.rg_serve.specs.Held.{AreWorked};
ghost use Rattle.rg_serve.specs.Served.{IsCurrent};
ghost use Rattle.rg_serve.specs.Trails.{AreServed, Downloads};

use crate::following::Following;
use crate::given::Counted;
use crate::naming::Naming;
use crate::places::{Place, add};
use crate::sessions::Common;
use rg_admin::{Admin, Recorder, Unkept};
use rg_base::NoMemory;
use rg_publish::{Pass, Publisher};
use rg_session::{Totals, close, downloaded_lists_stay};
use rg_turn::{Seat, Turn};
use std::alloc::Global;
use std::sync::ledger::Share;
use std::sync::{Mutex, Wait};

/// What a service did.
#[derive(Drop)]
pub struct Served<P: Recorder = Unkept> {
    /// How many links its listener gave.
    pub links: u64,
    /// What was left when all of them were served.
    pub totals: Totals<P>,
}

/// The seats and the passes come back, and the shares go into this one. Refused too where a link met want of memory.
fn gather<J: Naming, P: Recorder>(
    alloc: Global,
    places: Vec<Place<J, P>>,
    all: &mut Share<J>,
) -> Result<(Vec<Seat<Admin<P>>>, Vec<Pass>), NoMemory>
    ensures parts { OnOk result (all.new.parts ≡ all.old.parts + length places.items) }
    ensures number { IfOk result (λ t. length t.0.items ≡ length places.items) }
    ensures worked { IfOk result (λ t. (n : ℕ) × (all.new.amount ≡ all.old.amount + n)
        × AreWorked J.turn J.opening J.plugin t.0.items t.1.items n) }
{
    let mut places = places;
    let mut seats = Vec::new(alloc);
    let mut passes = Vec::new(alloc);
    while let Some(place) = places.pop() {
        let (seat, pass, share) = place.into_inner().into_all()?;
        all.merge(share);
        add(&mut seats, seat)?;
        add(&mut passes, pass)?;
    }
    Ok((seats, passes))
}

/// The same, with all shares in one: there was a session for each link.
fn gather_all<J: Naming, P: Recorder>(
    alloc: Global,
    places: Vec<Place<J, P>>,
    counted: Counted<J>,
) -> Result<(Vec<Seat<Admin<P>>>, Vec<Pass>), NoMemory>
    requires { J.parts ≡ length places.items + 2 }
    ensures number { IfOk result (λ t. length t.0.items ≡ length places.items) }
    ensures worked { IfOk result
        (λ t. AreWorked J.turn J.opening J.plugin t.0.items t.1.items counted.book.total) }
{
    let Counted { mut book, mut mine } = counted;
    let (seats, passes) = gather(alloc, places, &mut mine)?;
    book.audit(&mut mine);
    Ok((seats, passes))
}

/// Ends the service with the seats of the workers and the refresher's, for whose history what is published is right. Refused too
/// where a pass is ahead, which no clause of a pass excludes.
fn settle<J: Naming, P: Recorder, R: Wait + Drop>(
    alloc: Global,
    turn: Turn<Admin<P>>,
    publisher: Publisher<R>,
    seat: Seat<Admin<P>>,
    seats: Vec<Seat<Admin<P>>>,
    passes: Vec<Pass>,
    links: u64,
) -> Result<Totals<P>, NoMemory>
    requires turn { (turn.turn ≡ J.turn)
        × (seat.turn ≡ J.turn) × (turn.start.state.plugin ≡ J.plugin) }
    requires book { publisher.book ≡ J.opening.book }
    requires all { length seats.items + 1 ≡ turn.seats }
    requires worked { AreWorked J.turn J.opening J.plugin seats.items passes.items links }
    requires right { AreRightFor turn.start seat.history publisher.list }
    requires made { AreDownloadedFor turn.start seat.history publisher.list }
    requires downloads { Downloads seat.history J.plugin J.before seat }
    ensures legal { IfOk result (λ t. (t.past.start ≡ Some turn.start)
        × IsLegal step turn.start t.past.history) }
    ensures admin { IfOk result (λ t. t.admin ≡ state_after step turn.start t.past.history) }
    ensures begins { IfOk result (λ t. IsPrefix seat.history t.past.history) }
    ensures right { IfOk result (λ t. AreRightFor turn.start t.past.history publisher.list) }
    ensures made { IfOk result (λ t. AreDownloadedFor turn.start t.past.history publisher.list) }
    ensures published { IfOk result (λ t.
        (t.published ≡ publisher) × (t.publications ≡ length publisher.list)) }
    ensures served { IfOk result (λ t. AreServed J.turn J.opening J.plugin J.before
        (length seats.items) links t.past.history publisher.list t.decisions) }
{
    downloaded_lists_stay();
    let mut seats = seats;
    add(&mut seats, seat)?;
    match close(alloc, publisher, passes, turn, seats) {
        Ok(totals) => match totals.ahead {
            None => return Ok(totals),
            Some(_) => return Err(NoMemory),
        },
        Err(NoMemory) => return Err(NoMemory),
    }
}

/// Refreshes once more, and ends the service. Want of memory that a worker or a refresh met is answered here, and it is answered
/// too where an entry of another seat came after the last download, which no clause of a seat excludes.
pub(crate) fn end<J: Naming, P: Recorder, R: Wait + Drop, W: Wait>(
    rt: &W,
    common: Common<J, P>,
    following: Mutex<Following<J, P, R>>,
    places: Vec<Place<J, P>>,
    counted: Counted<J>,
    links: u64,
) -> Result<Totals<P>, NoMemory>
    requires plugin { common.turn.start.state.plugin ≡ J.plugin }
    requires all { length places.items + 1 ≡ common.turn.seats }
    requires parts { J.parts ≡ length places.items + 2 }
    requires given { counted.book.total ≡ links }
    ensures legal { IfOk result (λ t. (t.past.start ≡ Some common.turn.start)
        × IsLegal step common.turn.start t.past.history) }
    ensures admin { IfOk result (λ t. t.admin ≡ state_after step common.turn.start t.past.history) }
    ensures entries { IfOk result (λ t. length J.before.history + 1 ≤ length t.past.history) }
    ensures begins { IfOk result (λ t. IsPrefix J.before.history t.past.history) }
    ensures published { IfOk result (λ t.
        IsPrefix J.published t.published.list × (t.publications ≡ length t.published.list)) }
    ensures right { IfOk result
        (λ t. AreRightFor common.turn.start t.past.history t.published.list) }
    ensures made { IfOk result
        (λ t. AreDownloadedFor common.turn.start t.past.history t.published.list) }
    ensures current { IfOk result
        (λ t. IsCurrent common.turn.start t.past.history t.published.list) }
    ensures served { IfOk result (λ t.
        AreServed J.turn J.opening common.turn.start.state.plugin J.before (length places.items) links
        t.past.history t.published.list t.decisions) }
{
    let Common {
        alloc,
        turn,
        bell: _,
        halt: _,
        plugin: _,
        of: _,
    } = common;
    let (publisher, seat, entries) = following.into_inner().finish(rt, alloc, &turn)?;
    let (seats, passes) = gather_all(alloc, places, counted)?;
    let totals = settle::<J, P, R>(alloc, turn, publisher, seat, seats, passes, links)?;
    let all = totals.past.entries();
    if all == 0 || all - 1 != entries {
        return Err(NoMemory);
    }
    Ok(totals)
}
