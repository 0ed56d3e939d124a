// The steps on the two words, and the two waits of a call.
ghost use Rattle.std.specs.Prelude.{◌≡◌, ◌≢◌, ℕ, ◌<◌, ◌^◌, true, false, List, [], ◌∷◌, Some};
ghost use mathlib.Core.Option.{none};
ghost use Rattle.atomic_table.specs.Table.{step};
ghost use Rattle.rg_turn.specs.declared.rule.Slot.{Slot};
ghost use Rattle.rg_turn.specs.View.{with_ticket, passed};
ghost use Rattle.rg_turn.specs.Steps.{call_of, IsReturned, IsServed, Looked};

use crate::machine::Machine;
use crate::rule::{AddsEntry, Draw, Look, NamesOpening, Opening, PassOn, SeatView, Slot, TurnRule};
use atomic_table::{Seat, Shared};
use std::marker::Brand;
use std::snapshot::Snapshot;
use std::sync::Wait;
use std::thread;

pub(crate) type TableSeat<M> = Seat<
    Slot<M>,
    SeatView<<M as Machine>::Ask, <M as Machine>::Reply, <M as Machine>::State>,
>;

pub(crate) type SharedTable<M> = Shared<
    Slot<M>,
    SeatView<<M as Machine>::Ask, <M as Machine>::Reply, <M as Machine>::State>,
    Opening<M>,
    TurnRule,
>;

// The word of the ticket to be drawn next.
const TICKET: usize = 0;

// The word of the ticket that is served.
const SERVING: usize = 1;

// No ticket is drawn from here on, so that the words never wrap.
const TICKETS: u64 = 1 << 62;

// Draws this ticket, if it is the next one. The number found is returned.
fn draw<M: Machine>(table: &SharedTable<M>, seat: &mut TableSeat<M>, ticket: u64) -> u64
    requires table { (seat.old.table_id ≡ table.now.table_id) × (table.now.table_id.words ≡ 2) }
    requires idle { (seat.old.me.1 ≡ []) × (seat.old.me.0.has_ticket ≡ false) }
    requires live { (0 < seat.old.me.0.weight) × (seat.old.me.0.is_served ≡ false) }
    requires bound { ticket < 2 ^ 62 }
    ensures table { (seat.new.table_id ≡ seat.old.table_id) × (seat.new.id ≡ seat.old.id) }
    ensures drawn { result ≡ ticket → seat.new.me ≡ (with_ticket ticket seat.old.me.0, []) }
    ensures missed { result ≢ ticket → seat.new.me ≡ seat.old.me }
{
    table.compare_exchange::<Draw>(seat, TICKET, ticket, ticket + 1)
}

// The ticket that is served. Where it is the seat's, the seat knows the history so far and holds the machine.
fn look<M: Machine, T: NamesOpening<M::State>>(
    table: &SharedTable<M>,
    seat: &mut TableSeat<M>,
) -> u64
    requires table { (seat.old.table_id ≡ table.now.table_id) × (table.now.table_id.words ≡ 2) }
    requires waits { (seat.old.me.1 ≡ []) × (seat.old.me.0.has_ticket ≡ true) }
    requires live { (0 < seat.old.me.0.weight) × (seat.old.me.0.is_served ≡ false) }
    requires opening { T.opening ≡ Some (M.state table.now.key.start.value) }
    ensures table { (seat.new.table_id ≡ seat.old.table_id) × (seat.new.id ≡ seat.old.id) }
    ensures looked { Looked M.state M.transition T.opening
        (step table.now.table_id.slots 1 0 0 none) seat.old.me result seat.new.me }
{
    table.load::<Look<M, T>>(seat, SERVING)
}

// Gives the machine back and serves the next ticket. Where a call was made, the history gets its entry in this very step.
pub(crate) fn pass_on<M: Machine, T: AddsEntry<M::Ask, M::Reply>>(
    table: &SharedTable<M>,
    seat: &mut TableSeat<M>,
    added: &Option<(Snapshot<M::Ask>, Snapshot<M::Reply>)>,
)
    requires table { (seat.old.table_id ≡ table.now.table_id) × (table.now.table_id.words ≡ 2) }
    requires live { (0 < seat.old.me.0.weight) × (seat.old.me.0.is_served ≡ true) }
    requires added { T.added ≡ call_of added.now }
    requires returned { (x : M.State) × (d : Slot M)
        × (seat.old.me.0.start ≡ Some x) × (seat.old.me.1 ≡ (0, d) ∷ [])
        × IsReturned M.state M.transition x seat.old.me.0.history (call_of added.now) d }
    ensures table { (seat.new.table_id ≡ seat.old.table_id) × (seat.new.id ≡ seat.old.id) }
    ensures passed { seat.new.me ≡ (passed (call_of added.now) seat.old.me.0, []) }
{
    let served = table.fetch_add::<PassOn<T>>(seat, SERVING, 1);
    // Whoever draws a ticket after this look finds it served already.
    if table.peek(TICKET) != served.wrapping_add(1) {
        table.wake_all(SERVING);
    }
}

// Draws the next ticket, against other threads that draw too. Once 2^62 tickets are drawn it waits for ever.
pub(crate) fn take_ticket<M: Machine, R: Wait>(
    rt: &R,
    table: &SharedTable<M>,
    seat: &mut TableSeat<M>,
) -> u64
    requires table { (seat.old.table_id ≡ table.now.table_id) × (table.now.table_id.words ≡ 2) }
    requires idle { (seat.old.me.1 ≡ []) × (seat.old.me.0.has_ticket ≡ false) }
    requires live { (0 < seat.old.me.0.weight) × (seat.old.me.0.is_served ≡ false) }
    ensures table { (seat.new.table_id ≡ seat.old.table_id) × (seat.new.id ≡ seat.old.id) }
    ensures drawn { seat.new.me ≡ (with_ticket result seat.old.me.0, []) }
{
    for _ in rt.forever() {
        let ticket = table.peek(TICKET);
        if ticket < TICKETS && draw(table, seat, ticket) == ticket {
            return ticket;
        }
        thread::yield_now();
    }
    unreachable!()
}

// Sleeps until the seat's ticket is served.
pub(crate) fn await_turn<M: Machine, R: Wait>(
    rt: &R,
    table: &SharedTable<M>,
    seat: &mut TableSeat<M>,
    ticket: u64,
)
    requires table { (seat.old.table_id ≡ table.now.table_id) × (table.now.table_id.words ≡ 2) }
    requires waits { (seat.old.me.1 ≡ [])
        × (seat.old.me.0.has_ticket ≡ true) × (seat.old.me.0.ticket ≡ ticket) }
    requires live { (0 < seat.old.me.0.weight) × (seat.old.me.0.is_served ≡ false) }
    ensures table { (seat.new.table_id ≡ seat.old.table_id) × (seat.new.id ≡ seat.old.id) }
    ensures served { IsServed M.state M.transition seat.old.me seat.new.me }
    ensures opening { seat.old.me.0.start ≡ Some (M.state table.now.key.start.value) }
{
    for _ in rt.forever() {
        let serving = look::<M, Brand>(table, seat);
        if serving == ticket {
            return;
        }
        // A thread parks on the low half of the word, which changes with each step.
        table.park(rt, SERVING, (serving % (1 << 32)) as u32);
    }
    unreachable!()
}
