// The machine with its seats: how a turn is opened, called and closed.
ghost use Rattle.std.specs.Prelude.{◌≡◌, ℕ, All, ◌<◌, ◌≤◌, ◌^◌, false, [], ◌∷◌, length, replicate, Some, IfOk, IsOk, MatchResult};
ghost use mathlib.Core.List.{IsPrefix};
ghost use Rattle.rg_turn.specs.Counting.{once_below, positions};
ghost use Rattle.rg_turn.specs.History.{state_after, IsLegal};
ghost use Rattle.rg_turn.specs.View.{opening_view};
ghost use Rattle.rg_turn.specs.Values.{new_seat, IsCalled, EachOnce, calls_at};
ghost use Rattle.rg_turn.specs.Seats.{HasEnded};

use crate::exchange::answer;
use crate::machine::Machine;
use crate::rule::{KeepHistory, Opening, SeatView, Slot, TurnRule};
use crate::seats::{Past, Seat, join_seats, split_seats};
use crate::steps::{TableSeat, await_turn, take_ticket};
use atomic_table::Table;
use rg_base::NoMemory;
use std::alloc::Global;
use std::marker::Model;
use std::snapshot::Snapshot;
use std::sync::Wait;

type MachineTable<M> = Table<
    Slot<M>,
    SeatView<<M as Machine>::Ask, <M as Machine>::Reply, <M as Machine>::State>,
    Opening<M>,
    TurnRule,
    Global,
>;

/// A machine that threads call by turns, each through a seat of its own. All its calls make one history.
#[derive(Drop)]
pub struct Turn<M: Machine> {
    table: MachineTable<M>,
}

impl<M: Machine> Model for Turn<M> {
    ghost use Rattle.std.specs.Prelude.{◌≡◌, ◌<◌, Some};
    ghost use Rattle.rg_turn.specs.Values.{TurnValue};

    ghost Value = { TurnValue M.State };

    ghost view = { λ t.
        record {
          turn = record {
            table = t.table.shared.table_id;
            seats = t.table.shared.key.seats;
            start = Some (M.state t.table.shared.key.start.value);
          };
          seats = t.table.shared.key.seats;
          start = M.state t.table.shared.key.start.value;
        } };

    ghost invariant = { λ t. (t.table.shared.table_id.words ≡ 2)
        × (t.table.shared.table_id.slots ≡ 1) × (0 < t.table.shared.key.seats) };
}

fn only<T: Drop>(alloc: Global, x: T) -> Result<Vec<T>, NoMemory>
    ensures { IfOk result (λ v. v.items ≡ x ∷ []) }
{
    let mut all = Vec::new(alloc);
    all.push(x)?;
    Ok(all)
}

// The table with the machine in its slot, and its one seat.
fn open<M: Machine>(
    alloc: Global,
    machine: M,
    seats: u64,
) -> Result<(MachineTable<M>, TableSeat<M>), NoMemory>
    requires { 0 < seats }
    ensures counts { IfOk result (λ t. (t.0.shared.table_id.words ≡ 2)
        × (t.0.shared.table_id.slots ≡ 1)) }
    ensures key { IfOk result (λ t. (M.state t.0.shared.key.start.value ≡ M.state machine)
        × (t.0.shared.key.seats ≡ seats)) }
    ensures seat { IfOk result (λ t. (t.1.table_id ≡ t.0.shared.table_id)
        × (t.1.me ≡ (opening_view (M.state machine) seats seats, []))) }
{
    let opening = Opening {
        start: Snapshot::of(&machine),
        seats,
    };
    let slot = Slot {
        machine: Some(machine),
        entries: 0,
    };
    let slots = only(alloc, slot)?;
    match Table::new(alloc, &[0, 0], slots, &opening) {
        Ok(opened) => Ok(opened),
        Err(_) => Err(NoMemory),
    }
}

// The table ends, and the slot's content comes out.
fn end<M: Machine>(table: MachineTable<M>, seat: TableSeat<M>) -> Slot<M>
    requires table { (seat.table_id ≡ table.shared.table_id) × (table.shared.table_id.slots ≡ 1) }
    requires idle { (seat.me.0.has_ticket ≡ false) × (seat.me.0.is_served ≡ false) }
    requires whole { (0 < seat.me.0.weight) × (seat.me.0.weight ≡ table.shared.key.seats) }
    ensures { HasEnded M.state M.transition
        (M.state table.shared.key.start.value) seat.me.0 result }
{
    let mut closed = table.close_with(seat);
    let slot = closed.take(0);
    closed.free();
    slot
}

impl<M: Machine> Turn<M> {
    /// A turn with so many seats, 1 to 65. No other seat is ever made. Where memory is refused, the machine is dropped.
    pub fn new(alloc: Global, machine: M, seats: u32) -> Result<(Turn<M>, Vec<Seat<M>>), NoMemory>
        requires { (1 ≤ seats) × (seats ≤ 65) }
        ensures turn { IfOk result (λ t. (t.0.seats ≡ seats) × (t.0.start ≡ M.state machine)) }
        ensures seats { IfOk result (λ t. t.1.items ≡ replicate seats (new_seat t.0.turn)) }
    {
        let (table, seat) = open(alloc, machine, seats as u64)?;
        let all = split_seats(alloc, &table.shared, seat, seats)?;
        Ok((Turn { table }, all))
    }

    /// What a seat of the turn knows, before any call too: the state in which the machine opened, and a legal history.
    pub fn knows(&self, seat: &Seat<M>)
        requires { seat.now.turn ≡ self.now.turn }
        ensures opening { (seat.now.turn.start ≡ Some self.now.start)
            × (seat.now.turn.seats ≡ self.now.seats) }
        ensures legal { IsLegal M.transition self.now.start seat.now.history }
        ensures bounded { length seat.now.history ≤ 2 ^ 62 }
    {
        let _turn = &self.table;
        let _seat = &seat.seat;
    }

    /// Waits until it is the seat's turn, and calls the machine. `NoMemory` is the machine's own answer, and makes no entry.
    /// Once 2^62 calls were begun it waits for ever.
    pub fn call<R: Wait>(
        &self,
        rt: &R,
        alloc: Global,
        seat: &mut Seat<M>,
        ask: M::Ask,
    ) -> Result<M::Reply, NoMemory>
        requires { seat.old.turn ≡ self.now.turn }
        ensures same { seat.new.turn ≡ seat.old.turn }
        ensures legal { IsLegal M.transition self.now.start seat.new.history }
        ensures begins { IsPrefix seat.old.history seat.new.history }
        ensures bounded { length seat.new.history ≤ 2 ^ 62 }
        ensures each_once { EachOnce seat.new.calls seat.new.history }
        ensures one_seat { seat.new.turn.seats ≡ 1
            → seat.new.calls ≡ positions (length seat.new.history) }
        ensures call { MatchResult result
            (λ r. IsCalled seat.old ask r seat.new) (λ _. seat.new.calls ≡ seat.old.calls) }
    {
        let table = &self.table.shared;
        let own = &mut seat.seat;
        let ticket = take_ticket(rt, table, own);
        await_turn(rt, table, own, ticket);
        let reply = answer(alloc, table, own, ask)?;
        seat.made += 1;
        Ok(reply)
    }

    /// Ends the turn, given all its seats: its machine, and the whole history. It takes no memory, and is never refused.
    pub fn close(self, _alloc: Global, seats: Vec<Seat<M>>) -> Result<(M, Past<M>), NoMemory>
        requires turn { All (λ s. s.turn ≡ self.turn) seats.items }
        requires all { length seats.items ≡ self.seats }
        ensures ok { IsOk result }
        ensures legal { IfOk result (λ t. (t.1.start ≡ Some self.start)
            × IsLegal M.transition self.start t.1.history) }
        ensures machine { IfOk result
            (λ t. M.state t.0 ≡ state_after M.transition self.start t.1.history) }
        ensures begins { IfOk result (λ t. All (λ s. IsPrefix s.history t.1.history) seats.items) }
        ensures once { IfOk result (λ t. (p : ℕ)
            → calls_at p seats.items ≡ once_below p (length t.1.history)) }
    {
        let Turn { table } = self;
        let mut seats = seats;
        let Some(first) = seats.pop() else {
            unreachable!()
        };
        let Seat { seat, made: _ } = first;
        let mut kept = join_seats(&table.shared, seat, seats);
        let past = table.shared.split_seat::<KeepHistory>(&mut kept);
        let Slot { machine, entries } = end(table, kept);
        Ok((
            machine.unwrap(),
            Past {
                seat: past,
                count: entries,
            },
        ))
    }
}
