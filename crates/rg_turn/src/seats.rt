// Seats: how they are made and joined, and what is left of them when their turn is over.
ghost use Rattle.std.specs.Prelude.{◌≡◌, ℕ, All, ◌<◌, false, [], ◌∷◌, ◌++◌, length, replicate, IfOk};
ghost use Rattle.rg_turn.specs.View.{opening_view};
ghost use Rattle.rg_turn.specs.Values.{SeatValue};
ghost use Rattle.rg_turn.specs.Seats.{seat_value, IsUnused, HasJoined};

use crate::machine::Machine;
use crate::rule::{GiveWeight, TakeOver};
use crate::steps::{SharedTable, TableSeat};
use rg_base::NoMemory;
use std::alloc::Global;
use std::marker::Model;

/// The right to call the machine of one turn. Contracts see its turn, the history that it knows, and the positions of its own calls there.
#[derive(Drop)]
pub struct Seat<M: Machine> {
    pub(crate) seat: TableSeat<M>,
    pub(crate) made: u64,
}

impl<M: Machine> Model for Seat<M> {
    ghost use Rattle.std.specs.Prelude.{◌≡◌, length};
    ghost use Rattle.rg_turn.specs.Values.{SeatValue};
    ghost use Rattle.rg_turn.specs.Seats.{seat_value, IsIdle, IsAlone, IsCounted};

    ghost Value = { SeatValue M.Ask M.Reply M.State };

    ghost view = { λ s. seat_value s.seat };

    ghost invariant = { λ s. IsIdle M.transition s.seat
        × (s.made ≡ length s.seat.me.0.calls) × IsCounted s.seat.me.0 × IsAlone s.seat.me.0 };
}

impl<M: Machine> Seat<M> {
    fn unused(seat: TableSeat<M>) -> Seat<M>
        requires { IsUnused seat.me }
        ensures { result ≡ seat_value seat }
    {
        Seat { seat, made: 0 }
    }

    /// How many calls it made. A call that met `NoMemory` isn't counted.
    pub fn calls(&self) -> u64
        ensures { result ≡ length self.now.calls }
    {
        self.made
    }
}

fn add<T: Drop>(all: &mut Vec<T>, x: T) -> Result<(), NoMemory>
    ensures { IfOk result (λ _. all.new.items ≡ all.old.items ++ x ∷ []) }
{
    all.push(x)?;
    Ok(())
}

// Splits the first seat into so many.
pub(crate) fn split_seats<M: Machine>(
    alloc: Global,
    table: &SharedTable<M>,
    seat: TableSeat<M>,
    seats: u32,
) -> Result<Vec<Seat<M>>, NoMemory>
    requires table { (seat.table_id ≡ table.now.table_id)
        × (table.now.table_id.words ≡ 2) × (0 < seats) }
    requires first { (x : M.State) × (seat.me ≡ (opening_view x seats seats, [])) }
    ensures { IfOk result (λ v. v.items ≡ replicate seats (seat_value seat)) }
{
    let mut seat = seat;
    let mut all = Vec::with_capacity(alloc, seats as usize)?;
    for number in 1..seats {
        let part = table.split_seat::<GiveWeight>(&mut seat);
        add(&mut all, Seat::unused(part))?;
    }
    add(&mut all, Seat::unused(seat))?;
    Ok(all)
}

// The seat takes over all others.
pub(crate) fn join_seats<M: Machine>(
    table: &SharedTable<M>,
    seat: TableSeat<M>,
    seats: Vec<Seat<M>>,
) -> TableSeat<M>
    requires table { (seat.table_id ≡ table.now.table_id) × (table.now.table_id.words ≡ 2) }
    requires seats { All (λ s. s.turn.table ≡ table.now.table_id) seats.items }
    requires idle { (seat.me.1 ≡ []) × (seat.me.0.has_ticket ≡ false)
        × (seat.me.0.is_served ≡ false) × (0 < seat.me.0.weight) }
    ensures { HasJoined seat seats.items result }
{
    let mut kept = seat;
    let mut seats = seats;
    while let Some(next) = seats.pop() {
        let Seat {
            seat: other,
            made: _,
        } = next;
        table.join_seat::<TakeOver>(&mut kept, other);
    }
    kept
}

/// The whole history of a turn that is over.
#[derive(Drop)]
pub struct Past<M: Machine> {
    // A seat of no weight, which keeps the history though its table is gone.
    pub(crate) seat: TableSeat<M>,
    pub(crate) count: u64,
}

impl<M: Machine> Model for Past<M> {
    ghost use Rattle.std.specs.Prelude.{◌≡◌, length};
    ghost use Rattle.rg_turn.specs.Values.{PastValue};

    ghost Value = { PastValue M.Ask M.Reply M.State };

    ghost view = { λ p. record { start = p.seat.me.0.start; history = p.seat.me.0.history } };

    ghost invariant = { λ p. p.count ≡ length p.seat.me.0.history };
}

impl<M: Machine> Past<M> {
    /// The length of the whole history.
    pub fn entries(&self) -> u64
        ensures { result ≡ length self.now.history }
    {
        self.count
    }
}
