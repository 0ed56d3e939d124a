// The rule of the table: what a seat knows, what the slot has, and what each kind of step changes.
use crate::machine::Machine;
use atomic_table::{Join, Play, Split, TableRule};
use std::collections::LinkedList;
use std::marker::{Brand, PhantomData};
use std::snapshot::Snapshot;

/// One call: what was asked, and what the machine replied.
pub struct Entry<A, R> {
    pub ask: A,
    pub reply: R,
}

/// What a seat knows. No value of it is made.
pub struct SeatView<A, R, X> {
    // The state in which the machine opened; none once the view is spent.
    pub start: Option<X>,
    // How many seats the turn has.
    pub seats: u64,
    // How many seats were joined to this one, with itself.
    pub weight: u64,
    pub has_ticket: bool,
    pub ticket: u64,
    // From its look at its own ticket until it passes on.
    pub is_served: bool,
    pub history: LinkedList<Entry<A, R>>,
    // Histories that are known to begin this one.
    pub olds: LinkedList<LinkedList<Entry<A, R>>>,
    // The positions of its own calls in the history.
    pub calls: LinkedList<u64>,
}

/// What the slot has.
#[derive(Drop)]
pub struct Slot<M> {
    pub machine: Option<M>,
    // The length of the history.
    pub entries: u64,
}

/// What the table is told once: the machine as it opened, and the number of seats.
#[derive(Drop)]
pub struct Opening<M> {
    pub start: Snapshot<M>,
    pub seats: u64,
}

pub struct TurnRule;

impl<M: Machine> TableRule<Slot<M>, SeatView<M::Ask, M::Reply, M::State>, Opening<M>> for TurnRule {
    ghost use Rattle.rg_turn.specs.Rule.{RuleHolds};
    ghost use Rattle.rg_turn.specs.View.{opening_view};

    ghost holds = { λ k. RuleHolds M.state M.transition (M.state k.start.value) k.seats };

    ghost first = { λ k. opening_view (M.state k.start.value) k.seats k.seats };
}

/// A step that draws a ticket.
pub struct Draw;

impl<M, A, R, X> Play<Slot<M>, SeatView<A, R, X>> for Draw {
    ghost use Rattle.rg_turn.specs.Steps.{Drawn};

    ghost then = { Drawn };
}

/// The state in which a table's machine opened. A step has no argument for it, and what it tells can't name the table.
pub trait NamesOpening<X> {
    ghost use Rattle.std.specs.Prelude.{Option};

    ghost opening: { Option X };
}

impl<X> NamesOpening<X> for Brand {
    ghost use Rattle.std.specs.Prelude.{None};

    ghost opening = { None };
}

/// A step that looks which ticket is served.
pub struct Look<M, T> {
    of: PhantomData<(M, T)>,
}

impl<M: Machine, T: NamesOpening<M::State>> Play<Slot<M>, SeatView<M::Ask, M::Reply, M::State>>
    for Look<M, T> {
    ghost use Rattle.rg_turn.specs.Steps.{Looked};

    ghost then = { Looked M.state M.transition T.opening };
}

/// The entry that a step adds to the history, if any. A step on a word has no argument for it.
pub trait AddsEntry<A, R> {
    ghost use Rattle.std.specs.Prelude.{Option};

    ghost added: { Option (A × R) };
}

impl<A, R> AddsEntry<A, R> for Brand {
    ghost use Rattle.std.specs.Prelude.{None};

    ghost added = { None };
}

/// A step that passes on: the next ticket is served.
pub struct PassOn<T> {
    of: PhantomData<T>,
}

impl<M, A, R, X, T: AddsEntry<A, R>> Play<Slot<M>, SeatView<A, R, X>> for PassOn<T> {
    ghost use Rattle.rg_turn.specs.Steps.{PassedOn};

    ghost then = { PassedOn T.added };
}

/// The first seat gives a weight of 1 to a new one.
pub struct GiveWeight;

impl<A, R, X> Split<SeatView<A, R, X>> for GiveWeight {
    ghost use Rattle.rg_turn.specs.View.{lightened, split_off};

    ghost left = { lightened };

    ghost right = { split_off };
}

/// A new seat of no weight keeps the history.
pub struct KeepHistory;

impl<A, R, X> Split<SeatView<A, R, X>> for KeepHistory {
    ghost use Rattle.rg_turn.specs.View.{history_only};

    ghost left = { λ v. v };

    ghost right = { history_only };
}

/// A seat takes over another.
pub struct TakeOver;

impl<A, R, X> Join<SeatView<A, R, X>> for TakeOver {
    ghost use Rattle.rg_turn.specs.View.{joined, spent_view};

    ghost both = { joined };

    ghost spent = { spent_view };
}
