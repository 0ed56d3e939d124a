// What the seat does whose ticket is served: it takes the machine, calls it, and gives it back.
ghost use Rattle.std.specs.Prelude.{◌≡◌, ℕ, ◌<◌, ◌^◌, true, List, [], ◌∷◌, length, Some, IfOk, MatchResult};
ghost use Rattle.rg_turn.specs.declared.rule.Slot.{Slot};
ghost use Rattle.rg_turn.specs.History.{state_after};
ghost use Rattle.rg_turn.specs.View.{passed, passed_with, passed_without};
ghost use Rattle.rg_turn.specs.Steps.{call_of, IsAnswered};
ghost use Rattle.rg_turn.specs.Rule.{IsAfter};

use crate::machine::Machine;
use crate::rule::Slot;
use crate::steps::{SharedTable, TableSeat, pass_on};
use rg_base::NoMemory;
use std::alloc::Global;
use std::marker::Brand;
use std::snapshot::Snapshot;

// Takes the machine out of its slot, with the number of entries.
fn take_machine<M: Machine>(table: &SharedTable<M>, seat: &mut TableSeat<M>) -> (M, u64)
    requires table { seat.old.table_id ≡ table.now.table_id }
    requires holds { (d : Slot M) × (m : M) × (seat.old.me.1 ≡ (0, d) ∷ []) × (d.machine ≡ Some m) }
    ensures table { (seat.new.table_id ≡ seat.old.table_id) × (seat.new.id ≡ seat.old.id) }
    ensures machine { (d : Slot M) × (seat.old.me.1 ≡ (0, d) ∷ [])
        × (d.machine ≡ Some result.0) × (d.entries ≡ result.1) }
    ensures rest { (d : Slot M) × (seat.new.me ≡ (seat.old.me.0, (0, d) ∷ [])) }
{
    let empty = Slot {
        machine: None,
        entries: 0,
    };
    let Slot { machine, entries } = table.exchange(seat, 0, empty);
    (machine.unwrap(), entries)
}

// Puts the machine back and passes on, with the entry that was made, if any.
fn return_machine<M: Machine>(
    table: &SharedTable<M>,
    seat: &mut TableSeat<M>,
    machine: M,
    added: Option<(Snapshot<M::Ask>, Snapshot<M::Reply>)>,
    entries: u64,
)
    requires table { (seat.old.table_id ≡ table.now.table_id) × (table.now.table_id.words ≡ 2) }
    requires holds { (d : Slot M) × (seat.old.me.1 ≡ (0, d) ∷ []) }
    requires live { (0 < seat.old.me.0.weight) × (seat.old.me.0.is_served ≡ true) }
    requires answered { (x : M.State) × (seat.old.me.0.start ≡ Some x)
        × IsAnswered M.state M.transition (state_after M.transition x seat.old.me.0.history)
        (length seat.old.me.0.history) (call_of added) (M.state machine) entries }
    ensures table { (seat.new.table_id ≡ seat.old.table_id) × (seat.new.id ≡ seat.old.id) }
    ensures passed { seat.new.me ≡ (passed (call_of added) seat.old.me.0, []) }
{
    let full = Slot {
        machine: Some(machine),
        entries,
    };
    table.exchange(seat, 0, full);
    pass_on::<M, Brand>(table, seat, &added);
}

// Calls the machine and passes on.
pub(crate) fn answer<M: Machine>(
    alloc: Global,
    table: &SharedTable<M>,
    seat: &mut TableSeat<M>,
    ask: M::Ask,
) -> Result<M::Reply, NoMemory>
    requires table { (seat.old.table_id ≡ table.now.table_id) × (table.now.table_id.words ≡ 2) }
    requires holds { (d : Slot M) × (x : M.State) × (seat.old.me.1 ≡ (0, d) ∷ [])
        × (seat.old.me.0.start ≡ Some x) × IsAfter M.state M.transition x seat.old.me.0.history d }
    requires bound { length seat.old.me.0.history < 2 ^ 62 }
    requires live { (0 < seat.old.me.0.weight) × (seat.old.me.0.is_served ≡ true) }
    ensures table { (seat.new.table_id ≡ seat.old.table_id) × (seat.new.id ≡ seat.old.id) }
    ensures passed { MatchResult result (λ r. seat.new.me ≡ (passed_with ask r seat.old.me.0, []))
        (λ _. seat.new.me ≡ (passed_without seat.old.me.0, [])) }
    ensures reply { IfOk result (λ r. (x : M.State) × (seat.old.me.0.start ≡ Some x)
        × ((M.transition (state_after M.transition x seat.old.me.0.history) ask).1 ≡ r)) }
{
    let (mut machine, entries) = take_machine(table, seat);
    let asked = Snapshot::of(&ask);
    match machine.step(alloc, ask) {
        Ok(reply) => {
            let replied = Snapshot::of(&reply);
            return_machine(table, seat, machine, Some((asked, replied)), entries + 1);
            Ok(reply)
        }
        Err(NoMemory) => {
            return_machine(table, seat, machine, None, entries);
            Err(NoMemory)
        }
    }
}
