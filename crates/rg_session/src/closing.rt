// The end of a service: its turn, its publisher and its passes.
ghost use Rattle.std.specs.Prelude.{◌≡◌, ℕ, All, length, Some, None, IfOk};
ghost use mathlib.Core.List.{IsPrefix};
ghost use Rattle.rg_turn.specs.Counting.{once_below};
ghost use Rattle.rg_turn.specs.History.{IsLegal, state_after};
ghost use Rattle.rg_turn.specs.Values.{calls_at};
ghost use Rattle.rg_admin_laws.specs.Steps.{step};
ghost use Rattle.rg_session.specs.Closing.{IsKnown, IsOwn, ahead_of, answers_of};
ghost use Rattle.rg_session.specs.Right.{AreRightFor};

use crate::laws::right_lists_stay_right;
use crate::settling::{Ahead, decisions_of, first_ahead, settle_all};
use rg_admin::{Admin, Recorder, Unkept};
use rg_base::NoMemory;
use rg_publish::{Pass, Publications, Publisher};
use rg_turn::{Past, Seat, Turn};
use std::alloc::Global;
use std::sync::Wait;

/// What is left of a service.
#[derive(Drop)]
pub struct Totals<P: Recorder = Unkept> {
    /// The administration after the whole history.
    pub admin: Admin<P>,
    pub past: Past<Admin<P>>,
    /// All that was published.
    pub published: Publications,
    /// How many publications there were.
    pub publications: u64,
    /// How often the passes answered; it stays at its last value.
    pub decisions: u64,
    /// The first pass that has seen more than the publisher has.
    pub ahead: Option<Ahead>,
}

/// The first pass that is ahead; where none is, each pass learns all that was published.
fn compare<R: Wait + Drop>(
    publisher: &Publisher<R>,
    passes: Vec<Pass>,
) -> Result<Option<Ahead>, NoMemory>
    requires { All (IsOwn publisher.now) passes.items }
    ensures ahead { IfOk result (λ a. a ≡ ahead_of (length publisher.now.list) passes.items) }
    ensures known { IfOk result (λ a. a ≡ None → All (IsKnown publisher.now) passes.items) }
{
    match first_ahead(publisher.serial(), passes.as_slice()) {
        Some(ahead) => Ok(Some(ahead)),
        None => match settle_all(publisher, passes) {
            Ok(()) => Ok(None),
            Err(NoMemory) => Err(NoMemory),
        },
    }
}

/// Ends the turn, the publisher and the passes, given all of the turn's seats. It waits for readers that are inside. Where
/// memory is refused the publisher is ended too, and all else is let go. A pass that has seen no more than the publisher has
/// is one of the publisher's.
pub fn close<P: Recorder, R: Wait + Drop>(
    alloc: Global,
    publisher: Publisher<R>,
    passes: Vec<Pass>,
    turn: Turn<Admin<P>>,
    seats: Vec<Seat<Admin<P>>>,
) -> Result<Totals<P>, NoMemory>
    requires seats { All (λ s. s.turn ≡ turn.turn) seats.items }
    requires all { length seats.items ≡ turn.seats }
    requires passes { All (IsOwn publisher) passes.items }
    ensures legal { IfOk result (λ t. (t.past.start ≡ Some turn.start)
        × IsLegal step turn.start t.past.history) }
    ensures admin { IfOk result (λ t. t.admin ≡ state_after step turn.start t.past.history) }
    ensures begins { IfOk result (λ t. All (λ s. IsPrefix s.history t.past.history) seats.items) }
    ensures once { IfOk result (λ t. (p : ℕ)
        → calls_at p seats.items ≡ once_below p (length t.past.history)) }
    ensures published { IfOk result (λ t. t.published ≡ publisher) }
    ensures publications { IfOk result (λ t. t.publications ≡ length publisher.list) }
    ensures decisions { IfOk result (λ t. t.decisions ≡ answers_of passes.items) }
    ensures ahead { IfOk result (λ t. t.ahead ≡ ahead_of (length publisher.list) passes.items) }
    ensures known { IfOk result (λ t. t.ahead ≡ None → All (IsKnown publisher) passes.items) }
    ensures right { IfOk result (λ t. All (λ s. AreRightFor turn.start s.history publisher.list
        → AreRightFor turn.start t.past.history publisher.list) seats.items) }
{
    right_lists_stay_right();
    let decisions = decisions_of(passes.as_slice());
    let published = publisher.publications();
    let publications = publisher.serial().0;
    let ahead = match compare(&publisher, passes) {
        Ok(ahead) => ahead,
        Err(NoMemory) => return Err(NoMemory),
    };
    publisher.end();
    match turn.close(alloc, seats) {
        Ok((admin, past)) => Ok(Totals {
            admin,
            past,
            published,
            publications,
            decisions,
            ahead,
        }),
        Err(NoMemory) => Err(NoMemory),
    }
}
