// A clock in memory.
ghost use Rattle.std.specs.Prelude.{◌≡◌, ◌<◌, ◌+◌, length};
ghost use Rattle.rg_base.specs.Listed.{Listed};
ghost use Rattle.rg_ports.specs.Clocks.{ClockState, first_moments, moment_of};

use crate::counter::Counter;
use crate::ports::Clock;
use rg_base::{Moment, Seq};
use std::cmp;
use std::marker::Model;

/// Gives the moments of a list in order, and then its last moment again and again.
#[derive(Drop)]
pub struct ListClock {
    moments: Seq<Moment>,
    calls: Counter,
}

impl Model for ListClock {
    ghost use Rattle.std.specs.Prelude.{◌<◌, length};
    ghost use Rattle.rg_ports.specs.Clocks.{ClockState};

    ghost Value = { ClockState };

    ghost view = { λ c. record { moments = c.moments.items; calls = c.calls } };

    ghost invariant = { λ c. 0 < length c.moments.items };
}

impl ListClock {
    /// A clock of these moments, at least one. The first call gives the first of them.
    pub fn new(moments: Seq<Moment>) -> ListClock
        requires { 0 < length moments.items }
        ensures { result ≡ record { moments = moments.items; calls = 0 } }
    {
        ListClock {
            moments,
            calls: Counter::zero(),
        }
    }
}

impl Clock for ListClock {
    ghost use Rattle.std.specs.Prelude.{Some};
    ghost use Rattle.rg_ports.specs.Clocks.{first_moments};

    ghost given = { λ c. Some (first_moments c.moments c.calls) };

    #[tactic(auto, using(crate::proofs::Firsts::firsts))]
    fn now(&mut self) -> Moment
        ensures moment { result ≡ moment_of self.old.moments self.old.calls }
        ensures counted { self.new ≡ record self.old { calls = self.old.calls + 1 } }
    {
        let moments = self.moments.as_slice();
        let last = moments.len() - 1;
        let place = cmp::min(self.calls.seen(), last as u64) as usize;
        let moment = moments[place];
        self.calls.add();
        moment
    }
}
