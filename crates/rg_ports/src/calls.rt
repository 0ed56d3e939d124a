// The calls on an object in memory: which of them fail, and how many bytes each moves.
ghost use Rattle.std.specs.Prelude.{◌≡◌, ◌<◌, ◌≤◌, ◌↔◌, ◌^◌, IsTrue, All, length};
ghost use Rattle.rg_base.specs.Listed.{Listed};
ghost use Rattle.rg_ports.specs.Calls.{CallState, IsToFail, moves, succeeded, failed, untouched};

use crate::counter::Counter;
use rg_base::Seq;
use std::cmp;
use std::marker::Model;

/// The calls so far, and what is set for those to come.
#[derive(Drop)]
pub struct Calls {
    made: Counter,
    faults: Counter,
    pieces: Seq<u32>,
    fails: Seq<u64>,
}

impl Model for Calls {
    ghost use Rattle.std.specs.Prelude.{◌<◌, All};
    ghost use Rattle.rg_ports.specs.Calls.{CallState};

    ghost Value = { CallState };

    ghost view = { λ c. record {
      made = c.made;
      faults = c.faults;
      pieces = c.pieces.items;
      fails = c.fails.items;
    } };

    ghost invariant = { λ c. All (λ size. 0 < size) c.pieces.items };
}

impl Calls {
    /// No call so far.
    pub fn new(pieces: Seq<u32>, fails: Seq<u64>) -> Calls
        requires { All (λ size. 0 < size) pieces.items }
        ensures { result ≡ untouched pieces.items fails.items }
    {
        Calls {
            made: Counter::zero(),
            faults: Counter::zero(),
            pieces,
            fails,
        }
    }

    /// Whether the next call is to fail. A call past the last `u64` has no number that could be listed.
    pub fn is_to_fail(&self) -> bool
        ensures { IsTrue result ↔ IsToFail self.now }
    {
        let fails = self.fails.as_slice();
        match self.made.seen().checked_add(1) {
            Some(number) => fails.contains(&number),
            None => false,
        }
    }

    /// How many bytes the next call moves, where so many can be moved.
    pub fn moves(&self, most: usize) -> usize
        ensures value { result ≡ moves self.now most }
        ensures some { 0 < most → 0 < result }
    {
        let sizes = self.pieces.as_slice();
        if sizes.is_empty() {
            return most;
        }
        let last = sizes.len() - 1;
        let place = cmp::min(self.made.seen(), last as u64) as usize;
        cmp::min(sizes[place] as usize, most)
    }

    /// Counts a call that succeeded.
    pub fn succeed(&mut self)
        ensures { self.new ≡ succeeded self.old }
    {
        self.made.add();
    }

    /// Counts a call that failed.
    pub fn fail(&mut self)
        ensures { self.new ≡ failed self.old }
    {
        self.made.add();
        self.faults.add();
    }
}
