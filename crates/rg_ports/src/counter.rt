// A count for contracts and code.
ghost use Rattle.std.specs.Prelude.{◌≡◌, ◌+◌, ◌-◌, ◌^◌, min};

use rg_base::Tally;
use std::marker::Model;

/// A count that contracts see without a ceiling, while the number that code can read stands still at the last `u64`.
#[derive(Drop)]
pub struct Counter {
    seen: u64,
    tally: Tally,
}

impl Model for Counter {
    ghost use Rattle.std.specs.Prelude.{◌≡◌, ◌-◌, ◌^◌, ℕ, min};

    ghost Value = { ℕ };

    ghost view = { λ c. c.tally.count };

    ghost invariant = { λ c. c.seen ≡ min c.tally.count (2 ^ 64 - 1) };
}

impl Counter {
    /// The count at 0.
    pub fn zero() -> Counter
        ensures { result ≡ 0 }
    {
        Counter {
            seen: 0,
            tally: Tally::zero(),
        }
    }

    /// Adds one.
    pub fn add(&mut self)
        ensures { self.new ≡ self.old + 1 }
    {
        self.seen = self.seen.saturating_add(1);
        self.tally.add();
    }

    /// The count, or the last `u64` where it is past that.
    pub fn seen(&self) -> u64
        ensures { result ≡ min self.now (2 ^ 64 - 1) }
    {
        self.seen
    }
}
