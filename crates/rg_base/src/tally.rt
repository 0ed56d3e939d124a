// A count that only contracts see.
ghost use Rattle.std.specs.Prelude.{◌≡◌, ◌+◌, ℕ};
ghost use base.Fml.{ftrue};

use std::marker::{Model, PhantomData, Send};

/// A count without a ceiling, kept for contracts alone: it takes no bytes, and no code can read it.
pub struct Tally {
    marker: PhantomData<()>,
    pub ghost count: { ℕ },
}

impl Model for Tally {
    ghost also_owns = { λ _. ftrue };
}

impl Tally {
    /// The count at 0.
    pub fn zero() -> Tally
        ensures { result.count ≡ 0 }
    {
        Tally {
            marker: PhantomData,
        }
    }

    /// Adds one.
    pub fn add(&mut self)
        ensures { self.new.count ≡ self.old.count + 1 }
    {}
}

impl Drop for Tally {
    fn drop(self) {
        let Self { marker: _ } = self;
    }
}

unsafe impl Send for Tally {}
