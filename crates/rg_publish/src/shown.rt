// What passes find: an engine, and the list of publications that ends with it.
ghost use Rattle.std.specs.Prelude.{◌≡◌, length, slice_get, Some, ◌-◌, ◌<◌, ◌≤◌, IfOk, MatchBool};
ghost use Rattle.std.specs.Arc.{arc_value};
ghost use mathlib.Core.List.{IsPrefix};
ghost use Rattle.rg_publish.specs.Publications.{publication};

use crate::history::{Numbering, Publication};
use atomic_table::{Join, Split};
use crossbeam_utils::rule::{Outcome, Protocol};
use left_right::Absorb;
use logbook::Seen;
use rg_engine::Engine;
use std::alloc::AllocError;
use std::sync::Arc;

/// A beginning of the list that was seen.
pub type Known = Seen<Publication, u64, Numbering>;

/// A publication as it is shown, with the list that it ends.
#[derive(Drop)]
pub struct Shown {
    pub engine: Arc<Engine>,
    pub serial: u64,
    pub seq: u64,
    pub known: Known,
    pub ghost long: { length known.log ≡ serial },
    pub ghost last: { slice_get known.log (serial - 1) ≡ Some (publication serial seq (arc_value engine)) },
}

impl Absorb<Shown> for Shown {
    type State = Known;

    ghost state = { λ s. s.known };

    ghost applied = { λ _ s. s.known };

    fn absorb_first(&mut self, operation: &Shown, _other: &Shown) -> Result<(), AllocError> {
        *self = operation.again()?;
        Ok(())
    }
}

impl Shown {
    /// The same once more. The engine is shared.
    pub fn again(&self) -> Result<Shown, AllocError>
        ensures { IfOk result (λ s. (s.serial ≡ self.now.serial) × (s.seq ≡ self.now.seq)
            × (s.known ≡ self.now.known) × (arc_value s.engine ≡ arc_value self.now.engine)) }
    {
        Ok(Shown {
            engine: Arc::try_clone(&self.engine)?,
            serial: self.serial,
            seq: self.seq,
            known: self.known.again(),
        })
    }

    /// Whether the other is later. Each of the two lists begins with the shorter one.
    pub fn is_before(&self, other: &Shown) -> bool
        requires { other.now.known.book ≡ self.now.known.book }
        ensures { MatchBool result ((length self.now.known.log < length other.now.known.log)
            × IsPrefix self.now.known.log other.now.known.log)
            ((length other.now.known.log ≤ length self.now.known.log)
            × IsPrefix other.now.known.log self.now.known.log) }
    {
        let mut both = self.known.again();
        both.learn(&other.known);
        self.serial < other.serial
    }
}

/// The rule of the two copies: what each reader knows begins what is shown, in the same book.
pub struct Beginnings;

impl Protocol<Shown, Option<Known>> for Beginnings {
    ghost use Rattle.std.specs.Prelude.{None};
    ghost use Rattle.rg_publish.specs.Knowing.{AllBegin};

    ghost holds = { λ x. AllBegin x.known };

    ghost first = { None };
}

/// What a reader knows after an entry, and the writer after a publication.
pub struct Sees;

impl Outcome<Shown, Option<Known>> for Sees {
    ghost use Rattle.rg_publish.specs.Knowing.{Reads};

    ghost then = { λ v x y w. Reads v y.known w };
}

/// The writer tells a reader what it knows.
pub struct Tells;

impl<K> Split<Option<K>> for Tells {
    ghost left = { λ v. v };

    ghost right = { λ v. v };
}

impl<K> Join<Option<K>> for Tells {
    ghost use Rattle.std.specs.Prelude.{None};

    ghost both = { λ _ w. w };

    ghost spent = { None };
}
