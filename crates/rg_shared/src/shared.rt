// A value with several owners.
ghost use Rattle.std.specs.Prelude.{◌≡◌, IfOk};

use rg_base::{NoMemory, TryCopy};
use std::alloc::Global;
use std::marker::Model;
use std::ops::Deref;
use std::sync::Arc;

/// A value that doesn't change, and that any number of lists in any threads may own together. Contracts see the value.
#[derive(Drop)]
pub struct Shared<T> {
    held: Arc<T>,
}

impl<T> Model for Shared<T> {
    ghost use Rattle.std.specs.Arc.{arc_value};

    ghost Value = { T };

    ghost view = { λ s. arc_value s.held };
}

impl<T: Drop> Shared<T> {
    /// The value with its first owner. The value is dropped where memory is refused.
    pub fn new(alloc: Global, value: T) -> Result<Shared<T>, NoMemory>
        ensures { IfOk result (λ s. s ≡ value) }
    {
        match Arc::new(alloc, value) {
            Ok(held) => Ok(Shared { held }),
            Err(_) => Err(NoMemory),
        }
    }
}

impl<T> Deref for Shared<T> {
    type Target = T;

    ghost deref_gives = { λ s value. value ≡ s };

    fn deref(&self) -> &T
        ensures { result.now ≡ self.now }
    {
        &self.held
    }
}

impl<T: Drop> TryCopy for Shared<T> {
    /// One more owner of the same value, in the same time for any value. It is refused where their number, which has 64
    /// bits, is full.
    fn try_copy(&self, _alloc: Global) -> Result<Shared<T>, NoMemory> {
        let held = Arc::try_clone(&self.held)?;
        Ok(Shared { held })
    }
}
