// Keys with values.
ghost use Rattle.std.specs.Prelude.{◌≡◌, option_map};
ghost use Rattle.std.specs.Str.{chars};
ghost use Rattle.rg_base.specs.Pairs.{value_of};

use crate::copies::TryCopy;
use crate::named::{Named, find_named};
use crate::numbers::NoMemory;
use crate::text::Text;
use std::alloc::Global;

/// A key with its value.
#[derive(Drop)]
pub struct Pair {
    pub key: Text,
    pub value: Text,
}

impl TryCopy for Pair {
    fn try_copy(&self, alloc: Global) -> Result<Pair, NoMemory> {
        Ok(Pair {
            key: self.key.try_copy(alloc)?,
            value: self.value.try_copy(alloc)?,
        })
    }
}

impl Named for Pair {
    ghost named = { λ p. p.key };

    fn name(&self) -> &str {
        self.key.as_str()
    }
}

/// The value of the first pair with this key, None where there is none.
pub fn value_of<'a>(pairs: &'a [Pair], key: &str) -> Option<&'a Text>
    ensures { option_map (λ t. t.now) result ≡ value_of (chars key.now) pairs.now }
{
    match find_named(pairs, key) {
        Some(pair) => Some(&pair.value),
        None => None,
    }
}
