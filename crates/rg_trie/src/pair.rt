// What is filed, and the key that it is filed under.
ghost use Rattle.std.specs.Prelude.{◌≡◌, IfOk};
ghost use Rattle.std.specs.Str.{chars};

use rg_base::{NoMemory, Text, TryCopy};
use std::alloc::Global;
use std::sync::Arc;

/// An entry: the number of what is filed, and the place of the value that it is filed for.
#[derive(Clone, Copy, Debug, PartialEq, Eq)]
pub struct Filed {
    pub id: i64,
    pub place: u32,
}

/// An entry with its key.
#[derive(Drop)]
pub struct Pair {
    pub key: Text,
    pub entry: Filed,
}

impl Pair {
    /// The entry under a copy of the key.
    pub(crate) fn new(alloc: Global, key: &str, entry: Filed) -> Result<Pair, NoMemory>
        ensures { IfOk result (λ p. p ≡ record { key = chars key.now; entry = entry }) }
    {
        Ok(Pair {
            key: Text::copy_of(alloc, key)?,
            entry,
        })
    }
}

impl TryCopy for Pair {
    fn try_copy(&self, alloc: Global) -> Result<Pair, NoMemory> {
        Ok(Pair {
            key: self.key.try_copy(alloc)?,
            entry: self.entry,
        })
    }
}

/// Pairs in order, which several tries may share.
#[derive(Drop)]
pub(crate) struct Block {
    pub(crate) pairs: Vec<Pair>,
}

/// A block of a trie, and how many pairs stand in it and in the blocks after it.
#[derive(Drop)]
pub(crate) struct Held {
    pub(crate) block: Arc<Block>,
    pub(crate) left: usize,
}
