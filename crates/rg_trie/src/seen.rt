// What contracts see of a trie.
ghost use Rattle.std.specs.Prelude.{List};
ghost use Rattle.rg_trie.specs.declared.pair.Pair.{Pair};
ghost use base.Fml.{ftrue};

use std::marker::{Model, PhantomData, Send, Sync};

/// A list of pairs that only contracts see: it takes no bytes, and no code can read it.
pub(crate) struct Seen {
    pub(crate) marker: PhantomData<()>,
    pub(crate) ghost value: { List Pair },
}

impl Model for Seen {
    ghost also_owns = { λ _. ftrue };
}

impl Drop for Seen {
    fn drop(self) {
        let Self { marker: _ } = self;
    }
}

unsafe impl Send for Seen {}

unsafe impl Sync for Seen {}
