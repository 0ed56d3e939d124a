// How a trie comes about.
ghost use Rattle.std.specs.Prelude.{◌≡◌};
ghost use Rattle.rg_trie.specs.Origins.{seen_from};

use crate::pair::Filed;
use crate::seen::Seen;
use std::marker::PhantomData;

/// What a trie is made from.
#[derive(Clone, Copy)]
pub(crate) enum Origin<'a> {
    /// Nothing.
    Empty,
    /// Another trie, with this entry under the key.
    With(&'a Seen, &'a str, Filed),
    /// Another trie, without this entry under the key.
    Without(&'a Seen, &'a str, Filed),
}

impl Seen {
    /// What is seen of it.
    pub(crate) fn of(_origin: &Origin<'_>) -> Seen
        ensures { result.value ≡ seen_from _origin.now }
    {
        Seen {
            marker: PhantomData,
        }
    }
}
