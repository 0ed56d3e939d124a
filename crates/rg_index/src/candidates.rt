// The ids of the forms that are asked about a resource.
ghost use Rattle.std.specs.Prelude.{◌≡◌};
ghost use Rattle.rg_index.specs.Kept.{entry_ids};
ghost use Rattle.std.specs.Iterator.{YieldsFirst, item_count};

use rg_trie::Walk;
use std::marker::Model;

/// The ids that are left, and contracts see that list. See [`Index::candidates`](crate::Index::candidates).
#[derive(Drop)]
pub struct Candidates<'a> {
    walk: Walk<'a>,
}

impl<'a> Model for Candidates<'a> {
    ghost use Rattle.std.specs.Prelude.{List, ℤ, map};
    ghost use Rattle.rg_trie.specs.declared.pair.Filed.{Filed};

    ghost Value = { List ℤ };

    ghost view = { λ c. map (λ (e : Filed). e.id) c.walk };
}

impl<'a> Candidates<'a> {
    pub(crate) fn of(walk: Walk<'a>) -> Candidates<'a>
        ensures { result ≡ entry_ids walk.entry }
    {
        Candidates { walk }
    }
}

impl<'a> Iterator for Candidates<'a> {
    type Item = i64;

    ghost next_gives = { YieldsFirst (λ c. c) };

    ghost remaining = { item_count (λ c. c) };

    fn next(&mut self) -> Option<i64> {
        match self.walk.next() {
            Some(entry) => Some(entry.id),
            None => None,
        }
    }
}
