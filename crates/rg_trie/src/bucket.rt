// The pairs of which the keys have one hash, in blocks that several tries share.
ghost use Rattle.std.specs.Prelude.{◌≡◌, ◌++◌, ◌+◌, ◌≤◌, [], length, IfOk};
ghost use Rattle.std.specs.List.{All};
ghost use Rattle.std.specs.Str.{chars};
ghost use Rattle.rg_trie.specs.Blocks.{IsRising, IsSized, block_limit, pairs_of};
ghost use Rattle.rg_trie.specs.Edited.{with_pair, without_pair};
ghost use Rattle.rg_trie.specs.Pairs.{Below};
ghost use Rattle.rg_trie.specs.Sought.{IsCut};

use crate::blocks::{Growing, add_pairs, all_but_first, both, share, total_of, with_between};
use crate::order::{Mark, is_first};
use crate::pair::{Filed, Held, Pair};
use crate::seek::{Cut, find};
use rg_base::{NoMemory, TryCopy};
use std::alloc::Global;
use std::marker::Model;

/// Pairs in the order of key, id and place, each once, and contracts see that list. Nearly always they have one key; where
/// they have many, they are found by halves.
#[derive(Drop)]
pub(crate) struct Bucket {
    pub(crate) blocks: Vec<Held>,
}

impl Model for Bucket {
    ghost use Rattle.std.specs.Prelude.{List};
    ghost use Rattle.rg_trie.specs.declared.pair.Pair.{Pair};
    ghost use Rattle.rg_trie.specs.Blocks.{AreInOrder, pairs_of};

    ghost Value = { List Pair };

    ghost view = { λ t. pairs_of t.blocks.items };

    ghost invariant = { λ t. AreInOrder t.blocks.items };
}

impl TryCopy for Bucket {
    fn try_copy(&self, alloc: Global) -> Result<Bucket, NoMemory> {
        self.shared(alloc)
    }
}

impl Bucket {
    /// No pairs. It takes no memory.
    pub(crate) fn empty(alloc: Global) -> Bucket
        ensures { result ≡ [] }
    {
        Bucket {
            blocks: Vec::new(alloc),
        }
    }

    /// The bucket with this pair; an equal one where it stands there already.
    pub(crate) fn with(&self, alloc: Global, key: &str, entry: Filed) -> Result<Bucket, NoMemory>
        ensures { IfOk result
            (λ t. t ≡ with_pair (record { key = chars key.now; entry = entry }) self.now) }
    {
        let cut = self.cut(key, entry);
        if is_first(cut.back, key, entry) {
            return self.shared(alloc);
        }
        let Some(total) = self.total().checked_add(1) else {
            return Err(NoMemory);
        };
        let middle = with_between(alloc, cut.front, key, entry, cut.back)?;
        joined(alloc, cut.before, middle, cut.after, total)
    }

    /// The bucket without this pair; an equal one where it doesn't stand there.
    pub(crate) fn without(&self, alloc: Global, key: &str, entry: Filed) -> Result<Bucket, NoMemory>
        ensures { IfOk result
            (λ t. t ≡ without_pair (record { key = chars key.now; entry = entry }) self.now) }
    {
        let cut = self.cut(key, entry);
        if !is_first(cut.back, key, entry) {
            return self.shared(alloc);
        }
        let total = self.total() - 1;
        let middle = both(alloc, cut.front, all_but_first(cut.back))?;
        joined(alloc, cut.before, middle, cut.after, total)
    }

    /// The same pairs, in blocks that both share.
    fn shared(&self, alloc: Global) -> Result<Bucket, NoMemory>
        ensures { IfOk result (λ t. t ≡ self.now) }
    {
        let blocks = self.blocks.as_slice();
        let mut growing = Growing::with_room(alloc, blocks.len(), self.total())?;
        share(&mut growing, blocks)?;
        Ok(Bucket {
            blocks: growing.blocks,
        })
    }

    /// How many pairs there are.
    pub(crate) fn total(&self) -> usize
        ensures { result ≡ length self.now }
    {
        total_of(self.blocks.as_slice())
    }

    /// The pairs cut where this one stands or would stand.
    fn cut(&self, key: &str, entry: Filed) -> Cut<'_>
        ensures { IsCut (record { key = chars key.now; entry = entry })
            self.now result.before.now result.front.now result.back.now result.after.now }
    {
        find(self.blocks.as_slice(), key, false, Mark::At(entry))
    }
}

/// A bucket of these pairs, of which the number is known: blocks that are shared, the pairs of one block, and blocks that are
/// shared.
fn joined(
    alloc: Global,
    before: &[Held],
    middle: Vec<Pair>,
    after: &[Held],
    total: usize,
) -> Result<Bucket, NoMemory>
    requires rising { IsRising Below (pairs_of before.now ++ middle.items ++ pairs_of after.now) }
    requires total { total ≡ length (pairs_of before.now ++ middle.items ++ pairs_of after.now) }
    requires limited { length middle.items ≤ block_limit + 1 }
    requires before { All IsSized before.now }
    requires after { All IsSized after.now }
    ensures { IfOk result (λ t. t ≡ pairs_of before.now ++ middle.items ++ pairs_of after.now) }
{
    let room = before.len().saturating_add(after.len()).saturating_add(2);
    let mut growing = Growing::with_room(alloc, room, total)?;
    share(&mut growing, before)?;
    add_pairs(alloc, &mut growing, middle)?;
    share(&mut growing, after)?;
    Ok(Bucket {
        blocks: growing.blocks,
    })
}
