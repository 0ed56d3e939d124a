// A list of pairs in order, found by the hashes of their keys.
ghost use Rattle.std.specs.Prelude.{◌≡◌, ◌≤◌, [], Option, option_map, unwrap_or, length, IfOk};
ghost use Rattle.std.specs.List.{AllPairs};
ghost use Rattle.std.specs.Str.{chars};
ghost use Rattle.rg_base.specs.Counts.{one_edit};
ghost use Rattle.rg_trie.specs.Edited.{Adds, Takes, with_pair, without_pair};
ghost use Rattle.rg_trie.specs.Pairs.{Below, folded};
ghost use Rattle.rg_trie.specs.Walked.{ShorterFirst, entries_under, pairs_under};

use crate::bucket::Bucket;
use crate::counting::count_under;
use crate::lengths::Lengths;
use crate::origin::Origin;
use crate::pair::Filed;
use crate::seen::Seen;
use crate::walk::Walk;
use rg_base::{Ledger, NoMemory, Steps, char_count};
use rg_tree::{Tree, hash_of};
use std::alloc::Global;
use std::marker::Model;

/// Entries under keys. Contracts see the pairs of key and entry, in the order of key, id and place, each once.
///
/// An edit leaves the trie as it is and gives a new one. The pairs stand in a tree by the hashes of their keys; the new tree
/// shares with the old one all but a path.
#[derive(Drop)]
pub struct Trie {
    tree: Tree<Bucket>,
    lengths: Lengths,
    /// No fewer than there are pairs: it is known that they can be counted.
    total: usize,
    seen: Seen,
}

impl Model for Trie {
    ghost use Rattle.std.specs.Prelude.{List};
    ghost use Rattle.rg_trie.specs.declared.pair.Pair.{Pair};
    ghost use Rattle.rg_trie.specs.Hashed.{IsFiled};

    ghost Value = { List Pair };

    ghost view = { λ t. t.seen.value };

    ghost invariant = { λ t. IsFiled t.tree t.lengths.occurs t.total t.seen.value };
}

impl Trie {
    /// No entries. It takes no memory.
    pub fn empty(alloc: Global) -> Trie
        ensures { result ≡ [] }
    {
        Trie {
            tree: Tree::empty(alloc),
            lengths: Lengths::none(),
            total: 0,
            seen: Seen::of(&Origin::Empty),
        }
    }

    /// The trie with this entry under the key; an equal one where the entry stands there already. One edit is counted,
    /// also where memory is refused.
    pub fn insert<L: Ledger>(
        &self,
        alloc: Global,
        key: &str,
        entry: Filed,
        steps: &mut Steps<L>,
    ) -> Result<Trie, NoMemory>
        ensures made { IfOk result
            (λ t. t ≡ with_pair (record { key = chars key.now; entry = entry }) self.now) }
        ensures holds { IfOk result
            (λ t. Adds (record { key = chars key.now; entry = entry }) self.now t) }
        ensures counted { steps.new ≡ one_edit steps.old }
    {
        steps.edit();
        self.with(alloc, key, entry)
    }

    /// The trie without this entry under the key; an equal one where the entry doesn't stand there. One edit is counted,
    /// also where memory is refused.
    pub fn remove<L: Ledger>(
        &self,
        alloc: Global,
        key: &str,
        entry: Filed,
        steps: &mut Steps<L>,
    ) -> Result<Trie, NoMemory>
        ensures made { IfOk result
            (λ t. t ≡ without_pair (record { key = chars key.now; entry = entry }) self.now) }
        ensures holds { IfOk result
            (λ t. Takes (record { key = chars key.now; entry = entry }) self.now t) }
        ensures counted { steps.new ≡ one_edit steps.old }
    {
        steps.edit();
        self.without(alloc, key, entry)
    }

    /// The entries whose key is a prefix of the value, of which the ASCII letters are folded to lower case where `fold` is
    /// set: shorter keys first, then by id and place, each pair of key and entry once. Keys are compared as they were given.
    pub fn walk<'a>(&'a self, value: &'a str, fold: bool) -> Walk<'a>
        ensures given { result ≡ entries_under (folded fold (chars value.now)) self.now }
        ensures ordered { AllPairs ShorterFirst
            (pairs_under (folded fold (chars value.now)) self.now) }
    {
        Walk::over(&self.tree, &self.lengths, value, fold)
    }

    /// How many entries the walk gives. It takes no memory, and looks for two places for each prefix of the value that is a
    /// key, however many pairs have that key.
    pub fn count(&self, value: &str, fold: bool) -> usize
        ensures { result ≡ length (entries_under (folded fold (chars value.now)) self.now) }
    {
        let most = self.most();
        count_under(&self.tree, &self.lengths, value, fold)
    }

    /// The law of the order: the pairs stand in the order of key, id and place, each once. The call does nothing.
    pub fn law_of_order(&self)
        ensures { AllPairs Below self.now }
    {
        let _tree = &self.tree;
    }

    /// No fewer than there are pairs.
    fn most(&self) -> usize
        ensures { length self.now ≤ result }
    {
        self.total
    }

    fn with(&self, alloc: Global, key: &str, entry: Filed) -> Result<Trie, NoMemory>
        ensures { IfOk result
            (λ t. t ≡ with_pair (record { key = chars key.now; entry = entry }) self.now) }
    {
        let Some(total) = self.total.checked_add(1) else {
            return Err(NoMemory);
        };
        let hash = hash_of(key, false);
        let bucket = bucket_with(alloc, self.tree.get(hash), key, entry)?;
        let tree = self.tree.set(alloc, hash, Some(bucket))?;
        Ok(Trie {
            tree,
            lengths: self.lengths.with(char_count(key)),
            total,
            seen: Seen::of(&Origin::With(&self.seen, key, entry)),
        })
    }

    fn without(&self, alloc: Global, key: &str, entry: Filed) -> Result<Trie, NoMemory>
        ensures { IfOk result
            (λ t. t ≡ without_pair (record { key = chars key.now; entry = entry }) self.now) }
    {
        let hash = hash_of(key, false);
        let bucket = bucket_without(alloc, self.tree.get(hash), key, entry)?;
        let tree = self.tree.set(alloc, hash, bucket)?;
        Ok(Trie {
            tree,
            lengths: self.lengths,
            total: self.total,
            seen: Seen::of(&Origin::Without(&self.seen, key, entry)),
        })
    }
}

/// The bucket, empty where there is none, with the entry under the key.
fn bucket_with(
    alloc: Global,
    bucket: Option<&Bucket>,
    key: &str,
    entry: Filed,
) -> Result<Bucket, NoMemory>
    ensures { IfOk result (λ b. b ≡ with_pair (record { key = chars key.now; entry = entry })
        (unwrap_or (option_map (λ b. b.now) bucket.entry) [])) }
{
    match bucket {
        Some(bucket) => bucket.with(alloc, key, entry),
        None => Bucket::empty(alloc).with(alloc, key, entry),
    }
}

/// The bucket without the entry under the key; None where nothing is left in it.
fn bucket_without(
    alloc: Global,
    bucket: Option<&Bucket>,
    key: &str,
    entry: Filed,
) -> Result<Option<Bucket>, NoMemory>
    ensures { IfOk result (λ b. unwrap_or b [] ≡ without_pair (record {
      key = chars key.now;
      entry = entry;
    }) (unwrap_or (option_map (λ b. b.now) bucket.entry) [])) }
{
    let Some(bucket) = bucket else {
        return Ok(None);
    };
    let left = bucket.without(alloc, key, entry)?;
    if left.total() == 0 {
        Ok(None)
    } else {
        Ok(Some(left))
    }
}
