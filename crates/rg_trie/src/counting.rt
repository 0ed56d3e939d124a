// How many entries stand under the prefixes of a text.
ghost use Rattle.std.specs.Prelude.{◌≡◌, ◌<◌, ◌^◌, ◌++◌, [], length};
ghost use Rattle.std.specs.Str.{chars};
ghost use Rattle.rg_trie.specs.Blocks.{pairs_of};
ghost use Rattle.rg_trie.specs.Hashed.{Covers, IsFrom, entries_from};
ghost use Rattle.rg_trie.specs.Keyed.{entries_of_key};
ghost use Rattle.rg_trie.specs.Pairs.{folded};
ghost use Rattle.rg_trie.specs.Sought.{IsWalking};

use crate::blocks::total_of;
use crate::bucket::Bucket;
use crate::lengths::Lengths;
use crate::order::Mark;
use crate::pair::{Held, Pair};
use crate::prefix::Prefix;
use crate::walk::{advance, found};
use rg_tree::Tree;

/// How many pairs are left.
fn left_of(back: &[Pair], after: &[Held]) -> usize
    requires walking { IsWalking back.now after.now }
    requires fits { length (back.now ++ pairs_of after.now) < 2 ^ 64 }
    ensures { result ≡ length (back.now ++ pairs_of after.now) }
{
    back.len() + total_of(after)
}

/// How many of the pairs have the prefix as their key. They are counted by the place behind the last of them.
fn run_of(back: &[Pair], after: &[Held], prefix: &Prefix<'_>) -> usize
    requires from { IsFrom prefix.now.seen back.now after.now }
    requires fits { length (back.now ++ pairs_of after.now) < 2 ^ 64 }
    ensures { result ≡ length (entries_of_key prefix.now.seen (back.now ++ pairs_of after.now)) }
{
    let rest = advance(back, after, prefix.seen, prefix.fold, Mark::End);
    left_of(back, after) - left_of(rest.back, rest.after)
}

/// How many entries have a prefix of the value as their key.
pub(crate) fn count_under(tree: &Tree<Bucket>, lengths: &Lengths, value: &str, fold: bool) -> usize
    requires covered { Covers lengths.now.occurs tree.now }
    requires fits { length (entries_from tree.now [] (folded fold (chars value.now))) < 2 ^ 64 }
    ensures { result ≡ length (entries_from tree.now [] (folded fold (chars value.now))) }
{
    let mut prefix = Prefix::first(value, fold);
    let mut count = 0;
    'prefixes: loop {
        let rest = found(tree, lengths, &prefix);
        count += run_of(rest.back, rest.after, &prefix);
        match prefix.next() {
            None => return count,
            Some(longer) => prefix = longer,
        }
    }
}
