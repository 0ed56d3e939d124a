// The entries under the prefixes of a text.
ghost use Rattle.std.specs.Prelude.{◌≡◌, ◌<◌, ◌^◌, ◌++◌, ◌∷◌, [], true, false, length, MatchOption, List};
ghost use Rattle.std.specs.List.{All};
ghost use Rattle.std.specs.Str.{chars};
ghost use Rattle.std.specs.Iterator.{YieldsFirst, item_count};
ghost use Rattle.rg_trie.specs.declared.pair.Pair.{Pair};
ghost use Rattle.rg_trie.specs.Blocks.{pairs_of};
ghost use Rattle.rg_trie.specs.Hashed.{Covers, IsFrom, entries_at, entries_from, entries_left};
ghost use Rattle.rg_trie.specs.Keyed.{entries_of_key};
ghost use Rattle.rg_trie.specs.Pairs.{folded};
ghost use Rattle.rg_trie.specs.Sought.{IsWalking, before, is_past};

use crate::blocks::total_of;
use crate::bucket::Bucket;
use crate::lengths::Lengths;
use crate::order::{Mark, is_before};
use crate::pair::{Filed, Held, Pair};
use crate::prefix::Prefix;
use crate::seek::{ends_before, find, place_of};
use rg_tree::Tree;
use std::marker::Model;

/// Pairs that are left: the rest of a block, and the blocks after it.
#[derive(Clone, Copy)]
pub(crate) struct Rest<'a> {
    pub(crate) back: &'a [Pair],
    pub(crate) after: &'a [Held],
}

/// The same pairs, beginning in a block if there are any.
fn opened<'a>(back: &'a [Pair], after: &'a [Held]) -> Rest<'a>
    requires { IsWalking back.now after.now }
    ensures same { result.back.now ++ pairs_of result.after.now ≡ back.now ++ pairs_of after.now }
    ensures walking { IsWalking result.back.now result.after.now }
    ensures end { result.back.now ≡ [] → result.after.now ≡ [] }
{
    if !back.is_empty() {
        return Rest { back, after };
    }
    match after.split_first() {
        None => Rest { back, after },
        Some((held, others)) => Rest {
            back: held.block.pairs.as_slice(),
            after: others,
        },
    }
}

/// The pairs from the first on that doesn't come before the mark of the text as key.
pub(crate) fn advance<'a>(
    back: &'a [Pair],
    after: &'a [Held],
    text: &str,
    fold: bool,
    mark: Mark,
) -> Rest<'a>
    requires { IsWalking back.now after.now }
    ensures passed { (passed : List Pair) × (back.now ++ pairs_of after.now
        ≡ passed ++ (result.back.now ++ pairs_of result.after.now))
        × All (λ p. before (folded fold (chars text.now)) mark p ≡ true) passed }
    ensures left { All (λ p. before (folded fold (chars text.now)) mark p ≡ false)
        (result.back.now ++ pairs_of result.after.now) }
    ensures walking { IsWalking result.back.now result.after.now }
{
    if ends_before(back, text, fold, mark) {
        let cut = find(after, text, fold, mark);
        return Rest {
            back: cut.back,
            after: cut.after,
        };
    }
    let place = place_of(back, text, fold, mark);
    Rest {
        back: back.split_at(place).1,
        after,
    }
}

/// No pairs.
fn nothing<'a>() -> Rest<'a>
    ensures back { result.back.now ≡ [] }
    ensures after { result.after.now ≡ [] }
{
    Rest {
        back: &[],
        after: &[],
    }
}

/// Whether the first pair doesn't come before those of the prefix, so that none does.
fn is_past(pairs: &[Pair], prefix: &Prefix<'_>) -> bool
    ensures { result ≡ is_past prefix.now.seen pairs.now }
{
    match pairs.first() {
        Some(pair) => !is_before(pair, prefix.seen, prefix.fold, Mark::Start),
        None => false,
    }
}

/// The pairs of the bucket from the first on of which the key is the prefix or comes after it. Nearly always that is its first pair,
/// since its keys have one hash.
fn from_key<'a>(bucket: &'a Bucket, prefix: &Prefix<'_>) -> Rest<'a>
    ensures from { IsFrom prefix.now.seen result.back.now result.after.now }
    ensures fits { length (result.back.now ++ pairs_of result.after.now) < 2 ^ 64 }
    ensures same { entries_of_key prefix.now.seen (result.back.now ++ pairs_of result.after.now)
        ≡ entries_of_key prefix.now.seen bucket.now }
{
    let blocks = bucket.blocks.as_slice();
    let total = total_of(blocks);
    let whole = opened(&[], blocks);
    if is_past(whole.back, prefix) {
        return whole;
    }
    advance(&[], blocks, prefix.seen, prefix.fold, Mark::Start)
}

/// The pairs from the first on of which the key is the prefix, or comes after it and has the same hash.
pub(crate) fn found<'a>(tree: &'a Tree<Bucket>, lengths: &Lengths, prefix: &Prefix<'_>) -> Rest<'a>
    requires { Covers lengths.now.occurs tree.now }
    ensures from { IsFrom prefix.now.seen result.back.now result.after.now }
    ensures fits { length (result.back.now ++ pairs_of result.after.now) < 2 ^ 64 }
    ensures same { entries_of_key prefix.now.seen (result.back.now ++ pairs_of result.after.now)
        ≡ entries_at tree.now prefix.now.seen }
{
    if !lengths.may_occur(prefix.count()) {
        return nothing();
    }
    match tree.get(prefix.hash()) {
        None => nothing(),
        Some(bucket) => from_key(bucket, prefix),
    }
}

/// A walk after one step: the pairs that are left, and the entry that was found.
#[derive(Clone, Copy)]
struct Step<'a> {
    rest: Rest<'a>,
    found: Option<Filed>,
}

/// The first entry, if its key is the prefix.
fn first_entry<'a>(back: &'a [Pair], after: &'a [Held], prefix: &Prefix<'_>) -> Step<'a>
    requires { IsFrom prefix.now.seen back.now after.now }
    ensures from { IsFrom prefix.now.seen result.rest.back.now result.rest.after.now }
    ensures found { MatchOption result.found
        ((entries_of_key prefix.now.seen (back.now ++ pairs_of after.now) ≡ []) × (entries_of_key
        prefix.now.seen (result.rest.back.now ++ pairs_of result.rest.after.now) ≡ []))
        (λ e. entries_of_key prefix.now.seen (back.now ++ pairs_of after.now) ≡ e ∷ entries_of_key prefix.now.seen (result.rest.back.now ++ pairs_of result.rest.after.now)) }
{
    let open = opened(back, after);
    let Some((first, others)) = open.back.split_first() else {
        return Step {
            rest: open,
            found: None,
        };
    };
    if prefix.is(first.key.as_str()) {
        let rest = Rest {
            back: others,
            after: open.after,
        };
        return Step {
            rest,
            found: Some(first.entry),
        };
    }
    Step {
        rest: open,
        found: None,
    }
}

/// The first entry under a prefix or a longer one: that prefix, and what is left of the pairs that were found for it.
#[derive(Drop)]
struct Far<'a> {
    prefix: Prefix<'a>,
    rest: Rest<'a>,
    found: Option<Filed>,
}

/// The first entry among these pairs, which were found for the prefix, or else under a longer prefix.
fn first_left<'a>(
    tree: &'a Tree<Bucket>,
    lengths: &Lengths,
    prefix: Prefix<'a>,
    rest: Rest<'a>,
) -> Far<'a>
    requires covered { Covers lengths.now.occurs tree.now }
    requires from { IsFrom prefix.seen rest.back.now rest.after.now }
    ensures from { IsFrom result.prefix.seen result.rest.back.now result.rest.after.now }
    ensures found { MatchOption result.found
        ((entries_left tree.now prefix.entry rest.entry.back.now rest.entry.after.now ≡ [])
        × (entries_left tree.now result.prefix result.rest.back.now result.rest.after.now ≡ []))
        (λ e. entries_left tree.now prefix.entry rest.entry.back.now rest.entry.after.now ≡ e ∷ entries_left tree.now result.prefix result.rest.back.now result.rest.after.now) }
{
    let mut prefix = prefix;
    let mut left = rest;
    'prefixes: loop {
        let step = first_entry(left.back, left.after, &prefix);
        if let Some(entry) = step.found {
            return Far {
                prefix,
                rest: step.rest,
                found: Some(entry),
            };
        }
        let Some(longer) = prefix.next() else {
            return Far {
                prefix,
                rest: step.rest,
                found: None,
            };
        };
        left = found(tree, lengths, &longer);
        prefix = longer;
    }
}

/// The entries that a walk still gives, and contracts see that list. See [`Trie::walk`](crate::Trie::walk).
#[derive(Drop)]
pub struct Walk<'a> {
    tree: &'a Tree<Bucket>,
    lengths: &'a Lengths,
    prefix: Prefix<'a>,
    /// What is left of the pairs that were found for the prefix.
    rest: Rest<'a>,
}

impl<'a> Model for Walk<'a> {
    ghost use Rattle.std.specs.Prelude.{List};
    ghost use Rattle.rg_trie.specs.declared.pair.Filed.{Filed};
    ghost use Rattle.rg_trie.specs.Hashed.{Covers, IsFrom, entries_left};

    ghost Value = { List Filed };

    ghost view = { λ w. entries_left w.tree.now w.prefix w.rest.back.now w.rest.after.now };

    ghost invariant = { λ w. IsFrom w.prefix.seen w.rest.back.now w.rest.after.now
        × Covers w.lengths.now.occurs w.tree.now };
}

impl<'a> Walk<'a> {
    /// A walk over all prefixes of the value.
    pub(crate) fn over(
        tree: &'a Tree<Bucket>,
        lengths: &'a Lengths,
        value: &'a str,
        fold: bool,
    ) -> Walk<'a>
        requires { Covers lengths.now.occurs tree.now }
        ensures { result ≡ entries_from tree.now [] (folded fold (chars value.now)) }
    {
        let prefix = Prefix::first(value, fold);
        let rest = found(tree, lengths, &prefix);
        Walk {
            tree,
            lengths,
            prefix,
            rest,
        }
    }
}

impl<'a> Iterator for Walk<'a> {
    type Item = Filed;

    ghost next_gives = { YieldsFirst (λ w. w) };

    ghost remaining = { item_count (λ w. w) };

    fn next(&mut self) -> Option<Filed> {
        let far = first_left(self.tree, self.lengths, self.prefix.again(), self.rest);
        self.prefix = far.prefix;
        self.rest = far.rest;
        far.found
    }
}
