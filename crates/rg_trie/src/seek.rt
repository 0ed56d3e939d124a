// Where a text's place is among the pairs of a trie, by bisection.
ghost use Rattle.std.specs.Prelude.{◌≡◌, ◌≤◌, ◌<◌, ◌+◌, ◌++◌, [], true, false, length, take, drop, slice_index_or};
ghost use Rattle.std.specs.List.{All};
ghost use Rattle.std.specs.Str.{chars};
ghost use Rattle.rg_trie.specs.Blocks.{AreCounted, AreInOrder, IsRising, IsSized, block_limit, block_pairs, pairs_of};
ghost use Rattle.rg_trie.specs.Pairs.{Below, folded};
ghost use Rattle.rg_trie.specs.Sought.{before, ends_passing};

use crate::order::{Mark, is_before};
use crate::pair::{Held, Pair};

/// Whether the last of the pairs comes before the text, where there is one.
pub(crate) fn ends_before(pairs: &[Pair], text: &str, fold: bool, mark: Mark) -> bool
    ensures { result ≡ ends_passing (before (folded fold (chars text.now)) mark) pairs.now }
{
    match pairs.last() {
        None => true,
        Some(pair) => is_before(pair, text, fold, mark),
    }
}

/// How many blocks come wholly before the text.
fn block_of(blocks: &[Held], text: &str, fold: bool, mark: Mark) -> usize
    requires { AreInOrder blocks.now }
    ensures bound { result ≤ length blocks.now }
    ensures passed { All (λ p. before (folded fold (chars text.now)) mark p ≡ true)
        (pairs_of (take result blocks.now)) }
    ensures stopped { (d : _) → result < length blocks.now → ends_passing (before (folded fold
        (chars text.now)) mark) (block_pairs (slice_index_or blocks.now result d)) ≡ false }
{
    blocks.partition_point(|held| ends_before(held.block.pairs.as_slice(), text, fold, mark))
}

/// How many of the pairs come before the text.
pub(crate) fn place_of(pairs: &[Pair], text: &str, fold: bool, mark: Mark) -> usize
    requires { IsRising Below pairs.now }
    ensures bound { result ≤ length pairs.now }
    ensures passed { All (λ p. before (folded fold (chars text.now)) mark p ≡ true)
        (take result pairs.now) }
    ensures left { All (λ p. before (folded fold (chars text.now)) mark p ≡ false)
        (drop result pairs.now) }
{
    pairs.partition_point(|pair| is_before(pair, text, fold, mark))
}

/// A place among the pairs: a block, and a place in it.
#[derive(Clone, Copy)]
struct Spot {
    block: usize,
    place: usize,
}

/// The first place of which the pair doesn't come before the text, or the end.
fn spot_of(blocks: &[Held], text: &str, fold: bool, mark: Mark) -> Spot
    requires { AreInOrder blocks.now }
    ensures bound { result.block ≤ length blocks.now }
    ensures inside { (d : _) → result.block < length blocks.now
        → result.place < length (block_pairs (slice_index_or blocks.now result.block d)) }
    ensures end { length blocks.now ≤ result.block → result.place ≡ 0 }
    ensures passed { All (λ p. before (folded fold (chars text.now)) mark p ≡ true)
        (pairs_of (take result.block blocks.now)
        ++ take result.place (pairs_of (drop result.block blocks.now))) }
    ensures left { All (λ p. before (folded fold (chars text.now)) mark p ≡ false)
        (drop result.place (pairs_of (drop result.block blocks.now))) }
{
    let block = block_of(blocks, text, fold, mark);
    let place = if block < blocks.len() {
        place_of(blocks[block].block.pairs.as_slice(), text, fold, mark)
    } else {
        0
    };
    Spot { block, place }
}

/// The pairs of a trie on both sides of a place: whole blocks, and the two parts of the block that the place lies in.
#[derive(Clone, Copy)]
pub(crate) struct Cut<'a> {
    pub(crate) before: &'a [Held],
    pub(crate) front: &'a [Pair],
    pub(crate) back: &'a [Pair],
    pub(crate) after: &'a [Held],
}

/// The blocks cut at a place. The end counts as a place of the last block, so that a pair beyond all others joins that block.
fn cut_at<'a>(blocks: &'a [Held], spot: Spot) -> Cut<'a>
    requires inside { (d : _) → spot.block < length blocks.now
        → spot.place < length (block_pairs (slice_index_or blocks.now spot.block d)) }
    requires end { length blocks.now ≤ spot.block → spot.place ≡ 0 }
    requires bound { spot.block ≤ length blocks.now }
    requires sized { All IsSized blocks.now }
    ensures first { pairs_of result.before.now ++ result.front.now ≡ pairs_of
        (take spot.block blocks.now) ++ take spot.place (pairs_of (drop spot.block blocks.now)) }
    ensures last { result.back.now ++ pairs_of result.after.now
        ≡ drop spot.place (pairs_of (drop spot.block blocks.now)) }
    ensures before { (k : _) × (result.before.now ≡ take k blocks.now) }
    ensures after { (k : _) × (result.after.now ≡ drop k blocks.now) }
    ensures limited { length result.front.now + length result.back.now ≤ block_limit }
    ensures end { length result.back.now ≡ 0 → result.after.now ≡ [] }
{
    if spot.block < blocks.len() {
        let (front, back) = blocks[spot.block]
            .block
            .pairs
            .as_slice()
            .split_at(spot.place);
        return Cut {
            before: blocks.split_at(spot.block).0,
            front,
            back,
            after: blocks.split_at(spot.block + 1).1,
        };
    }
    match blocks.split_last() {
        None => Cut {
            before: blocks,
            front: &[],
            back: &[],
            after: blocks,
        },
        Some((last, others)) => Cut {
            before: others,
            front: last.block.pairs.as_slice(),
            back: &[],
            after: blocks.split_at(spot.block).1,
        },
    }
}

/// The pairs cut where the first stands that doesn't come before the text.
#[tactic(auto, using(crate::proofs::Rise::cuts))]
pub(crate) fn find<'a>(blocks: &'a [Held], text: &str, fold: bool, mark: Mark) -> Cut<'a>
    requires { AreInOrder blocks.now }
    ensures passed { All (λ p. before (folded fold (chars text.now)) mark p ≡ true)
        (pairs_of result.before.now ++ result.front.now) }
    ensures left { All (λ p. before (folded fold (chars text.now)) mark p ≡ false)
        (result.back.now ++ pairs_of result.after.now) }
    ensures whole { pairs_of blocks.now ≡ (pairs_of result.before.now ++ result.front.now)
        ++ (result.back.now ++ pairs_of result.after.now) }
    ensures sized { All IsSized result.before.now × All IsSized result.after.now }
    ensures counted { AreCounted 0 result.after.now }
    ensures limited { length result.front.now + length result.back.now ≤ block_limit }
    ensures end { length result.back.now ≡ 0 → result.after.now ≡ [] }
{
    let spot = spot_of(blocks, text, fold, mark);
    cut_at(blocks, spot)
}
