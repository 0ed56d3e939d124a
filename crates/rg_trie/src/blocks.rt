// Lists of blocks that a new trie is made of: blocks that it shares, and blocks of its own.
ghost use Rattle.std.specs.Prelude.{◌≡◌, ◌++◌, ◌∷◌, ◌+◌, ◌<◌, ◌≤◌, [], length, drop, IfOk, OnOk};
ghost use Rattle.std.specs.List.{All};
ghost use Rattle.std.specs.Str.{chars};
ghost use Rattle.rg_trie.specs.Blocks.{AreCounted, Grows, HasSize, IsSized, block_limit, pairs_of, shared_pairs};

use crate::pair::{Block, Filed, Held, Pair};
use rg_base::{NoMemory, TryCopy};
use std::alloc::Global;
use std::sync::Arc;

/// How many pairs a block has at most.
const BLOCK_LIMIT: usize = 64;

/// The blocks that a trie begins with, and how many of its pairs are still to come.
#[derive(Drop)]
pub(crate) struct Growing {
    pub(crate) blocks: Vec<Held>,
    pub(crate) lacking: usize,
}

impl Growing {
    /// No blocks, with room for so many, and so many pairs to come.
    pub(crate) fn with_room(alloc: Global, blocks: usize, pairs: usize) -> Result<Growing, NoMemory>
        ensures { IfOk result (λ g. (g.blocks.items ≡ []) × (g.lacking ≡ pairs)) }
    {
        Ok(Growing {
            blocks: Vec::with_capacity(alloc, blocks)?,
            lacking: pairs,
        })
    }
}

/// Adds a block at the end.
fn add_block(growing: &mut Growing, block: Arc<Block>) -> Result<(), NoMemory>
    requires sized { HasSize (shared_pairs block) }
    requires enough { length (shared_pairs block) ≤ growing.old.lacking }
    ensures { OnOk result (Grows (shared_pairs block) growing.old growing.new) }
{
    let pairs = block.pairs.as_slice().len();
    let held = Held {
        block,
        left: growing.lacking,
    };
    match growing.blocks.push(held) {
        Ok(()) => {}
        Err(_) => return Err(NoMemory),
    }
    growing.lacking -= pairs;
    Ok(())
}

/// Adds the same blocks at the end.
pub(crate) fn share(growing: &mut Growing, blocks: &[Held]) -> Result<(), NoMemory>
    requires sized { All IsSized blocks.now }
    requires enough { length (pairs_of blocks.now) ≤ growing.old.lacking }
    ensures { OnOk result (Grows (pairs_of blocks.now) growing.old growing.new) }
{
    for held in blocks {
        let Ok(again) = Arc::try_clone(&held.block) else {
            return Err(NoMemory);
        };
        add_block(growing, again)?;
    }
    Ok(())
}

/// Adds copies of the pairs at the end.
fn copy_pairs(alloc: Global, held: &mut Vec<Pair>, pairs: &[Pair]) -> Result<(), NoMemory>
    ensures { OnOk result (held.new.items ≡ held.old.items ++ pairs.now) }
{
    for pair in pairs {
        let again = pair.try_copy(alloc)?;
        if held.push(again).is_err() {
            return Err(NoMemory);
        }
    }
    Ok(())
}

/// Copies of the pairs of both lists.
pub(crate) fn both(alloc: Global, front: &[Pair], back: &[Pair]) -> Result<Vec<Pair>, NoMemory>
    ensures { IfOk result (λ v. v.items ≡ front.now ++ back.now) }
{
    let mut pairs = Vec::with_capacity(alloc, front.len().saturating_add(back.len()))?;
    copy_pairs(alloc, &mut pairs, front)?;
    copy_pairs(alloc, &mut pairs, back)?;
    Ok(pairs)
}

/// Copies of the pairs of both lists, and one more between them.
pub(crate) fn with_between(
    alloc: Global,
    front: &[Pair],
    key: &str,
    entry: Filed,
    back: &[Pair],
) -> Result<Vec<Pair>, NoMemory>
    ensures { IfOk result
        (λ v. v.items ≡ front.now ++ (record { key = chars key.now; entry = entry }) ∷ back.now) }
{
    let room = front.len().saturating_add(back.len()).saturating_add(1);
    let mut pairs = Vec::with_capacity(alloc, room)?;
    copy_pairs(alloc, &mut pairs, front)?;
    let pair = Pair::new(alloc, key, entry)?;
    match pairs.push(pair) {
        Ok(()) => {}
        Err(_) => return Err(NoMemory),
    }
    copy_pairs(alloc, &mut pairs, back)?;
    Ok(pairs)
}

/// Adds a block of these pairs at the end, unless there are none.
fn add_new(alloc: Global, growing: &mut Growing, pairs: Vec<Pair>) -> Result<(), NoMemory>
    requires limited { length pairs.items ≤ block_limit }
    requires enough { length pairs.items ≤ growing.old.lacking }
    ensures { OnOk result (Grows pairs.items growing.old growing.new) }
{
    if pairs.is_empty() {
        return Ok(());
    }
    let Ok(block) = Arc::new(alloc, Block { pairs }) else {
        return Err(NoMemory);
    };
    add_block(growing, block)
}

/// Adds the pairs at the end, in a block of their own, or in two where they are too many for one.
pub(crate) fn add_pairs(
    alloc: Global,
    growing: &mut Growing,
    pairs: Vec<Pair>,
) -> Result<(), NoMemory>
    requires limited { length pairs.items ≤ block_limit + 1 }
    requires enough { length pairs.items ≤ growing.old.lacking }
    ensures { OnOk result (Grows pairs.items growing.old growing.new) }
{
    let mut pairs = pairs;
    if pairs.len() <= BLOCK_LIMIT {
        return add_new(alloc, growing, pairs);
    }
    let Ok(back) = pairs.split_off(BLOCK_LIMIT / 2) else {
        return Err(NoMemory);
    };
    add_new(alloc, growing, pairs)?;
    add_new(alloc, growing, back)?;
    Ok(())
}

/// How many pairs the blocks hold.
pub(crate) fn total_of(blocks: &[Held]) -> usize
    requires { AreCounted 0 blocks.now }
    ensures { result ≡ length (pairs_of blocks.now) }
{
    match blocks.first() {
        None => 0,
        Some(held) => held.left,
    }
}

/// The pairs after the first.
pub(crate) fn all_but_first(pairs: &[Pair]) -> &[Pair]
    ensures { result.now ≡ drop 1 pairs.now }
{
    match pairs.split_first() {
        None => pairs,
        Some((_, others)) => others,
    }
}
