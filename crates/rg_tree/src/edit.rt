// Trees with a value more or less.
ghost use Rattle.std.specs.Prelude.{◌≡◌, ◌<◌, IfOk};
ghost use Rattle.std.specs.Arc.{arc_value};
ghost use Rattle.rg_tree.specs.Trees.{Holds, HoldsAll, IsForked, going, left_at, others, set_in};

use crate::tree::{Placed, Tree};
use rg_base::{NoMemory, TryCopy};
use std::alloc::Global;
use std::sync::Arc;

/// How many values a leaf has at most, but at the greatest depth.
const LEAF_LIMIT: usize = 8;

/// How many forks lie on a path at most.
const DEPTH_LIMIT: u32 = 31;

/// The bits of a key that are left at this depth.
fn left_at(depth: u32, key: u64) -> u64
    ensures { result ≡ left_at depth key }
{
    if depth == 0 {
        key
    } else {
        left_at(depth - 1, key) / 4
    }
}

impl<V: TryCopy> TryCopy for Placed<V> {
    fn try_copy(&self, alloc: Global) -> Result<Placed<V>, NoMemory> {
        Ok(Placed {
            key: self.key,
            value: self.value.try_copy(alloc)?,
        })
    }
}

/// Copies of those that go this way from this depth.
fn going<V: TryCopy + Drop>(
    alloc: Global,
    placed: &[Placed<V>],
    depth: u32,
    number: u64,
) -> Result<Vec<Placed<V>>, NoMemory>
    ensures { IfOk result (λ v. v.items ≡ going depth number placed.now) }
{
    let mut held = Vec::new(alloc);
    for one in placed {
        if left_at(depth, one.key) % 4 == number {
            held.push(one.try_copy(alloc)?)?;
        }
    }
    Ok(held)
}

/// Copies of those that have another key.
fn others<V: TryCopy + Drop>(
    alloc: Global,
    placed: &[Placed<V>],
    key: u64,
) -> Result<Vec<Placed<V>>, NoMemory>
    ensures { IfOk result (λ v. v.items ≡ others key placed.now) }
{
    let mut held = Vec::with_capacity(alloc, placed.len().saturating_add(1))?;
    for one in placed {
        if one.key != key {
            held.push(one.try_copy(alloc)?)?;
        }
    }
    Ok(held)
}

/// A fork with these in four leaves.
#[tactic(auto, using(crate::proofs::Sets::value_of_going))]
fn forked<V: TryCopy + Drop>(
    alloc: Global,
    placed: &[Placed<V>],
    depth: u32,
) -> Result<Tree<V>, NoMemory>
    ensures { IfOk result (λ t. HoldsAll depth placed.now t) }
{
    let a = Arc::new(alloc, Tree::Leaf(going(alloc, placed, depth, 0)?))?;
    let b = Arc::new(alloc, Tree::Leaf(going(alloc, placed, depth, 1)?))?;
    let c = Arc::new(alloc, Tree::Leaf(going(alloc, placed, depth, 2)?))?;
    let d = Arc::new(alloc, Tree::Leaf(going(alloc, placed, depth, 3)?))?;
    Ok(Tree::Fork(a, b, c, d))
}

/// A tree with these at this depth: a leaf, or a fork where they are too many for one.
fn tree_of<V: TryCopy + Drop>(
    alloc: Global,
    placed: Vec<Placed<V>>,
    depth: u32,
) -> Result<Tree<V>, NoMemory>
    ensures { IfOk result (λ t. HoldsAll depth placed.items t) }
{
    if placed.len() > LEAF_LIMIT && depth < DEPTH_LIMIT {
        forked(alloc, placed.as_slice(), depth)
    } else {
        Ok(Tree::Leaf(placed))
    }
}

/// A leaf's values with this one, or none, under the key.
fn leaf_with<V: TryCopy + Drop>(
    alloc: Global,
    placed: &[Placed<V>],
    key: u64,
    value: Option<V>,
) -> Result<Vec<Placed<V>>, NoMemory>
    ensures { IfOk result (λ v. v.items ≡ set_in key value placed.now) }
{
    let mut held = others(alloc, placed, key)?;
    if let Some(value) = value {
        held.push(Placed { key, value })?;
    }
    Ok(held)
}

/// The same tree, shared.
fn share<V: Drop>(tree: &Arc<Tree<V>>) -> Result<Arc<Tree<V>>, NoMemory>
    ensures { IfOk result (λ t. arc_value t ≡ arc_value tree.now) }
{
    match Arc::try_clone(tree) {
        Ok(again) => Ok(again),
        Err(_) => Err(NoMemory),
    }
}

/// A fork with these, but for the one of this number, in whose place the other stands.
fn forked_with<V: Drop>(
    alloc: Global,
    a: &Arc<Tree<V>>,
    b: &Arc<Tree<V>>,
    c: &Arc<Tree<V>>,
    d: &Arc<Tree<V>>,
    number: u64,
    next: Tree<V>,
) -> Result<Tree<V>, NoMemory>
    requires { number < 4 }
    ensures { IfOk result (λ t. IsForked number
        (arc_value a.now) (arc_value b.now) (arc_value c.now) (arc_value d.now) next t) }
{
    let next = Arc::new(alloc, next)?;
    let a = share(a)?;
    let b = share(b)?;
    let c = share(c)?;
    let d = share(d)?;
    match number {
        0 => Ok(Tree::Fork(next, b, c, d)),
        1 => Ok(Tree::Fork(a, next, c, d)),
        2 => Ok(Tree::Fork(a, b, next, d)),
        _ => Ok(Tree::Fork(a, b, c, next)),
    }
}

/// The tree with the value, or none, under the key, of which these bits are left at this depth.
pub(crate) fn set<V: TryCopy + Drop>(
    alloc: Global,
    tree: &Tree<V>,
    key: u64,
    bits: u64,
    depth: u32,
    value: Option<V>,
) -> Result<Tree<V>, NoMemory>
    requires bits { bits ≡ left_at depth key }
    ensures { IfOk result (λ t. Holds depth key value tree.now t) }
{
    match tree {
        Tree::Leaf(placed) => {
            let held = leaf_with(alloc, placed.as_slice(), key, value)?;
            tree_of(alloc, held, depth)
        }
        Tree::Fork(a, b, c, d) => {
            let Some(below) = depth.checked_add(1) else {
                return Err(NoMemory);
            };
            match bits % 4 {
                0 => {
                    let next = set(alloc, a, key, bits / 4, below, value)?;
                    forked_with(alloc, a, b, c, d, 0, next)
                }
                1 => {
                    let next = set(alloc, b, key, bits / 4, below, value)?;
                    forked_with(alloc, a, b, c, d, 1, next)
                }
                2 => {
                    let next = set(alloc, c, key, bits / 4, below, value)?;
                    forked_with(alloc, a, b, c, d, 2, next)
                }
                3 => {
                    let next = set(alloc, d, key, bits / 4, below, value)?;
                    forked_with(alloc, a, b, c, d, 3, next)
                }
                _ => Err(NoMemory),
            }
        }
    }
}
