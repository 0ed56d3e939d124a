// The tree, and how a value is found in it.
ghost use Rattle.std.specs.Prelude.{◌≡◌, ℕ, None, IfOk, Option, cond, option_map, ◌==◌};
ghost use Rattle.rg_tree.specs.Trees.{at, found, left_at, value_of};

use crate::edit::set;
use rg_base::{NoMemory, TryCopy};
use std::alloc::Global;
use std::sync::Arc;

/// A value under its key.
#[derive(Drop)]
pub struct Placed<V> {
    pub key: u64,
    pub value: V,
}

/// Values by their keys. At each fork the two lowest bits that are left of a key tell the way.
#[derive(Drop)]
pub enum Tree<V> {
    Leaf(Vec<Placed<V>>),
    Fork(Arc<Tree<V>>, Arc<Tree<V>>, Arc<Tree<V>>, Arc<Tree<V>>),
}

/// The value of the first of these that has the key.
fn value_of<V>(placed: &[Placed<V>], key: u64) -> Option<&V>
    ensures { option_map (λ v. v.now) result ≡ value_of key placed.now }
{
    let mut rest = placed;
    while let Some((first, others)) = rest.split_first() {
        if first.key == key {
            return Some(&first.value);
        }
        rest = others;
    }
    None
}

/// The value under the key, of which these bits are left.
fn found<V>(tree: &Tree<V>, key: u64, bits: u64) -> Option<&V>
    ensures { option_map (λ v. v.now) result ≡ found tree.now key bits }
{
    match tree {
        Tree::Leaf(placed) => value_of(placed.as_slice(), key),
        Tree::Fork(a, b, c, d) => match bits % 4 {
            0 => found(a, key, bits / 4),
            1 => found(b, key, bits / 4),
            2 => found(c, key, bits / 4),
            _ => found(d, key, bits / 4),
        },
    }
}

impl<V> Tree<V> {
    /// The value under the key.
    pub fn get(&self, key: u64) -> Option<&V>
        ensures { option_map (λ v. v.now) result ≡ at key self.now }
    {
        found(self, key, key)
    }
}

impl<V: TryCopy + Drop> Tree<V> {
    /// A tree with no values. It takes no memory.
    pub fn empty(alloc: Global) -> Tree<V>
        ensures { (key : ℕ) → at key result ≡ None }
    {
        Tree::Leaf(Vec::new(alloc))
    }

    /// The tree with this value, or none, under the key. It shares all but a path with this one, which stays as it is.
    pub fn set(&self, alloc: Global, key: u64, value: Option<V>) -> Result<Tree<V>, NoMemory>
        ensures { IfOk result (λ t. (k : ℕ) → at k t ≡ cond (k == key) value (at k self.now)) }
    {
        set(alloc, self, key, key, 0, value)
    }
}
