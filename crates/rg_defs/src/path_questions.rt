// The paths of a definition with its levels, and what is asked of them.
ghost use Rattle.std.specs.Prelude.{◌≡◌, ◌&&◌, ◌++◌, ℕ, None, IfOk, map, option_map};
ghost use Rattle.std.specs.List.{find, list_all, list_any};
ghost use Rattle.rg_base.specs.Listed.{Listed, listed};
ghost use Rattle.rg_defs.specs.PathTests.{lies_on, on_one_path, path_for, paths_of};

use crate::level_paths::{lies_on, paths};
use crate::service_def::{Level, ServiceDef};
use rg_base::{Named, NoMemory, Seq, TryCopy};
use std::alloc::Global;
use std::marker::Model;

fn each_lies_on<T: Named>(levels: &[Level], path: &[u32], things: &[T]) -> bool
    ensures { result ≡ list_all (λ x. lies_on levels.now path.now (T.named x)) things.now }
{
    things
        .iter()
        .all(|thing| lies_on(levels, path, thing.name()))
}

#[tactic(auto, using(crate::proofs::Named::named_lists))]
fn all_lie_on<T: Named>(levels: &[Level], path: &[u32], things: &[T]) -> bool
    ensures { result ≡ list_all (lies_on levels.now path.now) (map T.named things.now) }
{
    each_lies_on(levels, path, things)
}

/// Whether the levels of these things and of those lie on the path.
#[tactic(auto, using(crate::proofs::Named::named_lists))]
fn both_lie_on<T: Named, U: Named>(
    levels: &[Level],
    path: &[u32],
    things: &[T],
    others: &[U],
) -> bool
    ensures { result ≡ list_all (lies_on levels.now path.now)
        (map T.named things.now ++ map U.named others.now) }
{
    all_lie_on(levels, path, things) && all_lie_on(levels, path, others)
}

fn on_some_path<T: Named, U: Named>(
    levels: &[Level],
    paths: &[Seq<u32>],
    things: &[T],
    others: &[U],
) -> bool
    ensures { result ≡ list_any (λ (p : Listed ℕ). list_all (lies_on levels.now p.items)
        (map T.named things.now ++ map U.named others.now)) paths.now }
{
    paths.iter().any(|path| both_lie_on(levels, path.as_slice(), things, others))
}

fn first_path<'a, T: Named>(
    levels: &[Level],
    paths: &'a [Seq<u32>],
    things: &[T],
) -> Option<&'a Seq<u32>>
    ensures { option_map (λ p. p.now) result ≡ find (λ (p : Listed ℕ).
        list_all (lies_on levels.now p.items) (map T.named things.now)) paths.now }
{
    paths
        .iter()
        .find(|path| all_lie_on(levels, path.as_slice(), things))
}

/// The levels of a definition with their paths. Contracts see the levels.
#[derive(Drop)]
pub struct Paths {
    levels: Seq<Level>,
    paths: Seq<Seq<u32>>,
}

impl Model for Paths {
    ghost use Rattle.std.specs.Prelude.{◌≡◌, List, map};
    ghost use Rattle.rg_base.specs.Listed.{listed};
    ghost use Rattle.rg_defs.specs.declared.service_def.Level.{Level};
    ghost use Rattle.rg_defs.specs.PathTests.{paths_of};

    ghost Value = { List Level };

    ghost view = { λ p. p.levels.items };

    ghost invariant = { λ p. p.paths ≡ listed (map listed (paths_of p.levels.items)) };
}

impl Paths {
    /// The levels of the definition, copied, with their paths.
    pub fn of(alloc: Global, def: &ServiceDef) -> Result<Paths, NoMemory>
        ensures { IfOk result (λ p. p ≡ def.now.levels.items) }
    {
        let levels = def.levels.try_copy(alloc)?;
        let paths = paths(alloc, levels.as_slice())?;
        Ok(Paths { levels, paths })
    }

    /// The levels.
    pub fn levels(&self) -> &[Level]
        ensures { result.now ≡ self.now }
    {
        self.levels.as_slice()
    }

    /// The paths from a root to a leaf, as places of levels, in the order of the places of their leaves.
    pub fn as_slice(&self) -> &[Seq<u32>]
        ensures { result.now ≡ map listed (paths_of self.now) }
    {
        self.paths.as_slice()
    }

    /// Whether the levels with the names of all these things lie on the path.
    pub fn all_lie_on<T: Named>(&self, path: &[u32], things: &[T]) -> bool
        ensures { result ≡ list_all (lies_on self.now path.now) (map T.named things.now) }
    {
        all_lie_on(self.levels(), path, things)
    }

    /// Whether levels with the names of all these things lie on one path.
    pub fn on_one_path<T: Named>(&self, things: &[T]) -> bool
        ensures { result ≡ on_one_path self.now (map T.named things.now) }
    {
        let none: &[T] = &[];
        self.both_on_one_path(things, none)
    }

    /// Whether levels with the names of all these things, and of all those, lie on one path.
    pub fn both_on_one_path<T: Named, U: Named>(&self, things: &[T], others: &[U]) -> bool
        ensures { result ≡ on_one_path self.now (map T.named things.now ++ map U.named others.now) }
    {
        on_some_path(self.levels(), self.as_slice(), things, others)
    }

    /// The first path on which the levels with the names of all these things lie, None where there is none.
    pub fn path_for<T: Named>(&self, things: &[T]) -> Option<&[u32]>
        ensures { option_map (λ p. p.now) result ≡ path_for self.now (map T.named things.now) }
    {
        match first_path(self.levels(), self.as_slice(), things) {
            Some(path) => Some(path.as_slice()),
            None => None,
        }
    }
}
