// Laws of paths, each the contract of a function that does nothing.
ghost use Rattle.std.specs.Prelude.{◌≡◌, ◌↔◌, ◌<◌, ℕ, List, IsTrue, None, length};
ghost use Rattle.std.specs.List.{Contains};
ghost use Rattle.rg_defs.specs.declared.service_def.ServiceDef.{ServiceDef};
ghost use Rattle.rg_defs.specs.Paths.{IsAncestor, IsPath};
ghost use Rattle.rg_defs.specs.PathTests.{is_above, paths_of};
ghost use Rattle.rg_defs.specs.Rules.{def_fault};

/// The computed paths of a lawful definition are exactly the chains of its levels from a root to a leaf.
pub fn paths_are_all()
    ensures { (def : ServiceDef) → def_fault def ≡ None → (path : List ℕ)
        → Contains (paths_of def.levels.items) path ↔ IsPath def.levels.items path }
{}

/// Every level of a lawful definition lies on a path.
pub fn levels_lie_on_paths()
    ensures { (def : ServiceDef) → def_fault def ≡ None
        → (place : ℕ) → place < length def.levels.items
        → (path : List ℕ) × Contains (paths_of def.levels.items) path × Contains path place }
{}

/// The test of two names decides, for a lawful definition, whether the level of the one is an ancestor of that of the other.
pub fn above_is_decided()
    ensures { (def : ServiceDef) → def_fault def ≡ None → (upper lower : List ℕ)
        → IsTrue (is_above def.levels.items upper lower) ↔ IsAncestor def.levels.items upper lower }
{}
