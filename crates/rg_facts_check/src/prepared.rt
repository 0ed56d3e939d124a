// Facts with what is worked out of them once.
ghost use Rattle.std.specs.Prelude.{◌≡◌};
ghost use Rattle.rg_roles.specs.Members.{names_of};

use rg_base::NameIndex;
use rg_defs::{PathedDef, Paths};
use rg_facts::Facts;
use std::marker::Model;

/// Facts, with the paths of their definition and the names of their roles, which are worked out once for all that is
/// asked of them. Contracts see the facts.
#[derive(Drop)]
pub(crate) struct Prepared<'a> {
    pub facts: &'a Facts,
    pub paths: &'a Paths,
    pub roles: &'a NameIndex,
}

impl<'a> Model for Prepared<'a> {
    ghost use Rattle.std.specs.Prelude.{◌≡◌};
    ghost use Rattle.rg_facts.specs.declared.facts.Facts.{Facts as Given};
    ghost use Rattle.rg_roles.specs.Members.{names_of};

    ghost Value = { Given };

    ghost view = { λ p. p.facts.now };

    ghost invariant = { λ p. (p.paths.now ≡ p.facts.now.def.levels.items)
        × (p.roles.now ≡ names_of p.facts.now.roles.items) };
}

impl<'a> Prepared<'a> {
    /// The facts.
    pub(crate) fn facts(&self) -> &'a Facts
        ensures { result.now ≡ self.now }
    {
        self.facts
    }

    /// The names of their roles.
    pub(crate) fn roles(&self) -> &'a NameIndex
        ensures { result.now ≡ names_of self.now.roles.items }
    {
        self.roles
    }

    /// The paths of their definition.
    pub(crate) fn paths(&self) -> &'a Paths
        ensures { result.now ≡ self.now.def.levels.items }
    {
        self.paths
    }

    /// Their definition, with its paths.
    pub(crate) fn def(&self) -> PathedDef<'a>
        ensures { result ≡ self.now.def }
    {
        PathedDef {
            def: &self.facts.def,
            paths: self.paths,
        }
    }
}
