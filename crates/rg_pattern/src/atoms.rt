// Patterns as lists of atoms.
use std::marker::Model;

/// One atom of a pattern.
#[derive(Clone, Copy, Debug, PartialEq, Eq)]
pub enum Atom {
    /// This character.
    Character(char),
    /// Any one character, written `?`.
    One,
    /// Any characters, also none and also `/`, written `*`.
    Any,
    /// The asking user's name, written `{USER}`.
    User,
}

/// A pattern of resource values, as in Ranger's wildcard matcher. Contracts see its atoms in order.
#[derive(Drop)]
pub struct Pattern {
    pub(crate) atoms: Vec<Atom>,
}

impl Model for Pattern {
    ghost use Rattle.std.specs.Prelude.{List, IsTrue};
    ghost use Rattle.rg_pattern.specs.declared.atoms.Atom.{Atom};
    ghost use Rattle.rg_pattern.specs.Atoms.{are_scalars};

    ghost Value = { List Atom };

    ghost view = { λ p. p.atoms.items };

    ghost invariant = { λ p. IsTrue (are_scalars p.atoms.items) };
}

/// Why a written value is no pattern.
#[derive(Clone, Copy, Debug, PartialEq, Eq)]
pub enum PatternFault {
    /// It has no character.
    Empty,
    /// It has more than 256 characters.
    TooLong,
    /// Memory was refused.
    NoMemory,
}
