// Patterns from written values.
ghost use Rattle.std.specs.Prelude.{◌≡◌, ◌<◌, ◌↔◌, ◌∷◌, [], IfOk, IsErrOf, MatchOption, length, nat_lt};
ghost use Rattle.std.specs.Str.{chars};
ghost use Rattle.rg_pattern.specs.Reading.{atom_of, atoms_of};

use crate::atoms::{Atom, Pattern, PatternFault};
use crate::matching::strip_prefix;
use rg_base::{NoMemory, split_char};
use std::alloc::Global;

/// The most characters of a written value.
const MAX_CHARACTERS: usize = 256;

/// The atom of a character that begins no `{USER}`.
fn atom_of(c: char, wild: bool) -> Atom
    ensures { result ≡ atom_of wild c }
{
    match c {
        '*' if wild => Atom::Any,
        '?' if wild => Atom::One,
        _ => Atom::Character(c),
    }
}

/// The first atom of a written value, and what follows it.
pub(crate) fn split_atom(text: &str, wild: bool) -> Option<(Atom, &str)>
    ensures read { MatchOption result (chars text.now ≡ [])
        (λ p. atoms_of wild (chars text.now) ≡ p.0 ∷ atoms_of wild (chars p.1.now)) }
    ensures shorter { MatchOption result (chars text.now ≡ [])
        (λ p. length (chars p.1.now) < length (chars text.now)) }
{
    let (c, rest) = split_char(text)?;
    match strip_prefix(text, "{USER}", false) {
        Some(rest) => Some((Atom::User, rest)),
        None => Some((atom_of(c, wild), rest)),
    }
}

/// Whether a text has more characters than the limit.
fn is_longer(text: &str, limit: usize) -> bool
    ensures { result ≡ nat_lt limit (length (chars text.now)) }
{
    let mut rest = text;
    let mut left = limit;
    while let Some((_, more)) = split_char(rest) {
        if left == 0 {
            return true;
        }
        left -= 1;
        rest = more;
    }
    false
}

/// The atoms of a written value.
fn read_atoms(alloc: Global, text: &str, wild: bool) -> Result<Vec<Atom>, NoMemory>
    ensures { IfOk result (λ v. v.items ≡ atoms_of wild (chars text.now)) }
{
    let mut atoms = Vec::new(alloc);
    let mut rest = text;
    while let Some((atom, more)) = split_atom(rest, wild) {
        atoms.push(atom)?;
        rest = more;
    }
    Ok(atoms)
}

impl Pattern {
    /// The pattern of a written value of 1 to 256 characters. `*` and `?` have their meaning where `wild` is
    /// set, which is the wildCard option of the resource level; `{USER}` always has its meaning.
    pub fn parse(alloc: Global, text: &str, wild: bool) -> Result<Pattern, PatternFault>
        ensures read { IfOk result (λ p. p ≡ atoms_of wild (chars text.now)) }
        ensures empty { IsErrOf result PatternFault.Empty ↔ (chars text.now ≡ []) }
        ensures too_long { IsErrOf result PatternFault.TooLong ↔ (256 < length (chars text.now)) }
    {
        if split_char(text).is_none() {
            return Err(PatternFault::Empty);
        }
        if is_longer(text, MAX_CHARACTERS) {
            return Err(PatternFault::TooLong);
        }
        match read_atoms(alloc, text, wild) {
            Ok(atoms) => Ok(Pattern { atoms }),
            Err(NoMemory) => Err(PatternFault::NoMemory),
        }
    }
}
