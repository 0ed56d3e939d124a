// Whether some text is stood for by two patterns, by a table over the pairs of their rests.
ghost use Rattle.std.specs.Prelude.{◌≡◌, ◌+◌, ◌∷◌, [], IfOk, IfSome, length};
ghost use Rattle.rg_pattern.specs.declared.atoms.Atom.TheVariants.{Character};
ghost use Rattle.rg_pattern.specs.Tests.{is_any, cell, share_char, overlaps};
ghost use Rattle.rg_pattern.specs.Steps.{IsRow};

use crate::atoms::Atom;
use crate::matching::same_char;
use rg_base::NoMemory;
use std::alloc::Global;

fn is_any(atom: Atom) -> bool
    ensures { result ≡ is_any atom }
{
    matches!(atom, Atom::Any)
}

/// Whether two atoms, each of which stands for one character, stand for a common one.
fn share_char(a: Atom, b: Atom, fold: bool) -> bool
    ensures { result ≡ share_char fold a b }
{
    match (a, b) {
        (Atom::Character(c), Atom::Character(d)) => same_char(c, d, fold),
        (Atom::Character(_), Atom::One) | (Atom::One, Atom::Character(_) | Atom::One) => true,
        _ => false,
    }
}

/// The cell of two rests, from their first atoms and the cells below it, right of it, and past both atoms.
fn cell(a: Atom, b: Atom, below: bool, right: bool, diagonal: bool, fold: bool) -> bool
    ensures { result ≡ cell fold a b below right diagonal }
{
    if is_any(a) || is_any(b) {
        below || right
    } else {
        share_char(a, b, fold) && diagonal
    }
}

/// Fills the row of the pattern's end.
fn fill_last_row(other: &[Atom], row: &mut [bool], fold: bool)
    requires { length row.old ≡ length other.now + 1 }
    ensures { IsRow fold [] other.now row.new }
{
    let mut right = true;
    row[other.len()] = right;
    for at in (0..other.len()).rev() {
        right = is_any(other[at]) && right;
        row[at] = right;
    }
}

/// Turns the row of the atoms after `atom` into the row of `atom` and those after it.
fn fill_row(atom: Atom, after: &[Atom], other: &[Atom], row: &mut [bool], fold: bool)
    requires { IsRow fold after.now other.now row.old }
    ensures { IsRow fold (atom ∷ after.now) other.now row.new }
{
    let mut diagonal = row[other.len()];
    let mut right = is_any(atom) && diagonal;
    row[other.len()] = right;
    for at in (0..other.len()).rev() {
        let below = row[at];
        right = cell(atom, other[at], below, right, diagonal, fold);
        diagonal = below;
        row[at] = right;
    }
}

/// The table over these patterns. One row of it is kept, and taken before the walk.
fn table(alloc: Global, pattern: &[Atom], other: &[Atom], fold: bool) -> Result<bool, NoMemory>
    ensures { IfOk result (λ b. b ≡ overlaps fold pattern.now other.now) }
{
    let mut cells = vec![in alloc; false; other.len() + 1]?;
    let row = cells.as_mut_slice();
    fill_last_row(other, row, fold);
    for at in (0..pattern.len()).rev() {
        fill_row(pattern[at], pattern.split_at(at + 1).1, other, row, fold);
    }
    Ok(row[0])
}

/// The first characters of two patterns that both begin with one, and what follows each.
fn leading_characters<'a>(
    pattern: &'a [Atom],
    other: &'a [Atom],
) -> Option<(char, char, &'a [Atom], &'a [Atom])>
    ensures { IfSome result (λ l. (pattern.now ≡ Character l.0 ∷ l.2.now)
        × (other.now ≡ Character l.1 ∷ l.3.now)) }
{
    match (pattern, other) {
        ([Atom::Character(c), after @ ..], [Atom::Character(d), later @ ..]) => {
            Some((*c, *d, after, later))
        }
        _ => None,
    }
}

/// Whether some text is stood for by both patterns. The table begins where one of them has another atom than a
/// character; where the characters before differ there is none.
pub(crate) fn overlaps(
    alloc: Global,
    pattern: &[Atom],
    other: &[Atom],
    fold: bool,
) -> Result<bool, NoMemory>
    ensures { IfOk result (λ b. b ≡ overlaps fold pattern.now other.now) }
{
    let mut pattern = pattern;
    let mut other = other;
    while let Some((c, d, after, later)) = leading_characters(pattern, other) {
        if !same_char(c, d, fold) {
            return Ok(false);
        }
        pattern = after;
        other = later;
    }
    table(alloc, pattern, other, fold)
}
