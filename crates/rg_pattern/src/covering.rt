// Whether one pattern covers another, by the same walk as over a text.
ghost use Rattle.std.specs.Prelude.{◌≡◌};
ghost use Rattle.rg_pattern.specs.Tests.{covers, covers_atom, some_suffix};
ghost use Rattle.rg_pattern.specs.Steps.{CoveredTo};

use crate::atoms::Atom;
use crate::matching::same_char;

/// Whether an atom covers another one. `Any` is left to the walk.
fn covers_atom(a: Atom, b: Atom, fold: bool) -> bool
    ensures { result ≡ covers_atom fold a b }
{
    match (a, b) {
        (Atom::Character(c), Atom::Character(d)) => same_char(c, d, fold),
        (Atom::One, Atom::One | Atom::Character(_)) | (Atom::User, Atom::User) => true,
        _ => false,
    }
}

/// Where covering by the atoms up to the next `Any` ends.
#[derive(Clone, Copy)]
enum CoverSegment<'a> {
    /// At the end of both patterns.
    Whole,
    /// At an `Any`: the atoms after it, and those of the other pattern from there.
    Star(&'a [Atom], &'a [Atom]),
    /// At an atom that is not covered, or at the end of one pattern alone.
    Mismatch,
}

/// Covers by the atoms up to the next `Any`.
fn cover_segment<'a>(pattern: &'a [Atom], other: &'a [Atom], fold: bool) -> CoverSegment<'a>
    ensures { CoveredTo (covers fold) pattern.now other.now result }
{
    let mut pattern = pattern;
    let mut other = other;
    while let Some((atom, more)) = pattern.split_first() {
        if let Atom::Any = atom {
            return CoverSegment::Star(more, other);
        }
        let Some((next, rest)) = other.split_first() else {
            return CoverSegment::Mismatch;
        };
        if !covers_atom(*atom, *next, fold) {
            return CoverSegment::Mismatch;
        }
        pattern = more;
        other = rest;
    }
    if other.is_empty() {
        CoverSegment::Whole
    } else {
        CoverSegment::Mismatch
    }
}

/// Whether the pattern covers some suffix of the other.
fn covers_suffix(pattern: &[Atom], other: &[Atom], fold: bool) -> bool
    ensures { result ≡ some_suffix (covers fold pattern.now) other.now }
{
    let mut pattern = pattern;
    let mut other = other;
    'retry: loop {
        match cover_segment(pattern, other, fold) {
            CoverSegment::Whole => return true,
            CoverSegment::Star(more, rest) => {
                pattern = more;
                other = rest;
            }
            CoverSegment::Mismatch => match other.split_first() {
                Some((_, rest)) => other = rest,
                None => return false,
            },
        }
    }
}

/// Whether the pattern covers the whole of the other.
pub(crate) fn covers_whole(pattern: &[Atom], other: &[Atom], fold: bool) -> bool
    ensures { result ≡ covers fold pattern.now other.now }
{
    match cover_segment(pattern, other, fold) {
        CoverSegment::Whole => true,
        CoverSegment::Star(more, rest) => covers_suffix(more, rest, fold),
        CoverSegment::Mismatch => false,
    }
}
