// Whether a pattern stands for a text, by a walk with one return point.
ghost use Rattle.std.specs.Prelude.{◌≡◌, ◌≤◌, ◌+◌, ◌*◌, option_map, length};
ghost use Rattle.std.specs.Str.{chars};
ghost use Rattle.rg_pattern.specs.Tests.{same_char, strip_prefix, some_suffix, stands};
ghost use Rattle.rg_pattern.specs.Steps.{strip_atom, MatchedTo, SegmentWork};

use crate::atoms::Atom;
use rg_base::{Tally, split_char};

/// Whether two characters are the same, up to the case of ASCII letters where `fold` is set.
pub(crate) fn same_char(a: char, b: char, fold: bool) -> bool
    ensures { result ≡ same_char fold a b }
{
    if fold {
        a.eq_ignore_ascii_case(&b)
    } else {
        a == b
    }
}

/// What follows the prefix in a text that begins with it.
pub(crate) fn strip_prefix<'a>(text: &'a str, prefix: &str, fold: bool) -> Option<&'a str>
    ensures { option_map (λ rest. chars rest.now) result
        ≡ strip_prefix fold (chars prefix.now) (chars text.now) }
{
    let mut text = text;
    let mut prefix = prefix;
    while let Some((c, more)) = split_char(prefix) {
        match split_char(text) {
            Some((x, rest)) if same_char(c, x, fold) => {
                prefix = more;
                text = rest;
            }
            _ => return None,
        }
    }
    Some(text)
}

/// What follows in a text that begins with what the atom stands for. None at `Any`, which fixes no length.
fn strip_atom<'a>(atom: Atom, text: &'a str, user: &str, fold: bool) -> Option<&'a str>
    ensures { option_map (λ rest. chars rest.now) result
        ≡ strip_atom fold (chars user.now) atom (chars text.now) }
{
    match atom {
        Atom::Any => None,
        Atom::User => strip_prefix(text, user, fold),
        Atom::One => match split_char(text) {
            Some((_, rest)) => Some(rest),
            None => None,
        },
        Atom::Character(c) => match split_char(text) {
            Some((x, rest)) if same_char(c, x, fold) => Some(rest),
            _ => None,
        },
    }
}

/// Where matching the atoms up to the next `Any` ends.
#[derive(Clone, Copy)]
enum Segment<'a> {
    /// At the end of the pattern and of the text.
    Whole,
    /// At an `Any`: the atoms after it, and the text from there.
    Star(&'a [Atom], &'a str),
    /// At an atom that does not fit, or at the pattern's end with text left.
    Mismatch,
}

/// Matches the atoms up to the next `Any`. `work` counts the comparisons of an atom, or of the pattern's end, with
/// the text.
fn match_segment<'a>(
    pattern: &'a [Atom],
    text: &'a str,
    user: &str,
    fold: bool,
    work: &mut Tally,
) -> Segment<'a>
    ensures answer { MatchedTo (stands fold (chars user.now)) pattern.now (chars text.now) result }
    ensures work { SegmentWork pattern.now result work.old.count work.new.count }
{
    let mut pattern = pattern;
    let mut text = text;
    while let Some((atom, more)) = pattern.split_first() {
        work.add();
        if let Atom::Any = atom {
            return Segment::Star(more, text);
        }
        match strip_atom(*atom, text, user, fold) {
            Some(rest) => {
                pattern = more;
                text = rest;
            }
            None => return Segment::Mismatch,
        }
    }
    work.add();
    match split_char(text) {
        None => Segment::Whole,
        Some(_) => Segment::Mismatch,
    }
}

/// Whether the pattern stands for some suffix of the text. A segment that fits is never tried again at a later
/// place: its length is fixed, so at the earliest place it leaves the most text for what follows.
fn matches_suffix(pattern: &[Atom], text: &str, user: &str, fold: bool, work: &mut Tally) -> bool
    ensures answer { result
        ≡ some_suffix (stands fold (chars user.now) pattern.now) (chars text.now) }
    ensures work { work.new.count ≤ work.old.count
        + (length pattern.now + 1) * (length (chars text.now) + 1) }
{
    let mut pattern = pattern;
    let mut text = text;
    'retry: loop {
        // What a last `Any` stands for need not be read.
        if pattern.is_empty() {
            return true;
        }
        match match_segment(pattern, text, user, fold, work) {
            Segment::Whole => return true,
            Segment::Star(more, rest) => {
                pattern = more;
                text = rest;
            }
            Segment::Mismatch => match split_char(text) {
                Some((_, rest)) => text = rest,
                None => return false,
            },
        }
    }
}

/// Whether the pattern stands for the whole text.
pub(crate) fn matches_whole(
    pattern: &[Atom],
    text: &str,
    user: &str,
    fold: bool,
    work: &mut Tally,
) -> bool
    ensures answer { result ≡ stands fold (chars user.now) pattern.now (chars text.now) }
    ensures work { work.new.count ≤ work.old.count
        + (length pattern.now + 1) * (length (chars text.now) + 1) }
{
    match match_segment(pattern, text, user, fold, work) {
        Segment::Whole => true,
        Segment::Star(more, rest) => matches_suffix(more, rest, user, fold, work),
        Segment::Mismatch => false,
    }
}
