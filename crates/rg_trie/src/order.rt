// The order of pairs.
ghost use Rattle.std.specs.Prelude.{◌≡◌, ◌++◌, List, ℕ, false};
ghost use Rattle.std.specs.Cmp.Lexicographic.{slice_cmp};
ghost use Rattle.std.specs.Ordering.{nat_cmp, is_eq};
ghost use Rattle.std.specs.Str.{chars};
ghost use Rattle.rg_trie.specs.Pairs.{entry_order, folded, pair_order};
ghost use Rattle.rg_trie.specs.Sought.{before, first_is};

use crate::pair::{Filed, Pair};
use rg_base::{folded_char, split_char};
use std::cmp::Ordering;

/// How a key stands to a text, of which the ASCII letters are folded where `fold` is set.
pub(crate) fn key_order(key: &str, text: &str, fold: bool) -> Ordering
    ensures { result ≡ slice_cmp nat_cmp (chars key.now) (folded fold (chars text.now)) }
{
    let mut left = key;
    let mut right = text;
    'characters: loop {
        match (split_char(left), split_char(right)) {
            (None, None) => return Ordering::Equal,
            (None, Some(_)) => return Ordering::Less,
            (Some(_), None) => return Ordering::Greater,
            (Some((first, more)), Some((character, rest))) => {
                let by = first.cmp(&folded_char(fold, character));
                if by != Ordering::Equal {
                    return by;
                }
                left = more;
                right = rest;
            }
        }
    }
}

/// The text up to where this rest of it begins.
pub(crate) fn up_to<'a>(text: &'a str, rest: &str) -> &'a str
    requires { (seen : List ℕ) × (chars text.now ≡ seen ++ chars rest.now) }
    ensures { (seen : List ℕ) → chars text.now ≡ seen ++ chars rest.now → chars result.now ≡ seen }
{
    text.split_at(text.len() - rest.len()).0
}

/// How two entries stand to each other: by id, then by place.
fn compare_entries(a: Filed, b: Filed) -> Ordering
    ensures { result ≡ entry_order a b }
{
    match a.id.cmp(&b.id) {
        Ordering::Equal => a.place.cmp(&b.place),
        other => other,
    }
}

/// A place among the pairs that have a key.
#[derive(Clone, Copy)]
pub(crate) enum Mark {
    /// Before all of them.
    Start,
    /// Where the entry stands or would stand.
    At(Filed),
    /// Behind all of them.
    End,
}

/// Whether a pair comes before the mark of the text as key.
pub(crate) fn is_before(pair: &Pair, text: &str, fold: bool, mark: Mark) -> bool
    ensures { result ≡ before (folded fold (chars text.now)) mark pair.now }
{
    match key_order(pair.key.as_str(), text, fold) {
        Ordering::Less => true,
        Ordering::Greater => false,
        Ordering::Equal => match mark {
            Mark::Start => false,
            Mark::At(entry) => compare_entries(pair.entry, entry) == Ordering::Less,
            Mark::End => true,
        },
    }
}

/// Whether the pair has that key and entry.
fn is_pair(pair: &Pair, key: &str, entry: Filed) -> bool
    ensures { result ≡ is_eq (pair_order pair.now (record { key = chars key.now; entry = entry })) }
{
    key_order(pair.key.as_str(), key, false) == Ordering::Equal
        && compare_entries(pair.entry, entry) == Ordering::Equal
}

/// Whether the first of the pairs has that key and entry.
pub(crate) fn is_first(pairs: &[Pair], key: &str, entry: Filed) -> bool
    ensures { result ≡ first_is (record { key = chars key.now; entry = entry }) pairs.now }
{
    match pairs.first() {
        None => false,
        Some(pair) => is_pair(pair, key, entry),
    }
}
