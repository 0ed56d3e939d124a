// The prefixes of a value, one after the other, with their hashes.
ghost use Rattle.std.specs.Prelude.{◌≡◌, ◌+◌, ◌∷◌, ◌++◌, [], ℕ, length, MatchOption, false};
ghost use Rattle.std.specs.Cmp.Lexicographic.{slice_cmp};
ghost use Rattle.std.specs.Ordering.{nat_cmp, is_eq};
ghost use Rattle.std.specs.Str.{chars};
ghost use Rattle.rg_tree.specs.Hashes.{hash_of};
ghost use Rattle.rg_trie.specs.Hashed.{capped};
ghost use Rattle.rg_trie.specs.Pairs.{folded};

use crate::lengths::LENGTH_LIMIT;
use crate::order::{key_order, up_to};
use rg_base::{folded_char, split_char};
use rg_tree::{hash_of_state, step};
use std::cmp::Ordering;
use std::marker::Model;

/// A prefix of a value, and what follows it. Contracts see both, with their ASCII letters folded where that is asked.
#[derive(Drop)]
pub(crate) struct Prefix<'a> {
    value: &'a str,
    pub(crate) fold: bool,
    pub(crate) seen: &'a str,
    rest: &'a str,
    count: usize,
    state: u64,
}

impl<'a> Model for Prefix<'a> {
    ghost use Rattle.std.specs.Str.{chars};
    ghost use Rattle.rg_trie.specs.Hashed.{IsParted, Parted};
    ghost use Rattle.rg_trie.specs.Pairs.{folded};

    ghost Value = { Parted };

    ghost view = { λ p. record {
      seen = folded p.fold (chars p.seen.now);
      rest = folded p.fold (chars p.rest.now);
    } };

    ghost invariant = { λ p. IsParted p.fold
        (chars p.value.now) (chars p.seen.now) (chars p.rest.now) p.count p.state };
}

/// How many characters a longer prefix has, as far as lengths are told apart.
fn longer(count: usize) -> usize
    ensures { (n : ℕ) → count ≡ capped n → result ≡ capped (n + 1) }
{
    if count < LENGTH_LIMIT {
        count + 1
    } else {
        count
    }
}

impl<'a> Prefix<'a> {
    /// The empty prefix.
    pub(crate) fn first(value: &'a str, fold: bool) -> Prefix<'a>
        ensures { result ≡ record { seen = []; rest = folded fold (chars value.now) } }
    {
        Prefix {
            value,
            fold,
            seen: "",
            rest: value,
            count: 0,
            state: 0,
        }
    }

    /// The same prefix.
    pub(crate) fn again(&self) -> Prefix<'a>
        ensures { result ≡ self.now }
    {
        Prefix {
            value: self.value,
            fold: self.fold,
            seen: self.seen,
            rest: self.rest,
            count: self.count,
            state: self.state,
        }
    }

    /// The prefix that is one character longer; None behind the whole value.
    pub(crate) fn next(&self) -> Option<Prefix<'a>>
        ensures { MatchOption result (self.now.rest ≡ [])
            (λ p. (c : ℕ) × (self.now.rest ≡ c ∷ p.rest) × (p.seen ≡ self.now.seen ++ c ∷ [])) }
    {
        match split_char(self.rest) {
            None => None,
            Some((c, rest)) => Some(Prefix {
                value: self.value,
                fold: self.fold,
                seen: up_to(self.value, rest),
                rest,
                count: longer(self.count),
                state: step(self.state, folded_char(self.fold, c)),
            }),
        }
    }

    /// How many characters it has, as far as lengths are told apart.
    pub(crate) fn count(&self) -> usize
        ensures { result ≡ capped (length self.now.seen) }
    {
        self.count
    }

    /// Its hash.
    pub(crate) fn hash(&self) -> u64
        ensures { result ≡ hash_of false self.now.seen }
    {
        hash_of_state(self.state)
    }

    /// Whether the key is this prefix.
    pub(crate) fn is(&self, key: &str) -> bool
        ensures { result ≡ is_eq (slice_cmp nat_cmp (chars key.now) self.now.seen) }
    {
        key_order(key, self.seen, self.fold) == Ordering::Equal
    }
}
