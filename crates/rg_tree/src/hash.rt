// The hashes of a text and of its prefixes, character by character.
ghost use Rattle.std.specs.Prelude.{◌≡◌};
ghost use Rattle.std.specs.Str.{chars};
ghost use Rattle.rg_tree.specs.Hashes.{hash_of, hash_of_state, step};

use rg_base::{folded_char, split_char};

/// What a state is multiplied with: 2^64 by the golden ratio, which spreads numbers that lie close.
const FACTOR: u64 = 11_400_714_819_323_198_485;

/// What is cut off a state: its low bits depend on few characters.
const LOW: u64 = 16_777_216;

/// The state after one character more. It is 0 before the first.
pub fn step(state: u64, c: char) -> u64
    ensures { result ≡ step state c }
{
    state.wrapping_add(c as u64).wrapping_mul(FACTOR)
}

/// The hash of a text that leads to this state.
pub fn hash_of_state(state: u64) -> u64
    ensures { result ≡ hash_of_state state }
{
    state / LOW
}

/// The hash of the text, of which the ASCII letters are folded where `fold` is set.
pub fn hash_of(text: &str, fold: bool) -> u64
    ensures { result ≡ hash_of fold (chars text.now) }
{
    let mut rest = text;
    let mut state = 0;
    'characters: while let Some((c, others)) = split_char(rest) {
        state = step(state, folded_char(fold, c));
        rest = others;
    }
    hash_of_state(state)
}
