// Sets of places, each a list of words of 64 bits.
ghost use Rattle.std.specs.Prelude.{◌≡◌, ◌<◌, ◌≤◌, ◌/◌, ◌*◌, ◌||◌, ℕ, length, nat_eq};
ghost use Rattle.rg_roles.specs.Places.{has};

/// Adds a place.
pub(crate) fn insert(words: &mut [u64], place: u32)
    requires { place / 64 < length words.old }
    ensures len { length words.new ≡ length words.old }
    ensures all { (k : ℕ) → has words.new k ≡ nat_eq k place || has words.old k }
{
    words[place as usize / 64] |= 1 << (place % 64);
}

/// Adds the places of another set.
pub(crate) fn include(words: &mut [u64], others: &[u64])
    requires { length others.now ≤ length words.old }
    ensures len { length words.new ≡ length words.old }
    ensures all { (k : ℕ) → has words.new k ≡ has words.old k || has others.now k }
{
    for (at, other) in others.iter().enumerate() {
        words[at] |= *other;
    }
}
