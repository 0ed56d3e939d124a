// The lengths that keys have.
ghost use Rattle.std.specs.Prelude.{◌≡◌, ℕ, true, false};
ghost use Rattle.rg_trie.specs.Hashed.{capped, may_occur};

/// From how many characters on lengths aren't told apart.
pub(crate) const LENGTH_LIMIT: usize = 64;

/// Which lengths below the limit a key had since the trie was empty; longer keys may be there always. A walk spares the search
/// for each prefix of another length.
#[derive(Clone, Copy)]
pub(crate) struct Lengths {
    pub(crate) occurs: [bool; 64],
}

impl Lengths {
    /// No key below the limit.
    pub(crate) fn none() -> Lengths {
        Lengths {
            occurs: [false; 64],
        }
    }

    /// The lengths with one more.
    pub(crate) fn with(&self, count: usize) -> Lengths
        ensures { (n : ℕ) → may_occur result.occurs n ≡ false
            → (may_occur self.now.occurs n ≡ false) × ¬ (n ≡ count) }
    {
        let mut occurs = self.occurs;
        if count < LENGTH_LIMIT {
            occurs[count] = true;
        }
        Lengths { occurs }
    }

    /// Whether a key may have so many characters.
    pub(crate) fn may_occur(&self, count: usize) -> bool
        ensures { (n : ℕ) → count ≡ capped n → result ≡ may_occur self.now.occurs n }
    {
        if count >= LENGTH_LIMIT {
            return true;
        }
        match self.occurs.get(count) {
            Some(occurs) => *occurs,
            None => true,
        }
    }
}
