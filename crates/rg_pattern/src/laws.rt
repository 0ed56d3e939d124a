// Laws of patterns, each the contract of a function that does nothing.
ghost use Rattle.std.specs.Prelude.{◌≡◌, ◌↔◌, ◌≤◌, ℕ, Bool, false, true, List, [], ◌∷◌, ◌++◌, length, nat_eq, IsTrue};
ghost use Rattle.std.specs.List.{starts_with};
ghost use Rattle.std.specs.Str.{all_scalars};
ghost use Rattle.rg_pattern.specs.declared.atoms.Atom.{Atom};
ghost use Rattle.rg_pattern.specs.declared.atoms.Atom.TheVariants.{User};
ghost use Rattle.rg_base.specs.Folding.{folded};
ghost use Rattle.rg_pattern.specs.Reading.{user_mark, atom_of, atoms_of};
ghost use Rattle.rg_pattern.specs.Atoms.{are_scalars, has_user, twin, literal_prefix};
ghost use Rattle.rg_pattern.specs.Standing.{Stands, Overlap, IsBelow};
ghost use Rattle.rg_pattern.specs.Covering.{Covers};
ghost use Rattle.rg_pattern.specs.Tests.{stands, covers, overlaps};

/// A written value is read from the left: `{USER}` gives the user's name, and a character that begins no
/// `{USER}` gives its own atom.
pub fn reads_from_the_left()
    ensures nothing { (wild : Bool) → atoms_of wild [] ≡ [] }
    ensures mark { (wild : Bool) (t : List ℕ)
        → atoms_of wild (user_mark ++ t) ≡ User ∷ atoms_of wild t }
    ensures other { (wild : Bool) (c : ℕ) (t : List ℕ)
        → ((rest : List ℕ) → c ∷ t ≡ user_mark ++ rest → ⊥)
        → atoms_of wild (c ∷ t) ≡ atom_of wild c ∷ atoms_of wild t }
    ensures no_longer { (wild : Bool) (t : List ℕ) → length (atoms_of wild t) ≤ length t }
{}

/// The test of matching decides standing for.
pub fn stands_is_decided()
    ensures { (fold : Bool) (user : List ℕ) (p : List Atom) (t : List ℕ)
        → IsTrue (stands fold user p t) ↔ Stands fold user p t }
{}

/// The test of covering decides covering.
pub fn covers_is_decided()
    ensures { (fold : Bool) (q p : List Atom) → IsTrue (covers fold q p) ↔ Covers fold q p }
{}

/// The table decides overlap, for patterns without `{USER}`. That the common text is one of Unicode scalar
/// values takes that the patterns' characters are, as those of every `Pattern` are.
pub fn overlap_is_decided()
    ensures shown { (fold : Bool) (p q : List Atom)
        → has_user p ≡ false → has_user q ≡ false → Overlap fold p q → IsTrue (overlaps fold p q) }
    ensures found { (fold : Bool) (p q : List Atom)
        → has_user p ≡ false → has_user q ≡ false → IsTrue (are_scalars p) → IsTrue (are_scalars q)
        → IsTrue (overlaps fold p q) → Overlap fold p q }
{}

/// Overlap is symmetric.
pub fn overlap_is_symmetric()
    ensures { (fold : Bool) (p q : List Atom) → Overlap fold p q → Overlap fold q p }
{}

/// A pattern without `{USER}` stands for the same texts whoever asks, and for at least one text.
pub fn user_plays_no_part()
    ensures same { (fold : Bool) (user other : List ℕ) (p : List Atom) (t : List ℕ)
        → has_user p ≡ false → Stands fold user p t → Stands fold other p t }
    ensures some { (fold : Bool) (user : List ℕ) (p : List Atom) → has_user p ≡ false
        → IsTrue (are_scalars p) → (t : List ℕ) × IsTrue (all_scalars t) × Stands fold user p t }
{}

/// A pattern that covers another stands, for every user, for each text that the other stands for.
pub fn covers_keeps_stands()
    ensures { (fold : Bool) (user : List ℕ) (q p : List Atom) (t : List ℕ)
        → Covers fold q p → Stands fold user p t → Stands fold user q t }
{}

/// A text that a pattern or its twin stands for begins with the literal prefix of the pattern, both folded alike.
pub fn prefix_begins_text()
    ensures pattern { (fold : Bool) (user : List ℕ) (p : List Atom) (t : List ℕ)
        → Stands fold user p t
        → starts_with nat_eq (folded fold t) (literal_prefix fold p) ≡ true }
    ensures twin { (fold : Bool) (user : List ℕ) (p : List Atom) (t : List ℕ)
        → Stands fold user (twin p) t
        → starts_with nat_eq (folded fold t) (literal_prefix fold p) ≡ true }
{}

/// Whether wildcards are on or off, `{USER}` stands in the same written values.
pub fn user_is_read_alike()
    ensures { (wild : Bool) (t : List ℕ)
        → has_user (atoms_of wild t) ≡ has_user (atoms_of false t) }
{}

/// The twin of a pattern stands for exactly the texts below those that the pattern stands for.
pub fn twin_stands_below()
    ensures { (fold : Bool) (user : List ℕ) (p : List Atom) (t : List ℕ)
        → Stands fold user (twin p) t ↔ IsBelow fold user p t }
{}

/// The twin has `{USER}` where the pattern has it, and its characters are Unicode scalar values where those of
/// the pattern are.
pub fn twin_keeps()
    ensures user { (p : List Atom) → has_user (twin p) ≡ has_user p }
    ensures scalars { (p : List Atom) → IsTrue (are_scalars p) → IsTrue (are_scalars (twin p)) }
{}
