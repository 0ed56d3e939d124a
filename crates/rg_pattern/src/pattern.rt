// What a pattern is asked.
ghost use Rattle.std.specs.Prelude.{◌≡◌, ◌↔◌, ◌≤◌, ◌+◌, ◌*◌, false, IfOk, IsTrue, length};
ghost use Rattle.std.specs.Str.{chars};
ghost use Rattle.rg_pattern.specs.Atoms.{are_scalars, is_user, has_user, is_slash, ends_in_slash, twin, literal_prefix};
ghost use Rattle.rg_pattern.specs.Standing.{Stands, Overlap};
ghost use Rattle.rg_pattern.specs.Covering.{Covers};
ghost use Rattle.rg_pattern.specs.Tests.{stands, covers, overlaps};

use crate::atoms::{Atom, Pattern};
use crate::covering::covers_whole;
use crate::matching::matches_whole;
use crate::overlap::overlaps;
use rg_base::{NoMemory, Tally, Text, folded_char};
use std::alloc::Global;

pub(crate) fn is_user(atom: Atom) -> bool
    ensures { result ≡ is_user atom }
{
    matches!(atom, Atom::User)
}

fn is_slash(atom: Atom) -> bool
    ensures { result ≡ is_slash atom }
{
    match atom {
        Atom::Character(c) => c == '/',
        _ => false,
    }
}

#[tactic(auto, using(crate::proofs::Joined::ends_in_slash_push))]
fn ends_in_slash(atoms: &[Atom]) -> bool
    ensures { result ≡ ends_in_slash atoms.now }
{
    match atoms.split_last() {
        Some((last, _)) => is_slash(*last),
        None => false,
    }
}

/// The atoms of the twin.
fn twin_atoms(alloc: Global, atoms: &[Atom]) -> Result<Vec<Atom>, NoMemory>
    ensures { IfOk result (λ v. v.items ≡ twin atoms.now) }
{
    let mut twin = Vec::from_slice(alloc, atoms)?;
    if !ends_in_slash(atoms) {
        twin.push(Atom::Character('/'))?;
    }
    twin.push(Atom::Any)?;
    Ok(twin)
}

impl Pattern {
    /// The twin of the pattern, which stands for what lies below: the pattern followed by `/*`, or by `*` alone
    /// where it ends in `/`, whether or not wildcards are on. A recursive value has both the pattern and the twin.
    pub fn recursive(&self, alloc: Global) -> Result<Pattern, NoMemory>
        ensures { IfOk result (λ p. p ≡ twin self.now) }
    {
        let atoms = twin_atoms(alloc, &self.atoms)?;
        Ok(Pattern { atoms })
    }

    /// Whether the pattern stands for the value when this user asks, up to the case of ASCII letters where
    /// `fold` is set, which is the ignoreCase option of the resource level. It takes no memory.
    pub fn matches(&self, value: &str, user: &str, fold: bool) -> bool
        ensures exact { IsTrue result ↔ Stands fold (chars user.now) self.now (chars value.now) }
        ensures test { result ≡ stands fold (chars user.now) self.now (chars value.now) }
    {
        let mut work = Tally::zero();
        self.matches_counted(value, user, fold, &mut work)
    }

    /// As `matches`, which calls it. `work` counts the comparisons of an atom, or of the pattern's end, with the
    /// value; a comparison with `{USER}` goes over the user's whole name.
    pub fn matches_counted(&self, value: &str, user: &str, fold: bool, work: &mut Tally) -> bool
        ensures exact { IsTrue result ↔ Stands fold (chars user.now) self.now (chars value.now) }
        ensures test { result ≡ stands fold (chars user.now) self.now (chars value.now) }
        ensures work { work.new.count ≤ work.old.count
            + (length self.now + 1) * (length (chars value.now) + 1) }
    {
        matches_whole(&self.atoms, value, user, fold, work)
    }

    /// Whether some text is stood for by both patterns. No memory is taken where their leading characters differ,
    /// else at most a byte for each atom of `other`, and one more.
    pub fn overlap(&self, alloc: Global, other: &Pattern, fold: bool) -> Result<bool, NoMemory>
        requires no_user { has_user self.now ≡ false }
        requires no_other_user { has_user other.now ≡ false }
        ensures exact { IfOk result (λ b. IsTrue b ↔ Overlap fold self.now other.now) }
        ensures test { IfOk result (λ b. b ≡ overlaps fold self.now other.now) }
    {
        overlaps(alloc, &self.atoms, &other.atoms, fold)
    }

    /// Whether the pattern covers the other, atom by atom. It takes no memory.
    pub fn covers(&self, other: &Pattern, fold: bool) -> bool
        ensures exact { IsTrue result ↔ Covers fold self.now other.now }
        ensures test { result ≡ covers fold self.now other.now }
    {
        covers_whole(&self.atoms, &other.atoms, fold)
    }

    /// The characters before the first atom that is no character, in lower case where `fold` is set.
    pub fn literal_prefix(&self, alloc: Global, fold: bool) -> Result<Text, NoMemory>
        ensures { IfOk result (λ t. t ≡ literal_prefix fold self.now) }
    {
        let mut text = Text::empty(alloc);
        let mut rest = self.atoms.as_slice();
        while let Some((Atom::Character(c), more)) = rest.split_first() {
            text.push(folded_char(fold, *c))?;
            rest = more;
        }
        Ok(text)
    }

    /// Whether one of the atoms is the asking user's name.
    pub fn has_user(&self) -> bool
        ensures { result ≡ has_user self.now }
    {
        let mut rest = self.atoms.as_slice();
        while let Some((atom, more)) = rest.split_first() {
            if is_user(*atom) {
                return true;
            }
            rest = more;
        }
        false
    }

    /// The characters of every pattern are Unicode scalar values. A law, as those of `laws`: it does nothing.
    pub fn has_scalars(&self)
        ensures { IsTrue (are_scalars self.now) }
    {
        let _atoms = &self.atoms;
    }
}
