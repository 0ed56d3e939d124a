// The patterns of a level with many values, filed by the characters that they begin with: a pattern covers another only where its
// literal prefix begins the other's.
ghost use Rattle.std.specs.Prelude.{◌≡◌, Contains, IfOk, length};
ghost use Rattle.std.specs.List.{list_all, list_any};
ghost use Rattle.rg_trie.specs.declared.pair.Pair.{Pair};
ghost use Rattle.rg_trie.specs.Walked.{entries_under};
ghost use Rattle.rg_delegate.specs.Covering.{some_covers};
ghost use Rattle.rg_delegate.specs.Filing.{HoldsFirst, covers_at, filed_at};

use rg_base::{NoMemory, Steps, Text};
use rg_pattern::Pattern;
use rg_trie::{Filed, Trie};
use std::alloc::Global;

/// The trie with the pattern filed at its place.
fn with_pattern(
    alloc: Global,
    trie: &Trie,
    pattern: &Pattern,
    place: u32,
    fold: bool,
) -> Result<Trie, NoMemory>
    ensures kept { IfOk result (λ t. (p : Pair) → Contains trie.now p → Contains t p) }
    ensures filed { IfOk result (λ t. Contains t (filed_at fold pattern.now place)) }
{
    let key = pattern.literal_prefix(alloc, fold)?;
    let entry = Filed { id: 0, place };
    let filed = trie.insert(alloc, key.as_str(), entry, &mut Steps::silent())?;
    Ok(filed)
}

/// The patterns, each filed at its place. More than have places of 32 bits are want of memory.
fn file(alloc: Global, patterns: &[Pattern], fold: bool) -> Result<Trie, NoMemory>
    ensures { IfOk result (λ t. HoldsFirst fold patterns.now t (length patterns.now)) }
{
    let mut trie = Trie::empty(alloc);
    for (place, pattern) in patterns.iter().enumerate() {
        let Ok(place) = u32::try_from(place) else {
            return Err(NoMemory);
        };
        trie = with_pattern(alloc, &trie, pattern, place, fold)?;
    }
    Ok(trie)
}

fn covers_at(patterns: &[Pattern], found: Filed, other: &Pattern, fold: bool) -> bool
    ensures { result ≡ covers_at fold patterns.now other.now found }
{
    match patterns.get(found.place as usize) {
        Some(pattern) => pattern.covers(other, fold),
        None => false,
    }
}

/// Whether one of the patterns that are filed under what the text begins with covers the other.
fn some_found_covers(
    patterns: &[Pattern],
    filed: &Trie,
    prefix: &Text,
    other: &Pattern,
    fold: bool,
) -> bool
    ensures { result
        ≡ list_any (covers_at fold patterns.now other.now) (entries_under prefix.now filed.now) }
{
    let mut walk = filed.walk(prefix.as_str(), false);
    while let Some(found) = walk.next() {
        if covers_at(patterns, found, other, fold) {
            return true;
        }
    }
    false
}

/// Whether one of the patterns, which are filed, covers the other.
fn some_filed_covers(
    alloc: Global,
    patterns: &[Pattern],
    filed: &Trie,
    other: &Pattern,
    fold: bool,
) -> Result<bool, NoMemory>
    requires { HoldsFirst fold patterns.now filed.now (length patterns.now) }
    ensures { IfOk result (λ b. b ≡ some_covers fold patterns.now other.now) }
{
    let prefix = other.literal_prefix(alloc, fold)?;
    Ok(some_found_covers(patterns, filed, &prefix, other, fold))
}

/// Whether each of the others is covered by one of the patterns. These are filed for it.
pub(crate) fn filed_cover(
    alloc: Global,
    patterns: &[Pattern],
    others: &[Pattern],
    fold: bool,
) -> Result<bool, NoMemory>
    ensures { IfOk result (λ b. b ≡ list_all (some_covers fold patterns.now) others.now) }
{
    let filed = file(alloc, patterns, fold)?;
    for other in others {
        if !some_filed_covers(alloc, patterns, &filed, other, fold)? {
            return Ok(false);
        }
    }
    Ok(true)
}
