// Things with names, in lists.
ghost use Rattle.std.specs.Prelude.{◌≡◌, ◌<◌, IfOk, IfSome, length, option_map, position};
ghost use Rattle.std.specs.List.{find, list_any};
ghost use Rattle.std.specs.Str.{bytes_eq, chars};
ghost use Rattle.rg_base.specs.Texts.{all_distinct};

use crate::name_index::NameIndex;
use crate::numbers::NoMemory;
use crate::text::{Text, same_text};
use std::alloc::Global;

/// A thing with a name.
pub trait Named {
    ghost use Rattle.std.specs.Prelude.{◌≡◌, List, ℕ};
    ghost use Rattle.std.specs.Str.{chars};

    /// Its name.
    ghost named: { Self → List ℕ };

    /// Its name.
    fn name(&self) -> &str
        ensures { chars result.now ≡ named self.now };
}

impl Named for Text {
    ghost named = { λ t. t };

    fn name(&self) -> &str {
        self.as_str()
    }
}

/// Whether one of the things has this name.
pub fn is_named<T: Named>(things: &[T], name: &str) -> bool
    ensures { result ≡ list_any (λ x. bytes_eq (T.named x) (chars name.now)) things.now }
{
    things.iter().any(|thing| same_text(thing.name(), name))
}

/// The first thing of this name, None where there is none.
pub fn find_named<'a, T: Named>(things: &'a [T], name: &str) -> Option<&'a T>
    ensures { option_map (λ t. t.now) result
        ≡ find (λ x. bytes_eq (T.named x) (chars name.now)) things.now }
{
    for thing in things {
        if same_text(thing.name(), name) {
            return Some(thing);
        }
    }
    None
}

/// The place of the first thing of this name, None where there is none.
pub fn place_named<T: Named>(things: &[T], name: &str) -> Option<usize>
    ensures first { result ≡ position (λ x. bytes_eq (T.named x) (chars name.now)) things.now }
    ensures within { IfSome result (λ place. place < length things.now) }
{
    things
        .iter()
        .position(|thing| same_text(thing.name(), name))
}

/// Whether no two of the things have one name. The work is quadratic in their number: for short lists.
pub fn names_distinct<T: Named>(things: &[T]) -> bool
    ensures { result ≡ all_distinct (λ x y. bytes_eq (T.named y) (T.named x)) things.now }
{
    let mut rest = things;
    while let Some((thing, later)) = rest.split_first() {
        if is_named(later, thing.name()) {
            return false;
        }
        rest = later;
    }
    true
}

/// As `names_distinct`, by an index of the names: for long lists.
pub fn all_names_distinct<T: Named>(alloc: Global, things: &[T]) -> Result<bool, NoMemory>
    ensures { IfOk result
        (λ distinct. distinct ≡ all_distinct (λ x y. bytes_eq (T.named y) (T.named x)) things.now) }
{
    let index = NameIndex::build(alloc, things)?;
    Ok(index.are_distinct())
}
