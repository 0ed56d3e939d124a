// Which levels stand above others, and whether the mandatory ones among them are named.
ghost use Rattle.std.specs.Prelude.{◌≡◌, ◌||◌, Option, length, map, not, option_and_then};
ghost use Rattle.std.specs.List.{list_any};
ghost use Rattle.std.specs.Str.{bytes_eq, chars};
ghost use Rattle.rg_defs.specs.declared.service_def.Level.{Level};
ghost use Rattle.rg_defs.specs.Paths.{parent_of, place_of};
ghost use Rattle.rg_defs.specs.PathTests.{climb, has_name, is_above, is_settled, is_spared, mandatory_named};

use crate::level_paths::{has_name, parent_of};
use crate::service_def::Level;
use rg_base::{Named, is_named, place_named};

/// The place of the level above that of this name.
fn place_above(levels: &[Level], name: &str) -> Option<usize>
    ensures { result
        ≡ option_and_then (parent_of levels.now) (place_of levels.now (chars name.now)) }
{
    match place_named(levels, name) {
        Some(place) => parent_of(levels, place),
        None => None,
    }
}

/// Whether one of the levels from this place up has this name.
fn is_named_above(levels: &[Level], place: Option<usize>, name: &str) -> bool
    ensures { result ≡ list_any (has_name levels.now (chars name.now))
        (climb levels.now (length levels.now) place) }
{
    let mut at = place;
    'climb: for _ in (0..levels.len()).rev() {
        let Some(here) = at else {
            return false;
        };
        if has_name(levels, name, here) {
            return true;
        }
        at = parent_of(levels, here);
    }
    false
}

/// Whether the level of the one name stands above that of the other.
pub fn is_above(levels: &[Level], upper: &str, lower: &str) -> bool
    ensures { result ≡ is_above levels.now (chars upper.now) (chars lower.now) }
{
    is_named_above(levels, place_above(levels, lower), upper)
}

fn stands_above<T: Named>(levels: &[Level], upper: &str, things: &[T]) -> bool
    ensures { result
        ≡ list_any (λ x. is_above levels.now (chars upper.now) (T.named x)) things.now }
{
    things
        .iter()
        .any(|thing| is_above(levels, upper, thing.name()))
}

fn is_some_or_above_none<T: Named>(levels: &[Level], things: &[T], name: &str) -> bool
    ensures { result ≡ (list_any (λ x. bytes_eq (T.named x) (chars name.now)) things.now
        || not (list_any (λ x. is_above levels.now (chars name.now) (T.named x)) things.now)) }
{
    is_named(things, name) || !stands_above(levels, name, things)
}

/// Whether the level of this name is named, or stands above none that is named.
fn is_settled<T: Named>(levels: &[Level], things: &[T], name: &str) -> bool
    ensures { result ≡ is_settled levels.now (map T.named things.now) (chars name.now) }
{
    is_some_or_above_none(levels, things, name)
}

fn is_spared<T: Named>(levels: &[Level], things: &[T], level: &Level) -> bool
    ensures { result ≡ is_spared levels.now (map T.named things.now) level.now }
{
    !level.mandatory || is_settled(levels, things, level.name.as_str())
}

/// Whether each mandatory level that stands above a named one is named. The things name levels.
pub fn mandatory_named<T: Named>(levels: &[Level], things: &[T]) -> bool
    ensures { result ≡ mandatory_named levels.now (map T.named things.now) }
{
    levels.iter().all(|level| is_spared(levels, things, level))
}
