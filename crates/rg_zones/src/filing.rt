// Where zones are filed, so that only those that can overlap are compared: under the literal prefixes of their
// values at one level. Two patterns overlap only where one's literal prefix begins the other's.
ghost use Rattle.std.specs.Prelude.{◌≡◌, ◌&&◌, ◌++◌, ◌<◌, IfOk, List, ℕ, map, not, option_map};
ghost use Rattle.std.specs.List.{slice_get};
ghost use Rattle.std.specs.Str.{bytes_eq, chars};
ghost use Rattle.rg_defs.specs.declared.service_def.Level.{Level};
ghost use Rattle.rg_pattern.specs.Atoms.{literal_prefix};
ghost use Rattle.rg_zones.specs.Candidates.{IsFiled, all_need, level_keys, map_keys, name_at, needs_level, same_anchor, zone_keys};
ghost use Rattle.rg_zone_rules.specs.Overlap.{LevelPatterns};

use crate::zone_patterns::{CompiledLevel, CompiledMap, CompiledZone, PlainPattern};
use rg_base::{NoMemory, Text, same_text};
use rg_defs::Level;
use std::alloc::Global;
use std::marker::Model;

/// A zone with where it is filed.
#[derive(Drop)]
pub(crate) struct FiledZone {
    pub(crate) maps: Vec<CompiledMap>,
    /// The place of the level.
    anchor: Option<usize>,
    pub(crate) keys: Vec<Text>,
}

impl Model for FiledZone {
    ghost use Rattle.rg_zones.specs.Candidates.{Filing};

    ghost Value = { Filing };

    ghost view = { λ f. record { maps = f.maps.items; anchor = f.anchor; keys = f.keys.items } };
}

fn needs_level(name: &str, levels: &[CompiledLevel]) -> bool
    ensures { result ≡ needs_level (chars name.now) levels.now }
{
    levels.iter().any(|level| same_text(level.name.as_str(), name) && !level.lists_star)
}

fn all_need(name: &str, maps: &[CompiledMap]) -> bool
    ensures { result ≡ all_need (chars name.now) maps.now }
{
    maps.iter().all(|map| needs_level(name, &map.levels))
}

/// The keys, and these after them.
fn with_keys(
    alloc: Global,
    mut keys: Vec<Text>,
    patterns: &[PlainPattern],
    fold: bool,
) -> Result<Vec<Text>, NoMemory>
    ensures { IfOk result (λ v. v.items ≡ keys.items ++ map (literal_prefix fold) patterns.now) }
{
    for pattern in patterns {
        keys.push(pattern.literal_prefix(alloc, fold)?)?;
    }
    Ok(keys)
}

fn with_level_keys(
    alloc: Global,
    keys: Vec<Text>,
    name: &str,
    level: &CompiledLevel,
) -> Result<Vec<Text>, NoMemory>
    ensures { IfOk result (λ v. v.items ≡ keys.items ++ level_keys (chars name.now) level.now) }
{
    if !same_text(level.name.as_str(), name) {
        return Ok(keys);
    }
    with_keys(alloc, keys, &level.patterns, level.fold)
}

fn with_map_keys(
    alloc: Global,
    mut keys: Vec<Text>,
    name: &str,
    levels: &[CompiledLevel],
) -> Result<Vec<Text>, NoMemory>
    ensures { IfOk result (λ v. v.items ≡ keys.items ++ map_keys (chars name.now) levels.now) }
{
    for level in levels {
        keys = with_level_keys(alloc, keys, name, level)?;
    }
    Ok(keys)
}

fn zone_keys(alloc: Global, name: &str, maps: &[CompiledMap]) -> Result<Vec<Text>, NoMemory>
    ensures { IfOk result (λ v. v.items ≡ zone_keys (chars name.now) maps.now) }
{
    let mut keys = Vec::new(alloc);
    for map in maps {
        keys = with_map_keys(alloc, keys, name, &map.levels)?;
    }
    Ok(keys)
}

fn name_at<'a>(levels: &'a [Level], place: usize) -> Option<&'a Text>
    ensures { option_map (λ t. t.now) result ≡ name_at levels.now place }
{
    match levels.get(place) {
        Some(level) => Some(&level.name),
        None => None,
    }
}

impl FiledZone {
    /// The zone, filed at the last level of the definition that every resource in the zone names; nowhere, where there
    /// is none.
    pub(crate) fn of(
        alloc: Global,
        levels: &[Level],
        zone: CompiledZone,
    ) -> Result<FiledZone, NoMemory>
        ensures maps { IfOk result (λ f. f.maps ≡ zone) }
        ensures filed { IfOk result (λ f. IsFiled levels.now f) }
    {
        let CompiledZone { maps } = zone;
        for place in (0..levels.len()).rev() {
            if let Some(name) = name_at(levels, place) {
                if all_need(name.as_str(), &maps) {
                    let keys = zone_keys(alloc, name.as_str(), &maps)?;
                    return Ok(FiledZone {
                        maps,
                        anchor: Some(place),
                        keys,
                    });
                }
            }
        }
        Ok(FiledZone {
            maps,
            anchor: None,
            keys: Vec::new(alloc),
        })
    }

    /// Whether both are filed at one level.
    pub(crate) fn same_anchor(&self, other: &FiledZone) -> bool
        ensures { result ≡ same_anchor self.now other.now }
    {
        match (self.anchor, other.anchor) {
            (Some(one), Some(other)) => one == other,
            _ => false,
        }
    }
}
