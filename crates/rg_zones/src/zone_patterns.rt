// The maps of zones for a service, their values read once.
ghost use Rattle.std.specs.Prelude.{◌≡◌, ◌++◌, ◌∷◌, ◌||◌, [], not, IfOk, Option, map, option_map, true};
ghost use Rattle.std.specs.List.{flat_map, list_all};
ghost use Rattle.std.specs.Str.{bytes_eq, chars};
ghost use Rattle.rg_base.specs.Texts.{is_among};
ghost use Rattle.rg_defs.specs.Paths.{level_of};
ghost use Rattle.rg_pattern.specs.Atoms.{are_scalars, literal_prefix, twin};
ghost use Rattle.rg_pattern.specs.Reading.{atoms_of, value_fits};
ghost use Rattle.rg_pattern.specs.Tests.{overlaps};
ghost use Rattle.rg_resmatch.specs.Tests.{star};
ghost use Rattle.rg_zone_rules.specs.Overlap.{folds, form_scalars, level_patterns, map_patterns, needed_names, wilds, with_twin, zone_patterns, zone_scalars};
ghost use Rattle.rg_zone_rules.specs.Rules.{entry_values_fit, level_values_fit, map_values_fit, zone_values_fit};
ghost use Rattle.rg_zone_rules.specs.Zones.{entry_maps, is_for, is_recursive};

use crate::resources::is_recursive;
use rg_base::{Named, NoMemory, Seq, Text, TryCopy, is_among};
use rg_defs::{Level, ServiceDef, level_of};
use rg_pattern::{Pattern, PatternFault, twin_keeps};
use rg_zone_rules::{ZoneLevel, ZoneRow, ZoneService, is_for};
use std::alloc::Global;
use std::marker::Model;

/// A pattern without `{USER}`.
#[derive(Drop)]
pub(crate) struct PlainPattern {
    held: Pattern,
}

impl Model for PlainPattern {
    ghost use Rattle.std.specs.Prelude.{◌≡◌, List, false, IsTrue};
    ghost use Rattle.rg_pattern.specs.declared.atoms.Atom.{Atom};
    ghost use Rattle.rg_pattern.specs.Atoms.{are_scalars, has_user};

    ghost Value = { List Atom };

    ghost view = { λ p. p.held };

    ghost invariant = { λ p. (has_user p.held ≡ false) × IsTrue (are_scalars p.held) };
}

impl PlainPattern {
    fn parse(alloc: Global, text: &str, wild: bool) -> Result<PlainPattern, NoMemory>
        requires { value_fits (chars text.now) ≡ true }
        ensures { IfOk result (λ p. p ≡ atoms_of wild (chars text.now)) }
    {
        match Pattern::parse(alloc, text, wild) {
            Ok(held) => Ok(PlainPattern { held }),
            Err(PatternFault::NoMemory) => Err(NoMemory),
            Err(PatternFault::Empty | PatternFault::TooLong) => unreachable!(),
        }
    }

    fn twin(&self, alloc: Global) -> Result<PlainPattern, NoMemory>
        ensures { IfOk result (λ p. p ≡ twin self.now) }
    {
        twin_keeps();
        let held = self.held.recursive(alloc)?;
        Ok(PlainPattern { held })
    }

    pub(crate) fn literal_prefix(&self, alloc: Global, fold: bool) -> Result<Text, NoMemory>
        ensures { IfOk result (λ t. t ≡ literal_prefix fold self.now) }
    {
        self.held.literal_prefix(alloc, fold)
    }

    /// Whether some text is stood for by both patterns.
    pub(crate) fn overlap(
        &self,
        alloc: Global,
        other: &PlainPattern,
        fold: bool,
    ) -> Result<bool, NoMemory>
        ensures { IfOk result (λ b. b ≡ overlaps fold self.now other.now) }
    {
        self.held.overlap(alloc, &other.held, fold)
    }
}

/// What of a level's values decides the overlap.
#[derive(Drop)]
pub(crate) struct CompiledLevel {
    pub(crate) name: Text,
    /// Those of the values, and of what lies below them where the level is recursive.
    pub(crate) patterns: Vec<PlainPattern>,
    pub(crate) fold: bool,
    /// Whether a resource need not name the level.
    pub(crate) lists_star: bool,
}

impl Model for CompiledLevel {
    ghost use Rattle.rg_zone_rules.specs.Overlap.{LevelPatterns};

    ghost Value = { LevelPatterns };

    ghost view = { λ l. record {
      name = l.name;
      patterns = l.patterns.items;
      fold = l.fold;
      lists_star = l.lists_star;
    } };
}

impl Named for CompiledLevel {
    ghost named = { λ l. l.name };

    fn name(&self) -> &str {
        self.name.as_str()
    }
}

/// A resource map of a zone.
#[derive(Drop)]
pub(crate) struct CompiledMap {
    pub(crate) levels: Vec<CompiledLevel>,
    /// The names of the levels that every resource in the map names.
    pub(crate) needed: Vec<Text>,
}

impl Model for CompiledMap {
    ghost use Rattle.std.specs.Prelude.{◌≡◌, List};
    ghost use Rattle.rg_zone_rules.specs.Overlap.{LevelPatterns, needed_names};

    ghost Value = { List LevelPatterns };

    ghost view = { λ m. m.levels.items };

    ghost invariant = { λ m. m.needed.items ≡ needed_names m.levels.items };
}

/// The maps of a zone for the service.
#[derive(Drop)]
pub(crate) struct CompiledZone {
    pub(crate) maps: Vec<CompiledMap>,
}

impl Model for CompiledZone {
    ghost use Rattle.std.specs.Prelude.{List};
    ghost use Rattle.rg_zone_rules.specs.Overlap.{LevelPatterns};

    ghost Value = { List (List LevelPatterns) };

    ghost view = { λ z. z.maps.items };
}

fn wilds(level: Option<&Level>) -> bool
    ensures { result ≡ wilds (option_map (λ l. l.now) level.entry) }
{
    match level {
        Some(level) => level.wild,
        None => false,
    }
}

fn folds(level: Option<&Level>) -> bool
    ensures { result ≡ folds (option_map (λ l. l.now) level.entry) }
{
    match level {
        Some(level) => level.fold,
        None => false,
    }
}

/// These patterns and that of the value, followed by its twin where the level is recursive.
#[tactic(auto, using(crate::proofs::Scalars::one_more))]
fn with_value(
    alloc: Global,
    mut patterns: Vec<PlainPattern>,
    text: &str,
    wild: bool,
    recursive: bool,
) -> Result<Vec<PlainPattern>, NoMemory>
    requires { value_fits (chars text.now) ≡ true }
    ensures exact { IfOk result
        (λ v. v.items ≡ patterns.items ++ with_twin recursive (atoms_of wild (chars text.now))) }
    ensures scalars { IfOk result
        (λ v. list_all are_scalars v.items ≡ list_all are_scalars patterns.items) }
{
    let pattern = PlainPattern::parse(alloc, text, wild)?;
    if recursive {
        let twin = pattern.twin(alloc)?;
        return with_two(patterns, pattern, twin);
    }
    patterns.push(pattern)?;
    Ok(patterns)
}

#[tactic(auto, using(crate::proofs::Scalars::two_more))]
fn with_two(
    mut patterns: Vec<PlainPattern>,
    pattern: PlainPattern,
    twin: PlainPattern,
) -> Result<Vec<PlainPattern>, NoMemory>
    ensures exact { IfOk result (λ v. v.items ≡ patterns.items ++ pattern ∷ twin ∷ []) }
    ensures scalars { IfOk result
        (λ v. list_all are_scalars v.items ≡ list_all are_scalars patterns.items) }
{
    patterns.push(pattern)?;
    patterns.push(twin)?;
    Ok(patterns)
}

fn patterns(
    alloc: Global,
    texts: &[Text],
    wild: bool,
    recursive: bool,
) -> Result<Vec<PlainPattern>, NoMemory>
    requires { list_all value_fits texts.now ≡ true }
    ensures exact { IfOk result
        (λ v. v.items ≡ flat_map (λ t. with_twin recursive (atoms_of wild t)) texts.now) }
    ensures scalars { IfOk result (λ v. list_all are_scalars v.items ≡ true) }
{
    let mut read = Vec::new(alloc);
    for text in texts {
        read = with_value(alloc, read, text.as_str(), wild, recursive)?;
    }
    Ok(read)
}

impl CompiledLevel {
    /// The level of a zone's map.
    #[tactic(auto, using(crate::proofs::Stars::star_facts))]
    fn compile(
        alloc: Global,
        def: &ServiceDef,
        level: &ZoneLevel,
    ) -> Result<CompiledLevel, NoMemory>
        requires { level_values_fit level.now ≡ true }
        ensures exact { IfOk result (λ l. l ≡ level_patterns def.now level.now) }
        ensures scalars { IfOk result (λ l. list_all are_scalars l.patterns ≡ true) }
    {
        let known = level_of(def, level.level.as_str());
        let values = level.values.as_slice();
        Ok(CompiledLevel {
            name: level.level.try_copy(alloc)?,
            patterns: patterns(alloc, values, wilds(known), is_recursive(known))?,
            fold: folds(known),
            lists_star: is_among("*", values),
        })
    }
}

/// These levels and this one.
#[tactic(auto, using(crate::proofs::Scalars::one_more))]
fn with_level(
    alloc: Global,
    def: &ServiceDef,
    mut levels: Vec<CompiledLevel>,
    written: &ZoneLevel,
) -> Result<Vec<CompiledLevel>, NoMemory>
    requires { level_values_fit written.now ≡ true }
    ensures exact { IfOk result
        (λ v. v.items ≡ levels.items ++ level_patterns def.now written.now ∷ []) }
    ensures scalars { IfOk result (λ v. form_scalars v.items ≡ form_scalars levels.items) }
{
    let level = CompiledLevel::compile(alloc, def, written)?;
    levels.push(level)?;
    Ok(levels)
}

fn compile_levels(
    alloc: Global,
    def: &ServiceDef,
    written: &[ZoneLevel],
) -> Result<Vec<CompiledLevel>, NoMemory>
    requires { list_all level_values_fit written.now ≡ true }
    ensures exact { IfOk result (λ v. v.items ≡ map (level_patterns def.now) written.now) }
    ensures scalars { IfOk result (λ v. form_scalars v.items ≡ true) }
{
    let mut levels = Vec::new(alloc);
    for one in written {
        levels = with_level(alloc, def, levels, one)?;
    }
    Ok(levels)
}

fn needed_names(alloc: Global, levels: &[CompiledLevel]) -> Result<Vec<Text>, NoMemory>
    ensures { IfOk result (λ v. v.items ≡ needed_names levels.now) }
{
    let mut names = Vec::new(alloc);
    for level in levels {
        if !level.lists_star {
            names.push(level.name.try_copy(alloc)?)?;
        }
    }
    Ok(names)
}

impl CompiledMap {
    fn compile(
        alloc: Global,
        def: &ServiceDef,
        map: &Seq<ZoneLevel>,
    ) -> Result<CompiledMap, NoMemory>
        requires { map_values_fit map.now ≡ true }
        ensures exact { IfOk result (λ m. m ≡ map_patterns def.now map.now) }
        ensures scalars { IfOk result (λ m. form_scalars m ≡ true) }
    {
        let levels = compile_levels(alloc, def, map.as_slice())?;
        let needed = needed_names(alloc, &levels)?;
        Ok(CompiledMap { levels, needed })
    }
}

/// These maps and those of the entry.
#[tactic(auto, using(crate::proofs::Scalars::one_more))]
fn with_entry(
    alloc: Global,
    def: &ServiceDef,
    mut maps: Vec<CompiledMap>,
    entry: &[Seq<ZoneLevel>],
) -> Result<Vec<CompiledMap>, NoMemory>
    requires { list_all map_values_fit entry.now ≡ true }
    ensures exact { IfOk result
        (λ v. v.items ≡ maps.items ++ map (map_patterns def.now) entry.now) }
    ensures scalars { IfOk result (λ v. zone_scalars v.items ≡ zone_scalars maps.items) }
{
    for map in entry {
        let map = CompiledMap::compile(alloc, def, map)?;
        maps.push(map)?;
    }
    Ok(maps)
}

/// These maps and those of the entry, where it is for the service.
fn with_entry_for(
    alloc: Global,
    service: &str,
    def: &ServiceDef,
    maps: Vec<CompiledMap>,
    entry: &ZoneService,
) -> Result<Vec<CompiledMap>, NoMemory>
    requires { (not (is_for (chars service.now) entry.now) || entry_values_fit entry.now) ≡ true }
    ensures exact { IfOk result (λ v. v.items
        ≡ maps.items ++ map (map_patterns def.now) (entry_maps (chars service.now) entry.now)) }
    ensures scalars { IfOk result (λ v. zone_scalars v.items ≡ zone_scalars maps.items) }
{
    if !is_for(service, entry) {
        return Ok(maps);
    }
    with_entry(alloc, def, maps, entry.resources.as_slice())
}

/// The maps of the entry.
pub(crate) fn compile_entry(
    alloc: Global,
    def: &ServiceDef,
    entry: &ZoneService,
) -> Result<Vec<CompiledMap>, NoMemory>
    requires { entry_values_fit entry.now ≡ true }
    ensures { IfOk result (λ v. v.items ≡ map (map_patterns def.now) entry.now.resources.items) }
{
    with_entry(alloc, def, Vec::new(alloc), entry.resources.as_slice())
}

impl CompiledZone {
    pub(crate) fn compile(
        alloc: Global,
        service: &str,
        def: &ServiceDef,
        zone: &ZoneRow,
    ) -> Result<CompiledZone, NoMemory>
        requires { zone_values_fit (chars service.now) zone.now ≡ true }
        ensures exact { IfOk result (λ z. z ≡ zone_patterns (chars service.now) def.now zone.now) }
        ensures scalars { IfOk result (λ z. zone_scalars z ≡ true) }
    {
        let mut maps = Vec::new(alloc);
        for entry in zone.services.as_slice() {
            maps = with_entry_for(alloc, service, def, maps, entry)?;
        }
        Ok(CompiledZone { maps })
    }
}
