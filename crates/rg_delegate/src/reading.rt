// The resource maps of a policy, their values read once.
ghost use Rattle.std.specs.Prelude.{◌≡◌, ◌++◌, IfOk, map, option_map, true, false, Option};
ghost use Rattle.std.specs.List.{list_all};
ghost use Rattle.std.specs.Option.{option_map_or};
ghost use Rattle.std.specs.Str.{chars};
ghost use Rattle.rg_base.specs.Texts.{is_name};
ghost use Rattle.rg_defs.specs.declared.service_def.Level.{Level};
ghost use Rattle.rg_defs.specs.Paths.{level_of};
ghost use Rattle.rg_policy.specs.Maps.{maps_of};
ghost use Rattle.rg_resmatch.specs.Rules.{all_values_fit, are_written, policy_values_fit, values_fit};
ghost use Rattle.rg_delegate.specs.Compiled.{level_form, map_form, map_forms};
ghost use Rattle.rg_delegate.specs.Covering.{has_wildcards, ignores_case, patterns_at};

use rg_base::{Named, NoMemory};
use rg_defs::{ServiceDef, level_of};
use rg_pattern::{Pattern, value_patterns};
use rg_policy::{Policy, PolicyResource, ResourceMap};
use std::alloc::Global;
use std::marker::Model;

/// One level of a map.
#[derive(Drop)]
pub(crate) struct ReadLevel<'a> {
    pub written: &'a PolicyResource,
    /// Those of the values, and of what lies below them where the resource is recursive.
    pub patterns: Vec<Pattern>,
    /// Whether the level ignores case.
    pub fold: bool,
}

impl<'a> Model for ReadLevel<'a> {
    ghost use Rattle.rg_delegate.specs.Compiled.{LevelForm};

    ghost Value = { LevelForm };

    ghost view = { λ l. record {
      written = l.written.now;
      patterns = l.patterns.items;
      fold = l.fold;
    } };
}

impl<'a> Named for ReadLevel<'a> {
    ghost named = { λ l. l.written.level };

    fn name(&self) -> &str {
        self.written.level.as_str()
    }
}

/// One map.
#[derive(Drop)]
pub(crate) struct ReadMap<'a> {
    pub levels: Vec<ReadLevel<'a>>,
}

impl<'a> Model for ReadMap<'a> {
    ghost use Rattle.std.specs.Prelude.{List};
    ghost use Rattle.rg_delegate.specs.Compiled.{LevelForm};

    ghost Value = { List LevelForm };

    ghost view = { λ m. m.levels.items };
}

fn has_wildcards(def: &ServiceDef, resource: &PolicyResource) -> bool
    ensures { result ≡ has_wildcards def.now resource.now.level }
{
    match level_of(def, resource.level.as_str()) {
        Some(level) => level.wild,
        None => false,
    }
}

fn ignores_case(def: &ServiceDef, resource: &PolicyResource) -> bool
    ensures { result ≡ ignores_case def.now resource.now.level }
{
    match level_of(def, resource.level.as_str()) {
        Some(level) => level.fold,
        None => false,
    }
}

fn patterns_at(
    alloc: Global,
    def: &ServiceDef,
    resource: &PolicyResource,
) -> Result<Vec<Pattern>, NoMemory>
    requires { list_all is_name resource.now.values.items ≡ true }
    ensures { IfOk result (λ v. v.items ≡ patterns_at def.now resource.now) }
{
    let wild = has_wildcards(def, resource);
    value_patterns(alloc, resource.values.as_slice(), wild, resource.recursive)
}

fn read_level<'a>(
    alloc: Global,
    def: &ServiceDef,
    resource: &'a PolicyResource,
) -> Result<ReadLevel<'a>, NoMemory>
    requires { list_all is_name resource.now.values.items ≡ true }
    ensures { IfOk result (λ l. l ≡ level_form def.now resource.now) }
{
    let patterns = patterns_at(alloc, def, resource)?;
    let fold = ignores_case(def, resource);
    Ok(ReadLevel {
        written: resource,
        patterns,
        fold,
    })
}

fn read_levels<'a>(
    alloc: Global,
    def: &ServiceDef,
    resources: &'a [PolicyResource],
) -> Result<Vec<ReadLevel<'a>>, NoMemory>
    requires { are_written resources.now ≡ true }
    ensures { IfOk result (λ v. v.items ≡ map_form def.now resources.now) }
{
    let mut levels = Vec::new(alloc);
    for resource in resources {
        let level = read_level(alloc, def, resource)?;
        levels.push(level)?;
    }
    Ok(levels)
}

fn read_map<'a>(
    alloc: Global,
    def: &ServiceDef,
    resources: &'a [PolicyResource],
) -> Result<ReadMap<'a>, NoMemory>
    requires { values_fit def.now resources.now ≡ true }
    ensures { IfOk result (λ m. m ≡ map_form def.now resources.now) }
{
    let levels = read_levels(alloc, def, resources)?;
    Ok(ReadMap { levels })
}

/// These maps after those that are read.
fn with_maps<'a>(
    alloc: Global,
    mut read: Vec<ReadMap<'a>>,
    def: &ServiceDef,
    maps: &'a [ResourceMap],
) -> Result<Vec<ReadMap<'a>>, NoMemory>
    requires { all_values_fit def.now maps.now ≡ true }
    ensures { IfOk result (λ v. v.items ≡ read.entry.items ++ map_forms def.now maps.now) }
{
    for map in maps {
        let form = read_map(alloc, def, map.levels.as_slice())?;
        read.push(form)?;
    }
    Ok(read)
}

/// The maps of the policy, whose values are patterns.
pub(crate) fn read_maps<'a>(
    alloc: Global,
    def: &ServiceDef,
    policy: &'a Policy,
) -> Result<Vec<ReadMap<'a>>, NoMemory>
    requires { policy_values_fit def.now policy.now ≡ true }
    ensures { IfOk result (λ v. v.items ≡ map_forms def.now (maps_of policy.now)) }
{
    let first = read_map(alloc, def, policy.resources.as_slice())?;
    let mut read = Vec::new(alloc);
    read.push(first)?;
    with_maps(alloc, read, def, policy.additional.as_slice())
}
