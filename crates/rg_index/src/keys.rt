// The keys under which a form is filed at one level.
ghost use Rattle.std.specs.Prelude.{◌≡◌, ◌++◌, IfOk, map, true};
ghost use Rattle.std.specs.List.{flat_map, list_all};
ghost use Rattle.std.specs.Str.{chars};
ghost use Rattle.rg_base.specs.Texts.{is_name};
ghost use Rattle.rg_defs.specs.declared.service_def.Level.{Level};
ghost use Rattle.rg_index.specs.Filing.{keys_of, value_key};
ghost use Rattle.rg_index.specs.Kept.{level_keys, lacked_keys, map_keys, named_keys};
ghost use Rattle.rg_resmatch.specs.Rules.{all_values_fit, are_written};
ghost use Rattle.rg_resmatch.specs.Tests.{names_level};

use crate::form::Form;
use rg_base::{NoMemory, Text, is_named, same_text};
use rg_defs::Level;
use rg_pattern::pattern_of;
use rg_policy::{PolicyResource, ResourceMap};
use rg_resmatch::Reach;
use std::alloc::Global;

fn value_key(alloc: Global, level: &Level, value: &str) -> Result<Text, NoMemory>
    requires { is_name (chars value.now) ≡ true }
    ensures { IfOk result (λ t. t ≡ value_key level.now (chars value.now)) }
{
    let pattern = pattern_of(alloc, value, level.wild)?;
    pattern.literal_prefix(alloc, level.fold)
}

/// The keys, and those of the values after them.
fn with_values(
    alloc: Global,
    mut keys: Vec<Text>,
    level: &Level,
    values: &[Text],
) -> Result<Vec<Text>, NoMemory>
    requires { list_all is_name values.now ≡ true }
    ensures { IfOk result (λ v. v.items ≡ keys.items ++ map (value_key level.now) values.now) }
{
    for value in values {
        let key = value_key(alloc, level, value.as_str())?;
        keys.push(key)?;
    }
    Ok(keys)
}

fn with_resource(
    alloc: Global,
    mut keys: Vec<Text>,
    level: &Level,
    resource: &PolicyResource,
) -> Result<Vec<Text>, NoMemory>
    requires { list_all is_name resource.now.values.items ≡ true }
    ensures { IfOk result (λ v. v.items ≡ keys.items ++ named_keys level.now resource.now) }
{
    if !same_text(resource.level.as_str(), level.name.as_str()) {
        return Ok(keys);
    }
    if resource.excludes {
        keys.push(Text::empty(alloc))?;
        return Ok(keys);
    }
    with_values(alloc, keys, level, resource.values.as_slice())
}

fn with_resources(
    alloc: Global,
    mut keys: Vec<Text>,
    level: &Level,
    resources: &[PolicyResource],
) -> Result<Vec<Text>, NoMemory>
    requires { are_written resources.now ≡ true }
    ensures { IfOk result
        (λ v. v.items ≡ keys.items ++ flat_map (named_keys level.now) resources.now) }
{
    for resource in resources {
        keys = with_resource(alloc, keys, level, resource)?;
    }
    Ok(keys)
}

/// The keys, and the empty one after them where the reach is down and the resources lack the level.
fn with_lacked(
    alloc: Global,
    mut keys: Vec<Text>,
    level: &Level,
    reach: Reach,
    resources: &[PolicyResource],
) -> Result<Vec<Text>, NoMemory>
    ensures { IfOk result (λ v. v.items ≡ keys.items ++ lacked_keys reach level.now resources.now) }
{
    match reach {
        Reach::Exact => Ok(keys),
        Reach::Down => {
            if is_named(resources, level.name.as_str()) {
                return Ok(keys);
            }
            keys.push(Text::empty(alloc))?;
            Ok(keys)
        }
    }
}

fn with_map(
    alloc: Global,
    keys: Vec<Text>,
    level: &Level,
    reach: Reach,
    map: &ResourceMap,
) -> Result<Vec<Text>, NoMemory>
    requires { are_written map.now.levels.items ≡ true }
    ensures { IfOk result (λ v. v.items ≡ keys.items ++ map_keys level.now reach map.now) }
{
    let resources = map.levels.as_slice();
    let named = with_resources(alloc, keys, level, resources)?;
    with_lacked(alloc, named, level, reach, resources)
}

/// The keys of the form at the level, map by map.
pub(crate) fn level_keys(alloc: Global, level: &Level, form: &Form) -> Result<Vec<Text>, NoMemory>
    requires { list_all (λ (m : ResourceMap). are_written m.levels.items) form.now.maps.items
        ≡ true }
    ensures { IfOk result (λ v. v.items ≡ level_keys level.now form.now) }
{
    let mut keys = Vec::new(alloc);
    for map in form.maps.as_slice() {
        keys = with_map(alloc, keys, level, form.reach, map)?;
    }
    Ok(keys)
}
