// Whether levels of a policy match what is asked about.
ghost use Rattle.std.specs.Prelude.{◌≡◌, IfOk, option_map};
ghost use Rattle.std.specs.List.{find, list_any};
ghost use Rattle.std.specs.Str.{bytes_eq, chars};
ghost use Rattle.rg_defs.specs.Paths.{level_of};
ghost use Rattle.rg_pattern.specs.Reading.{atoms_of};
ghost use Rattle.rg_policy.specs.declared.request.Element.{Element};
ghost use Rattle.rg_resmatch.specs.Tests.{hit, is_hit, is_open, meets, some_stands, value_at};
ghost use Rattle.rg_standing.specs.Hits.{level_hit, value_stands};

use rg_base::{NoMemory, Text, find_named, is_among};
use rg_defs::{Level, ServiceDef, level_of};
use rg_pattern::Pattern;
use rg_policy::{Element, PolicyResource};
use std::alloc::Global;

/// The pattern of a written value of 1 to 256 characters.
fn written(alloc: Global, text: &Text, wild: bool) -> Result<Pattern, NoMemory>
    ensures { IfOk result (λ p. p ≡ atoms_of wild text.now) }
{
    match Pattern::parse(alloc, text.as_str(), wild) {
        Ok(pattern) => Ok(pattern),
        Err(_) => Err(NoMemory),
    }
}

/// Whether the written value stands for the value, or, where it is recursive, its twin does.
fn value_stands(
    alloc: Global,
    level: &Level,
    recursive: bool,
    text: &Text,
    user: &str,
    value: &str,
) -> Result<bool, NoMemory>
    ensures { IfOk result
        (λ b. b ≡ value_stands level.now recursive (chars user.now) (chars value.now) text.now) }
{
    let pattern = written(alloc, text, level.wild)?;
    if pattern.matches(value, user, level.fold) {
        return Ok(true);
    }
    if !recursive {
        return Ok(false);
    }
    let twin = pattern.recursive(alloc)?;
    Ok(twin.matches(value, user, level.fold))
}

fn any_stands(
    alloc: Global,
    level: &Level,
    recursive: bool,
    values: &[Text],
    user: &str,
    value: &str,
) -> Result<bool, NoMemory>
    ensures { IfOk result (λ b. b ≡ list_any
        (value_stands level.now recursive (chars user.now) (chars value.now)) values.now) }
{
    for text in values {
        if value_stands(alloc, level, recursive, text, user, value)? {
            return Ok(true);
        }
    }
    Ok(false)
}

/// Whether a value of the resource, or a twin where it is recursive, stands for the value.
#[tactic(auto, using(crate::proofs::Tests::some_value))]
fn some_stands(
    alloc: Global,
    level: &Level,
    resource: &PolicyResource,
    user: &str,
    value: &str,
) -> Result<bool, NoMemory>
    ensures { IfOk result
        (λ b. b ≡ some_stands level.now resource.now (chars user.now) (chars value.now)) }
{
    let values = resource.values.as_slice();
    any_stands(alloc, level, resource.recursive, values, user, value)
}

fn hit(
    alloc: Global,
    level: &Level,
    resource: &PolicyResource,
    user: &str,
    value: &str,
) -> Result<bool, NoMemory>
    ensures { IfOk result (λ b. b ≡ hit level.now resource.now (chars user.now) (chars value.now)) }
{
    let found = some_stands(alloc, level, resource, user, value)?;
    Ok(if resource.excludes { !found } else { found })
}

/// Whether the value hits the level of the resource.
fn is_hit(
    alloc: Global,
    def: &ServiceDef,
    resource: &PolicyResource,
    user: &str,
    value: &str,
) -> Result<bool, NoMemory>
    ensures { IfOk result (λ b. b ≡ is_hit
        (level_of def.now resource.now.level) resource.now (chars user.now) (chars value.now)) }
{
    match level_of(def, resource.level.as_str()) {
        Some(level) => hit(alloc, level, resource, user, value),
        None => Ok(false),
    }
}

/// The value that is asked about on this level.
fn value_at<'a>(elements: &'a [Element], name: &str) -> Option<&'a Text>
    ensures { option_map (λ t. t.now) result ≡ value_at elements.now (chars name.now) }
{
    match find_named(elements, name) {
        Some(element) => Some(&element.value),
        None => None,
    }
}

/// Whether the level is named by what is asked about, and hit.
pub(crate) fn level_hit(
    alloc: Global,
    def: &ServiceDef,
    user: &str,
    elements: &[Element],
    resource: &PolicyResource,
) -> Result<bool, NoMemory>
    ensures { IfOk result (λ b. b ≡ level_hit def.now (chars user.now) elements.now resource.now) }
{
    match value_at(elements, resource.level.as_str()) {
        Some(value) => is_hit(alloc, def, resource, user, value.as_str()),
        None => Ok(false),
    }
}

/// Whether the resource isn't excluding and has the written value `*`.
#[tactic(auto, using(rg_resmatch::proofs::Stars::star_facts))]
fn is_open(resource: &PolicyResource) -> bool
    ensures { result ≡ is_open resource.now }
{
    !resource.excludes && is_among("*", resource.values.as_slice())
}

/// Whether the level matches: it is hit where it is named by what is asked about, and open where it isn't.
pub(crate) fn meets(
    alloc: Global,
    def: &ServiceDef,
    user: &str,
    elements: &[Element],
    resource: &PolicyResource,
) -> Result<bool, NoMemory>
    ensures { IfOk result (λ b. b ≡ meets def.now
        (chars user.now) resource.now (value_at elements.now resource.now.level)) }
{
    match value_at(elements, resource.level.as_str()) {
        Some(value) => is_hit(alloc, def, resource, user, value.as_str()),
        None => Ok(is_open(resource)),
    }
}
