// One level of the resources, its values read once.
ghost use Rattle.std.specs.Prelude.{◌≡◌, ◌&&◌, IfOk, Option, option_map, true};
ghost use Rattle.std.specs.List.{list_all};
ghost use Rattle.std.specs.Str.{chars};
ghost use Rattle.rg_base.specs.Texts.{is_among, is_name};
ghost use Rattle.rg_defs.specs.Paths.{level_of};
ghost use Rattle.rg_resmatch.specs.Compiled.{folds, form_hit, form_meets, is_known, level_form, patterns_at};
ghost use Rattle.rg_resmatch.specs.Tests.{any_stands, is_open};

use rg_base::{Named, NoMemory, Text, TryCopy, is_among};
use rg_defs::{Level, ServiceDef, level_of};
use rg_pattern::{Pattern, value_patterns};
use rg_policy::PolicyResource;
use std::alloc::Global;
use std::marker::Model;

/// What is matched on one level.
#[derive(Drop)]
pub(crate) struct CompiledLevel {
    name: Text,
    /// Those of the values, and of what lies below them where the resource is recursive.
    patterns: Vec<Pattern>,
    excludes: bool,
    fold: bool,
    /// Whether the level matches where the request doesn't name it.
    alone: bool,
}

impl Model for CompiledLevel {
    ghost use Rattle.rg_resmatch.specs.Compiled.{LevelForm};

    ghost Value = { LevelForm };

    ghost view = { λ l. record {
      name = l.name;
      patterns = l.patterns.items;
      excludes = l.excludes;
      fold = l.fold;
      alone = l.alone;
    } };
}

fn patterns_at(
    alloc: Global,
    level: Option<&Level>,
    resource: &PolicyResource,
) -> Result<Vec<Pattern>, NoMemory>
    requires { list_all is_name resource.now.values.items ≡ true }
    ensures { IfOk result
        (λ v. v.items ≡ patterns_at (option_map (λ l. l.now) level.entry) resource.now) }
{
    let Some(level) = level else {
        return Ok(Vec::new(alloc));
    };
    value_patterns(
        alloc,
        resource.values.as_slice(),
        level.wild,
        resource.recursive,
    )
}

fn folds(level: Option<&Level>) -> bool
    ensures { result ≡ folds (option_map (λ l. l.now) level.entry) }
{
    match level {
        Some(level) => level.fold,
        None => false,
    }
}

fn is_known(level: Option<&Level>) -> bool
    ensures { result ≡ is_known (option_map (λ l. l.now) level.entry) }
{
    match level {
        Some(_) => true,
        None => false,
    }
}

/// Whether the resource isn't excluding and has the written value `*`.
#[tactic(auto, using(crate::proofs::Stars::star_facts))]
fn is_open(resource: &PolicyResource) -> bool
    ensures { result ≡ is_open resource.now }
{
    !resource.excludes && is_among("*", resource.values.as_slice())
}

pub(crate) fn any_stands(patterns: &[Pattern], value: &str, user: &str, fold: bool) -> bool
    ensures { result ≡ any_stands fold (chars user.now) (chars value.now) patterns.now }
{
    patterns
        .iter()
        .any(|pattern| pattern.matches(value, user, fold))
}

impl Named for CompiledLevel {
    ghost named = { λ l. l.name };

    fn name(&self) -> &str {
        self.name.as_str()
    }
}

impl CompiledLevel {
    /// The level of the resource.
    pub(crate) fn compile(
        alloc: Global,
        def: &ServiceDef,
        resource: &PolicyResource,
    ) -> Result<CompiledLevel, NoMemory>
        requires { list_all is_name resource.now.values.items ≡ true }
        ensures { IfOk result (λ l. l ≡ level_form def.now resource.now) }
    {
        let level = level_of(def, resource.level.as_str());
        let name = resource.level.try_copy(alloc)?;
        let patterns = patterns_at(alloc, level, resource)?;
        let excludes = is_known(level) && resource.excludes;
        let fold = folds(level);
        let alone = is_open(resource);
        Ok(CompiledLevel {
            name,
            patterns,
            excludes,
            fold,
            alone,
        })
    }

    fn is_hit(&self, value: &str, user: &str) -> bool
        ensures { result ≡ form_hit self.now (chars user.now) (chars value.now) }
    {
        let found = any_stands(&self.patterns, value, user, self.fold);
        if self.excludes { !found } else { found }
    }

    /// Whether the level matches this value of the request, None where the request doesn't name it.
    pub(crate) fn meets(&self, value: Option<&str>, user: &str) -> bool
        ensures { result
            ≡ form_meets (chars user.now) self.now (option_map (λ v. chars v.now) value.entry) }
    {
        match value {
            Some(value) => self.is_hit(value, user),
            None => self.alone,
        }
    }
}
