// The rules that resource maps have to pass before they are compiled.
ghost use Rattle.std.specs.Prelude.{◌≡◌, None, Option, option_map};
ghost use Rattle.std.specs.List.{list_all};
ghost use Rattle.rg_base.specs.Texts.{is_name};
ghost use Rattle.rg_defs.specs.Rules.{has_level};
ghost use Rattle.rg_policy.specs.declared.policy.PolicyResource.{PolicyResource};
ghost use Rattle.rg_resmatch.specs.Rules.{all_levels_fit, all_values_fit, levels_fit, names_no_user, supports, tagged_fit, values_fit, values_fit_level};

use rg_base::{Text, is_name, is_named, names_distinct};
use rg_defs::{Level, PathedDef, ServiceDef, level_of, mandatory_named};
use rg_pattern::value_fits;
use rg_policy::{PolicyResource, ResourceMap};

fn are_levels(levels: &[Level], resources: &[PolicyResource]) -> bool
    ensures { result
        ≡ list_all (λ (r : PolicyResource). has_level levels.now r.level) resources.now }
{
    resources
        .iter()
        .all(|resource| is_named(levels, resource.level.as_str()))
}

/// Whether there is a level, the levels are distinct ones of the definition on one path, and, where `mandatory` is
/// set, every mandatory level above a named one is named (rule V5 of one map, save its part on masks and row
/// filters). The work is linear in the number of resources: more than the definition has levels are refused as soon as
/// one of them is named again.
#[tactic(auto, using(crate::proofs::Named::levels_first))]
pub fn levels_fit(def: &PathedDef, mandatory: bool, resources: &[PolicyResource]) -> bool
    ensures { result ≡ levels_fit def.now mandatory resources.now }
{
    let levels = def.paths.levels();
    match resources {
        [] => false,
        _ => are_levels(levels, resources)
            && (names_distinct(resources)
                && (def.paths.on_one_path(resources)
                    && (!mandatory || mandatory_named(levels, resources)))),
    }
}

/// As `levels_fit`, of each map.
pub fn all_levels_fit(def: &PathedDef, mandatory: bool, maps: &[ResourceMap]) -> bool
    ensures { result ≡ all_levels_fit def.now mandatory maps.now }
{
    maps.iter()
        .all(|map| levels_fit(def, mandatory, map.levels.as_slice()))
}

fn supports(level: Option<&Level>, resource: &PolicyResource) -> bool
    ensures { result ≡ supports (option_map (λ l. l.now) level.entry) resource.now }
{
    match level {
        Some(level) => (!resource.excludes || level.excludes)
            && (!resource.recursive || level.recursive),
        None => !resource.excludes && !resource.recursive,
    }
}

fn are_patterns(values: &[Text]) -> bool
    ensures { result ≡ list_all is_name values.now }
{
    values.iter().all(|value| is_name(value.as_str()))
}

fn values_fit_level(def: &ServiceDef, resource: &PolicyResource) -> bool
    ensures { result ≡ values_fit_level def.now resource.now }
{
    match resource.values.as_slice() {
        [] => false,
        values => are_patterns(values)
            && supports(level_of(def, resource.level.as_str()), resource),
    }
}

/// Whether each level has a value, each value is a pattern of 1 to 256 characters, and a resource excludes or is
/// recursive only where its level supports it (rule V6 of one map).
pub fn values_fit(def: &ServiceDef, resources: &[PolicyResource]) -> bool
    ensures { result ≡ values_fit def.now resources.now }
{
    resources
        .iter()
        .all(|resource| values_fit_level(def, resource))
}

/// As `values_fit`, of each map.
pub fn all_values_fit(def: &ServiceDef, maps: &[ResourceMap]) -> bool
    ensures { result ≡ all_values_fit def.now maps.now }
{
    maps.iter()
        .all(|map| values_fit(def, map.levels.as_slice()))
}

fn names_no_user(resource: &PolicyResource) -> bool
    ensures { result ≡ names_no_user resource.now }
{
    resource
        .values
        .as_slice()
        .iter()
        .all(|value| value_fits(value.as_str()))
}

fn name_no_user(resources: &[PolicyResource]) -> bool
    ensures { result ≡ list_all names_no_user resources.now }
{
    resources.iter().all(|resource| names_no_user(resource))
}

/// Whether the resources of a tag row pass rule G2: V5 without mandatory levels, V6, and no value has `{USER}`.
pub fn tagged_fit(def: &PathedDef, resources: &[PolicyResource]) -> bool
    ensures { result ≡ tagged_fit def.now resources.now }
{
    levels_fit(def, false, resources) && (values_fit(def.def, resources) && name_no_user(resources))
}
