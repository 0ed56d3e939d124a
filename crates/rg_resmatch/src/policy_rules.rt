// The rules of the resource maps of a policy.
ghost use Rattle.std.specs.Prelude.{◌≡◌, true};
ghost use Rattle.std.specs.List.{list_all};
ghost use Rattle.rg_base.specs.Texts.{is_among};
ghost use Rattle.rg_policy.specs.declared.policy.PolicyResource.{PolicyResource};
ghost use Rattle.rg_policy.specs.declared.policy.ResourceMap.{ResourceMap};
ghost use Rattle.rg_policy.specs.Maps.{maps_of};
ghost use Rattle.rg_resmatch.specs.Rules.{all_levels_fit, are_listed, part_levels, policy_levels_fit, policy_values_fit};

use crate::rules::{all_levels_fit, all_values_fit, levels_fit, values_fit};
use rg_base::{Text, is_among};
use rg_defs::{PathedDef, ServiceDef};
use rg_policy::{Policy, PolicyResource, ResourceMap};

/// The levels that the definition lists for policies of this policy's type: 1 masks, 2 filters rows.
fn part_levels<'a>(def: &'a ServiceDef, policy: &Policy) -> &'a [Text]
    ensures { result.now ≡ part_levels def.now policy.now.policy_type }
{
    if policy.policy_type == 1 {
        def.mask_levels.as_slice()
    } else if policy.policy_type == 2 {
        def.filter_levels.as_slice()
    } else {
        &[]
    }
}

fn all_among(levels: &[Text], resources: &[PolicyResource]) -> bool
    ensures { result
        ≡ list_all (λ (r : PolicyResource). is_among r.level levels.now) resources.now }
{
    resources
        .iter()
        .all(|resource| is_among(resource.level.as_str(), levels))
}

/// Whether each level is one of these, where there are any.
fn are_listed(levels: &[Text], resources: &[PolicyResource]) -> bool
    ensures { result ≡ are_listed levels.now resources.now }
{
    match levels {
        [] => true,
        _ => all_among(levels, resources),
    }
}

fn all_listed(levels: &[Text], maps: &[ResourceMap]) -> bool
    ensures { result
        ≡ list_all (λ (m : ResourceMap). are_listed levels.now m.levels.items) maps.now }
{
    maps.iter()
        .all(|map| are_listed(levels, map.levels.as_slice()))
}

/// Whether the levels of each map of the policy fit.
fn levels_of_maps_fit(def: &PathedDef, policy: &Policy) -> bool
    ensures { result ≡ all_levels_fit def.now true (maps_of policy.now) }
{
    levels_fit(def, true, policy.resources.as_slice())
        && all_levels_fit(def, true, policy.additional.as_slice())
}

/// Whether each level of each map is one of these, where there are any.
fn maps_are_listed(levels: &[Text], policy: &Policy) -> bool
    ensures { result ≡ list_all (λ (m : ResourceMap). are_listed levels.now m.levels.items)
        (maps_of policy.now) }
{
    are_listed(levels, policy.resources.as_slice())
        && all_listed(levels, policy.additional.as_slice())
}

/// Whether the policy has at most 15 additional maps, the levels of each of its maps fit, mandatory ones among them,
/// and for type 1 or 2 each is listed in that part of the definition, where the part lists any (rule V5).
pub fn policy_levels_fit(def: &PathedDef, policy: &Policy) -> bool
    ensures { result ≡ policy_levels_fit def.now policy.now }
{
    policy.additional.len() <= 15
        && (levels_of_maps_fit(def, policy)
            && maps_are_listed(part_levels(def.def, policy), policy))
}

/// Whether the values of each map of the policy fit (rule V6).
pub fn policy_values_fit(def: &ServiceDef, policy: &Policy) -> bool
    ensures { result ≡ policy_values_fit def.now policy.now }
{
    values_fit(def, policy.resources.as_slice())
        && all_values_fit(def, policy.additional.as_slice())
}
