// The policy that a row is for.
ghost use Rattle.std.specs.Prelude.{◌≡◌, IfOk, option_map};
ghost use Rattle.std.specs.List.{list_all};
ghost use Rattle.rg_policy.specs.Maps.{maps_of};
ghost use Rattle.rg_policy.specs.declared.policy.ResourceMap.{ResourceMap};
ghost use Rattle.rg_same_resources.specs.Counts.{IsCounted};
ghost use Rattle.rg_same_resources.specs.Twins.{same_levels, same_maps};
ghost use Rattle.rg_grant.specs.Planning.{is_for, is_of_kind, map_of, policy_for};

use crate::row::GrantRow;
use rg_base::{NoMemory, same_text};
use rg_cmd::State;
use rg_policy::{ACCESS_POLICY, NORMAL, Policy, ResourceMap};
use rg_same_resources::{PrintCounts, print_of_map, same_levels};
use std::alloc::Global;

/// Whether each of the maps has the row's levels, flags and values.
fn all_same(alloc: Global, row: &GrantRow, maps: &[ResourceMap]) -> Result<bool, NoMemory>
    ensures { IfOk result (λ all. all ≡ list_all
        (λ (m : ResourceMap). same_levels row.now.resources.items m.levels.items) maps.now) }
{
    for map in maps {
        if !same_levels(alloc, row.resources.as_slice(), map.levels.as_slice())? {
            return Ok(false);
        }
    }
    Ok(true)
}

/// Whether the policy's maps are the same as the row's one map.
#[tactic(auto, using(crate::proofs::OneMap::one_map))]
fn same_maps(alloc: Global, row: &GrantRow, policy: &Policy) -> Result<bool, NoMemory>
    ensures { IfOk result (λ same. same ≡ same_maps (map_of row.now) (maps_of policy.now)) }
{
    if !same_levels(alloc, row.resources.as_slice(), policy.resources.as_slice())? {
        return Ok(false);
    }
    all_same(alloc, row, policy.additional.as_slice())
}

/// Whether the policy is of the row's service and zone, of type 0 and priority 0, and without schedules.
fn is_of_kind(row: &GrantRow, policy: &Policy) -> bool
    ensures { result ≡ is_of_kind row.now policy.now }
{
    (same_text(policy.service.as_str(), row.service.as_str())
        && same_text(policy.zone.as_str(), row.zone.as_str()))
        && (policy.policy_type == ACCESS_POLICY
            && (policy.priority == NORMAL && policy.schedules.is_empty()))
}

fn is_for(alloc: Global, row: &GrantRow, policy: &Policy) -> Result<bool, NoMemory>
    ensures { IfOk result (λ fits. fits ≡ is_for row.now policy.now) }
{
    if !policy.enabled || !is_of_kind(row, policy) {
        return Ok(false);
    }
    same_maps(alloc, row, policy)
}

/// The policy of the row, if there is one. The policies are looked at where the counts show some with the row's print, and
/// those that differ in a level, a flag or a first value take no memory.
#[tactic(auto, using(crate::proofs::NoneFor::none_counted))]
pub(crate) fn policy_for<'a>(
    alloc: Global,
    state: &'a State,
    counts: &PrintCounts,
    row: &GrantRow,
) -> Result<Option<&'a Policy>, NoMemory>
    requires { IsCounted counts.now state.now.policies.items }
    ensures { IfOk result (λ found. option_map (λ p. p.now) found ≡ policy_for state.now row.now) }
{
    if counts.count_of(print_of_map(&row.resources)) == 0 {
        return Ok(None);
    }
    for policy in state.policies.as_slice() {
        if is_for(alloc, row, policy)? {
            return Ok(Some(policy));
        }
    }
    Ok(None)
}
