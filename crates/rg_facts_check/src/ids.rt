// Ids without repeats.
ghost use Rattle.std.specs.Prelude.{◌≡◌, ◌++◌, pos, int_lt, true, map, IfOk, OnOk};
ghost use Rattle.std.specs.List.{list_all};
ghost use Rattle.std.specs.Ordering.{int_eq};
ghost use Rattle.rg_base.specs.Texts.{all_distinct};
ghost use Rattle.rg_policy.specs.declared.policy.Policy.{Policy};
ghost use Rattle.rg_facts.specs.Sound.{all_policies, ids_sound};

use rg_base::NoMemory;
use rg_facts::Facts;
use rg_policy::Policy;
use rg_shared::Shared;
use std::alloc::Global;
use std::collections::BTreeSet;

/// Whether no two of these are one id.
pub(crate) fn ids_distinct(alloc: Global, ids: &[i64]) -> Result<bool, NoMemory>
    ensures { IfOk result (λ distinct. distinct ≡ all_distinct int_eq ids.now) }
{
    let mut seen = BTreeSet::new(alloc);
    for at in (0..ids.len()).rev() {
        match seen.insert(ids[at]) {
            Ok(true) => {}
            Ok(false) => return Ok(false),
            Err(_) => return Err(NoMemory),
        }
    }
    Ok(true)
}

fn are_positive(ids: &[i64]) -> bool
    ensures { result ≡ list_all (int_lt (pos 0)) ids.now }
{
    ids.iter().all(|id| 0 < *id)
}

/// Adds the ids of the policies.
fn append_ids(ids: &mut Vec<i64>, policies: &[Shared<Policy>]) -> Result<(), NoMemory>
    ensures { OnOk result (ids.new.items
        ≡ ids.old.items ++ map (λ (p : Policy). p.id.0) policies.now) }
{
    for policy in policies {
        if ids.push(policy.id.0).is_err() {
            return Err(NoMemory);
        }
    }
    Ok(())
}

/// The ids of all policies, those of the tag service last.
fn policy_ids(alloc: Global, facts: &Facts) -> Result<Vec<i64>, NoMemory>
    ensures { IfOk result
        (λ ids. ids.items ≡ map (λ (p : Policy). p.id.0) (all_policies facts.now)) }
{
    let mut ids = Vec::new(alloc);
    append_ids(&mut ids, facts.policies.as_slice())?;
    append_ids(&mut ids, facts.tag_policies.as_slice())?;
    Ok(ids)
}

/// Whether ids are at least 1, and distinct over all policies.
#[tactic(auto, using(crate::proofs::Numbered::ids_are))]
pub(crate) fn ids_sound(alloc: Global, facts: &Facts) -> Result<bool, NoMemory>
    ensures { IfOk result (λ sound. sound ≡ ids_sound (all_policies facts.now)) }
{
    let ids = policy_ids(alloc, facts)?;
    if !are_positive(ids.as_slice()) {
        return Ok(false);
    }
    ids_distinct(alloc, ids.as_slice())
}
