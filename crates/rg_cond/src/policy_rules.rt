// The rules of a policy's conditions and schedules.
ghost use Rattle.std.specs.Prelude.{◌≡◌};
ghost use Rattle.std.specs.List.{list_all};
ghost use Rattle.rg_policy.specs.declared.policy.Item.{Item};
ghost use Rattle.rg_policy.specs.Kinds.{every_item};
ghost use Rattle.rg_cond.specs.PolicyRules.{all_compile, conditions_compile, schedule_reads, schedules_read};

use crate::conditions::condition_fault;
use crate::spans::schedule_fault;
use crate::zones::TimeZones;
use rg_defs::ServiceDef;
use rg_policy::{Item, Policy, PolicyCondition, ScheduleText, item_lists};

fn all_compile(def: &ServiceDef, conditions: &[PolicyCondition]) -> bool
    ensures { result ≡ all_compile def.now conditions.now }
{
    conditions
        .iter()
        .all(|condition| condition_fault(def, condition).is_none())
}

fn items_compile(def: &ServiceDef, items: &[Item]) -> bool
    ensures { result ≡ list_all (λ (i : Item). all_compile def.now i.conditions.items) items.now }
{
    items
        .iter()
        .all(|item| all_compile(def, item.conditions.as_slice()))
}

fn all_lists_compile(def: &ServiceDef, lists: &[&[Item]]) -> bool
    ensures { result ≡ list_all (λ list. list_all
        (λ (i : Item). all_compile def.now i.conditions.items) list.now) lists.now }
{
    lists.iter().all(|items| items_compile(def, items))
}

fn every_item_compiles(def: &ServiceDef, policy: &Policy) -> bool
    ensures { result
        ≡ every_item (λ (i : Item). all_compile def.now i.conditions.items) policy.now }
{
    let lists = item_lists(policy);
    all_lists_compile(def, &lists)
}

/// Whether each condition of the policy and of its items compiles (rule V9).
pub fn conditions_compile(def: &ServiceDef, policy: &Policy) -> bool
    ensures { result ≡ conditions_compile def.now policy.now }
{
    all_compile(def, policy.conditions.as_slice()) && every_item_compiles(def, policy)
}

fn schedule_reads(schedule: &ScheduleText, time_zones: &TimeZones) -> bool
    ensures { result ≡ schedule_reads time_zones.now schedule.now }
{
    !schedule.recurring && schedule_fault(schedule, time_zones).is_none()
}

/// Whether each schedule of the policy reads, and none is recurring (rule V12).
pub fn schedules_read(policy: &Policy, time_zones: &TimeZones) -> bool
    ensures { result ≡ schedules_read time_zones.now policy.now }
{
    policy
        .schedules
        .as_slice()
        .iter()
        .all(|schedule| schedule_reads(schedule, time_zones))
}
