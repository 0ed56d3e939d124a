// How the parts of a policy are compiled.
ghost use Rattle.std.specs.Prelude.{◌≡◌, ◌<◌, ◌^◌, true, None, IfOk, OnOk, length, map};
ghost use Rattle.std.specs.List.{list_all};
ghost use Rattle.rg_base.specs.Listed.{listed};
ghost use Rattle.rg_policy.specs.declared.policy.Item.{Item};
ghost use Rattle.rg_cond.specs.Kinds.{condition_fault, rule_of};
ghost use Rattle.rg_cond.specs.PolicyRules.{all_compile, schedule_reads};
ghost use Rattle.rg_cond.specs.Spans.{schedule_fault, span_of};
ghost use Rattle.rg_evalr.specs.Compiled.{compiled_item, compiled_items, rules_of};
ghost use Rattle.rg_evalr.specs.Frames.{def_of};

use crate::frame::{Frame, Side, def_of};
use crate::granted::granted;
use crate::item::CompiledItem;
use rg_base::{NoMemory, Seq, TryCopy};
use rg_cond::{Condition, Schedule, Span, TimeZones, compile_condition};
use rg_defs::ServiceDef;
use rg_items::{has_owner_word, has_user_word};
use rg_policy::{Item, PolicyCondition, ScheduleText};
use std::alloc::Global;

fn compile_one(
    alloc: Global,
    def: &ServiceDef,
    condition: &PolicyCondition,
) -> Result<Condition, NoMemory>
    requires { condition_fault def.now condition.now ≡ None }
    ensures { IfOk result (λ c. c ≡ rule_of def.now condition.now) }
{
    match compile_condition(alloc, def, condition) {
        Ok(compiled) => Ok(compiled),
        Err(_) => Err(NoMemory),
    }
}

pub(crate) fn compile_conditions(
    alloc: Global,
    def: &ServiceDef,
    conditions: &[PolicyCondition],
) -> Result<Seq<Condition>, NoMemory>
    requires { all_compile def.now conditions.now ≡ true }
    ensures { IfOk result (λ list. list ≡ rules_of def.now conditions.now) }
{
    let mut compiled = Seq::new(alloc);
    for condition in conditions {
        compiled.add(compile_one(alloc, def, condition)?)?;
    }
    Ok(compiled)
}

fn compile_item(
    alloc: Global,
    frame: &Frame,
    side: Side,
    item: &Item,
) -> Result<CompiledItem, NoMemory>
    requires { all_compile (def_of frame.now side) item.now.conditions.items ≡ true }
    ensures { IfOk result (λ i. i ≡ compiled_item frame.now side item.now) }
{
    Ok(CompiledItem {
        accesses: granted(alloc, frame, side, item.accesses.as_slice())?,
        every_user: has_user_word(item.users.as_slice()),
        owner: has_owner_word(item.users.as_slice()),
        users: item.users.try_copy(alloc)?,
        groups: item.groups.try_copy(alloc)?,
        roles: item.roles.try_copy(alloc)?,
        conditions: compile_conditions(alloc, def_of(frame, side), item.conditions.as_slice())?,
    })
}

pub(crate) fn compile_items(
    alloc: Global,
    frame: &Frame,
    side: Side,
    items: &[Item],
) -> Result<Seq<CompiledItem>, NoMemory>
    requires { list_all
        (λ (i : Item). all_compile (def_of frame.now side) i.conditions.items) items.now ≡ true }
    ensures { IfOk result (λ list. list ≡ compiled_items frame.now side items.now) }
{
    let mut compiled = Seq::new(alloc);
    for item in items {
        compiled.add(compile_item(alloc, frame, side, item)?)?;
    }
    Ok(compiled)
}

/// As `compile_items`, of items whose places are numbers of 32 bits; more of them find no memory.
pub(crate) fn compile_placed(
    alloc: Global,
    frame: &Frame,
    side: Side,
    items: &[Item],
) -> Result<Seq<CompiledItem>, NoMemory>
    requires { list_all
        (λ (i : Item). all_compile (def_of frame.now side) i.conditions.items) items.now ≡ true }
    ensures items { IfOk result (λ list. list ≡ compiled_items frame.now side items.now) }
    ensures few { OnOk result (length items.now < 2 ^ 32) }
{
    if items.len() > u32::MAX as usize {
        return Err(NoMemory);
    }
    compile_items(alloc, frame, side, items)
}

fn read_span(
    alloc: Global,
    schedule: &ScheduleText,
    time_zones: &TimeZones,
) -> Result<Span, NoMemory>
    requires { schedule_fault time_zones.now schedule.now ≡ None }
    ensures { IfOk result (λ span. span ≡ span_of time_zones.now schedule.now) }
{
    match Schedule::read(alloc, schedule, time_zones) {
        Ok(span) => Ok(span),
        Err(_) => Err(NoMemory),
    }
}

pub(crate) fn read_spans(
    alloc: Global,
    schedules: &[ScheduleText],
    time_zones: &TimeZones,
) -> Result<Seq<Span>, NoMemory>
    requires { list_all (schedule_reads time_zones.now) schedules.now ≡ true }
    ensures { IfOk result (λ list. list ≡ listed (map (span_of time_zones.now) schedules.now)) }
{
    let mut spans = Seq::new(alloc);
    for schedule in schedules {
        spans.add(read_span(alloc, schedule, time_zones)?)?;
    }
    Ok(spans)
}
