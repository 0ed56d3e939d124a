// The records of a policy, printed.
ghost use Rattle.std.specs.Prelude.{◌≡◌, IfOk, Ok};
ghost use Rattle.std.specs.Str.{chars, encode_utf8_all};
ghost use Rattle.serde_json.specs.View.{members_view, view};
ghost use Rattle.rg_json.specs.Printing.{option_data};
ghost use Rattle.rg_wire.specs.Own.{IsPolicy};
ghost use Rattle.rg_wire.specs.Printing.{filter_data, level_members, policy_text, recurrences_data, resources_data};
ghost use Rattle.rg_json.specs.Reading.{reading};
ghost use Rattle.rg_wire.specs.Records.{policy_of};
ghost use Rattle.rg_wire.specs.Shapes.{policy_shape};

use crate::key::Key;
use rg_base::{NoMemory, Seq, Text};
use rg_json::{Name, ToJson, put, put_value, text_of};
use rg_policy::{
    AccessEntry, Item, MaskInfo, Policy, PolicyCondition, PolicyResource, ResourceMap, ScheduleText,
};
use serde_json::{Map, Value};
use std::alloc::Global;

impl ToJson<Key> for AccessEntry {
    ghost use Rattle.rg_wire.specs.Printing.{entry_data};

    ghost printing = { entry_data };

    #[tactic(auto, unfolding(crate::specs::Printing::entry_data))]
    fn json(&self, alloc: Global) -> Result<Value, NoMemory> {
        let mut members = Map::new(alloc);
        put(alloc, &mut members, Key::Type, &self.access)?;
        put(alloc, &mut members, Key::IsAllowed, &self.allowed)?;
        Ok(Value::Object(members))
    }
}

impl ToJson<Key> for PolicyCondition {
    ghost use Rattle.rg_wire.specs.Printing.{condition_data};

    ghost printing = { condition_data };

    #[tactic(auto, unfolding(crate::specs::Printing::condition_data))]
    fn json(&self, alloc: Global) -> Result<Value, NoMemory> {
        let mut members = Map::new(alloc);
        put(alloc, &mut members, Key::Type, &self.name)?;
        put(alloc, &mut members, Key::Values, &self.values)?;
        Ok(Value::Object(members))
    }
}

impl ToJson<Key> for MaskInfo {
    ghost use Rattle.rg_wire.specs.Printing.{mask_data};

    ghost printing = { mask_data };

    #[tactic(auto, unfolding(crate::specs::Printing::mask_data))]
    fn json(&self, alloc: Global) -> Result<Value, NoMemory> {
        let mut members = Map::new(alloc);
        let condition = &self.condition_expr;
        put(alloc, &mut members, Key::DataMaskType, &self.kind)?;
        put(alloc, &mut members, Key::ConditionExpr, condition)?;
        put(alloc, &mut members, Key::ValueExpr, &self.value_expr)?;
        Ok(Value::Object(members))
    }
}

/// One empty map where it recurs.
fn recurrences(alloc: Global, recurring: bool) -> Result<Value, NoMemory>
    ensures { IfOk result (λ v. view v ≡ recurrences_data recurring) }
{
    let mut items = Vec::new(alloc);
    if recurring {
        items.push(Value::Object(Map::new(alloc)))?;
    }
    Ok(Value::Array(items))
}

impl ToJson<Key> for ScheduleText {
    ghost use Rattle.rg_wire.specs.Printing.{schedule_data};

    ghost printing = { schedule_data };

    #[tactic(auto, unfolding(crate::specs::Printing::schedule_data))]
    fn json(&self, alloc: Global) -> Result<Value, NoMemory> {
        let mut members = Map::new(alloc);
        put(alloc, &mut members, Key::StartTime, &self.start_time)?;
        put(alloc, &mut members, Key::EndTime, &self.end_time)?;
        put(alloc, &mut members, Key::TimeZone, &self.time_zone)?;
        let recurrences = recurrences(alloc, self.recurring)?;
        put_value(alloc, &mut members, Key::Recurrences.name(), recurrences)?;
        Ok(Value::Object(members))
    }
}

/// The row filter as one map within another.
#[tactic(auto, unfolding(crate::specs::Printing::filter_data))]
fn filter_json(alloc: Global, filter: &Option<Text>) -> Result<Value, NoMemory>
    ensures { IfOk result (λ v. view v ≡ option_data filter_data filter.now) }
{
    match filter {
        None => Ok(Value::Null),
        Some(text) => {
            let mut members = Map::new(alloc);
            put(alloc, &mut members, Key::FilterExpr, text)?;
            Ok(Value::Object(members))
        }
    }
}

impl ToJson<Key> for Item {
    ghost use Rattle.rg_wire.specs.Printing.{item_data};

    ghost printing = { item_data };

    #[tactic(auto, unfolding(crate::specs::Printing::item_data))]
    fn json(&self, alloc: Global) -> Result<Value, NoMemory> {
        let mut members = Map::new(alloc);
        put(alloc, &mut members, Key::Accesses, &self.accesses)?;
        put(alloc, &mut members, Key::Users, &self.users)?;
        put(alloc, &mut members, Key::Groups, &self.groups)?;
        put(alloc, &mut members, Key::Roles, &self.roles)?;
        put(alloc, &mut members, Key::Conditions, &self.conditions)?;
        put(alloc, &mut members, Key::DelegateAdmin, &self.delegate)?;
        put(alloc, &mut members, Key::DataMaskInfo, &self.mask)?;
        let filter = filter_json(alloc, &self.filter)?;
        put_value(alloc, &mut members, Key::RowFilterInfo.name(), filter)?;
        Ok(Value::Object(members))
    }
}

impl ToJson<Key> for PolicyResource {
    ghost use Rattle.rg_wire.specs.Printing.{resource_data};

    ghost printing = { resource_data };

    #[tactic(auto, unfolding(crate::specs::Printing::resource_data))]
    fn json(&self, alloc: Global) -> Result<Value, NoMemory> {
        let mut members = Map::new(alloc);
        put(alloc, &mut members, Key::Values, &self.values)?;
        put(alloc, &mut members, Key::IsExcludes, &self.excludes)?;
        put(alloc, &mut members, Key::IsRecursive, &self.recursive)?;
        Ok(Value::Object(members))
    }
}

/// The map of the levels, filled from the last one, so that of equal levels the first stays.
fn level_members(
    alloc: Global,
    resources: &[PolicyResource],
) -> Result<Map<String, Value>, NoMemory>
    ensures { IfOk result (λ m. members_view m.entries ≡ level_members resources.now) }
{
    let mut members = Map::new(alloc);
    let mut left = resources.len();
    while left > 0 {
        left -= 1;
        let resource = &resources[left];
        let value = resource.json(alloc)?;
        put_value(alloc, &mut members, resource.level.as_str(), value)?;
    }
    Ok(members)
}

/// The resources as a map of their levels. Of equal levels the first stays.
#[tactic(auto, unfolding(crate::specs::Printing::resources_data))]
pub fn resources_json(alloc: Global, resources: &Seq<PolicyResource>) -> Result<Value, NoMemory>
    ensures { IfOk result (λ v. view v ≡ resources_data resources.now) }
{
    Ok(Value::Object(level_members(alloc, resources.as_slice())?))
}

impl ToJson<Key> for ResourceMap {
    ghost use Rattle.rg_wire.specs.Printing.{map_data};

    ghost printing = { map_data };

    #[tactic(auto, unfolding(crate::specs::Printing::map_data))]
    fn json(&self, alloc: Global) -> Result<Value, NoMemory> {
        resources_json(alloc, &self.levels)
    }
}

impl ToJson<Key> for Policy {
    ghost use Rattle.rg_wire.specs.Printing.{policy_data};

    ghost printing = { policy_data };

    #[tactic(auto, unfolding(crate::specs::Printing::policy_data))]
    fn json(&self, alloc: Global) -> Result<Value, NoMemory> {
        let mut members = Map::new(alloc);
        put(alloc, &mut members, Key::Id, &self.id.0)?;
        put(alloc, &mut members, Key::Guid, &self.guid)?;
        put(alloc, &mut members, Key::Version, &self.version.0)?;
        put(alloc, &mut members, Key::Service, &self.service)?;
        put(alloc, &mut members, Key::Name, &self.name)?;
        put(alloc, &mut members, Key::PolicyType, &self.policy_type)?;
        put(alloc, &mut members, Key::PolicyPriority, &self.priority)?;
        let resources = resources_json(alloc, &self.resources)?;
        put_value(alloc, &mut members, Key::Resources.name(), resources)?;
        let additional = &self.additional;
        put(alloc, &mut members, Key::AdditionalResources, additional)?;
        put(alloc, &mut members, Key::Conditions, &self.conditions)?;
        put(alloc, &mut members, Key::PolicyItems, &self.items)?;
        put(alloc, &mut members, Key::DenyPolicyItems, &self.deny_items)?;
        let allow_exceptions = &self.allow_exceptions;
        put(alloc, &mut members, Key::AllowExceptions, allow_exceptions)?;
        let deny_exceptions = &self.deny_exceptions;
        put(alloc, &mut members, Key::DenyExceptions, deny_exceptions)?;
        let mask_items = &self.mask_items;
        put(alloc, &mut members, Key::DataMaskPolicyItems, mask_items)?;
        let filter_items = &self.filter_items;
        put(alloc, &mut members, Key::RowFilterPolicyItems, filter_items)?;
        put(alloc, &mut members, Key::ValiditySchedules, &self.schedules)?;
        put(alloc, &mut members, Key::ZoneName, &self.zone)?;
        put(alloc, &mut members, Key::IsDenyAllElse, &self.deny_all_else)?;
        put(alloc, &mut members, Key::IsEnabled, &self.enabled)?;
        put(alloc, &mut members, Key::IsAuditEnabled, &self.audited)?;
        Ok(Value::Object(members))
    }
}

/// Prints a policy: compact JSON, keys in byte order, every field present.
#[tactic(auto, using(crate::proofs::Plain::policies), unfolding(crate::specs::Printing::policy_text))]
pub fn print_policy(alloc: Global, policy: &Policy) -> Result<Text, NoMemory>
    ensures text { IfOk result (λ t. t ≡ chars (policy_text policy.now)) }
    ensures bytes { IfOk result (λ t. encode_utf8_all t ≡ policy_text policy.now) }
    ensures again { IfOk result (λ t. IsPolicy policy.now
        → reading policy_shape policy_of (policy_text policy.now) ≡ Ok policy.now) }
{
    let value = policy.json(alloc)?;
    text_of(alloc, &value)
}
