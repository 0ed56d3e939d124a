// The records of a policy, read.
ghost use Rattle.std.specs.Prelude.{◌≡◌, IfOk};
ghost use Rattle.serde_json.specs.View.{view};
ghost use Rattle.rg_json.specs.Fields.{map_of, text_of};
ghost use Rattle.rg_json.specs.Own.{IsText, OwnOption};
ghost use Rattle.rg_wire.specs.Fields.{map_at, optional_at, within};
ghost use Rattle.rg_wire.specs.Own.{OwnResources};
ghost use Rattle.rg_wire.specs.Records.{policy_resource_of};

use crate::key::Key;
use crate::wire::Wire;
use rg_base::{NoMemory, PolicyId, Seq, Text, Version};
use rg_json::{
    MemberReader, Reader, bool_at, find, i64_at, is_filled, list_at, map_at, map_in, optional_at,
    text_at, u64_at,
};
use rg_policy::{
    AccessEntry, Item, MaskInfo, Policy, PolicyCondition, PolicyResource, ResourceMap, ScheduleText,
};
use rg_shared::Shared;
use serde_json::Value;
use std::alloc::Global;

impl Reader<AccessEntry> for Wire {
    ghost use Rattle.rg_wire.specs.Own.{IsEntry};
    ghost use Rattle.rg_wire.specs.Records.{entry_of};

    ghost reading = { λ w. entry_of };

    ghost owned = { IsEntry };

    #[tactic(auto, unfolding(crate::specs::Records::entry_of))]
    fn read(&self, alloc: Global, value: &Value) -> Result<AccessEntry, NoMemory> {
        Ok(AccessEntry {
            access: text_at(alloc, value, Key::Type)?,
            allowed: bool_at(value, Key::IsAllowed, true),
        })
    }
}

impl Reader<PolicyCondition> for Wire {
    ghost use Rattle.rg_wire.specs.Own.{IsCondition};
    ghost use Rattle.rg_wire.specs.Records.{condition_of};

    ghost reading = { λ w. condition_of };

    ghost owned = { IsCondition };

    #[tactic(auto, unfolding(crate::specs::Records::condition_of))]
    fn read(&self, alloc: Global, value: &Value) -> Result<PolicyCondition, NoMemory> {
        Ok(PolicyCondition {
            name: text_at(alloc, value, Key::Type)?,
            values: list_at(alloc, self, value, Key::Values)?,
        })
    }
}

impl Reader<MaskInfo> for Wire {
    ghost use Rattle.rg_wire.specs.Own.{IsMask};
    ghost use Rattle.rg_wire.specs.Records.{mask_of};

    ghost reading = { λ w. mask_of };

    ghost owned = { IsMask };

    #[tactic(auto, unfolding(crate::specs::Records::mask_of))]
    fn read(&self, alloc: Global, value: &Value) -> Result<MaskInfo, NoMemory> {
        Ok(MaskInfo {
            kind: text_at(alloc, value, Key::DataMaskType)?,
            condition_expr: text_at(alloc, value, Key::ConditionExpr)?,
            value_expr: text_at(alloc, value, Key::ValueExpr)?,
        })
    }
}

impl Reader<ScheduleText> for Wire {
    ghost use Rattle.rg_wire.specs.Own.{IsSchedule};
    ghost use Rattle.rg_wire.specs.Records.{schedule_of};

    ghost reading = { λ w. schedule_of };

    ghost owned = { IsSchedule };

    #[tactic(auto, unfolding(crate::specs::Records::schedule_of))]
    fn read(&self, alloc: Global, value: &Value) -> Result<ScheduleText, NoMemory> {
        Ok(ScheduleText {
            start_time: text_at(alloc, value, Key::StartTime)?,
            end_time: text_at(alloc, value, Key::EndTime)?,
            time_zone: text_at(alloc, value, Key::TimeZone)?,
            recurring: is_filled(value, Key::Recurrences),
        })
    }
}

/// The text of a field within a field.
#[tactic(auto, unfolding(rg_json::specs::Fields::within, rg_json::specs::Fields::optional_at, rg_json::specs::Fields::field))]
fn inner_text(
    alloc: Global,
    value: &Value,
    outer: Key,
    inner: Key,
) -> Result<Option<Text>, NoMemory>
    ensures reads { IfOk result
        (λ o. o ≡ optional_at text_of inner (within outer (view value.now))) }
    ensures owned { IfOk result (λ o. OwnOption IsText o) }
{
    match find(value, outer) {
        None => Ok(None),
        Some(found) => optional_at(alloc, &Wire, found, inner),
    }
}

impl Reader<Item> for Wire {
    ghost use Rattle.rg_wire.specs.Own.{IsItem};
    ghost use Rattle.rg_wire.specs.Records.{item_of};

    ghost reading = { λ w. item_of };

    ghost owned = { IsItem };

    #[tactic(auto, unfolding(crate::specs::Records::item_of))]
    fn read(&self, alloc: Global, value: &Value) -> Result<Item, NoMemory> {
        Ok(Item {
            accesses: list_at(alloc, self, value, Key::Accesses)?,
            users: list_at(alloc, self, value, Key::Users)?,
            groups: list_at(alloc, self, value, Key::Groups)?,
            roles: list_at(alloc, self, value, Key::Roles)?,
            conditions: list_at(alloc, self, value, Key::Conditions)?,
            delegate: bool_at(value, Key::DelegateAdmin, false),
            mask: optional_at(alloc, self, value, Key::DataMaskInfo)?,
            filter: inner_text(alloc, value, Key::RowFilterInfo, Key::FilterExpr)?,
        })
    }
}

impl MemberReader<PolicyResource> for Wire {
    ghost use Rattle.rg_wire.specs.Own.{IsResource};
    ghost use Rattle.rg_wire.specs.Records.{policy_resource_of};

    ghost member_reading = { λ w. policy_resource_of };

    ghost member_owned = { IsResource };

    #[tactic(auto, using(rg_json::proofs::Owned::owns), unfolding(crate::specs::Records::policy_resource_of))]
    fn read_member(
        &self,
        alloc: Global,
        key: &str,
        value: &Value,
    ) -> Result<PolicyResource, NoMemory> {
        Ok(PolicyResource {
            level: Text::copy_of(alloc, key)?,
            values: list_at(alloc, self, value, Key::Values)?,
            excludes: bool_at(value, Key::IsExcludes, false),
            recursive: bool_at(value, Key::IsRecursive, false),
        })
    }
}

/// The levels of a field with their values.
#[tactic(auto, using(crate::proofs::Resources::resources))]
pub(crate) fn resources_at(
    alloc: Global,
    value: &Value,
    key: Key,
) -> Result<Seq<PolicyResource>, NoMemory>
    ensures reads { IfOk result (λ rs. rs ≡ map_at policy_resource_of key (view value.now)) }
    ensures owned { IfOk result OwnResources }
{
    map_at(alloc, &Wire, value, key)
}

/// A map of levels with their values.
#[tactic(auto, using(crate::proofs::Resources::resources), unfolding(crate::specs::Records::resource_map_of))]
fn resources_in(alloc: Global, value: &Value) -> Result<Seq<PolicyResource>, NoMemory>
    ensures reads { IfOk result (λ rs. rs ≡ map_of policy_resource_of (view value.now)) }
    ensures owned { IfOk result OwnResources }
{
    map_in(alloc, &Wire, value)
}

impl Reader<ResourceMap> for Wire {
    ghost use Rattle.rg_wire.specs.Own.{IsMap};
    ghost use Rattle.rg_wire.specs.Records.{resource_map_of};

    ghost reading = { λ w. resource_map_of };

    ghost owned = { IsMap };

    #[tactic(auto, unfolding(crate::specs::Records::resource_map_of))]
    fn read(&self, alloc: Global, value: &Value) -> Result<ResourceMap, NoMemory> {
        Ok(ResourceMap {
            levels: resources_in(alloc, value)?,
        })
    }
}

impl Reader<Policy> for Wire {
    ghost use Rattle.rg_wire.specs.Own.{IsPolicy};
    ghost use Rattle.rg_wire.specs.Records.{policy_of};

    ghost reading = { λ w. policy_of };

    ghost owned = { IsPolicy };

    #[tactic(auto, unfolding(crate::specs::Records::policy_of))]
    fn read(&self, alloc: Global, value: &Value) -> Result<Policy, NoMemory> {
        let id = i64_at(value, Key::Id, 0);
        let version = u64_at(value, Key::Version, 1);
        let policy_type = i64_at(value, Key::PolicyType, 0);
        let priority = i64_at(value, Key::PolicyPriority, 0);
        Ok(Policy {
            id: PolicyId(id),
            guid: text_at(alloc, value, Key::Guid)?,
            version: Version(version),
            service: text_at(alloc, value, Key::Service)?,
            name: text_at(alloc, value, Key::Name)?,
            policy_type,
            priority,
            resources: resources_at(alloc, value, Key::Resources)?,
            additional: list_at(alloc, self, value, Key::AdditionalResources)?,
            conditions: list_at(alloc, self, value, Key::Conditions)?,
            items: list_at(alloc, self, value, Key::PolicyItems)?,
            deny_items: list_at(alloc, self, value, Key::DenyPolicyItems)?,
            allow_exceptions: list_at(alloc, self, value, Key::AllowExceptions)?,
            deny_exceptions: list_at(alloc, self, value, Key::DenyExceptions)?,
            mask_items: list_at(alloc, self, value, Key::DataMaskPolicyItems)?,
            filter_items: list_at(alloc, self, value, Key::RowFilterPolicyItems)?,
            schedules: list_at(alloc, self, value, Key::ValiditySchedules)?,
            zone: text_at(alloc, value, Key::ZoneName)?,
            deny_all_else: bool_at(value, Key::IsDenyAllElse, false),
            enabled: bool_at(value, Key::IsEnabled, true),
            audited: bool_at(value, Key::IsAuditEnabled, true),
        })
    }
}

/// For lists of policies, which share them.
impl Reader<Shared<Policy>> for Wire {
    ghost use Rattle.rg_wire.specs.Own.{IsPolicy};
    ghost use Rattle.rg_wire.specs.Records.{policy_of};

    ghost reading = { λ w. policy_of };

    ghost owned = { IsPolicy };

    fn read(&self, alloc: Global, value: &Value) -> Result<Shared<Policy>, NoMemory> {
        let policy = <Wire as Reader<Policy>>::read(self, alloc, value)?;
        Shared::new(alloc, policy)
    }
}
