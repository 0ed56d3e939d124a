// The records of a policy (Ranger's RangerPolicy).
use rg_base::{Named, NoMemory, PolicyId, Seq, Text, TryCopy, Version};
use std::alloc::Global;

/// One access that an item names (RangerPolicyItemAccess).
#[derive(Drop)]
pub struct AccessEntry {
    /// The name of an access type.
    pub access: Text,
    /// Whether the entry counts. One that is not allowed grants nothing.
    pub allowed: bool,
}

/// A condition of a policy or an item (RangerPolicyItemCondition).
#[derive(Drop)]
pub struct PolicyCondition {
    /// The name of a condition of the service definition.
    pub name: Text,
    pub values: Seq<Text>,
}

/// How an item masks values (RangerPolicyItemDataMaskInfo).
pub struct MaskInfo {
    /// The name of a mask type of the service definition.
    pub kind: Text,
    /// Kept, and decides nothing.
    pub condition_expr: Text,
    /// The expression of the mask type CUSTOM.
    pub value_expr: Text,
}

impl Drop for MaskInfo {
    fn drop(self) {
        let Self {
            kind: _,
            condition_expr: _,
            value_expr: _,
        } = self;
    }
}

/// When a policy is valid, as written (RangerValiditySchedule).
pub struct ScheduleText {
    /// `yyyy/MM/dd HH:mm:ss`, or empty for open. Both ends are included.
    pub start_time: Text,
    pub end_time: Text,
    /// Empty, `UTC` or `GMT` for UTC, else the name of a [`TimeZoneRow`].
    pub time_zone: Text,
    /// Whether a recurrence was written.
    pub recurring: bool,
}

impl Drop for ScheduleText {
    fn drop(self) {
        let Self {
            start_time: _,
            end_time: _,
            time_zone: _,
            recurring: _,
        } = self;
    }
}

/// A time zone with its rule.
#[derive(Drop)]
pub struct TimeZoneRow {
    pub name: Text,
    /// A POSIX time zone rule, such as `EST5EDT,M3.2.0,M11.1.0`.
    pub rule: Text,
}

/// What some subjects may do (RangerPolicyItem, with its forms for masks and row filters).
pub struct Item {
    pub accesses: Seq<AccessEntry>,
    pub users: Seq<Text>,
    pub groups: Seq<Text>,
    pub roles: Seq<Text>,
    pub conditions: Seq<PolicyCondition>,
    /// Whether the subjects administer what the policy covers.
    pub delegate: bool,
    pub mask: Option<MaskInfo>,
    /// The row filter's expression.
    pub filter: Option<Text>,
}

impl Drop for Item {
    fn drop(self) {
        let Self {
            accesses: _,
            users: _,
            groups: _,
            roles: _,
            conditions: _,
            delegate: _,
            mask: _,
            filter: _,
        } = self;
    }
}

/// The values of one resource level (RangerPolicyResource).
#[derive(Drop)]
pub struct PolicyResource {
    /// The name of a level of the service definition.
    pub level: Text,
    pub values: Seq<Text>,
    /// Whether the level matches where no value does.
    pub excludes: bool,
    /// Whether a value stands for what lies below it too.
    pub recursive: bool,
}

/// Values of some levels, which together stand for resources (a resource map of RangerPolicy).
#[derive(Drop)]
pub struct ResourceMap {
    pub levels: Seq<PolicyResource>,
}

/// A policy.
pub struct Policy {
    pub id: PolicyId,
    pub guid: Text,
    pub version: Version,
    pub service: Text,
    pub name: Text,
    /// 0 for access, 1 for masks, 2 for row filters.
    pub policy_type: i64,
    /// 0 for normal, 1 for override.
    pub priority: i64,
    pub resources: Seq<PolicyResource>,
    /// Further resource maps: the policy is for the resources of any of its maps.
    pub additional: Seq<ResourceMap>,
    pub conditions: Seq<PolicyCondition>,
    pub items: Seq<Item>,
    pub deny_items: Seq<Item>,
    pub allow_exceptions: Seq<Item>,
    pub deny_exceptions: Seq<Item>,
    pub mask_items: Seq<Item>,
    pub filter_items: Seq<Item>,
    pub schedules: Seq<ScheduleText>,
    /// The name of a security zone, or empty.
    pub zone: Text,
    /// Whether what no item allows is denied.
    pub deny_all_else: bool,
    pub enabled: bool,
    pub audited: bool,
}

impl Drop for Policy {
    fn drop(self) {
        let Self {
            id: _,
            guid: _,
            version: _,
            service: _,
            name: _,
            policy_type: _,
            priority: _,
            resources: _,
            additional: _,
            conditions: _,
            items: _,
            deny_items: _,
            allow_exceptions: _,
            deny_exceptions: _,
            mask_items: _,
            filter_items: _,
            schedules: _,
            zone: _,
            deny_all_else: _,
            enabled: _,
            audited: _,
        } = self;
    }
}

impl TryCopy for AccessEntry {
    fn try_copy(&self, alloc: Global) -> Result<AccessEntry, NoMemory> {
        Ok(AccessEntry {
            access: self.access.try_copy(alloc)?,
            allowed: self.allowed,
        })
    }
}

impl TryCopy for PolicyCondition {
    fn try_copy(&self, alloc: Global) -> Result<PolicyCondition, NoMemory> {
        Ok(PolicyCondition {
            name: self.name.try_copy(alloc)?,
            values: self.values.try_copy(alloc)?,
        })
    }
}

impl TryCopy for MaskInfo {
    fn try_copy(&self, alloc: Global) -> Result<MaskInfo, NoMemory> {
        Ok(MaskInfo {
            kind: self.kind.try_copy(alloc)?,
            condition_expr: self.condition_expr.try_copy(alloc)?,
            value_expr: self.value_expr.try_copy(alloc)?,
        })
    }
}

impl TryCopy for ScheduleText {
    fn try_copy(&self, alloc: Global) -> Result<ScheduleText, NoMemory> {
        Ok(ScheduleText {
            start_time: self.start_time.try_copy(alloc)?,
            end_time: self.end_time.try_copy(alloc)?,
            time_zone: self.time_zone.try_copy(alloc)?,
            recurring: self.recurring,
        })
    }
}

impl TryCopy for TimeZoneRow {
    fn try_copy(&self, alloc: Global) -> Result<TimeZoneRow, NoMemory> {
        Ok(TimeZoneRow {
            name: self.name.try_copy(alloc)?,
            rule: self.rule.try_copy(alloc)?,
        })
    }
}

impl TryCopy for Item {
    fn try_copy(&self, alloc: Global) -> Result<Item, NoMemory> {
        Ok(Item {
            accesses: self.accesses.try_copy(alloc)?,
            users: self.users.try_copy(alloc)?,
            groups: self.groups.try_copy(alloc)?,
            roles: self.roles.try_copy(alloc)?,
            conditions: self.conditions.try_copy(alloc)?,
            delegate: self.delegate,
            mask: self.mask.try_copy(alloc)?,
            filter: self.filter.try_copy(alloc)?,
        })
    }
}

impl TryCopy for PolicyResource {
    fn try_copy(&self, alloc: Global) -> Result<PolicyResource, NoMemory> {
        Ok(PolicyResource {
            level: self.level.try_copy(alloc)?,
            values: self.values.try_copy(alloc)?,
            excludes: self.excludes,
            recursive: self.recursive,
        })
    }
}

impl TryCopy for ResourceMap {
    fn try_copy(&self, alloc: Global) -> Result<ResourceMap, NoMemory> {
        Ok(ResourceMap {
            levels: self.levels.try_copy(alloc)?,
        })
    }
}

impl TryCopy for Policy {
    fn try_copy(&self, alloc: Global) -> Result<Policy, NoMemory> {
        Ok(Policy {
            id: self.id,
            guid: self.guid.try_copy(alloc)?,
            version: self.version,
            service: self.service.try_copy(alloc)?,
            name: self.name.try_copy(alloc)?,
            policy_type: self.policy_type,
            priority: self.priority,
            resources: self.resources.try_copy(alloc)?,
            additional: self.additional.try_copy(alloc)?,
            conditions: self.conditions.try_copy(alloc)?,
            items: self.items.try_copy(alloc)?,
            deny_items: self.deny_items.try_copy(alloc)?,
            allow_exceptions: self.allow_exceptions.try_copy(alloc)?,
            deny_exceptions: self.deny_exceptions.try_copy(alloc)?,
            mask_items: self.mask_items.try_copy(alloc)?,
            filter_items: self.filter_items.try_copy(alloc)?,
            schedules: self.schedules.try_copy(alloc)?,
            zone: self.zone.try_copy(alloc)?,
            deny_all_else: self.deny_all_else,
            enabled: self.enabled,
            audited: self.audited,
        })
    }
}

impl Named for AccessEntry {
    ghost named = { λ e. e.access };

    fn name(&self) -> &str {
        self.access.as_str()
    }
}

impl Named for PolicyCondition {
    ghost named = { λ c. c.name };

    fn name(&self) -> &str {
        self.name.as_str()
    }
}

impl Named for TimeZoneRow {
    ghost named = { λ z. z.name };

    fn name(&self) -> &str {
        self.name.as_str()
    }
}

impl Named for PolicyResource {
    ghost named = { λ r. r.level };

    fn name(&self) -> &str {
        self.level.as_str()
    }
}

impl Named for Policy {
    ghost named = { λ p. p.name };

    fn name(&self) -> &str {
        self.name.as_str()
    }
}
