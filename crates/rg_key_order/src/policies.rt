// Policies in key order.
ghost use Rattle.std.specs.Prelude.{IfSome};
ghost use Rattle.rg_wire.specs.Own.{IsCondition, IsEntry, IsItem, IsMap, IsMask, IsPolicy, IsResource, IsSchedule, OwnResources};

use crate::lists::check_map;
use crate::ordered::Ordered;
use rg_base::Seq;
use rg_policy::{
    AccessEntry, Item, MaskInfo, Policy, PolicyCondition, PolicyResource, ResourceMap, ScheduleText,
};

impl Ordered for AccessEntry {
    ghost in_order = { IsEntry };

    fn check(&self) -> Option<()> {
        self.access.check()
    }
}

impl Ordered for PolicyCondition {
    ghost in_order = { IsCondition };

    fn check(&self) -> Option<()> {
        self.name.check()?;
        self.values.check()
    }
}

impl Ordered for MaskInfo {
    ghost in_order = { IsMask };

    fn check(&self) -> Option<()> {
        self.kind.check()?;
        self.condition_expr.check()?;
        self.value_expr.check()
    }
}

impl Ordered for ScheduleText {
    ghost in_order = { IsSchedule };

    fn check(&self) -> Option<()> {
        self.start_time.check()?;
        self.end_time.check()?;
        self.time_zone.check()
    }
}

impl Ordered for Item {
    ghost in_order = { IsItem };

    fn check(&self) -> Option<()> {
        self.accesses.check()?;
        self.users.check()?;
        self.groups.check()?;
        self.roles.check()?;
        self.conditions.check()?;
        self.mask.check()?;
        self.filter.check()
    }
}

impl Ordered for PolicyResource {
    ghost in_order = { IsResource };

    fn check(&self) -> Option<()> {
        self.level.check()?;
        self.values.check()
    }
}

/// None where the levels of a resource map aren't in key order.
#[tactic(auto, using(crate::proofs::Order::levels_in_order))]
pub(crate) fn check_levels(levels: &Seq<PolicyResource>) -> Option<()>
    ensures { IfSome result (λ u. OwnResources levels.now) }
{
    check_map(levels)
}

impl Ordered for ResourceMap {
    ghost in_order = { IsMap };

    fn check(&self) -> Option<()> {
        check_levels(&self.levels)
    }
}

impl Ordered for Policy {
    ghost in_order = { IsPolicy };

    fn check(&self) -> Option<()> {
        self.id.0.check()?;
        self.guid.check()?;
        self.service.check()?;
        self.name.check()?;
        self.policy_type.check()?;
        self.priority.check()?;
        check_levels(&self.resources)?;
        self.additional.check()?;
        self.conditions.check()?;
        self.items.check()?;
        self.deny_items.check()?;
        self.allow_exceptions.check()?;
        self.deny_exceptions.check()?;
        self.mask_items.check()?;
        self.filter_items.check()?;
        self.schedules.check()?;
        self.zone.check()
    }
}
