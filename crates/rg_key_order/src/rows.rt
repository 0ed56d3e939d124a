// Definitions, services, users, roles, zones and rows of tags in key order.
ghost use Rattle.std.specs.Prelude.{IfSome};
ghost use Rattle.rg_json.specs.Own.{EachOf};
ghost use Rattle.rg_ask_wire.specs.KeyOrder.{AreSubjects, IsAccessType, IsConditionDef, IsDef, IsLevel, IsMaskType, IsPair, IsRole, IsService, IsTag, IsTagRow, IsUser, IsZone, IsZoneLevel, IsZoneService, OwnLevels};

use crate::lists::check_map;
use crate::ordered::Ordered;
use crate::policies::check_levels;
use rg_base::{Pair, Seq};
use rg_cmd::{ServiceRow, UserRow};
use rg_defs::{AccessType, ConditionDef, Level, MaskType, ServiceDef};
use rg_policy::Tag;
use rg_roles::RoleRow;
use rg_tags::TagRow;
use rg_zone_rules::{Subjects, ZoneLevel, ZoneRow, ZoneService};

impl Ordered for Pair {
    ghost in_order = { IsPair };

    fn check(&self) -> Option<()> {
        self.key.check()?;
        self.value.check()
    }
}

impl Ordered for Level {
    ghost in_order = { IsLevel };

    fn check(&self) -> Option<()> {
        self.name.check()?;
        self.level.check()?;
        self.parent.check()
    }
}

impl Ordered for AccessType {
    ghost in_order = { IsAccessType };

    fn check(&self) -> Option<()> {
        self.name.check()?;
        self.implied.check()
    }
}

impl Ordered for ConditionDef {
    ghost in_order = { IsConditionDef };

    fn check(&self) -> Option<()> {
        self.name.check()?;
        self.evaluator.check()?;
        check_map(&self.options)
    }
}

impl Ordered for MaskType {
    ghost in_order = { IsMaskType };

    fn check(&self) -> Option<()> {
        self.name.check()?;
        self.transformer.check()
    }
}

impl Ordered for ServiceDef {
    ghost in_order = { IsDef };

    fn check(&self) -> Option<()> {
        self.name.check()?;
        self.levels.check()?;
        self.access_types.check()?;
        self.conditions.check()?;
        self.masks.check()?;
        self.mask_access.check()?;
        self.mask_levels.check()?;
        self.filter_access.check()?;
        self.filter_levels.check()
    }
}

impl Ordered for ServiceRow {
    ghost in_order = { IsService };

    fn check(&self) -> Option<()> {
        self.name.check()?;
        self.def.check()?;
        self.tag_service.check()
    }
}

impl Ordered for UserRow {
    ghost in_order = { IsUser };

    fn check(&self) -> Option<()> {
        self.name.check()?;
        self.groups.check()
    }
}

impl Ordered for RoleRow {
    ghost in_order = { IsRole };

    fn check(&self) -> Option<()> {
        self.name.check()?;
        self.users.check()?;
        self.groups.check()?;
        self.roles.check()
    }
}

impl Ordered for ZoneLevel {
    ghost in_order = { IsZoneLevel };

    fn check(&self) -> Option<()> {
        self.level.check()?;
        self.values.check()
    }
}

/// None where a resource map of a zone isn't in key order.
fn check_each_map(resources: &[Seq<ZoneLevel>]) -> Option<()>
    ensures { IfSome result (λ u. EachOf OwnLevels resources.now) }
{
    for levels in resources {
        check_map(levels)?;
    }
    Some(())
}

impl Ordered for ZoneService {
    ghost in_order = { IsZoneService };

    fn check(&self) -> Option<()> {
        self.service.check()?;
        if self.resources.is_reserved() {
            return None;
        }
        check_each_map(self.resources.as_slice())
    }
}

impl Ordered for Subjects {
    ghost in_order = { AreSubjects };

    fn check(&self) -> Option<()> {
        self.users.check()?;
        self.groups.check()?;
        self.roles.check()
    }
}

impl Ordered for ZoneRow {
    ghost in_order = { IsZone };

    fn check(&self) -> Option<()> {
        self.name.check()?;
        check_map(&self.services)?;
        self.tag_services.check()?;
        self.admins.check()?;
        self.auditors.check()
    }
}

impl Ordered for Tag {
    ghost in_order = { IsTag };

    fn check(&self) -> Option<()> {
        self.kind.check()?;
        check_map(&self.attributes)
    }
}

impl Ordered for TagRow {
    ghost in_order = { IsTagRow };

    fn check(&self) -> Option<()> {
        self.id.check()?;
        self.service.check()?;
        check_levels(&self.resources)?;
        self.tags.check()
    }
}
