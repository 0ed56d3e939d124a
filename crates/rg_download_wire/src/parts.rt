// What the parts of a download hold, read.
ghost use Rattle.std.specs.Prelude.{◌≡◌};
ghost use Rattle.serde_json.specs.View.{view};
ghost use Rattle.rg_download_wire.specs.Parts.{change_type_of};

use rg_base::{NoMemory, Seq, Version};
use rg_cmd::{PolicyChange, PolicyDelta, PolicyWhole, RoleWhole, TagChange, TagDelta, TagWhole};
use rg_json::{Reader, bool_at, list_at, list_in, optional_at, record_at, u64_at};
use rg_wire::{Key, Wire};
use rg_zone_rules::ZoneRow;
use serde_json::Value;
use std::alloc::Global;

/// Reads what a part of a download holds as the format has it.
#[derive(Clone, Copy)]
pub(crate) struct DownloadWire;

/// The type of a change. What is too large for one is 255, which is none either.
#[tactic(auto, unfolding(crate::specs::Parts::change_type_of))]
fn change_type_in(value: &Value) -> u8
    ensures { result ≡ change_type_of (view value.now) }
{
    let found = u64_at(value, Key::ChangeType, 0);
    if found <= 255 { found as u8 } else { 255 }
}

impl Reader<PolicyChange> for DownloadWire {
    ghost use Rattle.rg_json.specs.Own.{Whatever};
    ghost use Rattle.rg_download_wire.specs.Parts.{policy_change_of};

    ghost reading = { λ w. policy_change_of };

    ghost owned = { Whatever };

    #[tactic(auto, unfolding(crate::specs::Parts::policy_change_of))]
    fn read(&self, alloc: Global, value: &Value) -> Result<PolicyChange, NoMemory> {
        Ok(PolicyChange {
            change_type: change_type_in(value),
            tag: bool_at(value, Key::Tag, false),
            policy: record_at(alloc, &Wire, value, Key::Policy)?,
        })
    }
}

/// All zones.
impl Reader<Seq<ZoneRow>> for DownloadWire {
    ghost use Rattle.rg_json.specs.Fields.{list_of};
    ghost use Rattle.rg_json.specs.Own.{Whatever};
    ghost use Rattle.rg_wire.specs.Records.{zone_of};

    ghost reading = { λ w. list_of zone_of };

    ghost owned = { Whatever };

    fn read(&self, alloc: Global, value: &Value) -> Result<Seq<ZoneRow>, NoMemory> {
        list_in(alloc, &Wire, value)
    }
}

impl Reader<PolicyDelta> for DownloadWire {
    ghost use Rattle.rg_json.specs.Own.{Whatever};
    ghost use Rattle.rg_download_wire.specs.Parts.{policy_delta_of};

    ghost reading = { λ w. policy_delta_of };

    ghost owned = { Whatever };

    #[tactic(auto, unfolding(crate::specs::Parts::policy_delta_of))]
    fn read(&self, alloc: Global, value: &Value) -> Result<PolicyDelta, NoMemory> {
        Ok(PolicyDelta {
            from: Version(u64_at(value, Key::From, 0)),
            to: Version(u64_at(value, Key::To, 0)),
            changes: list_at(alloc, self, value, Key::Changes)?,
            zones: optional_at(alloc, self, value, Key::Zones)?,
        })
    }
}

impl Reader<PolicyWhole> for DownloadWire {
    ghost use Rattle.rg_json.specs.Own.{Whatever};
    ghost use Rattle.rg_download_wire.specs.Parts.{policy_whole_of};

    ghost reading = { λ w. policy_whole_of };

    ghost owned = { Whatever };

    #[tactic(auto, unfolding(crate::specs::Parts::policy_whole_of))]
    fn read(&self, alloc: Global, value: &Value) -> Result<PolicyWhole, NoMemory> {
        let version = u64_at(value, Key::Version, 0);
        let policies = list_at(alloc, &Wire, value, Key::Policies)?;
        let tag_policies = list_at(alloc, &Wire, value, Key::TagPolicies)?;
        let zones = list_at(alloc, &Wire, value, Key::Zones)?;
        let time_zones = list_at(alloc, &Wire, value, Key::TimeZones)?;
        // The definitions come last, so that no way out has to let them go.
        let tag_def = optional_at(alloc, &Wire, value, Key::TagDef)?;
        let def = record_at(alloc, &Wire, value, Key::Def)?;
        Ok(PolicyWhole {
            version: Version(version),
            fallback: bool_at(value, Key::Fallback, false),
            def,
            tag_def,
            policies,
            tag_policies,
            zones,
            time_zones,
        })
    }
}

impl Reader<TagChange> for DownloadWire {
    ghost use Rattle.rg_json.specs.Own.{Whatever};
    ghost use Rattle.rg_download_wire.specs.Parts.{tag_change_of};

    ghost reading = { λ w. tag_change_of };

    ghost owned = { Whatever };

    #[tactic(auto, unfolding(crate::specs::Parts::tag_change_of))]
    fn read(&self, alloc: Global, value: &Value) -> Result<TagChange, NoMemory> {
        Ok(TagChange {
            change_type: change_type_in(value),
            row: record_at(alloc, &Wire, value, Key::Row)?,
        })
    }
}

impl Reader<TagDelta> for DownloadWire {
    ghost use Rattle.rg_json.specs.Own.{Whatever};
    ghost use Rattle.rg_download_wire.specs.Parts.{tag_delta_of};

    ghost reading = { λ w. tag_delta_of };

    ghost owned = { Whatever };

    #[tactic(auto, unfolding(crate::specs::Parts::tag_delta_of))]
    fn read(&self, alloc: Global, value: &Value) -> Result<TagDelta, NoMemory> {
        Ok(TagDelta {
            from: Version(u64_at(value, Key::From, 0)),
            to: Version(u64_at(value, Key::To, 0)),
            changes: list_at(alloc, self, value, Key::Changes)?,
        })
    }
}

impl Reader<TagWhole> for DownloadWire {
    ghost use Rattle.rg_json.specs.Own.{Whatever};
    ghost use Rattle.rg_download_wire.specs.Parts.{tag_whole_of};

    ghost reading = { λ w. tag_whole_of };

    ghost owned = { Whatever };

    #[tactic(auto, unfolding(crate::specs::Parts::tag_whole_of))]
    fn read(&self, alloc: Global, value: &Value) -> Result<TagWhole, NoMemory> {
        Ok(TagWhole {
            version: Version(u64_at(value, Key::Version, 0)),
            rows: list_at(alloc, &Wire, value, Key::Rows)?,
        })
    }
}

impl Reader<RoleWhole> for DownloadWire {
    ghost use Rattle.rg_json.specs.Own.{Whatever};
    ghost use Rattle.rg_download_wire.specs.Parts.{role_whole_of};

    ghost reading = { λ w. role_whole_of };

    ghost owned = { Whatever };

    #[tactic(auto, unfolding(crate::specs::Parts::role_whole_of))]
    fn read(&self, alloc: Global, value: &Value) -> Result<RoleWhole, NoMemory> {
        Ok(RoleWhole {
            version: Version(u64_at(value, Key::Version, 0)),
            roles: list_at(alloc, &Wire, value, Key::Roles)?,
        })
    }
}
