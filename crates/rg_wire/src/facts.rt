// Facts, read.
use crate::key::Key;
use crate::rows::OfService;
use crate::wire::Wire;
use rg_base::{NoMemory, Version};
use rg_facts::Facts;
use rg_json::{Reader, bool_at, list_at, optional_at, record_at, text_at, u64_at};
use serde_json::Value;
use std::alloc::Global;

impl Reader<Facts> for Wire {
    ghost use Rattle.rg_json.specs.Own.{Whatever};
    ghost use Rattle.rg_wire.specs.Records.{facts_of};

    ghost reading = { λ w. facts_of };

    ghost owned = { Whatever };

    #[tactic(auto, unfolding(crate::specs::Records::facts_of))]
    fn read(&self, alloc: Global, value: &Value) -> Result<Facts, NoMemory> {
        let policy_version = u64_at(value, Key::PolicyVersion, 1);
        let tag_version = u64_at(value, Key::TagVersion, 1);
        let role_version = u64_at(value, Key::RoleVersion, 0);
        let rows = OfService {
            service: text_at(alloc, value, Key::Service)?,
        };
        let policies = list_at(alloc, self, value, Key::Policies)?;
        let tag_policies = list_at(alloc, self, value, Key::TagPolicies)?;
        let zones = list_at(alloc, self, value, Key::Zones)?;
        let roles = list_at(alloc, self, value, Key::Roles)?;
        let tag_rows = list_at(alloc, &rows, value, Key::Resources)?;
        let time_zones = list_at(alloc, self, value, Key::TimeZones)?;
        // The definitions come last, so that no way out has to let them go.
        let tag_def = optional_at(alloc, self, value, Key::TagServiceDef)?;
        let def = record_at(alloc, self, value, Key::ServiceDef)?;
        let OfService { service } = rows;
        Ok(Facts {
            service,
            fallback: bool_at(value, Key::Fallback, false),
            def,
            tag_def,
            policies,
            tag_policies,
            zones,
            roles,
            tag_rows,
            time_zones,
            policy_version: Version(policy_version),
            tag_version: Version(tag_version),
            role_version: Version(role_version),
        })
    }
}
