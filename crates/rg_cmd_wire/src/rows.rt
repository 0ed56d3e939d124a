// Services, users and configurations, read.
use rg_base::NoMemory;
use rg_cmd::{Config, ServiceRow, UserRow};
use rg_json::{Reader, bool_at, list_at, text_at};
use rg_wire::{Key, Wire};
use serde_json::Value;
use std::alloc::Global;

/// Reads each record of the administration as the format has it.
#[derive(Clone, Copy)]
pub(crate) struct AdminWire;

impl Reader<ServiceRow> for AdminWire {
    ghost use Rattle.rg_json.specs.Own.{Whatever};
    ghost use Rattle.rg_cmd_wire.specs.Rows.{service_of};

    ghost reading = { λ w. service_of };

    ghost owned = { Whatever };

    #[tactic(auto, unfolding(crate::specs::Rows::service_of))]
    fn read(&self, alloc: Global, value: &Value) -> Result<ServiceRow, NoMemory> {
        Ok(ServiceRow {
            name: text_at(alloc, value, Key::Name)?,
            def: text_at(alloc, value, Key::Type)?,
            tag_service: text_at(alloc, value, Key::TagService)?,
            fallback: bool_at(value, Key::Fallback, false),
        })
    }
}

impl Reader<UserRow> for AdminWire {
    ghost use Rattle.rg_json.specs.Own.{Whatever};
    ghost use Rattle.rg_cmd_wire.specs.Rows.{user_of};

    ghost reading = { λ w. user_of };

    ghost owned = { Whatever };

    #[tactic(auto, unfolding(crate::specs::Rows::user_of))]
    fn read(&self, alloc: Global, value: &Value) -> Result<UserRow, NoMemory> {
        Ok(UserRow {
            name: text_at(alloc, value, Key::Name)?,
            groups: list_at(alloc, &Wire, value, Key::Groups)?,
        })
    }
}

impl Reader<Config> for AdminWire {
    ghost use Rattle.rg_json.specs.Own.{Whatever};
    ghost use Rattle.rg_cmd_wire.specs.Rows.{config_of};

    ghost reading = { λ w. config_of };

    ghost owned = { Whatever };

    #[tactic(auto, unfolding(crate::specs::Rows::config_of))]
    fn read(&self, alloc: Global, value: &Value) -> Result<Config, NoMemory> {
        Ok(Config {
            admins: list_at(alloc, &Wire, value, Key::Admins)?,
            users: list_at(alloc, self, value, Key::Users)?,
            time_zones: list_at(alloc, &Wire, value, Key::TimeZones)?,
            defs: list_at(alloc, &Wire, value, Key::ServiceDefs)?,
            services: list_at(alloc, self, value, Key::Services)?,
            plugin: text_at(alloc, value, Key::Plugin)?,
        })
    }
}
