// How a plugin stands, printed.
ghost use Rattle.std.specs.Prelude.{◌≡◌, IfOk};
ghost use Rattle.std.specs.Str.{encode_utf8_all};
ghost use Rattle.serde_json.specs.View.{view};
ghost use Rattle.rg_health.specs.Health.{fault_data, health_data, health_text, settled_data};

use crate::cause::{Cause, word_of};
use crate::health::Health;
use rg_base::{NoMemory, Text};
use rg_json::{Name, put, put_value, text_of};
use serde_json::{Map, Value};
use std::alloc::Global;

/// A field of how a plugin stands.
#[derive(Clone, Copy, Debug, PartialEq, Eq)]
pub(crate) enum HealthKey {
    Fault,
    PolicyVersion,
    RoleVersion,
    Serial,
    SettledSecondsAgo,
    TagVersion,
}

impl Name for HealthKey {
    ghost use Rattle.rg_health.specs.Health.{name_of};

    ghost name_of = { name_of };

    #[tactic(auto, unfolding(crate::specs::Health::name_of))]
    fn name(self) -> &'static str {
        match self {
            HealthKey::Fault => "fault",
            HealthKey::PolicyVersion => "policyVersion",
            HealthKey::RoleVersion => "roleVersion",
            HealthKey::Serial => "serial",
            HealthKey::SettledSecondsAgo => "settledSecondsAgo",
            HealthKey::TagVersion => "tagVersion",
        }
    }
}

fn fault_json(alloc: Global, fault: Option<Cause>) -> Result<Value, NoMemory>
    ensures { IfOk result (λ v. view v ≡ fault_data fault) }
{
    match fault {
        None => Ok(Value::Null),
        Some(cause) => Ok(Value::String(String::from_str(alloc, word_of(cause))?)),
    }
}

#[tactic(auto, unfolding(crate::specs::Health::health_data))]
fn health_json(alloc: Global, health: Health) -> Result<Value, NoMemory>
    ensures { IfOk result (λ v. view v ≡ health_data health) }
{
    let mut members = Map::new(alloc);
    let fault = fault_json(alloc, health.fault)?;
    put_value(alloc, &mut members, HealthKey::Fault.name(), fault)?;
    put(
        alloc,
        &mut members,
        HealthKey::PolicyVersion,
        &health.policy_version.0,
    )?;
    put(
        alloc,
        &mut members,
        HealthKey::RoleVersion,
        &health.role_version.0,
    )?;
    put(alloc, &mut members, HealthKey::Serial, &health.serial.0)?;
    put(
        alloc,
        &mut members,
        HealthKey::SettledSecondsAgo,
        &health.settled,
    )?;
    put(
        alloc,
        &mut members,
        HealthKey::TagVersion,
        &health.tag_version.0,
    )?;
    Ok(Value::Object(members))
}

/// A JSON object: `fault` (a word, or null), `policyVersion`, `roleVersion`, `serial`, `settledSecondsAgo` (a number, or null) and
/// `tagVersion`.
#[tactic(auto, using(crate::proofs::Plain::healths), unfolding(crate::specs::Health::health_text))]
pub fn print_health(alloc: Global, health: Health) -> Result<Text, NoMemory>
    ensures { IfOk result (λ t. encode_utf8_all t ≡ health_text health) }
{
    let value = health_json(alloc, health)?;
    text_of(alloc, &value)
}
