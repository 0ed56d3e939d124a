// How a service stands.
ghost use Rattle.std.specs.Prelude.{◌≡◌, IfOk, option_map};
ghost use Rattle.std.specs.Str.{encode_utf8_all};
ghost use Rattle.serde_json.specs.View.{view};
ghost use Rattle.rg_metrics.specs.Standing.{cause_word, standing_data, standing_text, stopped_data};

use crate::watched::{Inside, Newest};
use rg_base::{NoMemory, Text};
use rg_json::{Name, put, put_value, text_of};
use rg_threads::HaltCause;
use serde_json::{Map, Value};
use std::alloc::Global;

/// How a service stands.
#[derive(Clone, Copy, Debug, PartialEq, Eq)]
pub struct Standing {
    /// How many commands are kept.
    pub kept: u64,
    /// How many seconds it has run.
    pub seconds: u64,
    /// Whether it accepts links; false while it takes again what was kept.
    pub serving: bool,
    /// Why it takes no more changes; None while it takes them.
    pub stopped: Option<HaltCause>,
    pub inside: Inside,
}

/// A field of how a service stands.
#[derive(Clone, Copy, Debug, PartialEq, Eq)]
pub(crate) enum StandingKey {
    DroppedSinks,
    Epoch,
    Kept,
    PolicyVersion,
    RoleVersion,
    Seconds,
    Serial,
    Serving,
    Stopped,
    TagVersion,
}

impl Name for StandingKey {
    ghost use Rattle.rg_metrics.specs.Standing.{name_of};

    ghost name_of = { name_of };

    #[tactic(auto, unfolding(crate::specs::Standing::name_of))]
    fn name(self) -> &'static str {
        match self {
            StandingKey::DroppedSinks => "droppedSinks",
            StandingKey::Epoch => "epoch",
            StandingKey::Kept => "keptCommands",
            StandingKey::PolicyVersion => "policyVersion",
            StandingKey::RoleVersion => "roleVersion",
            StandingKey::Seconds => "secondsSinceStart",
            StandingKey::Serial => "serial",
            StandingKey::Serving => "serving",
            StandingKey::Stopped => "stopped",
            StandingKey::TagVersion => "tagVersion",
        }
    }
}

#[tactic(auto, unfolding(crate::specs::Standing::cause_word))]
fn cause_word(cause: HaltCause) -> &'static str
    ensures { result.now ≡ cause_word cause }
{
    match cause {
        HaltCause::Failed => "keeper",
        HaltCause::Full => "full",
    }
}

fn stopped_json(alloc: Global, stopped: Option<HaltCause>) -> Result<Value, NoMemory>
    ensures { IfOk result (λ v. view v ≡ stopped_data stopped) }
{
    match stopped {
        None => Ok(Value::Null),
        Some(cause) => Ok(Value::String(String::from_str(alloc, cause_word(cause))?)),
    }
}

fn serial_of(newest: Option<Newest>) -> Option<u64>
    ensures { result ≡ option_map (λ n. n.serial.0) newest }
{
    Some(newest?.serial.0)
}

fn policy_version_of(newest: Option<Newest>) -> Option<u64>
    ensures { result ≡ option_map (λ n. n.policy_version.0) newest }
{
    Some(newest?.policy_version.0)
}

fn role_version_of(newest: Option<Newest>) -> Option<u64>
    ensures { result ≡ option_map (λ n. n.role_version.0) newest }
{
    Some(newest?.role_version.0)
}

fn tag_version_of(newest: Option<Newest>) -> Option<u64>
    ensures { result ≡ option_map (λ n. n.tag_version.0) newest }
{
    Some(newest?.tag_version.0)
}

#[tactic(auto, unfolding(crate::specs::Standing::standing_data))]
fn standing_json(alloc: Global, standing: Standing) -> Result<Value, NoMemory>
    ensures { IfOk result (λ v. view v ≡ standing_data standing) }
{
    let Standing {
        kept,
        seconds,
        serving,
        stopped,
        inside,
    } = standing;
    let Inside {
        dropped_sinks,
        epoch,
        newest,
    } = inside;
    let stopped = stopped_json(alloc, stopped)?;
    let mut members = Map::new(alloc);
    put(
        alloc,
        &mut members,
        StandingKey::DroppedSinks,
        &dropped_sinks,
    )?;
    put(alloc, &mut members, StandingKey::Epoch, &epoch)?;
    put(alloc, &mut members, StandingKey::Kept, &kept)?;
    put(
        alloc,
        &mut members,
        StandingKey::PolicyVersion,
        &policy_version_of(newest),
    )?;
    put(
        alloc,
        &mut members,
        StandingKey::RoleVersion,
        &role_version_of(newest),
    )?;
    put(alloc, &mut members, StandingKey::Seconds, &seconds)?;
    put(alloc, &mut members, StandingKey::Serial, &serial_of(newest))?;
    put(alloc, &mut members, StandingKey::Serving, &serving)?;
    put_value(alloc, &mut members, StandingKey::Stopped.name(), stopped)?;
    put(
        alloc,
        &mut members,
        StandingKey::TagVersion,
        &tag_version_of(newest),
    )?;
    Ok(Value::Object(members))
}

/// A JSON object: `droppedSinks`, `epoch`, `keptCommands`, `policyVersion`, `roleVersion`, `secondsSinceStart`, `serial`, `serving`,
/// `stopped` (null, or why no more changes are taken: `keeper` or `full`) and `tagVersion`. The epoch, the serial and the versions are
/// null before the service has begun.
#[tactic(auto, using(crate::proofs::Plain::standings), unfolding(crate::specs::Standing::standing_text))]
pub fn print_standing(alloc: Global, standing: Standing) -> Result<Text, NoMemory>
    ensures { IfOk result (λ t. encode_utf8_all t ≡ standing_text standing) }
{
    let value = standing_json(alloc, standing)?;
    text_of(alloc, &value)
}
