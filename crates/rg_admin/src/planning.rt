// How the logs change with a command: copies and room are made first, and what is due then takes no memory.
ghost use Rattle.std.specs.Prelude.{◌≡◌, ◌<◌, ◌++◌, ◌∷◌, [], IfOk, OnOk, filter, map, not, option_map, vec_capacity, vec_len};
ghost use Rattle.rg_admin_laws.specs.Logs.{is_log_of, logs_after, new_log, touched_log};
ghost use Rattle.rg_validate.specs.Valid.{IsValid};
ghost use Rattle.rg_admin.specs.Due.{HasRoom, done};
ghost use Rattle.rg_admin.specs.Held.{Planned, logs_of, plan_for, settled, unplanned};
ghost use Rattle.rg_admin.specs.Planning.{noted_policy, tag_row_named};

use crate::logs::ServiceLog;
use crate::lookups::{service_near, tag_row_named};
use crate::touches::{noted_policy, policy_touch, tag_touch};
use rg_base::{NoMemory, Text, TryCopy, same_text};
use rg_cmd::{AdminCommand, State};
use rg_policy::Policy;
use rg_shared::Shared;
use rg_tags::TagRow;
use std::alloc::Global;

/// What the change under way does to the list of logs.
#[derive(Drop)]
pub(crate) enum Due {
    /// Each log is touched as was planned for it.
    Each,
    /// A created service gets its log.
    Gains(ServiceLog),
    /// A deleted service loses its log.
    Loses(Text),
}

/// Makes the copies of the change for one log, which has this place, and room for it. What is noted of the command is given.
fn plan_one(
    alloc: Global,
    state: &State,
    command: &AdminCommand,
    noted: Option<&Shared<Policy>>,
    tag_row: Option<&TagRow>,
    place: usize,
    log: &mut ServiceLog,
) -> Result<(), NoMemory>
    requires valid { IsValid state.now }
    requires noted { option_map (λ p. p.now) noted ≡ noted_policy state.now command.now }
    requires tag_row { option_map (λ r. r.now) tag_row ≡ tag_row_named state.now command.now }
    ensures log { log.new.log ≡ log.old.log }
    ensures ok { OnOk result (log.new ≡ plan_for state.now command.now log.old) }
{
    let row = service_near(state, place, log.service());
    let policies = policy_touch(alloc, state, command, noted, row, log.service())?;
    let tags = tag_touch(alloc, state, command, tag_row, log.service())?;
    log.plan(policies, tags)
}

/// Makes the copies of the change, and room for it in each log that it touches. What is noted of the command is
/// looked up and copied once, and each log's service stands at the log's own place.
fn plan_each(
    alloc: Global,
    state: &State,
    command: &AdminCommand,
    logs: &mut Vec<ServiceLog>,
) -> Result<(), NoMemory>
    requires { IsValid state.now }
    ensures logs { logs_of logs.new.items ≡ logs_of logs.old.items }
    ensures ok { OnOk result (logs.new.items
        ≡ map (plan_for state.now command.now) logs.old.items) }
{
    let policy = noted_policy(alloc, state, command)?;
    let noted = policy.as_ref();
    let tag_row = tag_row_named(state, command);
    let mut place: usize = 0;
    for log in logs.iter_mut() {
        plan_one(alloc, state, command, noted, tag_row, place, log)?;
        place = place.saturating_add(1);
    }
    Ok(())
}

/// The log of a created service, for which room is made.
fn plan_new(
    alloc: Global,
    service: &Text,
    logs: &mut Vec<ServiceLog>,
) -> Result<ServiceLog, NoMemory>
    ensures logs { logs.new.items ≡ logs.old.items }
    ensures ok { IfOk result (λ log. log ≡ unplanned (new_log service.now)) }
    ensures room { OnOk result (vec_len logs.new < vec_capacity logs.new) }
{
    let log = ServiceLog::new(alloc, service)?;
    logs.try_reserve(1)?;
    Ok(log)
}

/// What is due to the logs once the command's change is made. The logs stay as they are.
pub(crate) fn plan(
    alloc: Global,
    state: &State,
    command: &AdminCommand,
    logs: &mut Vec<ServiceLog>,
) -> Result<Due, NoMemory>
    requires { IsValid state.now }
    ensures logs { logs_of logs.new.items ≡ logs_of logs.old.items }
    ensures due { IfOk result (λ due. logs_of (done due logs.new.items)
        ≡ logs_after state.now command.now (logs_of logs.old.items)) }
    ensures room { IfOk result (λ due. HasRoom due (vec_len logs.new) (vec_capacity logs.new)) }
{
    match command {
        AdminCommand::CreateService { service } => {
            let log = plan_new(alloc, &service.name, logs)?;
            Ok(Due::Gains(log))
        }
        AdminCommand::DeleteService { name } => Ok(Due::Loses(name.try_copy(alloc)?)),
        _ => {
            plan_each(alloc, state, command, logs)?;
            Ok(Due::Each)
        }
    }
}

fn settle_each(logs: &mut Vec<ServiceLog>)
    ensures { logs.new.items ≡ map settled logs.old.items }
{
    for log in logs.iter_mut() {
        log.settle();
    }
}

fn add_log(logs: &mut Vec<ServiceLog>, log: ServiceLog)
    requires { vec_len logs.old < vec_capacity logs.old }
    ensures { logs.new.items ≡ logs.old.items ++ log ∷ [] }
{
    match logs.push(log) {
        Ok(()) => {}
        Err(_) => unreachable!(),
    }
}

fn drop_log(logs: &mut Vec<ServiceLog>, service: &Text)
    ensures { logs.new.items
        ≡ filter (λ (p : Planned). not (is_log_of service.now p.log)) logs.old.items }
{
    logs.retain(|log| !same_text(log.service().as_str(), service.as_str()));
}

/// Makes the change. It takes no memory.
pub(crate) fn settle(logs: &mut Vec<ServiceLog>, due: Due)
    requires { HasRoom due (vec_len logs.old) (vec_capacity logs.old) }
    ensures { logs.new.items ≡ done due logs.old.items }
{
    match due {
        Due::Each => settle_each(logs),
        Due::Gains(log) => add_log(logs, log),
        Due::Loses(service) => drop_log(logs, &service),
    }
}
