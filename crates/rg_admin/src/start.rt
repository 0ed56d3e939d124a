// How an administration starts from a configuration.
ghost use Rattle.std.specs.Prelude.{◌≡◌, MatchResult, IfErr, IfOk, None, OnOk, filter, map, not};
ghost use Rattle.std.specs.Str.{bytes_eq};
ghost use Rattle.rg_defs.specs.Rules.{tag_name};
ghost use Rattle.rg_cmd.specs.declared.state.ServiceRow.{ServiceRow as Row};
ghost use Rattle.rg_validate.specs.Failing.{first_failing};
ghost use Rattle.rg_admin_laws.specs.Starts.{IsStart, new_logs};
ghost use Rattle.rg_admin.specs.Held.{logs_of};
ghost use Rattle.rg_admin.specs.Puts.{IsPut, IsPutWhole, IsPutting, rows_put};
ghost use Rattle.rg_admin.specs.Reached.{IsPacked};
ghost use Rattle.rg_admin.specs.Held.{administration_of};
ghost use Rattle.rg_admin.specs.Starting.{IsCause, bare_state, last_rules, put_fault, puts, start_fault, started};

use crate::admin::Admin;
use crate::logs::ServiceLog;
use crate::putting::{Configured, Putting, bare_state, nothing_put};
use rg_base::{NoMemory, Seq, same_text};
use rg_cmd::{Config, Rule, ServiceRow, State, UserRow};
use rg_defs::{ServiceDef, tag_name};
use rg_same_resources::PrintCounts;
use rg_validate::{plugin_fits, service_exists, time_zones_read};
use std::alloc::Global;

/// Why a configuration starts no administration.
#[derive(Clone, Copy, Debug, PartialEq, Eq)]
pub enum StartFault {
    /// The first rule that it breaks.
    Rule(Rule),
    /// Memory was refused.
    NoMemory,
}

impl From<NoMemory> for StartFault {
    ghost use Rattle.rg_admin.specs.declared.start.StartFault.TheVariants.{NoMemory as Refused};

    ghost from_gives = { λ _ fault. fault ≡ Refused };

    fn from(_refused: NoMemory) -> StartFault {
        StartFault::NoMemory
    }
}

/// Puts the rows one after the other.
fn put_all<T: Configured + Drop>(
    alloc: Global,
    putting: &mut Putting,
    rows: Vec<T>,
) -> Result<(), StartFault>
    requires { IsPutting putting.old }
    ensures ok { OnOk result (IsPut putting.old.state (map T.put_by rows.items) putting.new.state) }
    ensures putting { OnOk result (IsPutting putting.new) }
    ensures err { IfErr result
        (λ fault. IsCause fault (put_fault putting.old.state (map T.put_by rows.items))) }
{
    for row in rows {
        if let Err(fault) = row.put(alloc, putting) {
            return Err(fault);
        }
    }
    Ok(())
}

/// The services of definition `tag`, and the others.
fn parted(
    alloc: Global,
    services: Seq<ServiceRow>,
) -> Result<(Vec<ServiceRow>, Vec<ServiceRow>), NoMemory>
    ensures tags { IfOk result (λ lists. lists.0.items
        ≡ filter (λ (row : Row). bytes_eq row.def tag_name) services.items) }
    ensures others { IfOk result (λ lists. lists.1.items
        ≡ filter (λ (row : Row). not (bytes_eq row.def tag_name)) services.items) }
{
    let mut tags = Vec::new(alloc);
    let mut others = Vec::new(alloc);
    for row in services.into_vec() {
        if same_text(row.def.as_str(), tag_name()) {
            tags.push(row)?;
        } else {
            others.push(row)?;
        }
    }
    Ok((tags, others))
}

/// The first that fails of the rules that are asked once everything is put.
#[tactic(auto, unfolding(crate::specs::Starting::last_rules))]
fn last_fault(alloc: Global, state: &State) -> Result<Option<Rule>, NoMemory>
    ensures { IfOk result (λ fault. fault ≡ first_failing (last_rules state.now)) }
{
    if !time_zones_read(alloc, state)? {
        return Ok(Some(Rule::U2));
    }
    if !service_exists(state, &state.plugin) {
        return Ok(Some(Rule::E1));
    }
    if !plugin_fits(state) {
        return Ok(Some(Rule::C6));
    }
    Ok(None)
}

/// A log for each of the services.
fn new_logs(alloc: Global, services: &[ServiceRow]) -> Result<Vec<ServiceLog>, NoMemory>
    ensures { IfOk result (λ logs. logs_of logs.items ≡ new_logs services.now) }
{
    let mut logs = Vec::new(alloc);
    for row in services {
        logs.push(ServiceLog::new(alloc, &row.name)?)?;
    }
    Ok(logs)
}

/// Puts definitions, services, those of definition `tag` first, and users.
fn put_rows(
    alloc: Global,
    putting: &mut Putting,
    defs: Vec<ServiceDef>,
    tags: Vec<ServiceRow>,
    others: Vec<ServiceRow>,
    users: Vec<UserRow>,
) -> Result<(), StartFault>
    requires { IsPutting putting.old }
    ensures ok { OnOk result (IsPut putting.old.state
        (rows_put defs.items tags.items others.items users.items) putting.new.state) }
    ensures putting { OnOk result (IsPutting putting.new) }
    ensures err { IfErr result (λ fault. IsCause fault (put_fault putting.old.state
        (rows_put defs.items tags.items others.items users.items))) }
{
    if let Err(fault) = put_all(alloc, putting, defs) {
        return Err(fault);
    }
    if let Err(fault) = put_all(alloc, putting, tags) {
        return Err(fault);
    }
    if let Err(fault) = put_all(alloc, putting, others) {
        return Err(fault);
    }
    if let Err(fault) = put_all(alloc, putting, users) {
        return Err(fault);
    }
    Ok(())
}

fn state_of(putting: Putting) -> State
    ensures { result ≡ putting.state }
{
    putting.state
}

/// The state once all rows of the configuration are put.
fn put_config(alloc: Global, config: Config) -> Result<State, StartFault>
    ensures { MatchResult result (λ state. IsPutWhole config state)
        (λ fault. IsCause fault (put_fault (bare_state config) (puts config))) }
{
    let Config {
        admins,
        users,
        time_zones,
        defs,
        services,
        plugin,
    } = config;
    let (tags, others) = match parted(alloc, services) {
        Ok(lists) => lists,
        Err(NoMemory) => return Err(StartFault::NoMemory),
    };
    let mut putting = nothing_put(alloc, bare_state(alloc, admins, plugin));
    if let Err(fault) = put_rows(
        alloc,
        &mut putting,
        defs.into_vec(),
        tags,
        others,
        users.into_vec(),
    ) {
        return Err(fault);
    }
    let mut state = state_of(putting);
    state.time_zones = time_zones;
    Ok(state)
}

/// The state, and a log for each of its services.
fn with_logs(alloc: Global, state: State) -> Result<(State, Vec<ServiceLog>), NoMemory>
    ensures state { IfOk result (λ parts. parts.0 ≡ state) }
    ensures logs { IfOk result (λ parts. logs_of parts.1.items ≡ new_logs state.services.items) }
{
    let logs = new_logs(alloc, state.services.as_slice())?;
    Ok((state, logs))
}

/// The state and the logs of the administration that the configuration starts.
pub(crate) fn start_parts(
    alloc: Global,
    config: Config,
) -> Result<(State, Vec<ServiceLog>), StartFault>
    ensures { MatchResult result (λ parts. (start_fault config ≡ None)
        × (administration_of parts.0 parts.1.items ≡ started config)
        × IsStart (administration_of parts.0 parts.1.items) × IsPacked parts.0)
        (λ fault. IsCause fault (start_fault config)) }
{
    let state = match put_config(alloc, config) {
        Ok(state) => state,
        Err(fault) => return Err(fault),
    };
    match last_fault(alloc, &state) {
        Ok(None) => {}
        Ok(Some(rule)) => return Err(StartFault::Rule(rule)),
        Err(NoMemory) => return Err(StartFault::NoMemory),
    }
    match with_logs(alloc, state) {
        Ok(parts) => Ok(parts),
        Err(NoMemory) => Err(StartFault::NoMemory),
    }
}

impl Admin {
    /// Starts an administration from a configuration. Definitions are put first, then services, those of definition `tag`
    /// before the others, and then users; of rows with one name the later replaces the earlier in its place. There are no
    /// policies, zones, roles and tag rows yet.
    pub fn start(alloc: Global, config: Config) -> Result<Admin, StartFault>
        ensures ok { IfOk result (λ admin. (start_fault config ≡ None) × (admin ≡ started config)) }
        ensures starts { IfOk result IsStart }
        ensures err { IfErr result (λ fault. IsCause fault (start_fault config)) }
    {
        match start_parts(alloc, config) {
            Ok((state, logs)) => Ok(Admin::opened(state, logs, PrintCounts::new(alloc))),
            Err(fault) => Err(fault),
        }
    }
}
