// A service with its log, and copies of what its plugin sees.
ghost use Rattle.std.specs.Prelude.{◌≡◌, IfOk, IfSome, Some, filter, option_map};
ghost use Rattle.std.specs.Str.{chars};
ghost use Rattle.rg_base.specs.Listed.{listed};
ghost use Rattle.rg_cmd.specs.Lookups.{def_at, is_of, is_row_of, service_at, tag_service_of};
ghost use Rattle.rg_admin_laws.specs.Downloads.{policy_whole, role_whole, tag_whole};
ghost use Rattle.rg_admin_laws.specs.Logs.{log_at};
ghost use Rattle.rg_admin_laws.specs.Views.{tag_def_of, tag_policies_of, view};
ghost use Rattle.rg_admin.specs.Held.{administration_of, logs_of};

use crate::logs::ServiceLog;
use crate::lookups::tag_service_in;
use rg_base::{Named, NoMemory, Seq, Text, TryCopy, find_named, same_text};
use rg_cmd::{PolicyWhole, RoleWhole, ServiceRow, State, TagWhole, def_at, service_at};
use rg_defs::ServiceDef;
use rg_facts::Facts;
use rg_policy::Policy;
use rg_shared::Shared;
use rg_tags::TagRow;
use std::alloc::Global;
use std::marker::Model;

/// A service of this name. Contracts see its log, and the facts that its plugin sees.
#[derive(Drop)]
pub(crate) struct Served<'a> {
    pub(crate) name: &'a str,
    pub(crate) state: &'a State,
    pub(crate) log: &'a ServiceLog,
    row: &'a ServiceRow,
    def: &'a ServiceDef,
}

impl<'a> Model for Served<'a> {
    ghost use Rattle.std.specs.Prelude.{◌≡◌};
    ghost use Rattle.std.specs.Str.{chars};
    ghost use Rattle.rg_admin_laws.specs.Views.{facts_of};
    ghost use Rattle.rg_admin.specs.Served.{Served as Seen};

    ghost Value = { Seen };

    ghost view = { λ s. record {
      log = s.log.now.log;
      facts = facts_of (chars s.name.now) s.state.now s.log.now.log s.row.now s.def.now;
    } };
}

impl Named for ServiceLog {
    ghost named = { λ l. l.log.service };

    fn name(&self) -> &str {
        self.service().as_str()
    }
}

fn log_at<'a>(logs: &'a [ServiceLog], service: &str) -> Option<&'a ServiceLog>
    ensures { option_map (λ l. l.now.log) result ≡ log_at (logs_of logs.now) (chars service.now) }
{
    find_named(logs, service)
}

fn service_named<'a>(state: &'a State, name: &str) -> Option<&'a ServiceRow>
    ensures { option_map (λ r. r.now) result ≡ service_at state.now (chars name.now) }
{
    find_named(state.services.as_slice(), name)
}

/// The name of the service's tag service, if it has one.
fn tag_service_of<'a>(state: &'a State, service: &str) -> Option<&'a Text>
    ensures { option_map (λ t. t.now) result ≡ tag_service_of state.now (chars service.now) }
{
    let row = service_named(state, service)?;
    tag_service_in(row)
}

/// The definition of the service's tag service, if it has one.
fn tag_def_of<'a>(state: &'a State, service: &str) -> Option<&'a ServiceDef>
    ensures { option_map (λ d. d.now) result ≡ tag_def_of state.now (chars service.now) }
{
    let tag_service = tag_service_of(state, service)?;
    let row = service_at(state, tag_service)?;
    def_at(state, &row.def)
}

/// Copies of the policies of the service.
fn policies_of(
    alloc: Global,
    policies: &[Shared<Policy>],
    service: &str,
) -> Result<Seq<Shared<Policy>>, NoMemory>
    ensures { IfOk result
        (λ list. list ≡ listed (filter (is_of (chars service.now)) policies.now)) }
{
    let mut list = Seq::new(alloc);
    for policy in policies {
        if same_text(policy.service.as_str(), service) {
            list.add(policy.try_copy(alloc)?)?;
        }
    }
    Ok(list)
}

/// Copies of the policies of the service's tag service.
fn tag_policies_of(
    alloc: Global,
    state: &State,
    service: &str,
) -> Result<Seq<Shared<Policy>>, NoMemory>
    ensures { IfOk result (λ list. list ≡ listed (tag_policies_of state.now (chars service.now))) }
{
    match tag_service_of(state, service) {
        None => Ok(Seq::new(alloc)),
        Some(tag_service) => policies_of(alloc, state.policies.as_slice(), tag_service.as_str()),
    }
}

/// Copies of the tag rows of the service.
fn tag_rows_of(alloc: Global, rows: &[TagRow], service: &str) -> Result<Seq<TagRow>, NoMemory>
    ensures { IfOk result
        (λ list. list ≡ listed (filter (is_row_of (chars service.now)) rows.now)) }
{
    let mut list = Seq::new(alloc);
    for row in rows {
        if same_text(row.service.as_str(), service) {
            list.add(row.try_copy(alloc)?)?;
        }
    }
    Ok(list)
}

impl<'a> Served<'a> {
    /// The service of this name, None where there is none, or none with a log and a definition.
    pub(crate) fn find(
        state: &'a State,
        logs: &'a [ServiceLog],
        name: &'a str,
    ) -> Option<Served<'a>>
        ensures facts { option_map (λ s. s.facts) result
            ≡ view (administration_of state.now logs.now) (chars name.now) }
        ensures log { IfSome result (λ s. log_at (logs_of logs.now) (chars name.now) ≡ Some s.log) }
    {
        let log = log_at(logs, name)?;
        let row = service_named(state, name)?;
        let def = def_at(state, &row.def)?;
        Some(Served {
            name,
            state,
            log,
            row,
            def,
        })
    }

    fn copy_defs(&self, alloc: Global) -> Result<(ServiceDef, Option<ServiceDef>), NoMemory>
        ensures { IfOk result (λ defs. (defs.0 ≡ self.now.facts.def)
            × (defs.1 ≡ self.now.facts.tag_def)) }
    {
        let def = self.def.try_copy(alloc)?;
        let tag_def = match tag_def_of(self.state, self.name) {
            None => None,
            Some(tag_def) => Some(tag_def.try_copy(alloc)?),
        };
        Ok((def, tag_def))
    }

    fn copy_policies(
        &self,
        alloc: Global,
    ) -> Result<(Seq<Shared<Policy>>, Seq<Shared<Policy>>), NoMemory>
        ensures { IfOk result (λ lists. (lists.0 ≡ self.now.facts.policies)
            × (lists.1 ≡ self.now.facts.tag_policies)) }
    {
        let policies = policies_of(alloc, self.state.policies.as_slice(), self.name)?;
        let tag_policies = tag_policies_of(alloc, self.state, self.name)?;
        Ok((policies, tag_policies))
    }

    /// All that the policy version speaks of.
    pub(crate) fn policy_whole(&self, alloc: Global) -> Result<PolicyWhole, NoMemory>
        ensures { IfOk result (λ whole. whole ≡ policy_whole self.now.facts) }
    {
        let (def, tag_def) = self.copy_defs(alloc)?;
        let (policies, tag_policies) = self.copy_policies(alloc)?;
        let zones = self.state.zones.try_copy(alloc)?;
        let time_zones = self.state.time_zones.try_copy(alloc)?;
        Ok(PolicyWhole {
            version: self.log.policies().version(),
            fallback: self.row.fallback,
            def,
            tag_def,
            policies,
            tag_policies,
            zones,
            time_zones,
        })
    }

    /// All tag rows.
    pub(crate) fn tag_whole(&self, alloc: Global) -> Result<TagWhole, NoMemory>
        ensures { IfOk result (λ whole. whole ≡ tag_whole self.now.facts) }
    {
        let rows = tag_rows_of(alloc, self.state.tag_rows.as_slice(), self.name)?;
        Ok(TagWhole {
            version: self.log.tags().version(),
            rows,
        })
    }

    /// All roles.
    pub(crate) fn role_whole(&self, alloc: Global) -> Result<RoleWhole, NoMemory>
        ensures { IfOk result (λ whole. whole ≡ role_whole self.now.facts) }
    {
        let roles = self.state.roles.try_copy(alloc)?;
        Ok(RoleWhole {
            version: self.state.role_version,
            roles,
        })
    }

    /// The facts that the service's plugin sees.
    pub(crate) fn facts(&self, alloc: Global) -> Result<Facts, NoMemory>
        ensures { IfOk result (λ facts. facts ≡ self.now.facts) }
    {
        let policies = self.policy_whole(alloc)?;
        let tags = self.tag_whole(alloc)?;
        let roles = self.role_whole(alloc)?;
        let service = Text::copy_of(alloc, self.name)?;
        let PolicyWhole {
            version: policy_version,
            fallback,
            def,
            tag_def,
            policies,
            tag_policies,
            zones,
            time_zones,
        } = policies;
        let TagWhole {
            version: tag_version,
            rows: tag_rows,
        } = tags;
        let RoleWhole {
            version: role_version,
            roles,
        } = roles;
        Ok(Facts {
            service,
            fallback,
            def,
            tag_def,
            policies,
            tag_policies,
            zones,
            roles,
            tag_rows,
            time_zones,
            policy_version,
            tag_version,
            role_version,
        })
    }
}
