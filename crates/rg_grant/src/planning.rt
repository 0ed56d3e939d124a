// Which command does what is asked.
ghost use Rattle.std.specs.Prelude.{◌≡◌, IfOk};
ghost use Rattle.rg_same_resources.specs.Counts.{IsCounted};
ghost use Rattle.rg_grant.specs.Planning.{grant_of, planned, policy_for, revoke_of};

use crate::ask::GrantAsk;
use crate::forms::{granted_form, new_policy, revoked_form};
use crate::matching::policy_for;
use crate::row::GrantRow;
use rg_base::NoMemory;
use rg_cmd::{AdminCommand, Ask, State};
use rg_same_resources::PrintCounts;
use std::alloc::Global;

/// The command of a grant.
fn grant_of(
    alloc: Global,
    state: &State,
    counts: &PrintCounts,
    row: &GrantRow,
) -> Result<AdminCommand, NoMemory>
    requires { IsCounted counts.now state.now.policies.items }
    ensures { IfOk result
        (λ command. command ≡ grant_of state.now row.now (policy_for state.now row.now)) }
{
    match policy_for(alloc, state, counts, row)? {
        Some(policy) => Ok(AdminCommand::UpdatePolicy {
            policy: granted_form(alloc, row, policy)?,
        }),
        None => Ok(AdminCommand::CreatePolicy {
            policy: new_policy(alloc, state.next_id, row)?,
        }),
    }
}

/// The command of a revoke.
fn revoke_of(
    alloc: Global,
    state: &State,
    counts: &PrintCounts,
    row: &GrantRow,
) -> Result<AdminCommand, NoMemory>
    requires { IsCounted counts.now state.now.policies.items }
    ensures { IfOk result
        (λ command. command ≡ revoke_of state.now row.now (policy_for state.now row.now)) }
{
    match policy_for(alloc, state, counts, row)? {
        Some(policy) => Ok(AdminCommand::UpdatePolicy {
            policy: revoked_form(alloc, row, policy)?,
        }),
        None => Ok(AdminCommand::UpdatePolicy {
            policy: new_policy(alloc, state.next_id, row)?,
        }),
    }
}

/// What is asked of the administration.
#[tactic(auto, unfolding(crate::specs::Planning::planned))]
pub(crate) fn plan(
    alloc: Global,
    state: &State,
    counts: &PrintCounts,
    ask: GrantAsk,
) -> Result<Ask, NoMemory>
    requires { IsCounted counts.now state.now.policies.items }
    ensures { IfOk result (λ plain. plain ≡ planned state.now ask) }
{
    match ask {
        GrantAsk::Plain(plain) => Ok(plain),
        GrantAsk::Grant { actor, row } => {
            let command = grant_of(alloc, state, counts, &row)?;
            Ok(Ask { actor, command })
        }
        GrantAsk::Revoke { actor, row } => {
            let command = revoke_of(alloc, state, counts, &row)?;
            Ok(Ask { actor, command })
        }
    }
}
