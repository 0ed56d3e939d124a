// The rules of authority.
ghost use Rattle.std.specs.Prelude.{◌≡◌, ◌∷◌, [], IfOk, ℤ};
ghost use Rattle.std.specs.Str.{chars};
ghost use Rattle.rg_delegate.specs.Ready.{Fits, FormFits, IsReady};
ghost use Rattle.rg_delegate.specs.Rules.{authority_fault, first_failing, may_by_id, may_see_by_id};
ghost use Rattle.rg_delegate.specs.Authority.{is_admin, may};

use crate::authority::{is_admin, may_administer, may_see};
use crate::lookups::policy_at;
use rg_base::{NoMemory, PolicyId};
use rg_cmd::{AdminCommand, Ask, Rule, State};
use rg_policy::Policy;
use std::alloc::Global;

fn may_by_id(alloc: Global, state: &State, actor: &str, id: PolicyId) -> Result<bool, NoMemory>
    requires { IsReady state.now }
    ensures { IfOk result (λ b. b ≡ may_by_id state.now (chars actor.now) id.0) }
{
    match policy_at(state, id) {
        Some(policy) => may_administer(alloc, state, actor, policy),
        None => Ok(true),
    }
}

fn may_see_by_id(alloc: Global, state: &State, actor: &str, id: PolicyId) -> Result<bool, NoMemory>
    requires { IsReady state.now }
    ensures { IfOk result (λ b. b ≡ may_see_by_id state.now (chars actor.now) id.0) }
{
    match policy_at(state, id) {
        Some(policy) => may_see(alloc, state, actor, policy),
        None => Ok(true),
    }
}

/// The rule, unless it holds.
fn unless(holds: bool, rule: Rule) -> Option<Rule>
    ensures { result ≡ first_failing ((rule, holds) ∷ []) }
{
    if holds { None } else { Some(rule) }
}

fn update_fault(
    alloc: Global,
    state: &State,
    actor: &str,
    policy: &Policy,
) -> Result<Option<Rule>, NoMemory>
    requires ready { IsReady state.now }
    requires fits { Fits state.now policy.now }
    ensures { IfOk result (λ r. r ≡ first_failing ((
      Rule.A3,
      may_by_id state.now (chars actor.now)
          policy.now.id.0,
    ) ∷ (Rule.A4, may state.now (chars actor.now) policy.now) ∷ [])) }
{
    if !may_by_id(alloc, state, actor, policy.id)? {
        return Ok(Some(Rule::A3));
    }
    let may = may_administer(alloc, state, actor, policy)?;
    Ok(unless(may, Rule::A4))
}

/// The first rule of authority (A1 to A5) that the command breaks. It is asked after all other rules of the command: the
/// state is a valid one, and a policy that the command brings passes the rules V5 and V6.
pub fn authority_fault(alloc: Global, state: &State, ask: &Ask) -> Result<Option<Rule>, NoMemory>
    requires ready { IsReady state.now }
    requires fits { FormFits state.now ask.now.command }
    ensures { IfOk result (λ r. r ≡ authority_fault state.now ask.now) }
{
    let actor = ask.actor.as_str();
    match &ask.command {
        AdminCommand::CreatePolicy { policy } => {
            let may = may_administer(alloc, state, actor, policy)?;
            Ok(unless(may, Rule::A2))
        }
        AdminCommand::UpdatePolicy { policy } => update_fault(alloc, state, actor, policy),
        AdminCommand::DeletePolicy { id } => {
            let may = may_by_id(alloc, state, actor, *id)?;
            Ok(unless(may, Rule::A3))
        }
        AdminCommand::GetPolicy { id } => {
            let may = may_see_by_id(alloc, state, actor, *id)?;
            Ok(unless(may, Rule::A5))
        }
        AdminCommand::ListPolicies { .. } | AdminCommand::Download { .. } => Ok(None),
        _ => Ok(unless(is_admin(state, actor), Rule::A1)),
    }
}
