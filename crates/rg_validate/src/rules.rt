// The first rule that a command breaks.
ghost use Rattle.std.specs.Prelude.{◌≡◌, IfOk};
ghost use Rattle.rg_same_resources.specs.Counts.{IsCounted};
ghost use Rattle.rg_validate.specs.Failing.{first_failing};
ghost use Rattle.rg_validate.specs.Rules.{first_fault, limit_rules, only_reads};
ghost use Rattle.rg_validate.specs.Valid.{IsValid};

use crate::commands::command_fault;
use rg_base::NoMemory;
use rg_cmd::{AdminCommand, Ask, Rule, State};
use rg_same_resources::{PrintCounts, prints_of};
use std::alloc::Global;

/// The most entries that a history has before changes are refused.
const LAST_COUNT: u64 = 1 << 62;

fn only_reads(command: &AdminCommand) -> bool
    ensures { result ≡ only_reads command.now }
{
    match command {
        AdminCommand::GetPolicy { id: _ } => true,
        AdminCommand::ListPolicies { service: _ } => true,
        AdminCommand::Download {
            service: _,
            policies_from: _,
            tags_from: _,
            roles_from: _,
        } => true,
        _ => false,
    }
}

/// L1, where it is asked and fails.
fn limit_fault(state: &State, command: &AdminCommand) -> Option<Rule>
    ensures { result ≡ first_failing (limit_rules state.now command.now) }
{
    if only_reads(command) || state.count < LAST_COUNT {
        None
    } else {
        Some(Rule::L1)
    }
}

/// How many of the state's policies have each print.
pub fn counts_of(alloc: Global, state: &State) -> Result<PrintCounts, NoMemory>
    ensures { IfOk result (λ counts. IsCounted counts state.now.policies.items) }
{
    let mut counts = PrintCounts::new(alloc);
    for policy in state.policies.as_slice() {
        counts.add(prints_of(policy))?;
    }
    Ok(counts)
}

/// The same as `first_fault`, for a caller that keeps the counts of the state's policies from one command to the next. They
/// spare most looks at the policies' names and maps.
pub fn first_fault_counted(
    alloc: Global,
    state: &State,
    counts: &PrintCounts,
    ask: &Ask,
) -> Result<Option<Rule>, NoMemory>
    requires valid { IsValid state.now }
    requires counted { IsCounted counts.now state.now.policies.items }
    ensures first { IfOk result (λ fault. fault ≡ first_fault state.now ask.now) }
{
    if let Some(rule) = limit_fault(state, &ask.command) {
        return Ok(Some(rule));
    }
    command_fault(alloc, state, counts, &ask.command)
}

/// The first rule that the command breaks in the state, up to the rules of authority: L1 where it is asked, then the
/// command's rules in order; None where all hold. It changes nothing. The policies are counted first, which takes memory and
/// work for each.
pub fn first_fault(alloc: Global, state: &State, ask: &Ask) -> Result<Option<Rule>, NoMemory>
    requires { IsValid state.now }
    ensures first { IfOk result (λ fault. fault ≡ first_fault state.now ask.now) }
{
    let counts = counts_of(alloc, state)?;
    first_fault_counted(alloc, state, &counts, ask)
}
