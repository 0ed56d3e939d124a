// How the counts of prints follow the policies.
ghost use Rattle.std.specs.Prelude.{◌≡◌, OnErr, OnOk, option_map};
ghost use Rattle.rg_same_resources.specs.Counts.{IsSame};
ghost use Rattle.rg_same_resources.specs.Prints.{prints_of};
ghost use Rattle.rg_validate.specs.Valid.{IsValid};
ghost use Rattle.rg_admin.specs.Counting.{IsCountedIn, IsCountedOut, policy_brought, shift_of};
ghost use Rattle.rg_admin.specs.Planning.{policy_named};

use crate::lookups::policy_named;
use rg_base::NoMemory;
use rg_cmd::{AdminCommand, State};
use rg_same_resources::{PrintCounts, Prints, prints_of};

/// The prints that a command brings, and those that it takes away.
#[derive(Clone, Copy)]
pub(crate) struct Shift {
    pub(crate) brings: Option<Prints>,
    pub(crate) takes: Option<Prints>,
}

/// The prints of the policy that the command brings.
fn prints_brought(command: &AdminCommand) -> Option<Prints>
    ensures { result ≡ option_map prints_of (policy_brought command.now) }
{
    match command {
        AdminCommand::CreatePolicy { policy } => Some(prints_of(policy)),
        AdminCommand::UpdatePolicy { policy } => Some(prints_of(policy)),
        _ => None,
    }
}

/// The prints of the policy that the command updates or deletes.
fn prints_named(state: &State, command: &AdminCommand) -> Option<Prints>
    requires { IsValid state.now }
    ensures { result ≡ option_map prints_of (policy_named state.now command.now) }
{
    match policy_named(state, command) {
        Some(policy) => Some(prints_of(policy)),
        None => None,
    }
}

/// What the command, once accepted, does to the prints.
pub(crate) fn shift_of(state: &State, command: &AdminCommand) -> Shift
    requires { IsValid state.now }
    ensures { result ≡ shift_of state.now command.now }
{
    Shift {
        brings: prints_brought(command),
        takes: prints_named(state, command),
    }
}

/// Counts what has the prints, if there is something.
pub(crate) fn count_in(counts: &mut PrintCounts, prints: Option<Prints>) -> Result<(), NoMemory>
    ensures ok { OnOk result (IsCountedIn prints counts.old counts.new) }
    ensures err { OnErr result (IsSame counts.old counts.new) }
{
    match prints {
        Some(prints) => counts.add(prints),
        None => Ok(()),
    }
}

/// Counts it no more. It takes no memory.
pub(crate) fn count_out(counts: &mut PrintCounts, prints: Option<Prints>)
    ensures { IsCountedOut prints counts.old counts.new }
{
    match prints {
        Some(prints) => counts.remove(prints),
        None => {}
    }
}
