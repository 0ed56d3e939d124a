// How the policies of the workload are created and published.
ghost use Rattle.std.specs.Prelude.{◌≡◌, Some, IfOk, OnOk};
ghost use Rattle.rg_run_drill.specs.Drill.{created, creation, is_due, prepared};
ghost use Rattle.rg_drill.specs.Workload.{policies_of};

use rg_base::{Ledger, NoMemory, Steps, Text};
use rg_cmd::{AdminCommand, AdminReply, Ask};
use rg_drill::Generator;
use rg_policy::Policy;
use rg_run_replay::Running;
use std::alloc::Global;
use std::sync::Wait;

/// How many policies are created between two publications.
pub(crate) const PUBLISHED_AT_ONCE: u32 = 500;

/// That `root` creates the policy.
fn creation(alloc: Global, policy: Policy) -> Result<Ask, NoMemory>
    ensures { IfOk result (λ ask. ask ≡ creation policy) }
{
    Ok(Ask {
        actor: Text::copy_of(alloc, "root")?,
        command: AdminCommand::CreatePolicy { policy },
    })
}

/// Whether a refresh follows the creation of this policy, counted from 1.
fn is_due(policies: u32, number: u32) -> bool
    ensures { result ≡ is_due policies number }
{
    number % PUBLISHED_AT_ONCE == 0 || number == policies
}

/// Whether the policy was taken in.
fn is_kept(reply: AdminReply) -> bool {
    match reply {
        AdminReply::Kept { .. } => true,
        _ => false,
    }
}

/// Creates the policy, and publishes where that is due. A policy that a rule refuses ends the drill as want of memory does:
/// the workload has none.
fn create<W: Wait, L: Ledger>(
    rt: &W,
    alloc: Global,
    running: &mut Running<&W>,
    policy: Policy,
    is_due: bool,
    steps: &mut Steps<L>,
) -> Result<(), NoMemory>
    ensures created { OnOk result (created is_due running.old policy ≡ Some running.new) }
    ensures tries { steps.new.tries ≡ steps.old.tries }
{
    let ask = creation(alloc, policy)?;
    let reply = running.ask(rt, alloc, ask)?;
    if !is_kept(reply) {
        return Err(NoMemory);
    }
    if is_due {
        running.refresh(rt, alloc, steps)?;
    }
    Ok(())
}

/// Creates so many policies, and publishes them in steps.
pub(crate) fn prepare<W: Wait, L: Ledger>(
    rt: &W,
    alloc: Global,
    running: &mut Running<&W>,
    generator: &mut Generator,
    policies: u32,
    steps: &mut Steps<L>,
) -> Result<(), NoMemory>
    ensures prepared { OnOk result (prepared (Some running.old) policies policies generator.old
        ≡ Some running.new) }
    ensures drawn { OnOk result (generator.new ≡ (policies_of policies generator.old).next) }
    ensures tries { steps.new.tries ≡ steps.old.tries }
{
    let mut number: u32 = 0;
    'policies: while number < policies {
        number += 1;
        let policy = generator.policy(alloc, number)?;
        create(rt, alloc, running, policy, is_due(policies, number), steps)?;
    }
    Ok(())
}
