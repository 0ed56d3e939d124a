// A decision printed, and then audited.
ghost use Rattle.std.specs.Prelude.{◌≡◌, ◌++◌, ◌∷◌, [], OnOk, OnErr, string_bytes};
ghost use Rattle.std.specs.Str.{chars};
ghost use Rattle.rg_policy.specs.declared.request.AccessRequest.{AccessRequest};
ghost use Rattle.rg_run_script.specs.Hooked.{AreGiven, audit_lines, decided_as};
ghost use Rattle.rg_run_script.specs.Printed.{decision_line};

use crate::printing::add_decision;
use rg_base::NoMemory;
use rg_facts::Decision;
use rg_hook::RequestHooks;
use rg_policy::AccessRequest;
use rg_wire::print_audit;
use std::alloc::Global;

/// Gives the audit line of an audited decision to the sinks.
fn audit<H: RequestHooks>(
    alloc: Global,
    hooks: &mut H,
    service: &str,
    request: &AccessRequest,
    decision: &Decision,
) -> Result<(), NoMemory>
    ensures given { OnOk result ((asked : AccessRequest) → AreGiven
        (audit_lines (decided_as (chars service.now) asked request.now decision.now ∷ []))
        (H.sinks hooks.old) (H.sinks hooks.new)) }
    ensures unheard { OnErr result (H.sinks hooks.new ≡ H.sinks hooks.old) }
    ensures kept { H.enrichers hooks.new ≡ H.enrichers hooks.old }
{
    if !decision.audited {
        return Ok(());
    }
    match print_audit(alloc, service, request, decision) {
        Ok(line) => {
            hooks.audit(line.as_str());
            Ok(())
        }
        Err(refused) => Err(refused),
    }
}

/// Adds the decision line, and then audits the decision on the request to this service. After want of memory the sinks are as
/// before.
pub(crate) fn add_audited<H: RequestHooks>(
    alloc: Global,
    text: &mut String,
    hooks: &mut H,
    service: &str,
    request: &AccessRequest,
    decision: &Decision,
) -> Result<(), NoMemory>
    ensures line { OnOk result (string_bytes text.new
        ≡ string_bytes text.old ++ decision_line decision.now) }
    ensures given { OnOk result ((asked : AccessRequest) → AreGiven
        (audit_lines (decided_as (chars service.now) asked request.now decision.now ∷ []))
        (H.sinks hooks.old) (H.sinks hooks.new)) }
    ensures unheard { OnErr result (H.sinks hooks.new ≡ H.sinks hooks.old) }
    ensures kept { H.enrichers hooks.new ≡ H.enrichers hooks.old }
{
    add_decision(alloc, text, decision)?;
    audit(alloc, hooks, service, request, decision)
}
