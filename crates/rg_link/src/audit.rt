// A decision audited.
ghost use Rattle.std.specs.Prelude.{◌≡◌, ◌∷◌, [], ℕ, OnOk, OnErr};
ghost use Rattle.std.specs.Str.{chars};
ghost use Rattle.rg_policy.specs.declared.request.AccessRequest.{AccessRequest};
ghost use Rattle.rg_link.specs.Audits.{AreAudited};
ghost use Rattle.rg_link.specs.Loop.{decided};

use rg_base::NoMemory;
use rg_facts::Decision;
use rg_hook::RequestHooks;
use rg_policy::AccessRequest;
use rg_wire::print_audit;
use std::alloc::Global;

/// Gives the audit line of an audited decision to the sinks.
pub(crate) fn audit<H: RequestHooks>(
    alloc: Global,
    hooks: &mut H,
    plugin: &str,
    request: &AccessRequest,
    decision: &Decision,
) -> Result<(), NoMemory>
    ensures ok { OnOk result ((asked : AccessRequest) (serial : ℕ)
        → AreAudited (chars plugin.now) (decided asked request.now serial decision.now ∷ [])
        (H.sinks hooks.old) (H.sinks hooks.new)) }
    ensures err { OnErr result (H.sinks hooks.new ≡ H.sinks hooks.old) }
    ensures kept { H.enrichers hooks.new ≡ H.enrichers hooks.old }
{
    if !decision.audited {
        return Ok(());
    }
    match print_audit(alloc, plugin, request, decision) {
        Ok(line) => {
            hooks.audit(line.as_str());
            Ok(())
        }
        Err(refused) => Err(refused),
    }
}
