// A request enriched, decided, printed and audited, whatever the command.
ghost use Rattle.std.specs.Prelude.{◌≡◌, OnOk, OnErr, string_bytes};
ghost use Rattle.rg_run_script.specs.Hooked.{HaveRunOn, IsJudged, hooks_of};

use crate::auditing::add_audited;
use rg_base::NoMemory;
use rg_facts::Decision;
use rg_hook::RequestHooks;
use rg_policy::AccessRequest;
use std::alloc::Global;

/// What decides requests to one service.
pub trait Decider {
    ghost use Rattle.std.specs.Prelude.{◌≡◌, ℕ, List, Option, Some, IfOk};
    ghost use Rattle.std.specs.Str.{chars};
    ghost use Rattle.rg_policy.specs.declared.request.AccessRequest.{AccessRequest};
    ghost use Rattle.rg_facts.specs.declared.decision.Decision as the;

    /// The name of the service.
    ghost served: { Self → List ℕ };

    /// What it decides on a request.
    ghost decides: { Self → AccessRequest → Option the.Decision };

    /// The name of the service, which stands in audit lines.
    fn service(&self) -> &str
        ensures { chars result.now ≡ served self.now };

    /// Decides the request.
    fn decide(&mut self, alloc: Global, request: &AccessRequest) -> Result<Decision, NoMemory>
        ensures same { self.new ≡ self.old }
        ensures decision { IfOk result (λ d. decides self.old request.now ≡ Some d) };
}

/// Enriches the request, decides it, adds the decision line, and then audits the decision. After want of memory the sinks are
/// as before, and some enrichers may have run.
pub fn judge<D: Decider, H: RequestHooks>(
    alloc: Global,
    decider: &mut D,
    request: &mut AccessRequest,
    text: &mut String,
    hooks: &mut H,
) -> Result<(), NoMemory>
    ensures same { decider.new ≡ decider.old }
    ensures judged { OnOk result
        (IsJudged (D.served decider.old) (D.decides decider.old) request.old
        (hooks_of (H.sinks hooks.old) (H.enrichers hooks.old)) (hooks_of (H.sinks hooks.new) (H.enrichers hooks.new)) (string_bytes text.old) (string_bytes text.new)) }
    ensures unheard { OnErr result (H.sinks hooks.new ≡ H.sinks hooks.old) }
    ensures in_part { OnErr result (HaveRunOn (H.enrichers hooks.old) (H.enrichers hooks.new)) }
{
    match hooks.enrich(alloc, request) {
        Ok(()) => {}
        Err(refused) => return Err(refused),
    }
    let decision = match decider.decide(alloc, request) {
        Ok(decision) => decision,
        Err(refused) => return Err(refused),
    };
    match add_audited(alloc, text, hooks, decider.service(), request, &decision) {
        Ok(()) => Ok(()),
        Err(refused) => Err(refused),
    }
}
