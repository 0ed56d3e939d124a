// A decision, answered and audited.
ghost use Rattle.std.specs.Prelude.{◌≡◌, ◌⊎◌, ◌∷◌, [], length, IfOk, OnOk, OnErr, MatchResult, List, ℕ};
ghost use mathlib.Core.List.{IsPrefix};
ghost use Rattle.std.specs.Str.{chars};
ghost use Rattle.rg_http.specs.Print.{response_text};
ghost use Rattle.rg_rest.specs.Responses.{decision_response};
ghost use Rattle.rg_link.specs.Audits.{AreAudited, Decided};
ghost use Rattle.rg_link.specs.Loop.{IsJudged, IsUnjudged, decided};
ghost use Rattle.rg_http.specs.Answers.{Wrote};
ghost use Rattle.rg_link.specs.Sessions.{Counts};

use crate::audit::audit;
use crate::report::LinkFault;
use crate::setting::Deciding;
use crate::writing::send;
use rg_base::{NoMemory, Steps};
use rg_facts::Decision;
use rg_hook::RequestHooks;
use rg_policy::AccessRequest;
use rg_ports::{Gate, Link};
use rg_publish::Pass;
use rg_rest::decision_response;

/// Where a worker waits before a decision, and after its answer.
const BEFORE_DECISION: u32 = 1;

const AFTER_ANSWER: u32 = 2;

/// Enriches the request, and decides it.
fn judge<G: Gate, H: RequestHooks>(
    deciding: &Deciding<G>,
    pass: &mut Pass,
    hooks: &mut H,
    request: &mut AccessRequest,
) -> Result<Decision, NoMemory>
    ensures judged { IfOk result
        (λ d. IsJudged pass.old pass.new (H.enrichers hooks.old) (H.enrichers hooks.new) request.old
        (decided request.old request.new (length pass.new.list) d)) }
    ensures unjudged { OnErr result
        (IsUnjudged pass.old pass.new (H.enrichers hooks.old) (H.enrichers hooks.new)) }
    ensures unheard { H.sinks hooks.new ≡ H.sinks hooks.old }
{
    match hooks.enrich(deciding.alloc, request) {
        Ok(()) => {}
        Err(refused) => return Err(refused),
    }
    deciding.gate.reach(deciding.worker, BEFORE_DECISION);
    let mut steps = Steps::silent();
    match pass.decide(deciding.alloc, request, &mut steps) {
        Ok(decision) => return Ok(decision),
        Err(refused) => return Err(refused),
    }
}

/// Decides the request, writes the answer, and then audits it. The gate's second point stands behind the answer.
pub fn answer_decision<T: Link, G: Gate, H: RequestHooks>(
    deciding: &Deciding<G>,
    link: &mut T,
    pass: &mut Pass,
    hooks: &mut H,
    request: &mut AccessRequest,
    close: bool,
) -> Result<(), LinkFault>
    ensures served { OnOk result ((d : Decided) × IsJudged pass.old pass.new
        (H.enrichers hooks.old) (H.enrichers hooks.new) request.old d
        × Wrote (T.held link.old) (T.held link.new) (response_text (decision_response d.decision close))
        × AreAudited (chars deciding.now.plugin.now) (d ∷ []) (H.sinks hooks.old) (H.sinks hooks.new)) }
    ensures unserved { OnErr result ((H.sinks hooks.new ≡ H.sinks hooks.old)
        × ((IsUnjudged pass.old pass.new (H.enrichers hooks.old) (H.enrichers hooks.new) × Wrote (T.held link.old) (T.held link.new) [])
        ⊎ ((d : Decided) × (part : List ℕ) × IsJudged pass.old pass.new (H.enrichers hooks.old) (H.enrichers hooks.new) request.old d
        × Wrote (T.held link.old) (T.held link.new) part × IsPrefix part (response_text (decision_response d.decision close))))) }
    ensures faults { MatchResult result (λ _. T.faults link.new ≡ T.faults link.old)
        (λ f. Counts f (T.faults link.old) (T.faults link.new)) }
    ensures unread { (T.left link.new ≡ T.left link.old) × (T.ended link.new ≡ T.ended link.old) }
{
    let alloc = deciding.alloc;
    let decision = match judge(deciding, pass, hooks, request) {
        Ok(decision) => decision,
        Err(_) => return Err(LinkFault::NoMemory),
    };
    let response = match decision_response(alloc, &decision, close) {
        Ok(response) => response,
        Err(_) => return Err(LinkFault::NoMemory),
    };
    match send(alloc, link, &response) {
        Ok(()) => {}
        Err(fault) => return Err(fault),
    }
    deciding.gate.reach(deciding.worker, AFTER_ANSWER);
    match audit(alloc, hooks, deciding.plugin, request, &decision) {
        Ok(()) => return Ok(()),
        Err(_) => return Err(LinkFault::NoMemory),
    }
}
