// What goes with the requests that a worker decides.
ghost use Rattle.std.specs.Prelude.{◌≡◌, ℕ, List, OnErr, OnOk};
ghost use Rattle.std.specs.List.{AllZip};
ghost use Rattle.std.specs.Str.{chars};
ghost use Rattle.rg_hook.specs.Enriching.{EnricherState, HaveRun, enriched, unreserved};
ghost use Rattle.rg_hook.specs.Told.{IsGiven, SinkState};

use crate::enricher::Enricher;
use crate::hooks::WorkerHooks;
use crate::sink::AuditSink;
use rg_base::NoMemory;
use rg_policy::AccessRequest;
use std::alloc::Global;

/// What enriches a worker's requests before they are decided, and audits its decisions. Whoever decides is generic under this
/// trait: a boxed object can't be lent from crate to crate by a type that names it.
pub trait RequestHooks: Drop {
    /// What the sinks tell, each with its number of failures.
    ghost sinks: { Self → List (SinkState × ℕ) };

    /// The states of the enrichers, in their order.
    ghost enrichers: { Self → List EnricherState };

    /// Adds the enrichers' pairs to the context of the request, in their order. Want of memory leaves the request as before,
    /// but for a reserved place, and the enrichers that ran in their new state.
    fn enrich(&mut self, alloc: Global, request: &mut AccessRequest) -> Result<(), NoMemory>
        ensures ok { OnOk result (enriched (enrichers self.old) request.old
            ≡ record { enrichers = enrichers self.new; request = request.new }) }
        ensures ran { OnErr result (HaveRun (enrichers self.old) request.old (enrichers self.new)) }
        ensures unchanged { OnErr result (request.new ≡ unreserved request.old) }
        ensures unheard { sinks self.new ≡ sinks self.old };

    /// Gives the line, which has no line end, to each sink that isn't dropped.
    fn audit(&mut self, line: &str)
        ensures given { AllZip (IsGiven (chars line.now)) (sinks self.old) (sinks self.new) }
        ensures kept { enrichers self.new ≡ enrichers self.old };
}

impl RequestHooks for WorkerHooks {
    ghost use Rattle.rg_hook.specs.Shown.{states_of};
    ghost use Rattle.rg_hook.specs.Told.{told_of};

    ghost sinks = { λ h. told_of (λ s. (AuditSink-box s).heard s.value)
        (λ s. (AuditSink-box s).sink_faults s.value) h.sinks };

    ghost enrichers = { λ h. states_of (λ e. (Enricher-box e).meaning e.value)
        (λ e. (Enricher-box e).remembered e.value) h.enrichers };

    fn enrich(&mut self, alloc: Global, request: &mut AccessRequest) -> Result<(), NoMemory> {
        self.enrichers.run(alloc, request)
    }

    fn audit(&mut self, line: &str) {
        self.sinks.write(line);
    }
}
