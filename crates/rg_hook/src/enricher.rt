// What adds to a request before it is judged.
ghost use Rattle.std.specs.Prelude.{◌≡◌, ℕ, List, IfOk, OnErr};
ghost use Rattle.rg_policy.specs.declared.request.AccessRequest.{AccessRequest};
ghost use Rattle.rg_hook.specs.Enriching.{Enriched};

use rg_base::NoMemory;
use rg_policy::{AccessRequest, Pair};
use std::alloc::Global;

/// Adds a pair to the context of each request, or none (Ranger's RangerContextEnricher). It may remember numbers from one
/// request to the next.
pub trait Enricher: Drop {
    /// The numbers that it remembers.
    ghost remembered: { Self → List ℕ };

    /// What it makes of a request while it remembers these numbers: what it remembers then, and its pair. No call changes this.
    ghost meaning: { Self → List ℕ → AccessRequest → Enriched };

    /// The pair for the request, None where there is none. `NoMemory` leaves what it remembers.
    fn enrich(&mut self, alloc: Global, request: &AccessRequest) -> Result<Option<Pair>, NoMemory>
        ensures meaning { meaning self.new ≡ meaning self.old }
        ensures given { IfOk result (λ pair. meaning self.old (remembered self.old) request.now
            ≡ record { remembered = remembered self.new; pair = pair }) }
        ensures err { OnErr result (remembered self.new ≡ remembered self.old) };
}
