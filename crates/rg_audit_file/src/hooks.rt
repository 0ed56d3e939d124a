// What goes with the requests that a worker decides: their audit lines go to one sink, or to none.
ghost use Rattle.std.specs.Prelude.{◌≡◌, ◌≤◌};

use crate::drops::Drops;
use rg_base::NoMemory;
use rg_hook::{AuditSink, RequestHooks};
use rg_policy::AccessRequest;
use std::alloc::Global;
use std::sync::Arc;

/// After so many failures a sink is given no more lines.
const MOST_FAILURES: u32 = 3;

/// The hooks of a worker: a sink, if there is one, and how often it failed. Nothing is added to requests.
#[derive(Drop)]
pub struct SinkHooks<S: AuditSink> {
    sink: Option<S>,
    failures: u32,
    /// Counts the sink once it is given no more lines.
    drops: Option<Arc<Drops>>,
    ghost within: { failures ≤ 3 },
}

impl<S: AuditSink> SinkHooks<S> {
    /// With this sink, which hasn't failed.
    pub fn new(sink: Option<S>) -> SinkHooks<S> {
        SinkHooks {
            sink,
            failures: 0,
            drops: None,
        }
    }

    /// Once the sink is given no more lines, it is counted here.
    pub fn counted_by(self, drops: Arc<Drops>) -> SinkHooks<S>
        ensures { (result.sink ≡ self.sink) × (result.failures ≡ self.failures) }
    {
        let SinkHooks {
            sink,
            failures,
            drops: _,
        } = self;
        SinkHooks {
            sink,
            failures,
            drops: Some(drops),
        }
    }

    /// Counts the sink, where it has failed so often that it is given no more lines.
    fn note(&self) {
        if self.failures < MOST_FAILURES {
            return;
        }
        if let Some(drops) = &self.drops {
            drops.add();
        }
    }
}

impl<S: AuditSink> RequestHooks for SinkHooks<S> {
    ghost use Rattle.std.specs.Prelude.{[]};
    ghost use Rattle.rg_audit_file.specs.Hooks.{sinks_of};

    ghost sinks = { λ h. sinks_of (λ s. S.heard s) (λ s. S.sink_faults s) h.sink h.failures };

    ghost enrichers = { λ h. [] };

    fn enrich(&mut self, alloc: Global, request: &mut AccessRequest) -> Result<(), NoMemory> {
        Ok(())
    }

    fn audit(&mut self, line: &str) {
        if self.failures == MOST_FAILURES {
            return;
        }
        let Some(sink) = &mut self.sink else {
            return;
        };
        if sink.write(line).is_err() {
            self.failures += 1;
            self.note();
        }
    }
}
