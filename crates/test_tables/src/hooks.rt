// What goes with the requests that a worker decides: here nothing.
use rg_hook::{AuditFan, Enrichers, WorkerHooks};
use std::alloc::Global;

/// No sinks and no enrichers.
pub fn no_hooks(alloc: Global) -> WorkerHooks {
    WorkerHooks {
        sinks: AuditFan::new(Vec::new(alloc)),
        enrichers: Enrichers::new(Vec::new(alloc)),
    }
}
