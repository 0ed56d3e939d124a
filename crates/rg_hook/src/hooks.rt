// What an installation hands in.
use crate::enrichers::Enrichers;
use crate::fan::AuditFan;

/// The sinks and enrichers of one worker.
#[derive(Drop)]
pub struct WorkerHooks {
    pub sinks: AuditFan,
    pub enrichers: Enrichers,
}

/// The hooks of each worker. There are as many workers as hooks, 1 to 64.
#[derive(Drop)]
pub struct Hooks {
    pub workers: Vec<WorkerHooks>,
}
