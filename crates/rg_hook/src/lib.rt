// Where audit lines go, and what is added to requests before they are judged.
#![tactic(auto)]

mod enricher;
mod enrichers;
mod fan;
mod hooks;
mod mem_audit;
mod request_hooks;
mod sink;
mod tables;
mod writer_sink;

pub use enricher::Enricher;
pub use enrichers::Enrichers;
pub use fan::AuditFan;
pub use hooks::{Hooks, WorkerHooks};
pub use mem_audit::MemAudit;
pub use request_hooks::RequestHooks;
pub use sink::AuditSink;
pub use tables::{FixedPair, PairRow, SubjectPairs};
pub use writer_sink::WriterSink;
