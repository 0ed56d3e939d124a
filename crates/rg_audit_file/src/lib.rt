// Audit lines in a file that several workers append to, and the hooks of a worker that does.
#![tactic(auto)]

mod drops;
mod file;
mod hooks;

pub use drops::Drops;
pub use file::AuditFile;
pub use hooks::SinkHooks;
