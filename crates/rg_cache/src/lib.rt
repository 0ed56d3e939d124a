// What a plugin keeps of its last publication, so that it decides after a restart too.
#![tactic(auto)]

mod cache;
mod fault;
mod file;
mod keeping;
mod kept;
mod memory;

pub use cache::Cache;
pub use fault::{CacheFault, KeptFault, LoadFault};
pub use file::FileCache;
pub use keeping::{keep, recall};
pub use kept::{print_kept, read_kept};
pub use memory::MemCache;
