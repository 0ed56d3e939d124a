// Links served by threads: from a configuration to the totals.
#![tactic(auto)]

mod crew;
mod ending;
mod following;
mod given;
mod laws;
mod naming;
mod opened;
mod places;
mod serving;
mod sessions;

pub use ending::Served;
pub use laws::ends_are_runs;
pub use opened::Opened;
pub use serving::{Outside, ServeFault, serve};
