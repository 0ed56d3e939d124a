// What a service tells of itself: how it stands, and what it has done, to be read by a machine.
#![tactic(auto)]

mod counted;
mod epoch;
mod family;
mod metrics;
mod page;
mod standing;
mod tallies;
mod watched;

pub use counted::{CountedLink, CountedNet};
pub use epoch::Epoch;
pub use family::{Family, Kind, Sample, print_families};
pub use metrics::Metrics;
pub use page::{serve_page, serve_pages};
pub use standing::{Standing, print_standing};
pub use watched::{Inside, Newest, Watched};
