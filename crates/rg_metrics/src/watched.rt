// What is seen of a service from outside, beside what its threads count.
use rg_base::{Serial, Version};

/// The newest publication of a service, by which it decides.
#[derive(Clone, Copy, Debug, PartialEq, Eq)]
pub struct Newest {
    pub serial: Serial,
    pub policy_version: Version,
    pub role_version: Version,
    pub tag_version: Version,
}

/// What is seen of a service.
#[derive(Clone, Copy, Debug, PartialEq, Eq)]
pub struct Inside {
    /// How many sinks of audit lines failed so often that they are given no more.
    pub dropped_sinks: u64,
    /// The number of its epoch; None before it has begun.
    pub epoch: Option<u64>,
    /// None before it has begun.
    pub newest: Option<Newest>,
}

/// A service that is looked at while it works.
pub trait Watched {
    /// What is seen of it. It waits for nobody.
    fn look(&self) -> Inside;
}
