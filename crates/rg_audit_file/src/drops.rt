// How many sinks are given no more lines.
use std::sync::atomic::{AtomicU64, Ordering};

/// How many sinks of a service failed so often that they are given no more lines, as its workers count them. Nothing is proved of the
/// count: threads add to it at once.
#[derive(Drop)]
pub struct Drops {
    count: AtomicU64,
}

impl Drops {
    /// None did.
    pub fn new() -> Drops {
        Drops {
            count: AtomicU64::new(0),
        }
    }

    /// One more did.
    pub fn add(&self) {
        self.count.fetch_add(1, Ordering::Relaxed);
    }

    /// How many.
    pub fn count(&self) -> u64 {
        self.count.load(Ordering::Relaxed)
    }
}
