// Places at which a worker may be held up.
use std::sync::atomic::{AtomicBool, AtomicU32, Ordering};

/// A place that each worker passes at two points of a request: point 1 stands before a decision, point 2 after its answer is
/// written. A worker may wait there, so that the order of several workers can be set.
pub trait Gate: Sync {
    /// The worker of this number has come to this point. It goes on when the call returns.
    fn reach(&self, worker: u32, point: u32);
}

/// Never waits.
#[derive(Clone, Copy, Debug, PartialEq, Eq, Drop)]
pub struct FreeGate;

impl Gate for FreeGate {
    fn reach(&self, _worker: u32, _point: u32) {}
}

/// How often a worker looks for the others before it gives up.
const TURNS: u32 = 1_000_000_000;

/// Holds workers at point 1 until so many of them have come there, each counted once a call. It is for tests: it spins, and a
/// worker that waits in vain gives up after a thousand million turns.
#[derive(Drop)]
pub struct MeetingGate {
    wanted: u32,
    came: AtomicU32,
    gave_up: AtomicBool,
}

impl MeetingGate {
    /// For so many workers.
    pub fn new(wanted: u32) -> MeetingGate {
        MeetingGate {
            wanted,
            came: AtomicU32::new(0),
            gave_up: AtomicBool::new(false),
        }
    }

    /// Whether a worker gave up.
    pub fn gave_up(&self) -> bool {
        self.gave_up.load(Ordering::SeqCst)
    }
}

impl Gate for MeetingGate {
    fn reach(&self, _worker: u32, point: u32) {
        if point != 1 {
            return;
        }
        self.came.fetch_add(1, Ordering::SeqCst);
        for _ in 0..TURNS {
            if self.wanted <= self.came.load(Ordering::SeqCst) {
                return;
            }
        }
        self.gave_up.store(true, Ordering::SeqCst);
    }
}
