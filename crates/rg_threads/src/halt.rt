// That a service takes no more changes.
use std::sync::atomic::{AtomicU32, Ordering};

/// Why no more changes are taken.
#[derive(Clone, Copy, Debug, PartialEq, Eq)]
pub enum HaltCause {
    /// What keeps them has failed.
    Failed,
    /// As many are kept as may be.
    Full,
}

impl HaltCause {
    const fn number(self) -> u32 {
        match self {
            HaltCause::Failed => 1,
            HaltCause::Full => 2,
        }
    }
}

/// Set by what keeps the changes of a service, and seen by those who serve it. Nothing is proved of when it is set: it says why a
/// session broke off.
#[derive(Drop)]
pub struct Halt {
    // A cause's number, or 0.
    cause: AtomicU32,
}

impl Halt {
    /// Changes are taken.
    pub fn new() -> Halt {
        Halt {
            cause: AtomicU32::new(0),
        }
    }

    /// No more changes are taken. The first cause stays.
    pub fn set(&self, cause: HaltCause) {
        if self.cause().is_none() {
            self.cause.store(cause.number(), Ordering::SeqCst);
        }
    }

    /// Why; None while they are taken.
    pub fn cause(&self) -> Option<HaltCause> {
        match self.cause.load(Ordering::SeqCst) {
            0 => None,
            1 => Some(HaltCause::Failed),
            _ => Some(HaltCause::Full),
        }
    }
}
