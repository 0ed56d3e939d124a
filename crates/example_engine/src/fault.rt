// What can go wrong.
use rg_base::NoMemory;
use rg_engine::ApplyFault;
use rg_wire::WireFault;
use std::alloc::AllocError;
use thiserror::Error;

/// Why there is no engine, or nothing to ask it.
#[derive(Debug, Drop, Error)]
pub(crate) enum Fault {
    #[error("memory was refused")]
    NoMemory,
    #[error("a text doesn't read as its record")]
    Unread,
    #[error("the facts break a rule")]
    Unsound,
    #[error("the delta leads from another version")]
    WrongBase,
}

impl From<NoMemory> for Fault {
    fn from(_refused: NoMemory) -> Fault {
        Fault::NoMemory
    }
}

impl From<AllocError> for Fault {
    fn from(_refused: AllocError) -> Fault {
        Fault::NoMemory
    }
}

impl From<WireFault> for Fault {
    fn from(fault: WireFault) -> Fault {
        match fault {
            WireFault::Bad { path: _, kind: _ } => Fault::Unread,
            WireFault::NoMemory => Fault::NoMemory,
        }
    }
}

impl From<ApplyFault> for Fault {
    fn from(fault: ApplyFault) -> Fault {
        match fault {
            ApplyFault::WrongBase {
                part: _,
                have: _,
                from: _,
            } => Fault::WrongBase,
            ApplyFault::NoMemory => Fault::NoMemory,
        }
    }
}
