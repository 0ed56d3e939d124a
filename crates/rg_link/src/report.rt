// How a session ends.
use rg_http::{End, FrameFault};
use thiserror::Error;

/// What a session did.
#[derive(Clone, Copy, Debug, PartialEq, Eq)]
pub struct Report {
    pub end: End,
    /// How many messages were answered. A bad place is none.
    pub messages: u32,
}

/// Why a session broke off.
#[derive(Clone, Copy, Debug, PartialEq, Eq, Error)]
pub enum LinkFault {
    #[error("the link failed")]
    Failed,
    #[error("memory was refused")]
    NoMemory,
}

impl From<FrameFault> for LinkFault {
    ghost use Rattle.rg_link.specs.Sessions.{IsFault};

    ghost from_gives = { λ frame f. IsFault frame f };

    fn from(fault: FrameFault) -> LinkFault {
        match fault {
            FrameFault::Failed => LinkFault::Failed,
            FrameFault::NoMemory => LinkFault::NoMemory,
        }
    }
}
