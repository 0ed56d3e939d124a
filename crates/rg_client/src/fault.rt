// Why there is no reply.
use rg_base::NoMemory;
use rg_http::FrameFault;
use thiserror::Error;

/// Why a question has no reply. After any of these the link is of no more use.
#[derive(Clone, Copy, Debug, PartialEq, Eq, Error)]
pub enum ClientFault {
    #[error("the link failed")]
    Failed,
    /// Before a whole reply came.
    #[error("the link ended before its reply")]
    Ended,
    /// What came is no reply, or one that isn't read: its head has over 16,384 bytes or 64 fields, it isn't final, comes in a coding, or
    /// has no one `Content-Length` of at most 256 MiB.
    #[error("the reply isn't one that is read")]
    Unreadable,
    #[error("memory was refused")]
    NoMemory,
}

impl From<FrameFault> for ClientFault {
    ghost use Rattle.rg_client.specs.Places.{IsFault};

    ghost from_gives = { λ frame f. IsFault frame f };

    fn from(fault: FrameFault) -> ClientFault {
        match fault {
            FrameFault::Failed => ClientFault::Failed,
            FrameFault::NoMemory => ClientFault::NoMemory,
        }
    }
}

impl From<NoMemory> for ClientFault {
    ghost use Rattle.std.specs.Prelude.{◌≡◌};
    ghost use Rattle.rg_client.specs.declared.fault.ClientFault.TheVariants as fault;

    ghost from_gives = { λ _ f. f ≡ fault.NoMemory };

    fn from(_: NoMemory) -> ClientFault {
        ClientFault::NoMemory
    }
}
