// Why a question has no answer.
use rg_base::NoMemory;
use rg_client::ClientFault;
use rg_json::WireFault;

/// Why a question has no answer.
#[derive(Drop)]
pub enum AskFault {
    /// There is no reply.
    Client(ClientFault),
    /// The reply has another status than 200 and 304.
    Status(u16),
    /// The body of the reply isn't the part that was asked for: its first fault.
    Body(WireFault),
    NoMemory,
}

impl From<NoMemory> for AskFault {
    ghost use Rattle.std.specs.Prelude.{◌≡◌};
    ghost use Rattle.rg_remote.specs.declared.fault.AskFault.TheVariants as fault;

    ghost from_gives = { λ _ f. f ≡ fault.NoMemory };

    fn from(_: NoMemory) -> AskFault {
        AskFault::NoMemory
    }
}
