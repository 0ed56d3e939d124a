// Why a round led to nothing.
ghost use Rattle.std.specs.Prelude.{◌≡◌};
ghost use Rattle.rg_follow.specs.Faults.{is_short};

use rg_base::NoMemory;
use rg_client::ClientFault;
use rg_json::WireFault;
use rg_remote::AskFault;

/// Why a round led to nothing.
#[derive(Drop)]
pub enum FollowFault {
    /// A question has no answer.
    Ask(AskFault),
    /// A delta doesn't begin at the version that is had, or a part isn't whole where nothing is had. Ask anew, from no version.
    Misfit,
    /// Each of nine downloads found something changed.
    Unsettled,
    NoMemory,
}

impl FollowFault {
    /// Whether memory was refused.
    pub fn is_short(&self) -> bool
        ensures { result ≡ is_short self.now }
    {
        matches!(
            self,
            FollowFault::NoMemory
                | FollowFault::Ask(
                    AskFault::NoMemory
                        | AskFault::Body(WireFault::NoMemory)
                        | AskFault::Client(ClientFault::NoMemory)
                )
        )
    }
}

impl From<NoMemory> for FollowFault {
    ghost use Rattle.rg_follow.specs.declared.fault.FollowFault.TheVariants as fault;

    ghost from_gives = { λ _ f. f ≡ fault.NoMemory };

    fn from(_: NoMemory) -> FollowFault {
        FollowFault::NoMemory
    }
}
