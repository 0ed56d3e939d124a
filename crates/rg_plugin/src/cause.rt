// Why a round failed, as it is told.
ghost use Rattle.std.specs.Prelude.{◌≡◌};
ghost use Rattle.rg_plugin.specs.Causes.{cause_of, is_delta};

use rg_client::ClientFault;
use rg_follow::FollowFault;
use rg_health::Cause;
use rg_json::WireFault;
use rg_remote::AskFault;

/// Why a round failed, as it is told.
pub(crate) fn cause_of(fault: &FollowFault) -> Cause
    ensures { result ≡ cause_of fault.now }
{
    match fault {
        FollowFault::Misfit => Cause::Delta,
        FollowFault::Unsettled => Cause::Restless,
        FollowFault::Ask(AskFault::Status(_)) => Cause::Status,
        FollowFault::Ask(AskFault::Body(WireFault::Bad { .. })) => Cause::Body,
        FollowFault::Ask(
            AskFault::Client(ClientFault::Failed | ClientFault::Ended | ClientFault::Unreadable),
        ) => Cause::Reply,
        FollowFault::NoMemory
        | FollowFault::Ask(
            AskFault::NoMemory
            | AskFault::Body(WireFault::NoMemory)
            | AskFault::Client(ClientFault::NoMemory),
        ) => Cause::Memory,
    }
}

/// Whether the next round is to begin from no version.
pub(crate) fn is_delta(cause: Cause) -> bool
    ensures { result ≡ is_delta cause }
{
    matches!(cause, Cause::Delta)
}
