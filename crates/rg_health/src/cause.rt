// Why a plugin's last round failed.
ghost use Rattle.std.specs.Prelude.{◌≡◌};
ghost use Rattle.rg_health.specs.Health.{word_of};

/// Why a plugin's last round failed.
#[derive(Clone, Copy, Debug, PartialEq, Eq)]
pub enum Cause {
    /// Nobody answers at the administration's address.
    Connection,
    /// A question has no reply that reads.
    Reply,
    /// A reply has another status than 200 and 304.
    Status,
    /// A reply's body isn't what was asked for.
    Body,
    /// A delta doesn't begin at the version that is had. The next round begins anew.
    Delta,
    /// Each download of the round found something changed.
    Restless,
    /// What was downloaded breaks a rule that holds of all facts.
    Unsound,
    /// Memory was refused.
    Memory,
    /// What was published couldn't be kept for a restart.
    Cache,
}

/// The cause as it is printed.
#[tactic(auto, unfolding(crate::specs::Health::word_of))]
pub(crate) fn word_of(cause: Cause) -> &'static str
    ensures { result.now ≡ word_of cause }
{
    match cause {
        Cause::Connection => "connection",
        Cause::Reply => "reply",
        Cause::Status => "status",
        Cause::Body => "body",
        Cause::Delta => "delta",
        Cause::Restless => "restless",
        Cause::Unsound => "unsound",
        Cause::Memory => "memory",
        Cause::Cache => "cache",
    }
}
