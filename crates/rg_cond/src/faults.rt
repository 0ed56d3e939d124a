// Why a condition doesn't compile, a schedule doesn't read, or a zone's rule doesn't.
use rg_base::NoMemory;
use thiserror::Error;

/// Why a condition doesn't compile. The causes are asked in this order.
#[derive(Clone, Copy, Debug, PartialEq, Eq, Error)]
pub enum CondFault {
    /// The service definition has no condition of this name.
    #[error("the service definition has no such condition")]
    Unknown,
    /// The condition is of no kind, or of a kind that asks for a key of the context and names none.
    #[error("the condition is of no kind that can be evaluated")]
    Unsupported,
    /// There is no value, or the kind takes other values.
    #[error("the condition's values are not of its kind")]
    BadValues,
    /// Memory was refused.
    #[error("memory was refused")]
    NoMemory,
}

/// Why a schedule doesn't read. The causes are asked in this order.
#[derive(Clone, Copy, Debug, PartialEq, Eq, Error)]
pub enum ScheduleFault {
    /// A time that isn't empty is no `yyyy/MM/dd HH:mm:ss` of the calendar.
    #[error("a time is not `yyyy/MM/dd HH:mm:ss`")]
    BadTime,
    /// No time zone has this name.
    #[error("no time zone has this name")]
    UnknownZone,
    /// In its zone a time is no instant up to 9999-12-30T22:00:00Z.
    #[error("a time is out of range in its zone")]
    OutOfRange,
    /// The end is before the start.
    #[error("the end is before the start")]
    EndFirst,
    /// Memory was refused. Reading a schedule takes none, so it is never answered.
    #[error("memory was refused")]
    NoMemory,
}

/// Why a list of time zones is refused.
#[derive(Clone, Copy, Debug, PartialEq, Eq)]
pub enum TimeZoneFault {
    /// The rule of the row at this place is no POSIX rule. It is the first such place.
    BadRule(u32),
    /// Memory was refused.
    NoMemory,
}

impl From<NoMemory> for CondFault {
    ghost use Rattle.std.specs.Prelude.{◌≡◌};
    ghost use Rattle.rg_cond.specs.declared.faults.CondFault.TheVariants as fault;

    ghost from_gives = { λ _ f. f ≡ fault.NoMemory };

    fn from(_: NoMemory) -> CondFault {
        CondFault::NoMemory
    }
}

impl From<NoMemory> for TimeZoneFault {
    ghost use Rattle.std.specs.Prelude.{◌≡◌};
    ghost use Rattle.rg_cond.specs.declared.faults.TimeZoneFault.TheVariants as fault;

    ghost from_gives = { λ _ f. f ≡ fault.NoMemory };

    fn from(_: NoMemory) -> TimeZoneFault {
        TimeZoneFault::NoMemory
    }
}
