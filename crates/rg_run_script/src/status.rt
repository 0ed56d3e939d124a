// How a run ended.
ghost use Rattle.std.specs.Prelude.{◌≡◌};
ghost use Rattle.rg_run_script.specs.Statuses.{number_of};

/// How a run ended.
#[derive(Clone, Copy, Debug, PartialEq, Eq)]
pub enum Status {
    /// All was read and answered.
    Done,
    /// The words ask for no command.
    Usage,
    /// A line is no line of a script, or stands out of place.
    BadLine,
    /// The source failed.
    ReadFault,
    /// The sink failed.
    WriteFault,
    /// The listener failed.
    NetFault,
    /// The source gave more bytes than a script may have.
    TooLong,
    /// The keeper failed.
    KeepFault,
    NoMemory,
    /// One of the records that were kept can't be taken again.
    BadRecord,
}

impl Status {
    /// The program's exit status.
    pub fn number(self) -> u8
        ensures { result ≡ number_of self }
    {
        match self {
            Status::Done => 0,
            Status::Usage => 1,
            Status::BadLine => 2,
            Status::ReadFault => 3,
            Status::WriteFault => 4,
            Status::NetFault => 5,
            Status::TooLong => 6,
            Status::KeepFault => 8,
            Status::NoMemory => 9,
            Status::BadRecord => 10,
        }
    }
}
