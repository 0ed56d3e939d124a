// Why deltas aren't applied.
use rg_base::{NoMemory, Version};
use rg_cmd::Part;

/// Why an engine doesn't take the deltas of a download.
#[derive(Clone, Copy, Debug, PartialEq, Eq)]
pub enum ApplyFault {
    /// The engine has another version of this part than the one from which the delta leads.
    WrongBase {
        part: Part,
        have: Version,
        from: Version,
    },
    /// Memory was refused.
    NoMemory,
}

impl From<NoMemory> for ApplyFault {
    ghost use Rattle.std.specs.Prelude.{◌≡◌};
    ghost use Rattle.rg_engine.specs.declared.fault.ApplyFault.TheVariants.{NoMemory as Refused};

    ghost from_gives = { λ n f. f ≡ Refused };

    fn from(_refused: NoMemory) -> ApplyFault {
        ApplyFault::NoMemory
    }
}
