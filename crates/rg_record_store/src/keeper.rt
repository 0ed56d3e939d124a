// Where records are kept, as the program sees it.
ghost use Rattle.std.specs.Prelude.{◌≡◌, ◌≤◌, ◌<◌, ℕ, List, Option, Some, IfOk, IsErrOf, OnErr, OnOk};
ghost use Rattle.rg_base.specs.Listed.{Listed};
ghost use Rattle.rg_record_store.specs.Keeping.{Gets, IsAt, MayGet, Nothing, Passes, WithOrWithout};

use rg_base::{NoMemory, Seq};
use std::alloc::Global;

/// Why a record isn't kept, or isn't handed out.
#[derive(Clone, Copy, Debug, PartialEq, Eq)]
pub enum KeeperFault {
    Failed,
    NoMemory,
}

impl From<NoMemory> for KeeperFault {
    ghost use Rattle.rg_record_store.specs.declared.keeper.KeeperFault.TheVariants.{NoMemory};

    ghost from_gives = { λ refused fault. fault ≡ NoMemory };

    fn from(_refused: NoMemory) -> KeeperFault {
        KeeperFault::NoMemory
    }
}

/// A list of records that outlives the program, each the bytes of one record. Between calls a crash leaves just the list.
/// The count of its faults rises where a call fails, and never falls.
pub trait Keeper {
    /// The records in order, where the object tells them.
    ghost kept: { Self → Option (List (List ℕ)) };

    /// The moment, as a number that doesn't fall.
    ghost moment: { Self → ℕ };

    /// The lists that a crash at some moment from that one on might have left, during a call or between two.
    ghost left_since: { Self → ℕ → List (List ℕ) → Type 0 };

    /// How many calls failed.
    ghost faults: { Self → ℕ };

    /// Keeps the record behind the others. At each moment of the call a crash leaves the list as it was, or with the record.
    /// After a fault the list is one of the two.
    fn append(&mut self, alloc: Global, entry: &[u8]) -> Result<(), KeeperFault>
        ensures stored { OnOk result (Gets (kept self.old) entry.now (kept self.new)) }
        ensures refused { OnErr result (MayGet (kept self.old) entry.now (kept self.new)) }
        ensures moments { Passes (moment self.old) (moment self.new)
            (left_since self.old) (left_since self.new) (WithOrWithout (kept self.old) entry.now) }
        ensures counted { faults self.old ≤ faults self.new }
        ensures failed { IsErrOf result KeeperFault.Failed → faults self.old < faults self.new };

    /// The record at the place, counted from 0; None exactly where the place is past the list.
    fn fetch(&mut self, alloc: Global, place: u64) -> Result<Option<Seq<u8>>, KeeperFault>
        ensures found { IfOk result (λ found. IsAt (kept self.old) place found) }
        ensures same { kept self.new ≡ kept self.old }
        ensures moments { Passes (moment self.old)
            (moment self.new) (left_since self.old) (left_since self.new) Nothing }
        ensures counted { faults self.old ≤ faults self.new }
        ensures failed { IsErrOf result KeeperFault.Failed → faults self.old < faults self.new };

    /// A crash at this moment is one since any earlier one, and leaves the list.
    ghost counts_now: { (keeper : Self) (t : ℕ) (records : List (List ℕ))
        → t ≤ moment keeper → kept keeper ≡ Some records → left_since keeper t records };

    /// A crash since this moment leaves nothing but the list.
    ghost only_now: { (keeper : Self) (records left : List (List ℕ))
        → kept keeper ≡ Some records → left_since keeper (moment keeper) left → left ≡ records };
}
