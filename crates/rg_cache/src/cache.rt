// A place that holds bytes over restarts.
ghost use Rattle.std.specs.Prelude.{◌≡◌, ◌≤◌, ◌<◌, ◌⊎◌, List, ℕ, IfOk, IsErrOf, OnOk, OnErr, option_map};
ghost use Rattle.rg_cache.specs.Places.{Held, Holds, IsHeld};

use crate::fault::LoadFault;
use rg_base::{Failed, Seq};
use std::alloc::Global;

/// A place that holds bytes over restarts: nothing at first, and then what was stored last.
pub trait Cache {
    /// What it holds, where the object tells it.
    ghost held: { Self → Held };

    /// How many calls failed by the place's own fault.
    ghost faults: { Self → ℕ };

    /// The bytes that it holds; None where nothing was stored yet.
    fn load(&mut self, alloc: Global) -> Result<Option<Seq<u8>>, LoadFault>
        ensures loaded { IfOk result
            (λ bytes. IsHeld (held self.old) (option_map (λ b. b.items) bytes)) }
        ensures same { held self.new ≡ held self.old }
        ensures counted { faults self.old ≤ faults self.new }
        ensures failed { IsErrOf result LoadFault.Failed → faults self.old < faults self.new };

    /// Holds these bytes in place of those that it held. After `Failed` it holds the old ones or these, and no mixture.
    fn store(&mut self, bytes: &[u8]) -> Result<(), Failed>
        ensures stored { OnOk result (Holds (held self.old) (held self.new) bytes.now) }
        ensures refused { OnErr result ((held self.new ≡ held self.old)
            ⊎ Holds (held self.old) (held self.new) bytes.now) }
        ensures counted { faults self.old ≤ faults self.new }
        ensures failed { OnErr result (faults self.old < faults self.new) };
}
