// Facts kept in a cache, and had again.
ghost use Rattle.std.specs.Prelude.{◌≡◌, ◌≤◌, ◌<◌, ◌⊎◌, IfOk, IfErr, IfSome, IsErrOf, OnOk, OnErr, Ok, true};
ghost use Rattle.rg_facts.specs.Sound.{sound};
ghost use Rattle.rg_download_wire.specs.InOrder.{AreFacts};
ghost use Rattle.rg_cache.specs.Kept.{kept_in, kept_text};
ghost use Rattle.rg_cache.specs.Places.{Holds};
ghost use Rattle.rg_cache.specs.Recalling.{IsRecalled, IsUnread};

use crate::cache::Cache;
use crate::fault::{CacheFault, KeptFault, LoadFault};
use crate::kept::{print_kept, read_kept};
use rg_base::{Failed, NoMemory};
use rg_facts::Facts;
use std::alloc::Global;

/// Keeps these facts in place of those that are kept. Facts in key order that break no rule are had again as themselves. After a
/// fault the old ones are kept, or these.
pub fn keep<K: Cache>(alloc: Global, cache: &mut K, facts: &Facts) -> Result<(), CacheFault>
    ensures kept { OnOk result (Holds (K.held cache.old) (K.held cache.new) (kept_text facts.now)) }
    ensures again { OnOk result (AreFacts facts.now
        → sound facts.now ≡ true → kept_in (kept_text facts.now) ≡ Ok facts.now) }
    ensures fault { OnErr result ((K.held cache.new ≡ K.held cache.old)
        ⊎ Holds (K.held cache.old) (K.held cache.new) (kept_text facts.now)) }
    ensures counted { K.faults cache.old ≤ K.faults cache.new }
    ensures failed { IsErrOf result CacheFault.Failed → K.faults cache.old < K.faults cache.new }
{
    let Ok(text) = print_kept(alloc, facts) else {
        return Err(CacheFault::NoMemory);
    };
    match cache.store(text.as_bytes()) {
        Ok(()) => Ok(()),
        Err(Failed) => Err(CacheFault::Failed),
    }
}

/// The facts that are kept; None where nothing was stored yet.
pub fn recall<K: Cache>(alloc: Global, cache: &mut K) -> Result<Option<Facts>, CacheFault>
    ensures recalled { IfOk result (λ facts. IsRecalled (K.held cache.old) facts) }
    ensures sound { IfOk result (λ facts. IfSome facts (λ f. sound f ≡ true)) }
    ensures unread { IfErr result (λ f. IsUnread (K.held cache.old) f) }
    ensures same { K.held cache.new ≡ K.held cache.old }
    ensures counted { K.faults cache.old ≤ K.faults cache.new }
    ensures failed { IsErrOf result CacheFault.Failed → K.faults cache.old < K.faults cache.new }
{
    let bytes = match cache.load(alloc) {
        Ok(None) => return Ok(None),
        Ok(Some(bytes)) => bytes,
        Err(LoadFault::Failed) => return Err(CacheFault::Failed),
        Err(LoadFault::NoMemory) => return Err(CacheFault::NoMemory),
    };
    match read_kept(alloc, bytes.as_slice()) {
        Ok(facts) => Ok(Some(facts)),
        Err(KeptFault::NoMemory) => Err(CacheFault::NoMemory),
        Err(fault) => Err(CacheFault::Kept(fault)),
    }
}
