// The resource maps of a policy.
ghost use Rattle.std.specs.Prelude.{◌≡◌, IfOk};
ghost use Rattle.rg_policy.specs.Maps.{maps_of};

use crate::policy::{Policy, ResourceMap};
use rg_base::{NoMemory, Seq, TryCopy};
use std::alloc::Global;

/// Copies of the policy's resource maps: its resources, then the additional maps.
pub fn maps_of(alloc: Global, policy: &Policy) -> Result<Seq<ResourceMap>, NoMemory>
    ensures { IfOk result (λ maps. maps.items ≡ maps_of policy.now) }
{
    let mut maps = Seq::new(alloc);
    let levels = policy.resources.try_copy(alloc)?;
    maps.add(ResourceMap { levels })?;
    for map in policy.additional.as_slice() {
        maps.add(map.try_copy(alloc)?)?;
    }
    Ok(maps)
}
