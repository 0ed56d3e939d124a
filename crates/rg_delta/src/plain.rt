// Facts after the deltas of a download.
ghost use Rattle.std.specs.Prelude.{◌≡◌, IfOk};
ghost use Rattle.rg_delta.specs.Applied.{applied};

use crate::sides::{change_policies, change_rows, change_tag_policies, replace_list};
use rg_base::NoMemory;
use rg_cmd::{PolicyDelta, RoleDelta, TagDelta};
use rg_facts::Facts;
use std::alloc::Global;

/// The facts after the three deltas: the changes are applied in order, zones and roles are replaced where the deltas have
/// them, and the versions are those at which the deltas end. The work grows with the logarithm of the number of policies,
/// tag rows and changes, and for the rest as they do together. Where memory is refused the facts are gone.
pub fn apply_plain(
    alloc: Global,
    facts: Facts,
    policies: &PolicyDelta,
    tags: &TagDelta,
    roles: &RoleDelta,
) -> Result<Facts, NoMemory>
    ensures { IfOk result (λ after. after ≡ applied facts policies.now tags.now roles.now) }
{
    let mut after = facts;
    let changes = policies.changes.as_slice();
    change_policies(alloc, &mut after.policies, changes)?;
    change_tag_policies(alloc, &mut after.tag_policies, changes)?;
    change_rows(alloc, &mut after.tag_rows, tags.changes.as_slice())?;
    replace_list(alloc, &mut after.zones, &policies.zones)?;
    replace_list(alloc, &mut after.roles, &roles.roles)?;
    after.policy_version = policies.to;
    after.tag_version = tags.to;
    after.role_version = roles.to;
    Ok(after)
}
