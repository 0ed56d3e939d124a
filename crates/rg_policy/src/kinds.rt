// The numbers that Ranger gives to policy types and priorities, and the lists of items.
ghost use Rattle.std.specs.Prelude.{◌≡◌, map};
ghost use Rattle.rg_policy.specs.Kinds.{item_lists};

use crate::policy::{Item, Policy};

/// The type of policies that give access.
pub const ACCESS_POLICY: i64 = 0;

/// The type of policies that mask values.
pub const MASK_POLICY: i64 = 1;

/// The type of policies that filter rows.
pub const FILTER_POLICY: i64 = 2;

/// The priority of most policies.
pub const NORMAL: i64 = 0;

/// The priority of policies that go before those of the normal one.
pub const OVERRIDE: i64 = 1;

/// All lists of items of the policy: allow, deny, their exceptions, masks and row filters.
pub fn item_lists(policy: &Policy) -> [&[Item]; 6]
    ensures { map (λ list. list.now) result ≡ item_lists policy.now }
{
    [
        policy.items.as_slice(),
        policy.deny_items.as_slice(),
        policy.allow_exceptions.as_slice(),
        policy.deny_exceptions.as_slice(),
        policy.mask_items.as_slice(),
        policy.filter_items.as_slice(),
    ]
}
