// What a state holds under a name or an id.
ghost use Rattle.std.specs.Prelude.{◌≡◌, option_map};
ghost use Rattle.std.specs.Str.{chars};
ghost use Rattle.rg_cmd.specs.Lookups.{groups_of, policy_at, zone_at};

use rg_base::{PolicyId, Text, find_named};
use rg_cmd::State;
use rg_policy::Policy;
use rg_shared::Shared;
use rg_zone_rules::ZoneRow;

pub(crate) fn zone_at<'a>(state: &'a State, name: &str) -> Option<&'a ZoneRow>
    ensures { option_map (λ z. z.now) result ≡ zone_at state.now (chars name.now) }
{
    find_named(state.zones.as_slice(), name)
}

/// The groups of the user's row, none without a row.
pub(crate) fn groups_of<'a>(state: &'a State, user: &str) -> &'a [Text]
    ensures { result.now ≡ groups_of state.now (chars user.now) }
{
    match find_named(state.users.as_slice(), user) {
        Some(row) => row.groups.as_slice(),
        None => &[],
    }
}

pub(crate) fn policy_at(state: &State, id: PolicyId) -> Option<&Shared<Policy>>
    ensures { option_map (λ p. p.now) result ≡ policy_at state.now id.0 }
{
    state
        .policies
        .as_slice()
        .iter()
        .find(|policy| policy.id.0 == id.0)
}
