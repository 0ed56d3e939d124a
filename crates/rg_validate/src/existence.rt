// What a command names has to be there.
ghost use Rattle.std.specs.Prelude.{◌≡◌};
ghost use Rattle.std.specs.List.{list_any};
ghost use Rattle.rg_cmd.specs.Lookups.{has_id, has_row_id, is_def, is_role, is_service, is_user, is_zone};
ghost use Rattle.rg_validate.specs.Valid.{IsValid};

use crate::lookups::policy_at;
use rg_base::{PolicyId, Text, is_named};
use rg_cmd::State;
use rg_tags::TagRow;

/// Whether there is a service of this name (rule E1).
pub fn service_exists(state: &State, name: &Text) -> bool
    ensures { result ≡ list_any (is_service name.now) state.now.services.items }
{
    is_named(state.services.as_slice(), name.as_str())
}

/// Whether there is a policy of this id (rule E2).
pub fn policy_exists(state: &State, id: PolicyId) -> bool
    requires { IsValid state.now }
    ensures { result ≡ list_any (has_id id.0) state.now.policies.items }
{
    policy_at(state, id).is_some()
}

/// Whether there is a definition of this name (rule E3).
pub fn definition_exists(state: &State, name: &Text) -> bool
    ensures { result ≡ list_any (is_def name.now) state.now.defs.items }
{
    is_named(state.defs.as_slice(), name.as_str())
}

/// Whether there is a role of this name (rule E4).
pub fn role_exists(state: &State, name: &Text) -> bool
    ensures { result ≡ list_any (is_role name.now) state.now.roles.items }
{
    is_named(state.roles.as_slice(), name.as_str())
}

/// Whether there is a zone of this name (rule E5).
pub fn zone_exists(state: &State, name: &Text) -> bool
    ensures { result ≡ list_any (is_zone name.now) state.now.zones.items }
{
    is_named(state.zones.as_slice(), name.as_str())
}

pub(crate) fn has_row_id(row: &TagRow, id: i64) -> bool
    ensures { result ≡ has_row_id id row.now }
{
    row.id == id
}

/// Whether there is a tag row of this id (rule E6).
pub fn tag_row_exists(state: &State, id: i64) -> bool
    ensures { result ≡ list_any (has_row_id id) state.now.tag_rows.items }
{
    let rows = state.tag_rows.as_slice();
    rows.iter().any(|row| has_row_id(row, id))
}

/// Whether there is a user of this name (rule E7).
pub fn user_exists(state: &State, name: &Text) -> bool
    ensures { result ≡ list_any (is_user name.now) state.now.users.items }
{
    is_named(state.users.as_slice(), name.as_str())
}
