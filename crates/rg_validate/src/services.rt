// The rules of services.
ghost use Rattle.std.specs.Prelude.{◌≡◌};
ghost use Rattle.std.specs.List.{list_any};
ghost use Rattle.std.specs.Str.{bytes_eq};
ghost use Rattle.rg_cmd.specs.Lookups.{is_of, is_row_of};
ghost use Rattle.rg_cmd.specs.declared.state.ServiceRow.{ServiceRow};
ghost use Rattle.rg_validate.specs.Definitions.{keeps_definition, names_service, plugin_fits, service_is_unused, service_name_is_new, tag_service_fits};

use crate::existence::service_exists;
use rg_base::{Text, is_empty, is_name, same_text};
use rg_cmd::{ServiceRow, State, has_def, is_tag, is_tag_service};
use rg_policy::Policy;
use rg_shared::Shared;
use rg_tags::TagRow;
use rg_zone_rules::{ZoneRow, lists_service};

/// Whether the name has 1 to 256 characters, and no service has it (rule C2).
pub fn service_name_is_new(state: &State, name: &Text) -> bool
    ensures { result ≡ service_name_is_new state.now name.now }
{
    is_name(name.as_str()) && !service_exists(state, name)
}

/// Whether there is no tag service, or it is one, and the service itself isn't (rule C3).
pub fn tag_service_fits(state: &State, row: &ServiceRow) -> bool
    ensures { result ≡ tag_service_fits state.now row.now }
{
    is_empty(row.tag_service.as_str())
        || (is_tag_service(state, &row.tag_service) && !is_tag(&row.def))
}

/// Whether the service keeps its definition (rule C4).
pub fn keeps_definition(state: &State, row: &ServiceRow) -> bool
    ensures { result ≡ keeps_definition state.now row.now }
{
    has_def(state, &row.def, &row.name)
}

fn some_policy_of(policies: &[Shared<Policy>], service: &Text) -> bool
    ensures { result ≡ list_any (is_of service.now) policies.now }
{
    policies.iter().any(|policy| same_text(policy.service.as_str(), service.as_str()))
}

fn some_row_of(rows: &[TagRow], service: &Text) -> bool
    ensures { result ≡ list_any (is_row_of service.now) rows.now }
{
    rows.iter()
        .any(|row| same_text(row.service.as_str(), service.as_str()))
}

fn names_service(service: &Text, zone: &ZoneRow) -> bool
    ensures { result ≡ names_service service.now zone.now }
{
    lists_service(false, service.as_str(), zone) || lists_service(true, service.as_str(), zone)
}

fn some_zone_names(zones: &[ZoneRow], service: &Text) -> bool
    ensures { result ≡ list_any (names_service service.now) zones.now }
{
    zones.iter().any(|zone| names_service(service, zone))
}

fn some_service_uses(services: &[ServiceRow], name: &Text) -> bool
    ensures { result
        ≡ list_any (λ (row : ServiceRow). bytes_eq row.tag_service name.now) services.now }
{
    services
        .iter()
        .any(|row| same_text(row.tag_service.as_str(), name.as_str()))
}

/// Whether the service isn't the plugin's, no policy, tag row or zone names it, and no service has it as tag service
/// (rule C5).
pub fn service_is_unused(state: &State, name: &Text) -> bool
    ensures { result ≡ service_is_unused state.now name.now }
{
    !same_text(state.plugin.as_str(), name.as_str())
        && (!some_policy_of(state.policies.as_slice(), name)
            && (!some_row_of(state.tag_rows.as_slice(), name)
                && (!some_zone_names(state.zones.as_slice(), name)
                    && !some_service_uses(state.services.as_slice(), name))))
}

/// Whether the plugin's service isn't a tag service (rule C6).
pub fn plugin_fits(state: &State) -> bool
    ensures { result ≡ plugin_fits state.now }
{
    !is_tag_service(state, &state.plugin)
}
