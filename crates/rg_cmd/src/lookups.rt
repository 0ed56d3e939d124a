// What a state holds under a name.
ghost use Rattle.std.specs.Prelude.{◌≡◌, option_map};
ghost use Rattle.std.specs.Str.{bytes_eq};
ghost use Rattle.rg_defs.specs.Rules.{tag_name};
ghost use Rattle.rg_cmd.specs.Lookups.{def_at, def_of, has_def, is_tag_service, service_at};

use crate::state::{ServiceRow, State};
use rg_base::{Text, find_named, same_text};
use rg_defs::{ServiceDef, tag_name};

/// Whether the name is that of tag definitions.
pub fn is_tag(name: &Text) -> bool
    ensures { result ≡ bytes_eq name.now tag_name }
{
    same_text(name.as_str(), tag_name())
}

/// The service of this name.
pub fn service_at<'a>(state: &'a State, name: &Text) -> Option<&'a ServiceRow>
    ensures { option_map (λ r. r.now) result ≡ service_at state.now name.now }
{
    find_named(state.services.as_slice(), name.as_str())
}

/// The definition of this name.
pub fn def_at<'a>(state: &'a State, name: &Text) -> Option<&'a ServiceDef>
    ensures { option_map (λ d. d.now) result ≡ def_at state.now name.now }
{
    find_named(state.defs.as_slice(), name.as_str())
}

/// The definition of the service of this name.
pub fn def_of<'a>(state: &'a State, service: &Text) -> Option<&'a ServiceDef>
    ensures { option_map (λ d. d.now) result ≡ def_of state.now service.now }
{
    match service_at(state, service) {
        Some(row) => def_at(state, &row.def),
        None => None,
    }
}

/// Whether there is a service of this name with this definition.
pub fn has_def(state: &State, def: &Text, service: &Text) -> bool
    ensures { result ≡ has_def def.now (service_at state.now service.now) }
{
    match service_at(state, service) {
        Some(row) => same_text(row.def.as_str(), def.as_str()),
        None => false,
    }
}

/// Whether there is a service of this name, and its definition is named `tag`.
pub fn is_tag_service(state: &State, service: &Text) -> bool
    ensures { result ≡ is_tag_service state.now service.now }
{
    match service_at(state, service) {
        Some(row) => is_tag(&row.def),
        None => false,
    }
}
