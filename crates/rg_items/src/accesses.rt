// Which access entries grant what is asked.
ghost use Rattle.std.specs.Prelude.{◌≡◌, None};
ghost use Rattle.std.specs.List.{list_any};
ghost use Rattle.std.specs.Str.{chars};
ghost use Rattle.rg_items.specs.Accesses.{any_grants, entry_grants};

use rg_defs::{ServiceDef, grants};
use rg_policy::AccessEntry;

/// Whether an entry that is allowed grants the asked access.
pub fn any_grants(def: &ServiceDef, asked: &str, entries: &[AccessEntry]) -> bool
    ensures { result ≡ any_grants def.now (chars asked.now) entries.now }
{
    entries.iter().any(|entry| entry.allowed && grants(def, entry.access.as_str(), asked))
}
