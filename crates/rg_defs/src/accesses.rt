// What an access type grants.
ghost use Rattle.std.specs.Prelude.{◌≡◌, None, IfOk, option_map};
ghost use Rattle.std.specs.Str.{chars};
ghost use Rattle.rg_base.specs.Listed.{listed};
ghost use Rattle.rg_defs.specs.Grants.{access_type_of, expand, grants, implied_by};

use crate::service_def::{AccessType, ServiceDef};
use rg_base::{NoMemory, Seq, Text, TryCopy, find_named, is_among, same_text};
use std::alloc::Global;

/// The definition's access type of this name, None where it has none.
pub fn access_type_of<'a>(def: &'a ServiceDef, name: &str) -> Option<&'a AccessType>
    ensures { option_map (λ t. t.now) result ≡ access_type_of def.now (chars name.now) }
{
    find_named(def.access_types.as_slice(), name)
}

/// What the access type of this name lists as implied.
fn implied_by<'a>(def: &'a ServiceDef, name: &str) -> &'a [Text]
    ensures { result.now ≡ implied_by def.now (chars name.now) }
{
    match access_type_of(def, name) {
        Some(kind) => kind.implied.as_slice(),
        None => &[],
    }
}

/// The access, then its implied grants as they are listed; the access alone where the definition has no such type.
pub fn expand(alloc: Global, def: &ServiceDef, access: &str) -> Result<Seq<Text>, NoMemory>
    ensures { IfOk result (λ list. list ≡ listed (expand def.now (chars access.now))) }
{
    let mut list = Seq::new(alloc);
    list.add(Text::copy_of(alloc, access)?)?;
    for grant in implied_by(def, access) {
        list.add(grant.try_copy(alloc)?)?;
    }
    Ok(list)
}

/// Whether the given access is the asked one, or lists it among its implied grants. One step is followed, and no further.
pub fn grants(def: &ServiceDef, given: &str, asked: &str) -> bool
    ensures { result ≡ grants def.now (chars given.now) (chars asked.now) }
{
    same_text(given, asked) || is_among(asked, implied_by(def, given))
}
