// Zones as forms of an index, with their places as ids.
ghost use Rattle.std.specs.Prelude.{◌≡◌, IfOk};
ghost use Rattle.std.specs.Str.{chars};
ghost use Rattle.rg_zones.specs.Places.{is_below, place_of, zone_form, zone_forms};

use crate::resources::zone_maps;
use rg_base::{NoMemory, Seq};
use rg_defs::ServiceDef;
use rg_index::Form;
use rg_resmatch::Reach;
use rg_zone_rules::ZoneRow;
use std::alloc::Global;

/// What is filed of the zone at this place.
fn zone_form(
    alloc: Global,
    def: &ServiceDef,
    service: &str,
    place: usize,
    zone: &ZoneRow,
) -> Result<Form, NoMemory>
    ensures { IfOk result (λ f. f ≡ zone_form (chars service.now) def.now place zone.now) }
{
    let Ok(id) = i64::try_from(place) else {
        return Err(NoMemory);
    };
    let maps = zone_maps(alloc, def, service, zone)?;
    Ok(Form {
        id,
        maps: Seq::from_vec(maps),
        reach: Reach::Down,
    })
}

/// What is filed of the zones.
pub(crate) fn zone_forms(
    alloc: Global,
    def: &ServiceDef,
    service: &str,
    zones: &[ZoneRow],
) -> Result<Vec<Form>, NoMemory>
    ensures { IfOk result (λ v. v.items ≡ zone_forms (chars service.now) def.now 0 zones.now) }
{
    let mut forms = Vec::with_capacity(alloc, zones.len())?;
    for (place, zone) in zones.iter().enumerate() {
        let form = zone_form(alloc, def, service, place, zone)?;
        forms.push(form)?;
    }
    Ok(forms)
}

/// The place that is meant by the id of a form.
pub(crate) fn place_of(id: i64) -> Option<usize>
    ensures { result ≡ place_of id }
{
    usize::try_from(id).ok()
}

/// Whether the place is below the best so far, if there is one.
pub(crate) fn is_below(place: usize, best: Option<usize>) -> bool
    ensures { result ≡ is_below place best }
{
    match best {
        Some(best) => place < best,
        None => true,
    }
}
