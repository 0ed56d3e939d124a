// The rules of tag rows.
ghost use Rattle.std.specs.Prelude.{◌≡◌, IfOk, option_map, true};
ghost use Rattle.std.specs.List.{list_all};
ghost use Rattle.rg_cmd.specs.Lookups.{tag_row_at};
ghost use Rattle.rg_validate.specs.Tags.{row_id_fits, row_stays_in, tagged_resources_fit, tagged_service_fits};

use crate::existence::has_row_id;
use rg_base::{NoMemory, same_text};
use rg_cmd::{State, def_of, is_tag_service};
use rg_defs::{PathedDef, Paths};
use rg_resmatch::tagged_fit;
use rg_tags::TagRow;
use std::alloc::Global;

/// Whether the service isn't a tag service (rule G1).
pub fn tagged_service_fits(state: &State, row: &TagRow) -> bool
    ensures { result ≡ tagged_service_fits state.now row.now }
{
    !is_tag_service(state, &row.service)
}

/// Whether the resources have distinct levels on one path, values that are patterns, and no `{USER}` (rule G2).
pub fn tagged_resources_fit(alloc: Global, state: &State, row: &TagRow) -> Result<bool, NoMemory>
    ensures { IfOk result (λ fit. fit ≡ tagged_resources_fit state.now row.now) }
{
    let Some(def) = def_of(state, &row.service) else {
        return Ok(false);
    };
    let paths = Paths::of(alloc, def)?;
    Ok(tagged_fit(&PathedDef { def, paths: &paths }, row.resources.as_slice()))
}

fn tag_row_at(state: &State, id: i64) -> Option<&TagRow>
    ensures { option_map (λ r. r.now) result ≡ tag_row_at state.now id }
{
    let rows = state.tag_rows.as_slice();
    rows.iter().find(|row| has_row_id(row, id))
}

fn row_stays_in(old: Option<&TagRow>, row: &TagRow) -> bool
    ensures { result ≡ row_stays_in (option_map (λ r. r.now) old.entry) row.now }
{
    match old {
        Some(old) => same_text(old.service.as_str(), row.service.as_str()),
        None => true,
    }
}

/// Whether the id is at least 1, and a row that has it is of the same service (rule G4).
pub fn row_id_fits(state: &State, id: i64, row: &TagRow) -> bool
    ensures { result ≡ row_id_fits state.now id row.now }
{
    0 < id && row_stays_in(tag_row_at(state, id), row)
}
