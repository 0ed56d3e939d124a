// What is wrong with tag rows.
ghost use Rattle.std.specs.Prelude.{◌≡◌, ◌++◌, map, not, IfOk, OnOk, option_map};
ghost use Rattle.std.specs.List.{find};
ghost use Rattle.std.specs.Ordering.{int_eq};
ghost use Rattle.rg_base.specs.Texts.{all_distinct};
ghost use Rattle.rg_facts.specs.Sound.{row_ids};
ghost use Rattle.rg_resmatch.specs.Rules.{tagged_fit};
ghost use Rattle.rg_tags.specs.Rules.{tags_fit};
ghost use Rattle.rg_tags.specs.declared.row.TagRow.{TagRow};
ghost use Rattle.rg_facts_check.specs.Causes.{first_tag_row, present, tag_row_causes, unless};
ghost use Rattle.rg_facts_check.specs.declared.unsound.Unsound.TheVariants as unsound;

use crate::ids::ids_distinct;
use crate::noting::{note, unless};
use crate::prepared::Prepared;
use crate::unsound::Unsound;
use rg_base::NoMemory;
use rg_defs::PathedDef;
use rg_facts::Facts;
use rg_resmatch::tagged_fit;
use rg_tags::{TagRow, tags_fit};
use std::alloc::Global;

/// The rule of this number fails for the tag row.
fn of_tag_row(rule: u8, row: Option<&TagRow>) -> Option<Unsound>
    ensures { result ≡ option_map (λ (r : TagRow). unsound.TagRow r.id rule)
        (option_map (λ r. r.now) row.entry) }
{
    match row {
        Some(row) => Some(Unsound::TagRow(row.id, rule)),
        None => None,
    }
}

fn unfit_row<'a>(def: &PathedDef, rows: &'a [TagRow]) -> Option<&'a TagRow>
    ensures { option_map (λ r. r.now) result
        ≡ find (λ r. not (tagged_fit def.now r.resources.items)) rows.now }
{
    rows.iter()
        .find(|row| !tagged_fit(def, row.resources.as_slice()))
}

fn resource_cause(prepared: &Prepared) -> Option<Unsound>
    ensures { result ≡ first_tag_row 2 (λ (r : TagRow).
        tagged_fit prepared.now.def r.resources.items) prepared.now.tag_rows.items }
{
    let facts = prepared.facts();
    let def = prepared.def();
    of_tag_row(2, unfit_row(&def, facts.tag_rows.as_slice()))
}

fn tag_cause(prepared: &Prepared) -> Option<Unsound>
    ensures { result ≡ first_tag_row 3
        (λ (r : TagRow). tags_fit r.tags.items) prepared.now.tag_rows.items }
{
    let rows = prepared.facts().tag_rows.as_slice();
    let row = rows.iter().find(|row| !tags_fit(row.tags.as_slice()));
    of_tag_row(3, row)
}

/// The ids of the rows.
fn row_ids(alloc: Global, rows: &[TagRow]) -> Result<Vec<i64>, NoMemory>
    ensures { IfOk result (λ ids. ids.items ≡ row_ids rows.now) }
{
    let mut ids = Vec::new(alloc);
    for row in rows {
        ids.push(row.id)?;
    }
    Ok(ids)
}

fn row_ids_distinct(alloc: Global, rows: &[TagRow]) -> Result<bool, NoMemory>
    ensures { IfOk result (λ distinct. distinct ≡ all_distinct int_eq (row_ids rows.now)) }
{
    let ids = row_ids(alloc, rows)?;
    ids_distinct(alloc, ids.as_slice())
}

/// Whether two rows have one id.
fn id_cause(alloc: Global, prepared: &Prepared) -> Result<Option<Unsound>, NoMemory>
    ensures { IfOk result (λ cause. cause ≡ unless
        (all_distinct int_eq (row_ids prepared.now.tag_rows.items)) unsound.TagRowIds) }
{
    let rows = prepared.facts().tag_rows.as_slice();
    let are_distinct = row_ids_distinct(alloc, rows)?;
    Ok(unless(are_distinct, Unsound::TagRowIds))
}

/// Adds what is wrong with tag rows.
pub(crate) fn add_tag_row_causes(
    alloc: Global,
    prepared: &Prepared,
    causes: &mut Vec<Unsound>,
) -> Result<(), NoMemory>
    ensures { OnOk result (causes.new.items
        ≡ causes.old.items ++ present (tag_row_causes prepared.now)) }
{
    note(causes, resource_cause(prepared))?;
    note(causes, tag_cause(prepared))?;
    note(causes, id_cause(alloc, prepared)?)
}
