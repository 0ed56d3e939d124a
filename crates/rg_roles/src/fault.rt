// What is at fault in rows.
ghost use Rattle.std.specs.Prelude.{◌≡◌, ◌<◌, ◌^◌, ℕ, true, false, length, IfOk, IfErr, IsTrue, MatchOption, None, Some, option_map, slice_index_or};
ghost use Rattle.std.specs.Bool.{Decides};
ghost use Rattle.std.specs.List.{list_all};
ghost use Rattle.rg_roles.specs.Faults.{IsRefusal, fault_of};
ghost use Rattle.rg_roles.specs.Members.{names_of};
ghost use Rattle.rg_roles.specs.Places.{AreBounded, IsChart, IsFirstOnCycle, NeverRises, Reaches, falls, stays};

use crate::chart::{Chart, chart_of};
use crate::row::RoleRow;
use crate::search::{Search, number_at};
use crate::walk::leads_back;
use rg_base::{NameIndex, NoMemory};
use std::alloc::Global;
use std::convert::From;

/// Why rows can't be used, with the least place of a row at fault.
#[derive(Clone, Copy, Debug, PartialEq, Eq)]
pub enum RoleFault {
    /// A row before it has the same name.
    Duplicate(u32),
    /// It names a role that isn't there.
    Unknown(u32),
    /// It names itself, directly or through other roles.
    Cycle(u32),
    /// Memory was refused, or the rows are too many to have places of 32 bits.
    NoMemory,
}

impl From<NoMemory> for RoleFault {
    ghost use Rattle.std.specs.Prelude.{◌≡◌};
    ghost use Rattle.rg_roles.specs.declared.fault.RoleFault.TheVariants.{NoMemory as Refused};

    ghost from_gives = { λ _ fault. fault ≡ Refused };

    fn from(_refused: NoMemory) -> RoleFault {
        RoleFault::NoMemory
    }
}

/// Whether every step from the place leads to a lower rank.
fn falls(chart: &Chart, ranks: &[u32], place: u32) -> bool
    ensures { result ≡ falls chart.now ranks.now place }
{
    let rank = number_at(ranks, place);
    chart
        .at(place)
        .iter()
        .all(|next| number_at(ranks, *next) < rank)
}

/// Whether no step from the place leads to a higher rank.
fn stays(chart: &Chart, ranks: &[u32], place: u32) -> bool
    ensures { result ≡ stays chart.now ranks.now place }
{
    let rank = number_at(ranks, place);
    chart
        .at(place)
        .iter()
        .all(|next| number_at(ranks, *next) <= rank)
}

/// Whether no step leads to a higher rank.
fn never_rises(chart: &Chart, ranks: &[u32]) -> bool
    requires { length chart.now < 2 ^ 32 }
    ensures { result ≡ true → NeverRises chart.now ranks.now }
{
    for place in 0..chart.len() as u32 {
        if !stays(chart, ranks, place) {
            return false;
        }
    }
    true
}

/// The first place from which steps lead back to it. Where no step leads to a higher rank, a place from which every step
/// leads to a lower one needs no walk.
fn first_on_cycle(alloc: Global, chart: &Chart, ranks: &[u32]) -> Result<Option<u32>, NoMemory>
    requires bounded { AreBounded chart.now }
    requires fits { length chart.now < 2 ^ 32 }
    ensures { IfOk result (λ o. MatchOption o ((k : ℕ)
        → k < length chart.now → ¬ (Reaches chart.now k k)) (IsFirstOnCycle chart.now)) }
{
    let ranked = never_rises(chart, ranks);
    for place in 0..chart.len() as u32 {
        if ranked && falls(chart, ranks, place) {
            continue;
        }
        if leads_back(alloc, chart, place)? {
            return Ok(Some(place));
        }
    }
    Ok(None)
}

/// The chart of rows at which nothing is at fault, and what a search of it found; else the first fault.
pub(crate) fn searched(
    alloc: Global,
    rows: &[RoleRow],
    index: &NameIndex,
) -> Result<(Chart, Search), RoleFault>
    requires indexed { index.now ≡ names_of rows.now }
    ensures ok { IfOk result (λ p. IsChart rows.now p.0
        × (fault_of rows.now ≡ None) × (length rows.now < 2 ^ 32)) }
    ensures err { IfErr result (IsRefusal (fault_of rows.now)) }
{
    if rows.len() > u32::MAX as usize {
        return Err(RoleFault::NoMemory);
    }
    if let Some(place) = index.first_repeat() {
        return Err(RoleFault::Duplicate(place));
    }
    let chart = chart_of(alloc, rows, index)?;
    let search = Search::of(alloc, &chart)?;
    if let Some(place) = first_on_cycle(alloc, &chart, search.ranks.as_slice())? {
        return Err(RoleFault::Cycle(place));
    }
    Ok((chart, search))
}

/// The first fault of the rows, None where nothing is at fault: a name that stands before it, then a role that isn't there,
/// then a row that names itself by a chain, each with the least place. Its time grows as the rows and the names in them,
/// times a logarithm. It keeps nothing.
pub fn role_fault(alloc: Global, rows: &[RoleRow]) -> Result<Option<RoleFault>, NoMemory>
    ensures { IfOk result (λ fault. fault ≡ fault_of rows.now) }
{
    let index = NameIndex::build(alloc, rows)?;
    match searched(alloc, rows, &index) {
        Ok(_) => Ok(None),
        Err(RoleFault::NoMemory) => Err(NoMemory),
        Err(fault) => Ok(Some(fault)),
    }
}
