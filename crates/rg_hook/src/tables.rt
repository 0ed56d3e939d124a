// Enrichers that add what they were handed.
ghost use Rattle.std.specs.Prelude.{◌≡◌, Some, IfOk, option_map};
ghost use Rattle.std.specs.List.{find};
ghost use Rattle.rg_base.specs.Texts.{is_among};

use crate::enricher::Enricher;
use rg_base::{NameIndex, Named, NoMemory, Seq, Text, TryCopy, find_named, is_among};
use rg_policy::{AccessRequest, Pair};
use std::alloc::Global;

/// Lists of more names than these are compared by an index of their names.
const FEW: usize = 16;

/// Adds the same pair to each request.
#[derive(Drop)]
pub struct FixedPair {
    pub pair: Pair,
}

impl Enricher for FixedPair {
    ghost use Rattle.std.specs.Prelude.{◌≡◌, [], Some, IfOk};

    ghost remembered = { λ e. [] };

    ghost meaning = { λ e numbers request. record { remembered = []; pair = Some e.pair } };

    fn enrich(&mut self, alloc: Global, _request: &AccessRequest) -> Result<Option<Pair>, NoMemory>
        ensures pair { IfOk result (λ pair. pair ≡ Some self.old.pair) }
        ensures unchanged { self.new ≡ self.old }
    {
        Ok(Some(self.pair.try_copy(alloc)?))
    }
}

/// The name of a user or a group with its pair.
#[derive(Drop)]
pub struct PairRow {
    pub name: Text,
    pub pair: Pair,
}

impl Named for PairRow {
    ghost named = { λ r. r.name };

    fn name(&self) -> &str {
        self.name.as_str()
    }
}

/// Adds the pair of the first of the users' rows with the asker's name, else of the first of the groups' rows that names one of
/// the asker's groups, else none.
#[derive(Drop)]
pub struct SubjectPairs {
    pub users: Seq<PairRow>,
    pub groups: Seq<PairRow>,
}

// The first row that names one of the groups, each of which is looked at for each row.
fn find_by_scan<'a>(rows: &'a [PairRow], groups: &[Text]) -> Option<&'a PairRow>
    ensures { option_map (λ r. r.now) result ≡ find (λ r. is_among r.name groups.now) rows.now }
{
    for row in rows {
        if is_among(row.name.as_str(), groups) {
            return Some(row);
        }
    }
    None
}

// The first row that has one of the names.
fn find_in_index<'a>(rows: &'a [PairRow], groups: &NameIndex) -> Option<&'a PairRow>
    ensures { option_map (λ r. r.now) result ≡ find (λ r. is_among r.name groups.now) rows.now }
{
    for row in rows {
        if groups.contains(row.name.as_str()) {
            return Some(row);
        }
    }
    None
}

// The first row that names one of the groups. Where there are few rows or few groups it takes no memory.
fn find_group<'a>(
    alloc: Global,
    rows: &'a [PairRow],
    groups: &[Text],
) -> Result<Option<&'a PairRow>, NoMemory>
    ensures { IfOk result
        (λ found. option_map (λ r. r.now) found ≡ find (λ r. is_among r.name groups.now) rows.now) }
{
    if rows.len() <= FEW || groups.len() <= FEW {
        return Ok(find_by_scan(rows, groups));
    }
    let names = NameIndex::build(alloc, groups)?;
    Ok(find_in_index(rows, &names))
}

impl SubjectPairs {
    ghost use Rattle.std.specs.Prelude.{◌≡◌, IfOk, option_map};
    ghost use Rattle.rg_hook.specs.Tables.{row_for};

    // The row whose pair is added.
    fn row_for(&self, alloc: Global, request: &AccessRequest) -> Result<Option<&PairRow>, NoMemory>
        ensures { IfOk result
            (λ found. option_map (λ r. r.now) found ≡ row_for self.now request.now) }
    {
        match find_named(self.users.as_slice(), request.user.as_str()) {
            Some(row) => Ok(Some(row)),
            None => find_group(alloc, self.groups.as_slice(), request.groups.as_slice()),
        }
    }
}

impl Enricher for SubjectPairs {
    ghost use Rattle.std.specs.Prelude.{◌≡◌, [], IfOk};
    ghost use Rattle.rg_hook.specs.Tables.{pair_for};

    ghost remembered = { λ e. [] };

    ghost meaning = { λ e numbers request. record { remembered = []; pair = pair_for e request } };

    fn enrich(&mut self, alloc: Global, request: &AccessRequest) -> Result<Option<Pair>, NoMemory>
        ensures pair { IfOk result (λ pair. pair ≡ pair_for self.old request.now) }
        ensures unchanged { self.new ≡ self.old }
    {
        match self.row_for(alloc, request)? {
            Some(row) => Ok(Some(row.pair.try_copy(alloc)?)),
            None => Ok(None),
        }
    }
}
