// The chart of rows: for each the places of the roles that it names.
ghost use Rattle.std.specs.Prelude.{◌≡◌, ◌∷◌, ◌++◌, ◌<◌, ◌^◌, ℕ, List, [], length, map, IfOk, IfErr, OnOk, MatchOption, None, Some, true, false, option_map, slice_index_or};
ghost use Rattle.std.specs.List.{list_any};
ghost use Rattle.rg_roles.specs.Faults.{IsRefusal, first_row, is_absent, names_absent};
ghost use Rattle.rg_roles.specs.Members.{names_of};
ghost use Rattle.rg_roles.specs.Places.{IsChart, place_in};

use crate::fault::RoleFault;
use crate::row::RoleRow;
use rg_base::{NameIndex, NoMemory, Text};
use std::alloc::Global;
use std::marker::Model;

/// A list of places for each row. Contracts see the lists.
#[derive(Drop)]
pub(crate) struct Chart {
    lists: Vec<Vec<u32>>,
}

impl Model for Chart {
    ghost use Rattle.std.specs.Prelude.{List, ℕ, map};

    ghost Value = { List (List ℕ) };

    ghost view = { λ p. map (λ v. v.items) p.lists.items };
}

impl Chart {
    /// No lists. It takes no memory.
    fn new(alloc: Global) -> Chart
        ensures { result ≡ [] }
    {
        Chart {
            lists: Vec::new(alloc),
        }
    }

    /// Adds a list at the end.
    fn push(&mut self, list: Vec<u32>) -> Result<(), NoMemory>
        ensures { OnOk result (self.new ≡ self.old ++ list.items ∷ []) }
    {
        match self.lists.push(list) {
            Ok(()) => Ok(()),
            Err(_) => Err(NoMemory),
        }
    }

    /// How many lists there are.
    pub(crate) fn len(&self) -> usize
        ensures { result ≡ length self.now }
    {
        self.lists.len()
    }

    /// How many steps there are, and as many again as there are lists, and one: so many a search takes at most.
    pub(crate) fn search_len(&self) -> usize {
        self.lists.iter().fold(
            1,
            |sum: usize, list| sum.saturating_add(list.len()).saturating_add(1),
        )
    }

    /// The list of the row at this place; empty past the end.
    pub(crate) fn at(&self, place: u32) -> &[u32]
        ensures { result.now ≡ slice_index_or self.now place [] }
    {
        match self.lists.get(place as usize) {
            Some(list) => list.as_slice(),
            None => &[],
        }
    }
}

/// The places of the roles; None where one isn't there.
fn places_of(alloc: Global, index: &NameIndex, roles: &[Text]) -> Result<Option<Vec<u32>>, NoMemory>
    ensures { IfOk result (λ o. MatchOption o (list_any (is_absent index.now) roles.now ≡ true)
        (λ v. (list_any (is_absent index.now) roles.now ≡ false) × (map (place_in index.now) roles.now ≡ map Some v.items))) }
{
    let mut places = Vec::new(alloc);
    for role in roles {
        let Some(place) = index.place_of(role.as_str()) else {
            return Ok(None);
        };
        places.push(place)?;
    }
    Ok(Some(places))
}

/// The places of the roles that each row names; Unknown with the first row that names a role that isn't there.
pub(crate) fn chart_of(
    alloc: Global,
    rows: &[RoleRow],
    index: &NameIndex,
) -> Result<Chart, RoleFault>
    requires indexed { index.now ≡ names_of rows.now }
    requires fits { length rows.now < 2 ^ 32 }
    ensures ok { IfOk result (λ chart. IsChart rows.now chart
        × (first_row names_absent rows.now ≡ None)) }
    ensures err { IfErr result
        (IsRefusal (option_map RoleFault.Unknown (first_row names_absent rows.now))) }
{
    let mut chart = Chart::new(alloc);
    for (place, row) in rows.iter().enumerate() {
        let Some(places) = places_of(alloc, index, row.roles.as_slice())? else {
            return Err(RoleFault::Unknown(place as u32));
        };
        chart.push(places)?;
    }
    Ok(chart)
}
