// Walks over the chart, breadth first.
ghost use Rattle.std.specs.Prelude.{◌≡◌, ◌<◌, ◌∷◌, ℕ, [], length, IfOk, OnOk};
ghost use Rattle.std.specs.Bool.{Decides};
ghost use Rattle.std.specs.List.{All};
ghost use Rattle.rg_roles.specs.Places.{AreBounded, AreReached, IsGrown, IsMarked, Reaches};

use crate::chart::Chart;
use rg_base::NoMemory;
use std::alloc::Global;

/// Adds the place where it wasn't found before.
fn visit(found: &mut Vec<u32>, seen: &mut [bool], place: u32) -> Result<(), NoMemory>
    requires marked { IsMarked found.old.items seen.old }
    requires within { place < length seen.old }
    ensures marked { OnOk result (IsMarked found.new.items seen.new) }
    ensures grown { OnOk result (IsGrown (place ∷ []) found.old.items found.new.items) }
{
    let at = place as usize;
    if seen[at] {
        return Ok(());
    }
    if found.push(place).is_err() {
        return Err(NoMemory);
    }
    seen[at] = true;
    Ok(())
}

/// Adds those of the places that weren't found before.
fn visit_all(found: &mut Vec<u32>, seen: &mut [bool], places: &[u32]) -> Result<(), NoMemory>
    requires marked { IsMarked found.old.items seen.old }
    requires within { All (λ k. k < length seen.old) places.now }
    ensures marked { OnOk result (IsMarked found.new.items seen.new) }
    ensures grown { OnOk result (IsGrown places.now found.old.items found.new.items) }
{
    for place in places {
        visit(found, seen, *place)?;
    }
    Ok(())
}

/// Adds the places that one or more steps lead to from here, each once, to a list of none.
fn walk(found: &mut Vec<u32>, seen: &mut [bool], chart: &Chart, from: u32) -> Result<(), NoMemory>
    requires bounded { AreBounded chart.now }
    requires wide { length seen.old ≡ length chart.now }
    requires none { found.old.items ≡ [] }
    requires marked { IsMarked found.old.items seen.old }
    ensures { OnOk result (AreReached chart.now from found.new.items) }
{
    visit_all(found, seen, chart.at(from))?;
    let mut next = 0;
    while next < found.len() {
        let place = found[next];
        visit_all(found, seen, chart.at(place))?;
        next += 1;
    }
    Ok(())
}

/// The places that one or more steps lead to from here, each once.
pub(crate) fn reached_from(alloc: Global, chart: &Chart, from: u32) -> Result<Vec<u32>, NoMemory>
    requires { AreBounded chart.now }
    ensures { IfOk result (λ v. AreReached chart.now from v.items) }
{
    let Ok(mut seen) = vec![in alloc; false; chart.len()] else {
        return Err(NoMemory);
    };
    let mut found = Vec::new(alloc);
    walk(&mut found, seen.as_mut_slice(), chart, from)?;
    Ok(found)
}

/// Whether steps lead from the place back to it.
pub(crate) fn leads_back(alloc: Global, chart: &Chart, place: u32) -> Result<bool, NoMemory>
    requires { AreBounded chart.now }
    ensures { IfOk result (λ back. Decides back (Reaches chart.now place place)) }
{
    let found = reached_from(alloc, chart, place)?;
    Ok(found.contains(&place))
}
