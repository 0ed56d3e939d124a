// A search of the chart, depth first (Tarjan's strongly connected components): which roles lie on one circle, and an order in
// which a role comes after those that it names. Its findings spare work, and no proof rests on them: whoever uses them looks
// whether they fit.
ghost use Rattle.std.specs.Prelude.{◌≡◌, ◌<◌, ◌^◌, length, slice_index_or};

use crate::chart::Chart;
use rg_base::NoMemory;
use std::alloc::Global;

/// The rank of a place that isn't settled yet.
const OPEN: u32 = u32::MAX;

/// A place on the way, and how many of its steps were taken.
#[derive(Drop)]
struct Visit {
    place: u32,
    taken: u32,
}

/// The number at the place; 0 past the end.
pub(crate) fn number_at(numbers: &[u32], place: u32) -> u32
    ensures { result ≡ slice_index_or numbers.now place 0 }
{
    match numbers.get(place as usize) {
        Some(number) => *number,
        None => 0,
    }
}

/// Writes the number at the place, if there is one.
fn set_number(numbers: &mut [u32], place: u32, number: u32) {
    if let Some(slot) = numbers.get_mut(place as usize) {
        *slot = number;
    }
}

/// What was found, and where the search is.
#[derive(Drop)]
pub(crate) struct Search {
    /// For each place the number of its circle; a step leads to no higher one, and to a lower one where it leaves a circle.
    pub(crate) ranks: Vec<u32>,
    /// The places, each after those of lower rank.
    pub(crate) order: Vec<u32>,
    // For each place when it was entered, from 1; 0 where it wasn't.
    entered: Vec<u32>,
    // For each place the earliest entered open place that was seen from it.
    earliest: Vec<u32>,
    // The places that were entered and have no rank yet.
    open: Vec<u32>,
    path: Vec<Visit>,
    entries: u32,
    circles: u32,
}

impl Search {
    /// Searches the whole chart.
    pub(crate) fn of(alloc: Global, chart: &Chart) -> Result<Search, NoMemory>
        requires { length chart.now < 2 ^ 32 }
    {
        let count = chart.len();
        let mut search = Search {
            ranks: vec![in alloc; OPEN; count]?,
            order: Vec::new(alloc),
            entered: vec![in alloc; 0; count]?,
            earliest: vec![in alloc; 0; count]?,
            open: Vec::new(alloc),
            path: Vec::new(alloc),
            entries: 0,
            circles: 0,
        };
        let steps = chart.search_len();
        for root in 0..count as u32 {
            if number_at(search.entered.as_slice(), root) == 0 {
                search.enter(root)?;
                search.run(chart, steps)?;
            }
        }
        Ok(search)
    }

    /// Goes on until the path is empty. Each place is entered and left once, and each step taken once.
    fn run(&mut self, chart: &Chart, steps: usize) -> Result<(), NoMemory> {
        for _ in 0..steps {
            let Some(visit) = self.path.pop() else {
                return Ok(());
            };
            self.go_on(chart, visit)?;
        }
        Ok(())
    }

    /// Takes the next step from the place, or leaves it.
    fn go_on(&mut self, chart: &Chart, visit: Visit) -> Result<(), NoMemory> {
        let place = visit.place;
        let Some(next) = chart.at(place).get(visit.taken as usize) else {
            return self.leave(place);
        };
        let taken = visit.taken.saturating_add(1);
        self.path.push(Visit { place, taken })?;
        let entered = number_at(self.entered.as_slice(), *next);
        if entered == 0 {
            return self.enter(*next);
        }
        if number_at(self.ranks.as_slice(), *next) == OPEN {
            self.saw(place, entered);
        }
        Ok(())
    }

    fn enter(&mut self, place: u32) -> Result<(), NoMemory> {
        self.entries = self.entries.saturating_add(1);
        set_number(self.entered.as_mut_slice(), place, self.entries);
        set_number(self.earliest.as_mut_slice(), place, self.entries);
        self.open.push(place)?;
        self.path.push(Visit { place, taken: 0 })?;
        Ok(())
    }

    /// A place that was entered then was seen from this one.
    fn saw(&mut self, place: u32, entered: u32) {
        if entered < number_at(self.earliest.as_slice(), place) {
            set_number(self.earliest.as_mut_slice(), place, entered);
        }
    }

    /// Where nothing earlier was seen from the place, what is open from it on is its circle.
    fn leave(&mut self, place: u32) -> Result<(), NoMemory> {
        let earliest = number_at(self.earliest.as_slice(), place);
        if earliest == number_at(self.entered.as_slice(), place) {
            return self.settle(place);
        }
        let before = match self.path.last() {
            Some(visit) => visit.place,
            None => return Ok(()),
        };
        self.saw(before, earliest);
        Ok(())
    }

    /// Ranks what is open from the place on.
    fn settle(&mut self, place: u32) -> Result<(), NoMemory> {
        for _ in 0..self.open.len() {
            let Some(last) = self.open.pop() else {
                break;
            };
            set_number(self.ranks.as_mut_slice(), last, self.circles);
            self.order.push(last)?;
            if last == place {
                break;
            }
        }
        self.circles = self.circles.saturating_add(1);
        Ok(())
    }
}
