// For each role those that it reaches, as sets of places.
ghost use Rattle.std.specs.Prelude.{Contains, true, false, ◌≡◌, ◌<◌, ◌≤◌, ◌+◌, ◌/◌, ◌^◌, ℕ, List, [], length, map, IfOk, OnOk, IfSome, IsSome, None, Some, option_map, replicate, set, slice_index_or};
ghost use Rattle.std.specs.Bool.{Decides};
ghost use Rattle.std.specs.List.{All};
ghost use Rattle.rg_roles.specs.Places.{Reaches, has, AreBounded, AreKnown, IsAllKnown, IsKnown, words_at};

use crate::bits::{include, insert};
use crate::chart::Chart;
use crate::walk::reached_from;
use rg_base::NoMemory;
use std::alloc::Global;
use std::marker::Model;

/// For each place the set of those that one or more steps lead to, None where it isn't known yet. Contracts see the words of
/// the sets.
#[derive(Drop)]
pub(crate) struct Reach {
    sets: Vec<Option<Vec<u64>>>,
}

impl Model for Reach {
    ghost use Rattle.std.specs.Prelude.{List, Option, ℕ, map, option_map};

    ghost Value = { List (Option (List ℕ)) };

    ghost view = { λ r. map (option_map (λ v. v.items)) r.sets.items };
}

impl Reach {
    /// Nothing is known.
    fn unknown(alloc: Global, count: usize) -> Result<Reach, NoMemory>
        ensures { IfOk result (λ r. r ≡ replicate count None) }
    {
        let mut sets = Vec::new(alloc);
        for _ in 0..count {
            sets.push(None)?;
        }
        Ok(Reach { sets })
    }

    /// What is known of the place.
    fn get(&self, place: u32) -> Option<&[u64]>
        ensures { option_map (λ s. s.now) result ≡ slice_index_or self.now place None }
    {
        match self.sets.get(place as usize) {
            Some(Some(words)) => Some(words.as_slice()),
            _ => None,
        }
    }

    /// The set of the place; empty where it isn't known.
    pub(crate) fn at(&self, place: u32) -> &[u64]
        ensures { result.now ≡ words_at self.now place }
    {
        match self.get(place) {
            Some(words) => words,
            None => &[],
        }
    }

    fn put(&mut self, place: u32, words: Vec<u64>)
        requires { place < length self.old }
        ensures { self.new ≡ set self.old place (Some words.items) }
    {
        self.sets[place as usize] = Some(words);
    }
}

/// An empty set with room for so many places.
fn no_places(alloc: Global, count: usize) -> Result<Vec<u64>, NoMemory>
    ensures { IfOk result (λ v. v.items ≡ replicate (count / 64 + 1) 0) }
{
    Ok(vec![in alloc; 0u64; count / 64 + 1]?)
}

/// Adds to an empty set what steps lead to from the place; false where it isn't known of each next place.
fn join(words: &mut [u64], chart: &Chart, reach: &Reach, place: u32) -> bool
    requires bounded { AreBounded chart.now }
    requires known { AreKnown chart.now reach.now }
    requires wide { length words.old ≡ length chart.now / 64 + 1 }
    requires none { (k : ℕ) → has words.old k ≡ false }
    ensures len { length words.new ≡ length words.old }
    ensures exact { result ≡ true → (k : ℕ)
        → Decides (has words.new k) (Reaches chart.now place k) }
{
    for to in chart.at(place) {
        let Some(further) = reach.get(*to) else {
            return false;
        };
        include(words, further);
        insert(words, *to);
    }
    true
}

/// What steps lead to from the place, where it is known of each next place; else None.
fn joined(
    alloc: Global,
    chart: &Chart,
    reach: &Reach,
    place: u32,
) -> Result<Option<Vec<u64>>, NoMemory>
    requires bounded { AreBounded chart.now }
    requires known { AreKnown chart.now reach.now }
    ensures { IfOk result (λ o. IfSome o (λ v. IsKnown chart.now place v.items)) }
{
    if chart.at(place).is_empty() {
        return Ok(Some(Vec::new(alloc)));
    }
    let mut words = no_places(alloc, chart.len())?;
    if join(words.as_mut_slice(), chart, reach, place) {
        Ok(Some(words))
    } else {
        Ok(None)
    }
}

/// Adds the places to an empty set.
fn insert_all(words: &mut [u64], places: &[u32])
    requires within { All (λ k. k / 64 < length words.old) places.now }
    requires none { (k : ℕ) → has words.old k ≡ false }
    ensures len { length words.new ≡ length words.old }
    ensures exact { (k : ℕ) → Decides (has words.new k) (Contains places.now k) }
{
    for place in places {
        insert(words, *place);
    }
}

/// What steps lead to from the place, by a walk.
fn walked(alloc: Global, chart: &Chart, place: u32) -> Result<Vec<u64>, NoMemory>
    requires { AreBounded chart.now }
    ensures { IfOk result (λ v. IsKnown chart.now place v.items) }
{
    let found = reached_from(alloc, chart, place)?;
    let mut words = no_places(alloc, chart.len())?;
    insert_all(words.as_mut_slice(), found.as_slice());
    Ok(words)
}

/// Sees to it that what the place reaches is known.
fn learn(alloc: Global, chart: &Chart, reach: &mut Reach, place: u32) -> Result<(), NoMemory>
    requires bounded { AreBounded chart.now }
    requires known { AreKnown chart.now reach.old }
    requires wide { length reach.old ≡ length chart.now }
    ensures known { OnOk result (AreKnown chart.now reach.new) }
    ensures wide { OnOk result (length reach.new ≡ length chart.now) }
    ensures here { OnOk result (place < length chart.now
        → IsSome (slice_index_or reach.new place None)) }
    ensures others { OnOk result ((k : ℕ)
        → IsSome (slice_index_or reach.old k None) → IsSome (slice_index_or reach.new k None)) }
{
    if place as usize >= chart.len() || reach.get(place).is_some() {
        return Ok(());
    }
    let words = match joined(alloc, chart, reach, place)? {
        Some(words) => words,
        None => walked(alloc, chart, place)?,
    };
    reach.put(place, words);
    Ok(())
}

/// What steps lead to from each place. The order should have each place after those that its steps lead to, so that no walk
/// is needed.
pub(crate) fn reach_of(alloc: Global, chart: &Chart, order: &[u32]) -> Result<Reach, NoMemory>
    requires bounded { AreBounded chart.now }
    requires fits { length chart.now < 2 ^ 32 }
    ensures { IfOk result (IsAllKnown chart.now) }
{
    let mut reach = Reach::unknown(alloc, chart.len())?;
    for place in order {
        learn(alloc, chart, &mut reach, *place)?;
    }
    for place in 0..chart.len() as u32 {
        learn(alloc, chart, &mut reach, place)?;
    }
    Ok(reach)
}
