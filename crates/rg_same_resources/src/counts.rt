// How many policies have each print.
ghost use Rattle.std.specs.Prelude.{◌≡◌, ◌<◌, ◌+◌, ◌-◌, ◌==◌, ℕ, [], IsOk, OnErr, OnOk, if◌then◌else◌};
ghost use Rattle.rg_same_resources.specs.Counts.{IsAdded, IsCounted, IsRemoved, IsSame, count_of, has_print, one_if};

use crate::prints::{Prints, prints_of};
use rg_base::NoMemory;
use rg_policy::Policy;
use std::alloc::Global;
use std::collections::BTreeMap;
use std::marker::Model;

fn one_if(is: bool) -> u32
    ensures { result ≡ one_if is }
{
    if is { 1 } else { 0 }
}

/// How many of the policy's prints this one is.
pub fn has_print(print: u64, policy: &Policy) -> u32
    ensures { result ≡ has_print print policy.now }
{
    let prints = prints_of(policy);
    one_if(print == prints.maps) + one_if(print == prints.name)
}

fn count_of(counts: &BTreeMap<u64, u32>, print: u64) -> u32
    ensures { result ≡ count_of counts.now.entries print }
{
    match counts.get(&print) {
        Some(count) => *count,
        None => 0,
    }
}

/// Sets the count of the print. Where one is held it takes no memory.
fn set_at(counts: &mut BTreeMap<u64, u32>, print: u64, count: u32) -> Result<(), NoMemory>
    ensures ok { OnOk result ((k : ℕ) → count_of counts.new.entries k
        ≡ (if k == print then count else count_of counts.old.entries k)) }
    ensures err { OnErr result (IsSame counts.old.entries counts.new.entries) }
    ensures held { 0 < count_of counts.old.entries print → IsOk result }
{
    match counts.insert(print, count) {
        Ok(_) => Ok(()),
        Err(_) => Err(NoMemory),
    }
}

fn clear_at(counts: &mut BTreeMap<u64, u32>, print: u64)
    ensures { (k : ℕ) → count_of counts.new.entries k
        ≡ (if k == print then 0 else count_of counts.old.entries k) }
{
    counts.remove(&print);
}

/// One more has the print. More than 2^32 - 1 are want of memory.
fn raise(counts: &mut BTreeMap<u64, u32>, print: u64) -> Result<(), NoMemory>
    ensures ok { OnOk result ((k : ℕ) → count_of counts.new.entries k
        ≡ count_of counts.old.entries k + one_if (k == print)) }
    ensures err { OnErr result (IsSame counts.old.entries counts.new.entries) }
{
    match count_of(counts, print).checked_add(1) {
        Some(count) => set_at(counts, print, count),
        None => Err(NoMemory),
    }
}

/// One less has the print, which isn't held where none has it.
fn lower(counts: &mut BTreeMap<u64, u32>, print: u64)
    ensures { (k : ℕ) → count_of counts.new.entries k
        ≡ count_of counts.old.entries k - one_if (k == print) }
{
    let count = count_of(counts, print);
    if count <= 1 {
        clear_at(counts, print);
        return;
    }
    match set_at(counts, print, count - 1) {
        Ok(()) => {}
        Err(_) => unreachable!(),
    }
}

/// How many policies have each print, of their maps or of their names. Contracts see the prints with their counts.
#[derive(Drop)]
pub struct PrintCounts {
    // None is 0.
    counts: BTreeMap<u64, u32>,
}

impl Model for PrintCounts {
    ghost use Rattle.std.specs.Prelude.{List, ℕ};

    ghost Value = { List (ℕ × ℕ) };

    ghost view = { λ c. c.counts.entries };
}

impl PrintCounts {
    /// The counts of no policies. It takes no memory.
    #[tactic(auto, unfolding(crate::specs::Counts::IsCounted))]
    pub fn new(alloc: Global) -> PrintCounts
        ensures { IsCounted result [] }
    {
        PrintCounts {
            counts: BTreeMap::new(alloc),
        }
    }

    /// How many have the print.
    pub fn count_of(&self, print: u64) -> u32
        ensures { result ≡ count_of self.now print }
    {
        count_of(&self.counts, print)
    }

    /// Counts a policy of these prints. Where memory is refused every count stays.
    pub fn add(&mut self, prints: Prints) -> Result<(), NoMemory>
        ensures ok { OnOk result (IsAdded prints self.old self.new) }
        ensures err { OnErr result (IsSame self.old self.new) }
    {
        raise(&mut self.counts, prints.maps)?;
        if let Err(refused) = raise(&mut self.counts, prints.name) {
            lower(&mut self.counts, prints.maps);
            return Err(refused);
        }
        Ok(())
    }

    /// Counts a policy of these prints no more. It takes no memory.
    pub fn remove(&mut self, prints: Prints)
        ensures { IsRemoved prints self.old self.new }
    {
        lower(&mut self.counts, prints.maps);
        lower(&mut self.counts, prints.name);
    }
}
