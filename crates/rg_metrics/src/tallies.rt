// Counts that threads share, each under a word.
use crate::family::Sample;
use rg_base::NoMemory;
use std::alloc::Global;
use std::sync::atomic::{AtomicU64, Ordering};

/// How often something came, under its word.
#[derive(Drop)]
struct Tally {
    word: &'static str,
    count: AtomicU64,
}

/// A count for each of some words. Nothing is proved of the counts: threads add to them at once.
#[derive(Drop)]
pub(crate) struct Tallies {
    all: Vec<Tally>,
}

impl Tallies {
    /// Each of the words, which nothing came under.
    pub(crate) fn new(alloc: Global, words: &[&'static str]) -> Result<Tallies, NoMemory> {
        let mut all = Vec::new(alloc);
        for word in words {
            let tally = Tally {
                word,
                count: AtomicU64::new(0),
            };
            if all.push(tally).is_err() {
                return Err(NoMemory);
            }
        }
        Ok(Tallies { all })
    }

    /// One more came under this word. Another word isn't counted.
    pub(crate) fn add(&self, word: &str) {
        for tally in &self.all {
            if tally.word == word {
                tally.count.fetch_add(1, Ordering::Relaxed);
                return;
            }
        }
    }

    /// How many there are of each.
    pub(crate) fn samples(&self, alloc: Global) -> Result<Vec<Sample>, NoMemory> {
        let mut samples = Vec::new(alloc);
        for tally in &self.all {
            let sample = Sample {
                label: Some(tally.word),
                value: tally.count.load(Ordering::Relaxed),
            };
            if samples.push(sample).is_err() {
                return Err(NoMemory);
            }
        }
        Ok(samples)
    }
}
