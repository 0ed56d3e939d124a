// Builds a trie, takes pairs out and puts them back, walks it and counts what walks give.
use crate::words::{number, refused};
use anyhow::Result;
use rg_base::{Counted, NoMemory, Steps};
use rg_trie::{Filed, Trie};
use std::alloc::Global;

/// How much is done.
#[derive(Clone, Copy)]
struct Load {
    /// How many pairs are filed, each under a key of its own.
    pairs: u32,
    /// How often one of them is taken out and put back.
    rounds: u32,
    /// How many walks are made.
    walks: u32,
    /// How often the entries of a walk are counted.
    counts: u32,
}

/// The load that the words name; a small one where there are none.
fn load_of(words: &[String]) -> Result<Load> {
    if words.is_empty() {
        return Ok(Load {
            pairs: 1000,
            rounds: 100,
            walks: 100,
            counts: 100,
        });
    }
    Ok(Load {
        pairs: number(words, 0, "the pairs are missing")?,
        rounds: number(words, 1, "the rounds are missing")?,
        walks: number(words, 2, "the walks are missing")?,
        counts: number(words, 3, "the counts are missing")?,
    })
}

/// A number below the limit, in a scrambled order; the limit itself where it is 0.
fn scrambled(i: u32, limit: u32) -> u32 {
    match (i as u64 * 7919).checked_rem(limit as u64) {
        Some(number) => number as u32,
        None => limit,
    }
}

/// The key and the entry of the pair with this number.
fn pair(alloc: Global, number: u32) -> Result<(String, Filed), NoMemory> {
    let entry = Filed {
        id: number as i64,
        place: 0,
    };
    Ok((format!(in alloc; "db{number}")?, entry))
}

/// What is looked for at this round of a walk: the key of a pair, and more behind it.
fn place_of(alloc: Global, i: u32, load: Load) -> Result<String, NoMemory> {
    let number = scrambled(i, load.pairs);
    Ok(format!(in alloc; "db{number}/orders")?)
}

fn filled(alloc: Global, pairs: u32, steps: &mut Steps<Counted>) -> Result<Trie, NoMemory> {
    let mut trie = Trie::empty(alloc);
    for i in 0..pairs {
        let (key, entry) = pair(alloc, scrambled(i, pairs))?;
        trie = trie.insert(alloc, key.as_str(), entry, steps)?;
    }
    Ok(trie)
}

fn edited(
    alloc: Global,
    trie: Trie,
    load: Load,
    steps: &mut Steps<Counted>,
) -> Result<Trie, NoMemory> {
    let mut trie = trie;
    for i in 0..load.rounds {
        let (key, entry) = pair(alloc, scrambled(i, load.pairs))?;
        trie = trie.remove(alloc, key.as_str(), entry, steps)?;
        trie = trie.insert(alloc, key.as_str(), entry, steps)?;
    }
    Ok(trie)
}

/// How many entries a walk gives.
fn walked_once(trie: &Trie, value: &str) -> u64 {
    let mut found = 0u64;
    for _entry in trie.walk(value, false) {
        found = found.saturating_add(1);
    }
    found
}

/// How many entries the walks give.
fn walked(alloc: Global, trie: &Trie, load: Load) -> Result<u64, NoMemory> {
    let mut found = 0u64;
    for i in 0..load.walks {
        let value = place_of(alloc, i, load)?;
        found = found.saturating_add(walked_once(trie, value.as_str()));
    }
    Ok(found)
}

/// How many entries the walks would give.
fn counted(alloc: Global, trie: &Trie, load: Load) -> Result<u64, NoMemory> {
    let mut found = 0u64;
    for i in 0..load.counts {
        let value = place_of(alloc, i, load)?;
        found = found.saturating_add(trie.count(value.as_str(), false) as u64);
    }
    Ok(found)
}

fn measured(alloc: Global, load: Load) -> Result<(u64, u64, u64), NoMemory> {
    let mut steps = Steps::counted();
    let trie = filled(alloc, load.pairs, &mut steps)?;
    let trie = edited(alloc, trie, load, &mut steps)?;
    let found = walked(alloc, &trie, load)?;
    let counted = counted(alloc, &trie, load)?;
    Ok((steps.ledger().edits, found, counted))
}

/// `PAIRS ROUNDS WALKS COUNTS`: so much of each.
pub(crate) fn run(rt: &impl Print, alloc: Global, words: &[String]) -> Result<()> {
    let Ok((edits, found, counted)) = measured(alloc, load_of(words)?) else {
        return Err(refused());
    };
    println!(rt; "edits={edits} found={found} counted={counted}")?;
    Ok(())
}
