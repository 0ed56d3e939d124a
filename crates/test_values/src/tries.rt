// Rows about tries. EDITS are `+KEY:ID:PLACE` for an entry that is inserted, and `-KEY:ID:PLACE` for one that is removed.
use crate::many_edits;
use crate::rows::{count, field, number, tell_yes_or_no, told};
use rg_base::{Counted, NoMemory, Steps, split_char};
use rg_trie::{Filed, Trie};
use std::alloc::Global;
use std::marker::{Send, Sync};

/// The trie after one edit.
fn edited(
    alloc: Global,
    trie: &Trie,
    edit: &str,
    steps: &mut Steps<Counted>,
) -> Result<Trie, NoMemory> {
    let (sign, pair) = split_char(edit).unwrap_or((' ', ""));
    let mut words = pair.split(':');
    let key = words.next().unwrap_or("");
    let entry = Filed {
        id: number(words.next().unwrap_or("")),
        place: count(words.next().unwrap_or("")),
    };
    if sign == '+' {
        trie.insert(alloc, key, entry, steps)
    } else {
        trie.remove(alloc, key, entry, steps)
    }
}

/// The trie of the edits that commas part.
fn built(alloc: Global, edits: &str, steps: &mut Steps<Counted>) -> Result<Trie, NoMemory> {
    let mut trie = Trie::empty(alloc);
    for edit in edits.split(',') {
        trie = edited(alloc, &trie, edit, steps)?;
    }
    Ok(trie)
}

/// Adds the id and the place of each entry under the value, and how many there are.
fn add_walk(answer: &mut String, trie: &Trie, value: &str, fold: bool) -> Result<(), NoMemory> {
    for entry in trie.walk(value, fold) {
        write!(answer, "{}:{} ", entry.id, entry.place)?;
    }
    Ok(write!(answer, "counted {}", trie.count(value, fold))?)
}

/// `walk|EDITS|VALUE|FOLD`: the entries under the value, of which the letters are folded or not.
fn tell_walk(alloc: Global, row: &str) -> Result<String, NoMemory> {
    let mut steps = Steps::counted();
    let trie = built(alloc, field(row, 1), &mut steps)?;
    let mut answer = String::new(alloc);
    add_walk(&mut answer, &trie, field(row, 2), field(row, 3) == "fold")?;
    Ok(answer)
}

/// The entries under the value in both tries.
fn told_beside(alloc: Global, old: &Trie, new: &Trie, value: &str) -> Result<String, NoMemory> {
    let mut answer = String::new(alloc);
    add_walk(&mut answer, old, value, false)?;
    answer.push_str(" beside ")?;
    add_walk(&mut answer, new, value, false)?;
    Ok(answer)
}

/// `beside|EDITS|EDIT|VALUE`: after one more edit, the entries under the value in the old trie and in the new one.
fn tell_beside(alloc: Global, row: &str) -> Result<String, NoMemory> {
    let mut steps = Steps::counted();
    let old = built(alloc, field(row, 1), &mut steps)?;
    let new = edited(alloc, &old, field(row, 2), &mut steps)?;
    told_beside(alloc, &old, &new, field(row, 3))
}

/// `steps|EDITS`: the steps that the edits count.
fn tell_steps(alloc: Global, row: &str) -> Result<String, NoMemory> {
    let mut steps = Steps::counted();
    let trie = built(alloc, field(row, 1), &mut steps)?;
    drop(trie);
    let ledger = steps.ledger();
    let (compiles, edits, tries) = (ledger.compiles, ledger.edits, ledger.tries);
    Ok(format!(in alloc; "{compiles} compiles, {edits} edits, {tries} tries")?)
}

/// Holds only of values that several threads may use.
fn may_be_shared<T: Send + Sync>(_value: &T) -> bool {
    true
}

pub(crate) fn answer(alloc: Global, row: &str) -> Result<String, NoMemory> {
    match field(row, 0) {
        "walk" => tell_walk(alloc, row),
        "beside" => tell_beside(alloc, row),
        "steps" => tell_steps(alloc, row),
        "many" => many_edits::tell(alloc, count(field(row, 1)), count(field(row, 2))),
        "shared" => tell_yes_or_no(alloc, may_be_shared(&Trie::empty(alloc))),
        _ => told(alloc, "no such row"),
    }
}
