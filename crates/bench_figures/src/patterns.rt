// Pattern matching and overlap tests.
mod cases;

use crate::words::{number, refused};
use anyhow::{Context, Result};
use cases::{CASES, Case, count_of};
use std::alloc::Global;

/// `CASE ROUNDS`: the case so many times; each case once where there are no words.
pub(crate) fn run(rt: &impl Print, alloc: Global, words: &[String]) -> Result<()> {
    let Some(name) = words.first() else {
        for case in CASES {
            print_case(rt, alloc, case, 1)?;
        }
        return Ok(());
    };
    let case = Case::of_name(name.as_str()).context("there is no such case")?;
    print_case(rt, alloc, case, number(words, 1, "the rounds are missing")?)
}

fn print_case(rt: &impl Print, alloc: Global, case: Case, rounds: u32) -> Result<()> {
    let Ok(count) = count_of(alloc, case, rounds) else {
        return Err(refused());
    };
    println!(rt; "{}: {rounds} rounds, {count} hold", case.name())?;
    Ok(())
}
