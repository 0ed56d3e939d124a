// Work of which the scripts of bench/ take the time. `bench_figures NAME WORDS..` does the work of this name, as much of it as the
// words say; without them it does so on a small scale, and prints fixed counts. With no name it does that with each, one after
// another.
#![tactic(auto)]

mod admin;
mod commands;
mod engine;
mod figure;
mod http;
mod passes;
mod patterns;
mod service;
mod session;
mod texts;
mod trie;
mod turn;
mod words;

use anyhow::{Context, Result};
use figure::{FIGURES, Figure};
use std::alloc::Global;
use std::env;
use std::sync::Wait;
use std::thread::Threads;
use std::time::Clock;

/// Does each work on a small scale.
fn run_each<R: Print + Threads + Wait + Clock + Sync>(rt: &R, alloc: Global) -> Result<()> {
    for figure in FIGURES {
        println!(rt; "{}: {}", figure.name(), figure.title())?;
        figure.run(rt, alloc, &[])?;
    }
    Ok(())
}

fn main(rt: HostRuntime) -> Result<()> {
    let words: Vec<String> = env::args(&rt)?.skip(1).collect(rt.alloc())?;
    match words.as_slice().split_first() {
        Some((name, words)) => Figure::of_name(name.as_str())
            .context("the names are patterns, trie, turn, http, admin, engine, session and passes")?
            .run(&rt, rt.alloc(), words),
        None => run_each(&rt, rt.alloc()),
    }
}
