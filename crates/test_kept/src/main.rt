// What is kept, and what is reopened from it. With no word the program works all that follows, in the folder that it is run in, each
// under a line of its own: a database as a keeper; what stands with a keeper where each call fails, of the asks in `keeping.asks`; the same
// of a recorder, with those in `recording.asks`; and a small file that commands are kept in. Else its words say what it is to do:
//
// `append PATH COUNT ROWS`: reopens the database file, or makes it, and keeps commands in it until there are COUNT. After each answer it
// tells how many are kept. ROWS is how many rows of each kind the commands are about.
//
// `reopen PATH`: reopens the file, and tells what its commands make.
#![tactic(auto)]

mod administration;
mod database;
mod disk;
mod keepers;
mod keeping;
mod recording;

use anyhow::{Context, Result, anyhow};
use std::sync::Wait;
use std::{env, fs};

/// Prints rows under their heading.
fn print(rt: &HostRuntime, heading: &str, rows: &[String]) -> Result<()> {
    println!(rt; "{heading}")?;
    for row in rows {
        println!(rt; "{}", row.as_str())?;
    }
    Ok(())
}

/// Works all that needs no words. A recorder waits for its locks by the second.
fn work_all<R: Wait>(rt: &HostRuntime, waiting: &R) -> Result<()> {
    let alloc = rt.alloc();
    let rows = database::rows_of(alloc)?;
    print(rt, "== a database as a keeper", rows.as_slice())?;
    let asks = fs::read_to_string(rt, "keeping.asks")?;
    let rows = keeping::rows_of(alloc, asks.as_str())?;
    print(rt, "== keepers that fail", rows.as_slice())?;
    let asks = fs::read_to_string(rt, "recording.asks")?;
    let rows = recording::rows_of(rt, waiting, asks.as_str())?;
    print(rt, "== recorders over keepers that fail", rows.as_slice())?;
    println!(rt; "== commands in a file")?;
    disk::demonstrate(rt)
}

fn main(rt: HostRuntime) -> Result<()> {
    let mut words = env::args(&rt)?.skip(1);
    let Some(word) = words.next() else {
        return work_all(&rt, &rt);
    };
    let path = words.next().context("the path is missing")?;
    match word.as_str().as_bytes() {
        b"reopen" => disk::reopen(&rt, path.as_str()),
        b"append" => {
            let count = words.next().context("the count is missing")?;
            let rows = words.next().context("the rows are missing")?;
            disk::append(
                &rt,
                path.as_str(),
                count.as_str().parse()?,
                rows.as_str().parse()?,
            )
        }
        _ => Err(anyhow!("the first word is append or reopen")),
    }
}
