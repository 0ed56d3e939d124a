// A table of runs of `serve`, with links in memory that threads serve. The rows are
// `name|workers|most|failing|meeting|line|bytes|bytes ..`. A link whose bytes begin with `!` fails at its second read.
ghost use Rattle.std.specs.Prelude.{◌≤◌, IfSome};

mod listening;
mod running;

use anyhow::{Result, anyhow};
use listening::{SharedLink, Taken};
use running::{Case, served};
use std::alloc::{AllocError, Global};
use std::sync::{Arc, Mutex, Wait};
use std::thread::Threads;
use test_tables::{spelled, written};

/// Appends the bytes that a link took.
fn tell_taken(told: &mut String, alloc: Global, taken: &Taken) -> Result<(), AllocError> {
    told.push('|')?;
    let Some(bytes) = taken.try_lock() else {
        return told.push_str("lost");
    };
    let text = written(alloc, bytes.as_slice(), "\r\n")?;
    told.push_str(text.as_str())
}

/// A link of the row, which keeps what it takes.
fn link_of(alloc: Global, text: &str, taken: Taken) -> Result<SharedLink, AllocError> {
    match text.strip_prefix('!') {
        Some(rest) => {
            let bytes = spelled(alloc, rest)?;
            SharedLink::new(alloc, bytes.as_slice(), &[2], taken)
        }
        None => {
            let bytes = spelled(alloc, text)?;
            SharedLink::new(alloc, bytes.as_slice(), &[], taken)
        }
    }
}

/// The number of workers, if it is 1 to 64.
fn workers_of(text: &str) -> Option<u32>
    ensures { IfSome result (λ n. (1 ≤ n) × (n ≤ 64)) }
{
    match text.parse::<u32>() {
        Ok(number) if 1 <= number && number <= 64 => Some(number),
        _ => None,
    }
}

fn number_of(text: Option<&str>) -> u32 {
    text.unwrap_or("").parse::<u32>().unwrap_or(0)
}

/// Serves the row's links, and tells how the run ended and what each link took.
fn told_of<R: Threads + Wait + Sync>(
    rt: &R,
    alloc: Global,
    config: &str,
    line: &str,
) -> Result<String> {
    let mut fields = line.split('|');
    let name = fields.next().unwrap_or("");
    let Some(workers) = workers_of(fields.next().unwrap_or("")) else {
        return Err(anyhow!("1 to 64 workers"));
    };
    let case = Case {
        config,
        workers,
        most: fields.next().unwrap_or(""),
        failing: u64::from(number_of(fields.next())),
        meeting: number_of(fields.next()),
        line: fields.next().unwrap_or(""),
    };
    let mut links = Vec::new(alloc);
    let mut all_taken = Vec::new(alloc);
    for text in fields {
        let taken: Taken = Arc::new(alloc, Mutex::new(Vec::new(alloc)))?;
        links.push(link_of(alloc, text, Arc::try_clone(&taken)?)?)?;
        all_taken.push(taken)?;
    }
    let printed = served(rt, alloc, &case, links)?;
    let mut told = String::new(alloc);
    write!(told, "{name}|{}", printed.as_str())?;
    for taken in &all_taken {
        tell_taken(&mut told, alloc, taken)?;
    }
    Ok(told)
}

/// Serves the links of the line, and prints its row.
pub(crate) fn print_line<R: Print + Threads + Wait + Sync>(
    rt: &R,
    alloc: Global,
    config: &str,
    line: &str,
) -> Result<()> {
    let told = told_of(rt, alloc, config, line)?;
    println!(rt; "{}", told.as_str())?;
    Ok(())
}
