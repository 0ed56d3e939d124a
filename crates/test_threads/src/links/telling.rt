// What is told of a session.
use crate::links::watched::{Sinks, tell_lines};
use rg_http::End;
use rg_link::{LinkFault, Report};
use std::alloc::{AllocError, Global};

/// How a response begins.
const START: &str = "HTTP/1.1 ";

/// Appends how the session ended, and how many messages it answered.
fn tell_end(told: &mut String, end: &Result<Report, LinkFault>) -> Result<(), AllocError> {
    let report = match end {
        Ok(report) => report,
        Err(LinkFault::Failed) => return told.push_str("failed"),
        Err(LinkFault::NoMemory) => return told.push_str("no memory"),
    };
    match report.end {
        End::Ended => told.push_str("ended")?,
        End::Cut => told.push_str("cut")?,
        End::Bad(status) => write!(told, "bad {status}")?,
        End::Full => told.push_str("full")?,
    }
    write!(told, " after {}", report.messages)
}

/// Appends a part that comes so often one after another.
fn tell_run(told: &mut String, count: u32, part: &str) -> Result<(), AllocError> {
    match count {
        0 => Ok(()),
        1 => write!(told, "{START}{part}"),
        _ => write!(told, "{count}*{START}{part}"),
    }
}

/// Appends the text, in which equal responses one after another are counted.
fn tell_responses(told: &mut String, text: &str) -> Result<(), AllocError> {
    let mut parts = text.split(START);
    told.push_str(parts.next().unwrap_or(""))?;
    let mut last = "";
    let mut count = 0u32;
    for part in parts {
        if part != last {
            tell_run(told, count, last)?;
            last = part;
            count = 0;
        }
        count = count.saturating_add(1);
    }
    tell_run(told, count, last)
}

/// What a session left, beside what it wrote.
#[derive(Drop)]
pub(crate) struct Left {
    pub(crate) end: Result<Report, LinkFault>,
    /// How often it called the administration.
    pub(crate) calls: u64,
    /// How many sinks were dropped.
    pub(crate) dropped: u32,
}

/// Appends what the sinks hold: the lines of the first, how many sinks were dropped, and where one was, the lines of the second.
fn tell_sinks(told: &mut String, sinks: &Sinks, dropped: u32) -> Result<(), AllocError> {
    told.push_str("|audited")?;
    tell_lines(told, &sinks.first)?;
    write!(told, "|dropped {dropped}")?;
    if 0 < dropped {
        told.push_str("|the second sink")?;
        tell_lines(told, &sinks.second)?;
    }
    Ok(())
}

/// How a session ended, how often it called the administration, what it wrote, and what the sinks hold.
pub(crate) fn told(
    alloc: Global,
    left: &Left,
    text: &str,
    sinks: &Sinks,
) -> Result<String, AllocError> {
    let mut told = String::new(alloc);
    tell_end(&mut told, &left.end)?;
    write!(told, "|{}|", left.calls)?;
    tell_responses(&mut told, text)?;
    tell_sinks(&mut told, sinks, left.dropped)?;
    Ok(told)
}
