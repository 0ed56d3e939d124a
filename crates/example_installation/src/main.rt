// An installation of one's own: rangerd with a line for each audited decision in a file, and with the site in the context of each request.
//
//     example_installation FILE WORD..
//
// FILE is where audit lines are appended; the words are those of rangerd.
#![tactic(auto)]

ghost use Rattle.std.specs.Prelude.{◌≤◌, length};

use anyhow::{Context, Result};
use rg_audit_file::AuditFile;
use rg_base::{Pair, Seq, Text};
use rg_hook::{AuditFan, AuditSink, Enricher, Enrichers, FixedPair, WorkerHooks};
use rg_ports::{FreeGate, StdSink, StdSource, TcpNet, WallClock};
use rg_record_store::MemKeeper;
use std::alloc::{AllocError, Global};
use std::env;
use std::process::ExitCode;
use std::sync::Wait;
use std::thread::Threads;

/// How many links are served at once. A script is worked by the first worker alone.
const WORKERS: u32 = 8;

/// Tells each request where it is decided, for policies with a condition on that.
fn site(alloc: Global) -> Result<FixedPair, AllocError> {
    let key = Text::of(String::from_str(alloc, "site")?);
    let value = Text::of(String::from_str(alloc, "north")?);
    Ok(FixedPair {
        pair: Pair { key, value },
    })
}

/// Runs as rangerd does, but with these workers.
fn run(
    rt: &HostRuntime,
    threads: &(impl Threads + Wait + Sync),
    words: &[String],
    workers: &mut Vec<WorkerHooks>,
) -> ExitCode
    requires { (1 ≤ length workers.old.items) × (length workers.old.items ≤ 64) }
{
    let alloc = rt.alloc();
    let mut source = StdSource::new(rt.stdin());
    let mut sink = StdSink::new(rt.stdout());
    let mut clock = WallClock(*rt);
    let mut net = TcpNet::new(*rt);
    let mut keeper = Some(MemKeeper::new(Seq::new(alloc), Seq::new(alloc)));
    let status = rg_run::run(
        threads,
        alloc,
        words,
        &mut source,
        &mut sink,
        &mut clock,
        &mut net,
        &FreeGate,
        workers,
        &mut keeper,
    );
    ExitCode::from(status)
}

fn main(rt: HostRuntime) -> Result<ExitCode> {
    let alloc = rt.alloc();
    let mut words = env::args(&rt)?.skip(1);
    let file = words.next().context("the file for audit lines is missing")?;
    let words: Vec<String> = words.collect(alloc)?;
    let mut workers = Vec::new(alloc);
    for made in 0..WORKERS {
        let mut sinks: Vec<Box<dyn AuditSink + Send>> = Vec::new(alloc);
        sinks.push(Box::new(alloc, AuditFile::open(&rt, file.as_str())?)?)?;
        let mut enrichers: Vec<Box<dyn Enricher + Send>> = Vec::new(alloc);
        enrichers.push(Box::new(alloc, site(alloc)?)?)?;
        workers.push(WorkerHooks {
            sinks: AuditFan::new(sinks),
            enrichers: Enrichers::new(enrichers),
        })?;
    }
    Ok(run(&rt, &rt, words.as_slice(), &mut workers))
}
