// The program over the machine.
ghost use Rattle.std.specs.Prelude.{◌≡◌, ◌≤◌, true, IfOk, IsSome, Option, length, map, string_bytes};
ghost use Rattle.std.specs.Process.{exit_status};
ghost use Rattle.rg_run.specs.declared.command.Command as the;
ghost use Rattle.rg_run.specs.Commands.{command_of, takes_keeper};
ghost use Rattle.rg_run.specs.Runs.{IsEndOf};

use crate::command::{Command, command_of};
use crate::program::run;
use rg_base::NoMemory;
use rg_hook::{AuditFan, Enrichers, WorkerHooks};
use rg_ports::{FreeGate, Sink, Source, StdSink, StdSource, TcpNet, WallClock};
use rg_record_store::SqlKeeper;
use rg_run_script::Status;
use sqlite::{Connection, MemStore};
use std::alloc::Global;
use std::process::ExitCode;
use std::sync::Wait;
use std::thread::Threads;

/// How many links are served at once. A worker serves its link to the end, so a silent client keeps it.
const WORKERS: u32 = 64;

/// Workers without sinks and enrichers.
fn plain_workers(alloc: Global) -> Result<Vec<WorkerHooks>, NoMemory>
    ensures { IfOk result (λ hooks. length hooks.items ≡ 64) }
{
    let mut workers = Vec::new(alloc);
    for made in 0..WORKERS {
        workers.push(WorkerHooks {
            sinks: AuditFan::new(Vec::new(alloc)),
            enrichers: Enrichers::new(Vec::new(alloc)),
        })?;
    }
    Ok(workers)
}

/// A keeper over a database in memory, which lasts as long as the program. Such a database refuses nothing but memory.
fn keeper_in_memory(alloc: Global) -> Result<SqlKeeper<MemStore>, NoMemory> {
    let Ok(connection) = Connection::open_in_memory(alloc) else {
        return Err(NoMemory);
    };
    match SqlKeeper::new(connection) {
        Ok(keeper) => Ok(keeper),
        Err((_error, connection)) => {
            drop(connection);
            Err(NoMemory)
        }
    }
}

/// The keeper of `keep`. No other command has one.
fn keeper_for(alloc: Global, words: &[String]) -> Result<Option<SqlKeeper<MemStore>>, NoMemory>
    ensures { IfOk result (λ keeper. takes_keeper (command_of (map string_bytes words.now)) ≡ true
        → IsSome keeper) }
{
    match command_of(alloc, words)? {
        Some(Command::Keep) => Ok(Some(keeper_in_memory(alloc)?)),
        _ => Ok(None),
    }
}

/// Runs with these workers by the machine's clock and its network. It stands apart from `start`, where it isn't found that the workers
/// may cross threads.
fn run_plain<S: Source, K: Sink>(
    rt: &HostRuntime,
    threads: &(impl Threads + Wait + Sync),
    words: &[String],
    source: &mut S,
    sink: &mut K,
    workers: &mut Vec<WorkerHooks>,
) -> Result<u8, NoMemory>
    requires { (1 ≤ length workers.old.items) × (length workers.old.items ≤ 64) }
    ensures { IfOk result (λ status. IsEndOf (command_of (map string_bytes words.now)) status) }
{
    let mut clock = WallClock(*rt);
    let mut net = TcpNet::new(*rt);
    let mut keeper = keeper_for(rt.alloc(), words)?;
    let status = run(
        threads,
        rt.alloc(),
        words,
        source,
        sink,
        &mut clock,
        &mut net,
        &FreeGate,
        workers,
        &mut keeper,
    );
    Ok(status)
}

/// Runs over what the machine has, and answers the number of the status.
fn run_on_machine(
    rt: &HostRuntime,
    threads: &(impl Threads + Wait + Sync),
    words: &[String],
) -> Result<u8, NoMemory>
    ensures { IfOk result (λ status. IsEndOf (command_of (map string_bytes words.now)) status) }
{
    let mut source = StdSource::new(rt.stdin());
    let mut sink = StdSink::new(rt.stdout());
    let mut workers = plain_workers(rt.alloc())?;
    run_plain(rt, threads, words, &mut source, &mut sink, &mut workers)
}

/// What `main` ends with where memory is refused before a command begins.
pub fn out_of_memory() -> ExitCode
    ensures { (command : Option the.Command) → IsEndOf command (exit_status result) }
{
    ExitCode::from(Status::NoMemory.number())
}

/// Runs over standard input and output, the machine's clock and its network, and starts its threads by `threads`. `keep` has a
/// keeper in memory. The answer is what `main` ends with.
pub fn start(rt: &HostRuntime, threads: &(impl Threads + Wait + Sync), words: &[String]) -> ExitCode
    ensures { IsEndOf (command_of (map string_bytes words.now)) (exit_status result) }
{
    match run_on_machine(rt, threads, words) {
        Ok(status) => ExitCode::from(status),
        Err(_) => out_of_memory(),
    }
}
