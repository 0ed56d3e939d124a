// From the words to a service that keeps.
ghost use Rattle.std.specs.Prelude.{◌≡◌, ◌≢◌, ◌≤◌, IfErr, IfOk, length, map, string_bytes};
ghost use Rattle.std.specs.Process.{exit_status};
ghost use Rattle.rg_run_kept.specs.Ends.{IsEnd};
ghost use Rattle.rg_run_kept.specs.Words.{Wanted, wanted_of};

use crate::file_keeper::FileKeeper;
use crate::opening::Keeping;
use crate::pages::start_pages;
use crate::serving::{Ended, serve_kept};
use crate::watch::{Seen, Watch};
use crate::words::{Words, wanted_of};
use rg_audit_file::{AuditFile, Drops, SinkHooks};
use rg_base::{Moment, NoMemory, Text};
use rg_metrics::{CountedNet, Metrics};
use rg_ports::{Clock, FreeGate, StdSink, StdSource, TcpNet, WallClock};
use rg_run_script::Status;
use rg_threads::Halt;
use std::alloc::Global;
use std::process::ExitCode;
use std::sync::{Arc, Wait};
use std::thread::Threads;

/// How many links are served at once. A worker serves its link to the end, so a silent client keeps it.
const WORKERS: u32 = 64;

/// The hooks of a worker: audit lines go to the file that the words name, if they name one. Once it takes no more it is counted.
fn hooks_of(
    rt: &HostRuntime,
    words: &Words,
    drops: &Arc<Drops>,
) -> Result<SinkHooks<AuditFile>, Status>
    ensures { IfErr result (λ status. status ≢ Status.Usage) }
{
    let Some(path) = words.audit else {
        return Ok(SinkHooks::new(None));
    };
    let Ok(file) = AuditFile::open(rt, path) else {
        return Err(Status::WriteFault);
    };
    match Arc::try_clone(drops) {
        Ok(drops) => Ok(SinkHooks::new(Some(file)).counted_by(drops)),
        Err(_) => Err(Status::NoMemory),
    }
}

/// Those of all workers.
fn hooks_of_all(
    rt: &HostRuntime,
    words: &Words,
    drops: &Arc<Drops>,
) -> Result<Vec<SinkHooks<AuditFile>>, Status>
    ensures number { IfOk result (λ hooks. length hooks.items ≡ 64) }
    ensures stopped { IfErr result (λ status. status ≢ Status.Usage) }
{
    let mut all = Vec::new(rt.alloc());
    for made in 0..WORKERS {
        let hooks = hooks_of(rt, words, drops)?;
        if all.push(hooks).is_err() {
            return Err(Status::NoMemory);
        }
    }
    Ok(all)
}

/// What the parts of a service share.
#[derive(Drop)]
struct Shared {
    halt: Arc<Halt>,
    metrics: Arc<Metrics>,
    drops: Arc<Drops>,
    watch: Arc<Watch>,
}

impl Shared {
    /// Nothing was done yet, at this moment.
    fn new(alloc: Global, now: Moment) -> Result<Shared, NoMemory> {
        let halt = Arc::new(alloc, Halt::new())?;
        let metrics = Metrics::new(alloc, Arc::try_clone(&halt)?, now)?;
        Ok(Shared {
            halt,
            metrics: Arc::new(alloc, metrics)?,
            drops: Arc::new(alloc, Drops::new())?,
            watch: Arc::new(alloc, Watch::new())?,
        })
    }

    /// What the pages see.
    fn seen(&self) -> Result<Seen, NoMemory> {
        Ok(Seen {
            drops: Arc::try_clone(&self.drops)?,
            watch: Arc::try_clone(&self.watch)?,
        })
    }
}

/// The metrics, once more.
fn metrics_of(shared: &Shared) -> Result<Arc<Metrics>, Status>
    ensures { IfErr result (λ status. status ≡ Status.NoMemory) }
{
    match Arc::try_clone(&shared.metrics) {
        Ok(metrics) => Ok(metrics),
        Err(_) => Err(Status::NoMemory),
    }
}

/// The pages where the words ask for them, and the keeper.
fn prepare<R: Threads>(
    rt: &HostRuntime,
    threads: &R,
    words: &Words,
    shared: &Shared,
) -> Result<FileKeeper, Status>
    ensures { IfErr result (λ status. status ≢ Status.Usage) }
{
    let keeper = FileKeeper::open(rt, words.file, metrics_of(shared)?)?;
    if let Some(address) = words.metrics {
        let Ok(seen) = shared.seen() else {
            return Err(Status::NoMemory);
        };
        start_pages(rt, threads, address, metrics_of(shared)?, seen)?;
    }
    Ok(keeper)
}

/// Serves over what the machine has.
fn serve_words<R: Threads + Wait + Sync>(
    rt: &HostRuntime,
    threads: &R,
    words: &Words,
) -> Result<Status, Status>
    ensures served { IfOk result (λ status. status ≢ Status.Usage) }
    ensures stopped { IfErr result (λ status. status ≢ Status.Usage) }
{
    let alloc = rt.alloc();
    let Ok(shared) = Shared::new(alloc, WallClock(*rt).now()) else {
        return Err(Status::NoMemory);
    };
    let hooks = hooks_of_all(rt, words, &shared.drops)?;
    let Ok(address) = Text::copy_of(alloc, words.address) else {
        return Err(Status::NoMemory);
    };
    let keeper = prepare(rt, threads, words, &shared)?;
    let Shared {
        halt,
        metrics,
        drops: _,
        watch,
    } = shared;
    let Ended { keeper, status } = serve_kept(
        threads,
        alloc,
        Keeping {
            keeper,
            halt,
            watch,
        },
        hooks,
        &mut StdSource::new(rt.stdin()),
        &mut StdSink::new(rt.stdout()),
        &mut CountedNet::new(TcpNet::new(*rt), metrics),
        &address,
        &mut WallClock(*rt),
        &FreeGate,
    );
    drop(keeper);
    Ok(status)
}

/// What `main` ends with where a word isn't UTF-8.
pub fn refused() -> ExitCode
    ensures { IsEnd None (exit_status result) }
{
    ExitCode::from(Status::Usage.number())
}

/// What `main` ends with where memory is refused before the words are read.
pub fn out_of_memory() -> ExitCode
    ensures { (wanted : Wanted) → IsEnd (Some wanted) (exit_status result) }
{
    ExitCode::from(Status::NoMemory.number())
}

/// Opens the file, reads the configuration from standard input, takes the records of the file again, and then serves links at the
/// address until it is ended from outside, each accepted change in the file before it is answered.
pub fn start<R: Threads + Wait + Sync>(rt: &HostRuntime, threads: &R, words: &[String]) -> ExitCode
    ensures { IsEnd (wanted_of (map string_bytes words.now)) (exit_status result) }
{
    let status = match wanted_of(words) {
        Some(words) => match serve_words(rt, threads, &words) {
            Ok(status) => status,
            Err(status) => status,
        },
        None => Status::Usage,
    };
    ExitCode::from(status.number())
}
