// From the words to a plugin that runs.
ghost use Rattle.std.specs.Prelude.{◌≡◌, ◌⊎◌, ◌≤◌, None, Some, IfErr, IfOk, map, string_bytes, true};
ghost use Rattle.std.specs.Process.{exit_status};
ghost use Rattle.rg_facts.specs.Sound.{sound};
ghost use Rattle.rg_run_plugin.specs.Ends.{IsEnd};
ghost use Rattle.rg_run_plugin.specs.Words.{Wanted, wanted_of};

use crate::words::{Words, wanted_of};
use rg_audit_file::{AuditFile, SinkHooks};
use rg_base::{Moment, NoMemory, Text};
use rg_cache::{Cache, CacheFault, FileCache, recall};
use rg_facts::Facts;
use rg_facts_check::facts_fault;
use rg_follow::begin;
use rg_plugin::{Administration, Plugin, Post, Start, TcpAdministration, Worker, run};
use rg_ports::{Clock, Link, Listener, TcpNet, WallClock};
use rg_publish::Pass;
use rg_remote::Remote;
use rg_run_script::Status;
use std::alloc::Global;
use std::process::ExitCode;
use std::random::RandomSource;
use std::rt;
use std::sync::{Mutex, Wait};
use std::thread::Threads;
use std::time::Duration;

/// How many links are served at once. A worker serves its link to the end, so a silent client keeps it.
const WORKERS: u32 = 64;

/// How many seconds a call of a link to the administration waits at most.
const PATIENCE: u64 = 30;

/// Who asks the administration.
const USER: &str = "rangerd-plugin";

/// What a plugin begins with.
#[derive(Drop)]
struct Beginning {
    facts: Facts,
    /// When it was downloaded; None where it was kept from before the start.
    settled: Option<Moment>,
    ghost sound: { sound facts ≡ true },
}

/// What is kept for this service. What doesn't read, or is another service's, is as nothing.
fn kept<K: Cache>(
    alloc: Global,
    cache: &mut K,
    service: &str,
) -> Result<Option<Beginning>, NoMemory> {
    match recall(alloc, cache) {
        Ok(Some(facts)) if facts.service.as_str() == service => Ok(Some(Beginning {
            facts,
            settled: None,
        })),
        Ok(_) => Ok(None),
        Err(CacheFault::NoMemory) => Err(NoMemory),
        Err(_) => Ok(None),
    }
}

/// What is downloaded at the start.
fn downloaded<A: Administration>(
    alloc: Global,
    administration: &A,
    words: &Words,
    now: Moment,
) -> Result<Beginning, Status>
    ensures { IfErr result (λ status. (status ≡ Status.NetFault) ⊎ (status ≡ Status.NoMemory)) }
{
    let Ok(link) = administration.connect() else {
        return Err(Status::NetFault);
    };
    let Ok((mut remote, service)) = remote_of(alloc, link, words) else {
        return Err(Status::NoMemory);
    };
    let facts = match begin(alloc, &mut remote, service) {
        Ok(facts) => facts,
        Err(fault) => {
            let is_short = fault.is_short();
            drop(fault);
            return Err(if is_short {
                Status::NoMemory
            } else {
                Status::NetFault
            });
        }
    };
    match facts_fault(alloc, &facts) {
        Ok(false) => Ok(Beginning {
            facts,
            settled: Some(now),
        }),
        Ok(true) => Err(Status::NetFault),
        Err(NoMemory) => Err(Status::NoMemory),
    }
}

/// The administration over this link, and the service.
fn remote_of<T: Link + Drop>(
    alloc: Global,
    link: T,
    words: &Words,
) -> Result<(Remote<T>, Text), NoMemory> {
    let host = Text::copy_of(alloc, words.administration)?;
    let user = Text::copy_of(alloc, USER)?;
    let asked = Text::copy_of(alloc, words.service)?;
    let service = Text::copy_of(alloc, words.service)?;
    let remote = Remote::new(alloc, link, host, user, asked)?;
    Ok((remote, service))
}

/// What is kept, and else what is downloaded.
fn first<A: Administration, K: Cache>(
    alloc: Global,
    administration: &A,
    cache: &mut K,
    words: &Words,
    now: Moment,
) -> Result<Beginning, Status>
    ensures { IfErr result (λ status. (status ≡ Status.NetFault) ⊎ (status ≡ Status.NoMemory)) }
{
    match kept(alloc, cache, words.service) {
        Ok(Some(beginning)) => Ok(beginning),
        Ok(None) => downloaded(alloc, administration, words, now),
        Err(NoMemory) => Err(Status::NoMemory),
    }
}

/// The hooks of a worker: audit lines go to the file that the words name, if they name one.
fn hooks_of(rt: &HostRuntime, words: &Words) -> Result<SinkHooks<AuditFile>, Status>
    ensures { IfErr result (λ status. status ≡ Status.WriteFault) }
{
    let Some(path) = words.audit else {
        return Ok(SinkHooks::new(None));
    };
    match AuditFile::open(rt, path) {
        Ok(file) => Ok(SinkHooks::new(Some(file))),
        Err(_) => Err(Status::WriteFault),
    }
}

/// A worker for each pass.
fn workers_of(
    rt: &HostRuntime,
    passes: Vec<Pass>,
    words: &Words,
) -> Result<Vec<Mutex<Worker<SinkHooks<AuditFile>>>>, Status>
    ensures { IfErr result (λ status. (status ≡ Status.WriteFault) ⊎ (status ≡ Status.NoMemory)) }
{
    let mut workers = Vec::new(rt.alloc());
    for pass in passes {
        let hooks = hooks_of(rt, words)?;
        if workers.push(Mutex::new(Worker { pass, hooks })).is_err() {
            return Err(Status::NoMemory);
        }
    }
    Ok(workers)
}

/// So many seconds, and up to an eighth more, at random, so that plugins that were started together don't ask together.
fn pause_of(rt: &HostRuntime, seconds: u64) -> Duration {
    let mut share = [0];
    if rt.fill_bytes(&mut share).is_err() {
        return Duration::from_secs(seconds);
    }
    let more = seconds.saturating_mul(125 * u64::from(share[0])) / 256;
    Duration::from_millis(seconds.saturating_mul(1000).saturating_add(more))
}

/// The plugin as it begins, over its file, and a pass for each worker.
fn open<'f, 'w, 't, A: Administration, R: Threads + Wait + Sync + rt::Clock>(
    rt: &'f HostRuntime,
    threads: &'t R,
    administration: &A,
    words: &Words<'w>,
    now: Moment,
) -> Result<(Start<FileCache<'f, 'w, HostRuntime>, &'t R>, Vec<Pass>), Status>
    ensures { IfErr result (λ status. (status ≡ Status.NetFault) ⊎ (status ≡ Status.NoMemory)) }
{
    let alloc = rt.alloc();
    let Ok(mut cache) = FileCache::new(alloc, rt, words.cache) else {
        return Err(Status::NoMemory);
    };
    let Beginning { facts, settled } = first(alloc, administration, &mut cache, words, now)?;
    let Ok(service) = Text::copy_of(alloc, words.service) else {
        return Err(Status::NoMemory);
    };
    match Plugin::open(threads, alloc, cache, service, facts, WORKERS) {
        Ok((plugin, passes)) => Ok((Start { plugin, settled }, passes)),
        Err(NoMemory) => Err(Status::NoMemory),
    }
}

/// Begins, listens and runs. It returns where it can't begin, and else never.
fn serve<R: Threads + Wait + Sync + rt::Clock>(
    rt: &HostRuntime,
    threads: &R,
    words: &Words,
) -> Result<(), Status>
    ensures { IfErr result (λ status. (status ≡ Status.WriteFault)
        ⊎ ((status ≡ Status.NetFault) ⊎ (status ≡ Status.NoMemory))) }
{
    let administration = TcpAdministration {
        net: rt,
        address: words.administration,
        patience: PATIENCE,
    };
    let mut clock = WallClock(*rt);
    let (start, passes) = open(rt, threads, &administration, words, clock.now())?;
    let workers = workers_of(rt, passes, words)?;
    let mut net = TcpNet::new(*rt);
    let Ok(()) = net.listen(words.address) else {
        return Err(Status::NetFault);
    };
    let post = Post {
        alloc: rt.alloc(),
        administration: &administration,
        service: words.service,
        host: words.administration,
        user: USER,
        pause: pause_of(rt, words.seconds),
    };
    match run(
        threads,
        &post,
        start,
        workers.as_slice(),
        &mut net,
        &mut clock,
    ) {
        Ok(()) => Ok(()),
        Err(NoMemory) => Err(Status::NoMemory),
    }
}

/// What `main` ends with where a word isn't UTF-8.
pub fn refused() -> ExitCode
    ensures { IsEnd None (exit_status result) }
{
    ExitCode::from(Status::Usage.number())
}

/// What `main` ends with where memory is refused before the words are read.
pub fn out_of_memory() -> ExitCode
    ensures { (wanted : Wanted) → IsEnd (Some wanted) (exit_status result) }
{
    ExitCode::from(Status::NoMemory.number())
}

/// Begins with what is kept, or else with what the administration tells, listens, and then decides, and follows the administration,
/// until it is ended from outside. It ends by itself where it can't begin: nothing is kept and there is no answer, or it can't listen
/// (5), the file of audit lines can't be opened (4), or memory is refused or no thread can be started (9).
pub fn start<R: Threads + Wait + Sync + rt::Clock>(
    rt: &HostRuntime,
    threads: &R,
    words: &[String],
) -> ExitCode
    ensures { IsEnd (wanted_of (map string_bytes words.now)) (exit_status result) }
{
    let status = match wanted_of(words) {
        Some(words) => match serve(rt, threads, &words) {
            Ok(()) => Status::Done,
            Err(status) => status,
        },
        None => Status::Usage,
    };
    ExitCode::from(status.number())
}
