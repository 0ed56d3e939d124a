// The threads of a plugin: workers that serve links. The calling thread follows the administration.
use crate::board::{Board, BoardReader};
use crate::plugin::Plugin;
use crate::remote::Administration;
use rg_base::{Failed, Moment, NoMemory, Text};
use rg_cache::Cache;
use rg_health::Cause;
use rg_hook::RequestHooks;
use rg_plugin_link::{Deciding, Desk};
use rg_ports::{Clock, FreeGate, Listener};
use rg_publish::Pass;
use rg_remote::Remote;
use rg_threads::SharedClock;
use std::alloc::Global;
use std::sync::{Mutex, Wait};
use std::thread::Threads;
use std::time::Duration;
use std::{rt, thread};

/// How many milliseconds a worker waits where no link could be accepted.
const PAUSE: u64 = 100;

/// What a worker has for itself.
#[derive(Drop)]
pub struct Worker<H: Drop> {
    pub pass: Pass,
    pub hooks: H,
}

/// What a plugin asks for, and where.
#[derive(Drop)]
pub struct Post<'a, A> {
    pub alloc: Global,
    pub administration: &'a A,
    pub service: &'a str,
    /// The administration, as its links are addressed.
    pub host: &'a str,
    /// Who asks.
    pub user: &'a str,
    /// How long it waits between two rounds.
    pub pause: Duration,
}

/// A plugin as it begins.
#[derive(Drop)]
pub struct Start<K: Cache + Drop, Q: Wait + Drop> {
    pub plugin: Plugin<K, Q>,
    /// When its facts were downloaded; None where they were kept from before the start.
    pub settled: Option<Moment>,
}

// Serves links, one after another, until none is to come.
fn serve_links<N: Listener, C: Clock, H: RequestHooks, R: Wait + Sync + rt::Clock>(
    rt: &R,
    desk: &Desk<FreeGate, BoardReader<R>>,
    net: &Mutex<&mut N>,
    clock: &Mutex<&mut C>,
    worker: &Mutex<Worker<H>>,
) {
    let mut worker = worker.lock(rt);
    let mut clock = SharedClock::new(rt, clock);
    for _ in rt.forever() {
        match accept(rt, net) {
            Ok(Some(mut link)) => {
                let Worker { pass, hooks } = &mut *worker;
                let _report = desk.serve_link(&mut link, pass, &mut clock, hooks);
            }
            Ok(None) => break,
            Err(Failed) => thread::sleep(rt, Duration::from_millis(PAUSE)),
        }
    }
}

// The next link. Whoever has the lock waits for it.
fn accept<N: Listener, R: Wait>(rt: &R, net: &Mutex<&mut N>) -> Result<Option<N::Link>, Failed> {
    let mut net = net.lock(rt);
    net.accept()
}

// The administration over a link of its own.
fn reach<A: Administration>(post: &Post<A>) -> Result<Remote<A::Link>, Cause> {
    let alloc = post.alloc;
    let host = copy(alloc, post.host)?;
    let user = copy(alloc, post.user)?;
    let service = copy(alloc, post.service)?;
    let Ok(link) = post.administration.connect() else {
        return Err(Cause::Connection);
    };
    match Remote::new(alloc, link, host, user, service) {
        Ok(remote) => Ok(remote),
        Err(NoMemory) => Err(Cause::Memory),
    }
}

fn copy(alloc: Global, text: &str) -> Result<Text, Cause> {
    match Text::copy_of(alloc, text) {
        Ok(text) => Ok(text),
        Err(NoMemory) => Err(Cause::Memory),
    }
}

// One round. What is published is kept.
fn renew<A: Administration, K: Cache + Drop, Q: Wait + Drop>(
    post: &Post<A>,
    plugin: &mut Plugin<K, Q>,
) -> Option<Cause> {
    let mut remote = match reach(post) {
        Ok(remote) => remote,
        Err(cause) => return Some(cause),
    };
    if let Err(cause) = plugin.follow(post.alloc, &mut remote) {
        return Some(cause);
    }
    keep(post.alloc, plugin)
}

// Keeps what is published, where it is still to be kept.
fn keep<K: Cache + Drop, Q: Wait + Drop>(
    alloc: Global,
    plugin: &mut Plugin<K, Q>,
) -> Option<Cause> {
    if !plugin.is_unkept() {
        return None;
    }
    match plugin.keep_newest(alloc) {
        Ok(()) => None,
        Err(_) => Some(Cause::Cache),
    }
}

// The time of a clock that threads share.
fn moment<C: Clock, R: Wait>(rt: &R, clock: &Mutex<&mut C>) -> Moment {
    let mut clock = clock.lock(rt);
    clock.now()
}

// Keeps what the plugin begins with, and then follows the administration, round after round, without end.
fn follow_rounds<A: Administration, K: Cache + Drop, Q: Wait + Drop, C: Clock, R: Wait + rt::Clock>(
    rt: &R,
    post: &Post<A>,
    plugin: Plugin<K, Q>,
    clock: &Mutex<&mut C>,
    board: &Board,
) {
    let mut plugin = plugin;
    let _fault = keep(post.alloc, &mut plugin);
    for _ in rt.forever() {
        thread::sleep(rt, post.pause);
        let fault = renew(post, &mut plugin);
        board.tell(rt, &plugin, fault, moment(rt, clock));
    }
}

// Starts a thread for each worker, and follows meanwhile. False where no thread could be started.
fn with_workers<
    A: Administration,
    K: Cache + Drop,
    Q: Wait + Drop,
    N: Listener + Send,
    C: Clock,
    H: RequestHooks + Send,
    R: Threads + Wait + Sync + rt::Clock,
>(
    rt: &R,
    post: &Post<A>,
    plugin: Plugin<K, Q>,
    workers: &[Mutex<Worker<H>>],
    net: &Mutex<&mut N>,
    clock: &Mutex<&mut C>,
    board: &Board,
) -> bool {
    let alloc = post.alloc;
    let service = post.service;
    thread::scope(thread::scope_env(), rt, move |scope| -> bool {
        let mut any_started = false;
        for (number, worker) in workers.iter().enumerate() {
            let started = scope.spawn(move || {
                let standing = BoardReader { board, rt };
                let deciding = Deciding {
                    alloc,
                    gate: &FreeGate,
                    plugin: service,
                    worker: u32::try_from(number).unwrap_or(u32::MAX),
                };
                let desk = Desk {
                    standing: &standing,
                    deciding,
                };
                serve_links(rt, &desk, net, clock, worker);
            });
            if started.is_ok() {
                any_started = true;
            }
        }
        if any_started {
            follow_rounds(rt, post, plugin, clock, board);
        }
        any_started
    })
}

/// Serves links by a thread for each worker, and follows the administration by this one, without end: a link that can't be accepted, a
/// fault of a link and a round that fails end nothing. Refused where no thread can be started.
pub fn run<
    A: Administration,
    K: Cache + Drop,
    Q: Wait + Drop,
    N: Listener + Send,
    C: Clock,
    H: RequestHooks + Send,
    R: Threads + Wait + Sync + rt::Clock,
>(
    rt: &R,
    post: &Post<A>,
    start: Start<K, Q>,
    workers: &[Mutex<Worker<H>>],
    net: &mut N,
    clock: &mut C,
) -> Result<(), NoMemory> {
    let Start { plugin, settled } = start;
    let board = Board::new(&plugin, settled);
    let net = Mutex::new(net);
    let clock = Mutex::new(clock);
    if with_workers(rt, post, plugin, workers, &net, &clock, &board) {
        return Ok(());
    }
    Err(NoMemory)
}
