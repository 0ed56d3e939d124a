// Workers on threads of their own, and the calling thread, which gives them links.
ghost use Rattle.std.specs.Prelude.{◌≡◌, ◌⊎◌, ◌+◌, ◌≤◌, ◌<◌, true, IfOk, OnOk, OnErr};

use crate::given::Given;
use crate::naming::Naming;
use crate::places::Workers;
use crate::sessions::Sessions;
use rg_admin::Recorder;
use rg_base::Failed;
use rg_hook::RequestHooks;
use rg_ports::{Clock, Gate, Link, Listener};
use rg_threads::{Queue, Waiting, Watcher};
use std::sync::Wait;
use std::thread;
use std::thread::Threads;

/// The workers, what they share, and the links that wait for them.
#[derive(Drop)]
pub(crate) struct Crew<'s, 'q, 'w, 'a, 'k, 'c, 'g, J: Naming, P: Recorder, C, G, H: Drop, T> {
    pub sessions: &'s Sessions<'a, 'k, 'c, 'g, J, P, C, G>,
    pub queue: &'q Queue<J, T>,
    pub workers: &'w Workers<J, P, H>,
}

/// This use of a returned reference ties it to the parameter that lent it.
fn given_back<N>(net: &mut N)
    ensures { net.new ≡ net.old }
{}

/// Serves links from the queue with the things of the worker of this place, which it keeps until the queue is closed and has none.
fn work<J: Naming, P: Recorder, T: Link + Drop, C: Clock, G: Gate, H: RequestHooks, R: Wait + Sync>(
    rt: &R,
    crew: &Crew<J, P, C, G, H, T>,
    at: usize,
) {
    let Workers { places, hooks } = crew.workers;
    let (Some(place), Some(own)) = (places.get(at), hooks.get(at)) else {
        return;
    };
    let mut parts = place.lock(rt);
    let mut hooks = own.lock(rt);
    for _ in rt.forever() {
        if !parts.take_next(rt, crew.sessions, &mut *hooks, crew.queue) {
            break;
        }
    }
}

/// Hands up to so many links to the workers, and says how many were given.
fn accept_all<
    J: Naming,
    P: Recorder,
    N: Listener,
    C: Clock,
    G: Gate,
    H: RequestHooks,
    R: Wait + Sync,
>(
    rt: &R,
    crew: &Crew<J, P, C, G, H, N::Link>,
    net: &mut N,
    given: &mut Given<J>,
) -> Result<u64, Failed>
    requires none { given.old.book.total ≡ 0 }
    ensures counted { IfOk result (λ n. given.new.book.total ≡ n) }
    ensures given { IfOk result (λ n. N.given net.new ≡ N.given net.old + n) }
    ensures all { IfOk result (λ n. (n ≤ given.old.most)
        × ((n ≡ given.old.most) ⊎ (N.ended net.new ≡ true))) }
    ensures kept { OnOk result (N.faults net.new ≡ N.faults net.old) }
    ensures failed { OnErr result (N.faults net.old < N.faults net.new) }
{
    let most = given.most;
    for accepted in 0..most {
        let link = match net.accept() {
            Ok(Some(link)) => link,
            Ok(None) => return Ok(accepted),
            Err(failed) => return Err(failed),
        };
        given.hand(rt, crew, link);
    }
    Ok(most)
}

/// Starts a thread for each worker, and accepts links meanwhile. All threads have ended when it returns, and the queue is closed.
/// Where none could be started the queue is closed before, so that the calling thread serves each link itself, with the things of
/// the first worker.
fn with_workers<
    J: Naming + Send + Sync,
    P: Recorder + Send,
    N: Listener,
    C: Clock,
    G: Gate,
    H: RequestHooks + Send,
    R: Threads + Wait + Sync,
>(
    rt: &R,
    crew: &Crew<J, P, C, G, H, N::Link>,
    net: &mut N,
    given: Given<J>,
) -> (Result<u64, Failed>, Given<J>)
    requires none { given.book.total ≡ 0 }
    ensures counted { IfOk result.0 (λ n. result.1.book.total ≡ n) }
    ensures given { IfOk result.0 (λ n. N.given net.new ≡ N.given net.old + n) }
    ensures all { IfOk result.0 (λ n. (n ≤ given.most)
        × ((n ≡ given.most) ⊎ (N.ended net.new ≡ true))) }
    ensures kept { OnOk result.0 (N.faults net.new ≡ N.faults net.old) }
    ensures failed { OnErr result.0 (N.faults net.old < N.faults net.new) }
{
    let (net, accepted, given) = thread::scope(
        thread::scope_env(),
        rt,
        move |scope| -> (&mut N, Result<u64, Failed>, Given<J>)
            requires { given.book.total ≡ 0 }
            ensures name { result.0.ghost_name ≡ net.entry.ghost_name }
            ensures counted { IfOk result.1 (λ n. result.2.book.total ≡ n) }
            ensures given { IfOk result.1 (λ n. N.given result.0.now ≡ N.given net.entry.now + n) }
            ensures all { IfOk result.1 (λ n. (n ≤ given.most)
                × ((n ≡ given.most) ⊎ (N.ended result.0.now ≡ true))) }
            ensures kept { OnOk result.1 (N.faults result.0.now ≡ N.faults net.entry.now) }
            ensures failed { OnErr result.1 (N.faults net.entry.now < N.faults result.0.now) }
        {
            let mut given = given;
            let mut any_started = false;
            for at in 0..crew.workers.places.len() {
                let started = scope.spawn(move || { work(rt, crew, at) });
                if started.is_ok() {
                    any_started = true;
                }
            }
            if !any_started {
                crew.queue.close(rt);
            }
            let accepted = accept_all(rt, crew, net, &mut given);
            crew.queue.close(rt);
            (net, accepted, given)
        },
    );
    given_back(net);
    (accepted, given)
}

/// Accepts up to so many links, which the workers serve, each on a thread of its own, while the watcher watches on another. It says
/// how many links were given. When it returns no thread is left, and the queue is closed. Where a thread can't be started the others
/// do its work, and where none can the calling thread does; only the watcher's is then left undone.
pub(crate) fn with_watcher<
    J: Naming + Send + Sync,
    P: Recorder + Send,
    N: Listener,
    C: Clock,
    G: Gate,
    H: RequestHooks + Send,
    V: Watcher + Sync,
    R: Threads + Wait + Sync,
>(
    rt: &R,
    crew: &Crew<J, P, C, G, H, N::Link>,
    watcher: &V,
    net: &mut N,
    given: Given<J>,
) -> (Result<u64, Failed>, Given<J>)
    requires none { given.book.total ≡ 0 }
    requires watcher { V.can_watch watcher.now }
    ensures counted { IfOk result.0 (λ n. result.1.book.total ≡ n) }
    ensures given { IfOk result.0 (λ n. N.given net.new ≡ N.given net.old + n) }
    ensures all { IfOk result.0 (λ n. (n ≤ given.most)
        × ((n ≡ given.most) ⊎ (N.ended net.new ≡ true))) }
    ensures kept { OnOk result.0 (N.faults net.new ≡ N.faults net.old) }
    ensures failed { OnErr result.0 (N.faults net.old < N.faults net.new) }
{
    let (net, accepted, given) = thread::scope(
        thread::scope_env(),
        rt,
        move |scope| -> (&mut N, Result<u64, Failed>, Given<J>)
            requires { (given.book.total ≡ 0) × V.can_watch watcher.now }
            ensures name { result.0.ghost_name ≡ net.entry.ghost_name }
            ensures counted { IfOk result.1 (λ n. result.2.book.total ≡ n) }
            ensures given { IfOk result.1 (λ n. N.given result.0.now ≡ N.given net.entry.now + n) }
            ensures all { IfOk result.1 (λ n. (n ≤ given.most)
                × ((n ≡ given.most) ⊎ (N.ended result.0.now ≡ true))) }
            ensures kept { OnOk result.1 (N.faults result.0.now ≡ N.faults net.entry.now) }
            ensures failed { OnErr result.1 (N.faults net.entry.now < N.faults result.0.now) }
        {
            let _started = scope.spawn(
                move ||
                    requires { V.can_watch watcher.now }
                { watcher.watch(rt) },
            );
            let (accepted, given) = with_workers(rt, crew, net, given);
            watcher.stop(rt);
            (net, accepted, given)
        },
    );
    given_back(net);
    (accepted, given)
}

/// Serves the links that are left in the queue.
pub(crate) fn finish_queue<
    J: Naming,
    P: Recorder,
    T: Link + Drop,
    C: Clock,
    G: Gate,
    H: RequestHooks,
    R: Wait + Sync,
>(rt: &R, sessions: &Sessions<J, P, C, G>, left: &mut Waiting<J, T>, workers: &Workers<J, P, H>)
    ensures { left.new.share.amount ≡ 0 }
{
    let mut parts = workers.places[0].lock(rt);
    let mut hooks = workers.hooks[0].lock(rt);
    while parts.take_left(rt, sessions, &mut *hooks, left) {}
}
