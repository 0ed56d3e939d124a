// Passes on threads of their own, beside the publisher.
use super::Load;
use super::deciding::{Seen, decide, judge, requests};
use super::publishing::{change_until, create_all};
use crate::service::{OpenService, opened};
use crate::words::refused;
use anyhow::{Result, anyhow};
use rg_policy::AccessRequest;
use rg_publish::Pass;
use std::alloc::Global;
use std::sync::atomic::{AtomicU64, Ordering};
use std::sync::{Arc, Wait};
use std::thread;
use std::thread::{JoinHandle, Threads};
use std::time::{Clock, Instant};

/// What was done.
#[derive(Clone, Copy)]
pub(super) struct Done {
    pub(super) decisions: u64,
    /// Publications that the passes decided by, added up.
    pub(super) serials: u64,
    /// How often a pass went back to an older publication.
    pub(super) falling: u64,
    pub(super) micros: u64,
    /// How many changes were published while the passes decided.
    pub(super) publications: u64,
}

/// What threads share.
type Shared = (Arc<Vec<AccessRequest>, Global>, Arc<AtomicU64, Global>);

/// Starts a thread on which the pass decides.
fn start<R: Threads>(
    rt: &R,
    pass: Pass,
    requests: Arc<Vec<AccessRequest>, Global>,
    finished: Arc<AtomicU64, Global>,
    rounds: u32,
) -> Option<JoinHandle<Seen>> {
    match thread::spawn(rt, move || -> Seen {
        let seen = decide(pass, requests.as_slice(), rounds);
        finished.fetch_add(1, Ordering::SeqCst);
        seen
    }) {
        Ok(handle) => Some(handle),
        Err(_) => None,
    }
}

/// Starts a thread for each of the passes.
fn start_all<R: Threads>(
    rt: &R,
    alloc: Global,
    passes: Vec<Pass>,
    shared: &Shared,
    rounds: u32,
) -> Result<Vec<JoinHandle<Seen>>> {
    let mut handles = Vec::new(alloc);
    for pass in passes {
        let requests = Arc::try_clone(&shared.0)?;
        let finished = Arc::try_clone(&shared.1)?;
        let Some(handle) = start(rt, pass, requests, finished, rounds) else {
            return Err(anyhow!("no thread was started"));
        };
        handles.push(handle)?;
    }
    Ok(handles)
}

/// What all of them saw.
fn join_all<R: Threads + Wait>(rt: &R, handles: Vec<JoinHandle<Seen>>) -> Seen {
    let mut seen = Seen::nothing();
    for handle in handles {
        seen = seen.and(handle.join(rt));
    }
    seen
}

/// Lets the passes decide while changes are published.
fn decided<R: Threads + Wait + Clock, P: Wait + Drop>(
    rt: &R,
    alloc: Global,
    service: &mut OpenService<P>,
    passes: Vec<Pass>,
    load: Load,
) -> Result<Done> {
    let requests = Arc::new(alloc, requests(alloc, load)?)?;
    let finished = Arc::new(alloc, AtomicU64::new(0))?;
    let shared = (requests, finished);
    let start = Instant::now(rt)?;
    if load.passes == 0 {
        let seen = judge(service.newest(), shared.0.as_slice(), load.rounds);
        return done_since(rt, start, seen, 0);
    }
    let handles = start_all(rt, alloc, passes, &shared, load.rounds)?;
    let mut publications = 0;
    if 0 < load.pause {
        publications = change_until(rt, alloc, service, &*shared.1, load);
    }
    let seen = join_all(rt, handles);
    done_since(rt, start, seen, publications)
}

fn done_since<R: Clock>(rt: &R, start: Instant, seen: Seen, publications: u64) -> Result<Done> {
    let micros = start.elapsed(rt)?.as_micros();
    Ok(Done {
        decisions: seen.decisions,
        serials: seen.serials,
        falling: seen.falling,
        micros: micros.min(u128::from(u64::MAX)) as u64,
        publications,
    })
}

/// Creates the policies, publishes them, and lets the passes decide.
pub(super) fn measured<R: Threads + Wait + Clock>(
    rt: &R,
    alloc: Global,
    load: Load,
) -> Result<Done> {
    let Some((mut service, passes)) = opened(rt, alloc, load.passes) else {
        return Err(refused());
    };
    create_all(rt, alloc, &mut service, load);
    let _published = service.refresh(rt, alloc);
    decided(rt, alloc, &mut service, passes, load)
}
