// What is counted of a small workload.
use super::workload::{facts, generator, requests};
use rg_base::{Counted, NoMemory, Steps};
use rg_engine::Engine;
use rg_facts::Access;
use rg_policy::AccessRequest;
use std::alloc::Global;

/// How many policies there are.
const POLICIES: u32 = 60;

/// How many requests are drawn.
const REQUESTS: u32 = 20_000;

#[derive(Clone, Copy)]
pub(super) struct Counts {
    pub(super) compiles: u64,
    pub(super) edits: u64,
    pub(super) tries: u64,
    pub(super) allowed: u32,
    pub(super) denied: u32,
}

/// How many of the requests are allowed, and how many denied.
fn answered(engine: &Engine, requests: &[AccessRequest], steps: &mut Steps<Counted>) -> (u32, u32) {
    let mut allowed = 0u32;
    let mut denied = 0u32;
    for request in requests {
        let verdict = engine.verdict(request, steps);
        match verdict.access {
            Access::Allowed => allowed = allowed.saturating_add(1),
            Access::Denied => denied = denied.saturating_add(1),
            Access::Undetermined => {}
        }
    }
    (allowed, denied)
}

/// Builds an engine, and decides each request.
pub(super) fn counted(alloc: Global) -> Result<Counts, NoMemory> {
    let mut generator = generator();
    let mut steps = Steps::counted();
    let facts = facts(alloc, &mut generator, POLICIES)?;
    let requests = requests(alloc, &mut generator, POLICIES, REQUESTS)?;
    let engine = Engine::build(alloc, facts, &mut steps)?;
    let (allowed, denied) = answered(&engine, requests.as_slice(), &mut steps);
    let work = *steps.ledger();
    Ok(Counts {
        compiles: work.compiles,
        edits: work.edits,
        tries: work.tries,
        allowed,
        denied,
    })
}
