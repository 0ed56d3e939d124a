// Requests decided again and again.
use super::Load;
use crate::texts::{request, user_of};
use anyhow::{Result, anyhow};
use rg_base::{Moment, Steps};
use rg_engine::Engine;
use rg_policy::AccessRequest;
use rg_publish::Pass;
use rg_wire::read_request;
use std::alloc::Global;

/// How many requests there are.
const REQUESTS: u32 = 100;

/// What a pass saw.
#[derive(Clone, Copy)]
pub(super) struct Seen {
    pub(super) decisions: u64,
    /// How many publications it decided by.
    pub(super) serials: u64,
    /// How often a publication was older than the one before.
    pub(super) falling: u64,
    /// The publication of its last decision.
    last: u64,
}

impl Seen {
    pub(super) fn nothing() -> Seen {
        Seen {
            decisions: 0,
            serials: 0,
            falling: 0,
            last: 0,
        }
    }

    fn note(&mut self, serial: u64) {
        self.decisions = self.decisions.saturating_add(1);
        if serial != self.last {
            self.serials = self.serials.saturating_add(1);
        }
        if serial < self.last {
            self.falling = self.falling.saturating_add(1);
        }
        self.last = serial;
    }

    /// Both together.
    pub(super) fn and(self, other: Seen) -> Seen {
        Seen {
            decisions: self.decisions.saturating_add(other.decisions),
            serials: self.serials.saturating_add(other.serials),
            falling: self.falling.saturating_add(other.falling),
            last: self.last.max(other.last),
        }
    }
}

/// Requests spread over the tables of the policies, each of a user whom the policy allows.
pub(super) fn requests(alloc: Global, load: Load) -> Result<Vec<AccessRequest>> {
    let mut requests = Vec::new(alloc);
    let step = (load.policies / REQUESTS).max(1);
    for place in 0..REQUESTS {
        let number = (place.wrapping_mul(step) % load.policies.max(1)).saturating_add(1);
        let text = request(alloc, number, user_of(number))?;
        match read_request(alloc, text.as_bytes(), Moment(0)) {
            Ok(request) => requests.push(request)?,
            Err(_) => return Err(anyhow!("no request was read")),
        }
    }
    Ok(requests)
}

fn decide_once(pass: &mut Pass, requests: &[AccessRequest], seen: &mut Seen) {
    let mut steps = Steps::silent();
    for request in requests {
        let answer = pass.verdict(request, &mut steps);
        seen.note(answer.serial.0);
    }
}

/// Decides each of the requests so many times.
pub(super) fn decide(mut pass: Pass, requests: &[AccessRequest], rounds: u32) -> Seen {
    let mut seen = Seen::nothing();
    for _ in 0..rounds {
        decide_once(&mut pass, requests, &mut seen);
    }
    seen
}

fn judge_once(engine: &Engine, requests: &[AccessRequest], seen: &mut Seen) {
    let mut steps = Steps::silent();
    for request in requests {
        let _verdict = engine.verdict(request, &mut steps);
        seen.note(1);
    }
}

/// Decides each of the requests so many times by the engine alone.
pub(super) fn judge(engine: &Engine, requests: &[AccessRequest], rounds: u32) -> Seen {
    let mut seen = Seen::nothing();
    for _ in 0..rounds {
        judge_once(engine, requests, &mut seen);
    }
    seen
}
