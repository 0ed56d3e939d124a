// What a service has done since its start.
use crate::family::{Family, Kind};
use crate::tallies::Tallies;
use crate::watched::{Inside, Newest};
use rg_base::{Moment, NoMemory};
use rg_threads::{Halt, HaltCause};
use std::alloc::Global;
use std::str;
use std::sync::Arc;
use std::sync::atomic::{AtomicBool, AtomicU64, Ordering};

/// The statuses of answers.
const STATUSES: [&str; 13] = [
    "200", "204", "304", "400", "401", "403", "404", "405", "411", "413", "431", "501", "503",
];

/// What a decision says.
const ACCESSES: [&str; 3] = ["ALLOWED", "DENIED", "UNDETERMINED"];

/// The rules by which a command is refused.
const RULES: [&str; 59] = [
    "L1", "E1", "E2", "E3", "E4", "E5", "E6", "E7", "S1", "S2", "S3", "S4", "S5", "S6", "S7", "S8",
    "C1", "C2", "C3", "C4", "C5", "C6", "V1", "V2", "V3", "V4", "V5", "V6", "V7", "V8", "V9",
    "V10", "V11", "V12", "V13", "V14", "A1", "A2", "A3", "A4", "A5", "O1", "O2", "O3", "O4", "Z1",
    "Z2", "Z3", "Z4", "Z5", "Z6", "Z7", "Z8", "G1", "G2", "G3", "G4", "U1", "U2",
];

/// What a service has done since its start, as its threads count it. Nothing is proved of the counts.
#[derive(Drop)]
pub struct Metrics {
    begun: Moment,
    halt: Arc<Halt>,
    is_serving: AtomicBool,
    links: AtomicU64,
    kept: AtomicU64,
    answers: Tallies,
    decisions: Tallies,
    refusals: Tallies,
}

/// The end of an answer's head.
const HEAD_END: &[u8] = b"\r\n\r\n";

/// The first bytes of each answer, behind which its status stands.
const VERSION: &[u8] = b"HTTP/1.1 ";

/// The body of an answer, the empty one where its head has no end.
fn body_of(answer: &[u8]) -> &[u8] {
    let mut rest = answer;
    while let Some((_, others)) = rest.split_first() {
        if let Some(body) = rest.strip_prefix(HEAD_END) {
            return body;
        }
        rest = others;
    }
    &[]
}

/// The text up to this byte.
fn text_before(bytes: &[u8], end: u8) -> Option<&str> {
    let at = bytes.iter().position(|byte| *byte == end)?;
    str::from_utf8(&bytes[..at]).ok()
}

/// The word behind these bytes, with which the body begins.
fn word_behind<'a>(body: &'a [u8], front: &[u8]) -> Option<&'a str> {
    text_before(body.strip_prefix(front)?, b'"')
}

impl Metrics {
    /// Nothing was done yet, at this moment. `halt` is set where no more changes are taken.
    pub fn new(alloc: Global, halt: Arc<Halt>, now: Moment) -> Result<Metrics, NoMemory> {
        Ok(Metrics {
            begun: now,
            halt,
            is_serving: AtomicBool::new(false),
            links: AtomicU64::new(0),
            kept: AtomicU64::new(0),
            answers: Tallies::new(alloc, &STATUSES)?,
            decisions: Tallies::new(alloc, &ACCESSES)?,
            refusals: Tallies::new(alloc, &RULES)?,
        })
    }

    /// Links are accepted from now on.
    pub fn set_serving(&self) {
        self.is_serving.store(true, Ordering::Relaxed);
    }

    /// Whether links are accepted.
    pub fn is_serving(&self) -> bool {
        self.is_serving.load(Ordering::Relaxed)
    }

    /// Why no more changes are taken; None while they are taken.
    pub fn stopped(&self) -> Option<HaltCause> {
        self.halt.cause()
    }

    /// One link more was accepted.
    pub fn add_link(&self) {
        self.links.fetch_add(1, Ordering::Relaxed);
    }

    /// So many commands are kept.
    pub fn set_kept(&self, kept: u64) {
        self.kept.store(kept, Ordering::Relaxed);
    }

    /// How many commands are kept.
    pub fn kept(&self) -> u64 {
        self.kept.load(Ordering::Relaxed)
    }

    /// How many seconds have passed since the start; 0 where the clock went back.
    pub fn seconds(&self, now: Moment) -> u64 {
        u64::try_from(now.0.saturating_sub(self.begun.0)).unwrap_or(0)
    }

    /// This answer was written: its status is counted, and what its body says of a decision or a refusal.
    pub fn add_answer(&self, answer: &[u8]) {
        let Some(head) = answer.strip_prefix(VERSION) else {
            return;
        };
        if let Some(status) = text_before(head, b' ') {
            self.answers.add(status);
        }
        let body = body_of(head);
        if let Some(access) = word_behind(body, b"{\"access\":\"") {
            self.decisions.add(access);
        }
        if let Some(rule) = word_behind(body, b"{\"rule\":\"") {
            self.refusals.add(rule);
        }
    }

    /// How it stands at this moment.
    fn add_gauges(
        &self,
        alloc: Global,
        families: &mut Vec<Family>,
        inside: Inside,
        now: Moment,
    ) -> Result<(), NoMemory> {
        let gauges = [
            ("rangerd_uptime_seconds", self.seconds(now)),
            ("rangerd_serving", u64::from(self.is_serving())),
            ("rangerd_stopped", u64::from(self.stopped().is_some())),
            ("rangerd_kept_commands", self.kept()),
            ("rangerd_dropped_sinks", inside.dropped_sinks),
        ];
        for (name, value) in gauges {
            add(families, Family::of(alloc, Kind::Gauge, name, value)?)?;
        }
        match inside.newest {
            Some(newest) => add_newest(alloc, families, newest),
            None => Ok(()),
        }
    }

    /// All of it, as it stands at this moment, with what is seen of the service. Where nothing is published yet its numbers are left
    /// out.
    pub fn families(
        &self,
        alloc: Global,
        inside: Inside,
        now: Moment,
    ) -> Result<Vec<Family>, NoMemory> {
        let mut families = Vec::new(alloc);
        self.add_gauges(alloc, &mut families, inside, now)?;
        let links = self.links.load(Ordering::Relaxed);
        add(
            &mut families,
            Family::of(alloc, Kind::Counter, "rangerd_links_total", links)?,
        )?;
        let answers = self.answers.samples(alloc)?;
        add(
            &mut families,
            Family::by("rangerd_answers_total", "status", answers),
        )?;
        let decisions = self.decisions.samples(alloc)?;
        add(
            &mut families,
            Family::by("rangerd_decisions_total", "access", decisions),
        )?;
        let refusals = self.refusals.samples(alloc)?;
        add(
            &mut families,
            Family::by("rangerd_refusals_total", "rule", refusals),
        )?;
        Ok(families)
    }
}

fn add(families: &mut Vec<Family>, family: Family) -> Result<(), NoMemory> {
    match families.push(family) {
        Ok(()) => Ok(()),
        Err(_) => Err(NoMemory),
    }
}

/// The numbers of the newest publication.
fn add_newest(alloc: Global, families: &mut Vec<Family>, newest: Newest) -> Result<(), NoMemory> {
    let gauges = [
        ("rangerd_publications", newest.serial.0),
        ("rangerd_policy_version", newest.policy_version.0),
        ("rangerd_role_version", newest.role_version.0),
        ("rangerd_tag_version", newest.tag_version.0),
    ];
    for (name, value) in gauges {
        add(families, Family::of(alloc, Kind::Gauge, name, value)?)?;
    }
    Ok(())
}
