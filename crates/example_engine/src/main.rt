// The engine alone, in a program of one's own: it is built from facts, moved by a change of a policy, and asked from four threads at once.
#![tactic(auto)]

mod engines;
mod fault;

use anyhow::Result;
use engines::{built, changed};
use fault::Fault;
use rg_base::{Moment, Seq, Steps};
use rg_cmd::{CREATED, PolicyChange};
use rg_engine::Engine;
use rg_facts::Verdict;
use rg_policy::AccessRequest;
use rg_shared::Shared;
use rg_wire::{access_word, read_policy, read_request};
use std::alloc::{AllocError, Global};
use std::thread;
use std::thread::Threads;

/// A service with one policy, by which ann may select on the database `sales`.
const FACTS: &str =
    r#"{"service":"hive1","serviceDef":{"name":"hive","resources":[{"name":"database"}],"accessTypes":[{"name":"select"}]},"policies":[{"id":1,"name":"p1","resources":{"database":{"values":["sales"]}},"policyItems":[{"users":["ann"],"accesses":[{"type":"select"}]}]}]}"#;

/// A second policy, by which the group `audit` may select on each database.
const POLICY: &str =
    r#"{"id":2,"name":"p2","resources":{"database":{"values":["*"]}},"policyItems":[{"groups":["audit"],"accesses":[{"type":"select"}]}]}"#;

/// Who asks, and their groups as JSON has them.
const ASKERS: [(&str, &str); 4] = [
    ("ann", "[]"),
    ("bob", "[\"audit\"]"),
    ("eve", "[\"sales\"]"),
    ("zoe", "[\"sales\",\"audit\"]"),
];

/// The asker wants to select on the database `sales`.
fn request(alloc: Global, user: &str, groups: &str) -> Result<AccessRequest, Fault> {
    let json = format!(in alloc;
        "{{\"user\":\"{user}\",\"userGroups\":{groups},\"resource\":{{\"elements\":{{\"database\":\"sales\"}}}},\"accessType\":\"select\"}}"
    )?;
    Ok(read_request(alloc, json.as_bytes(), Moment(0))?)
}

fn requests(alloc: Global) -> Result<Vec<AccessRequest>, Fault> {
    let mut requests = Seq::new(alloc);
    for (user, groups) in ASKERS {
        requests.add(request(alloc, user, groups)?)?;
    }
    Ok(requests.into_vec())
}

/// What the engine decides, each request on a thread of its own.
fn verdicts<R: Threads + Sync>(
    rt: &R,
    engine: &Engine,
    requests: Vec<AccessRequest>,
) -> Result<Vec<Verdict>, AllocError> {
    thread::map_vec(
        rt,
        requests,
        &|request: AccessRequest| -> Verdict { engine.verdict(&request, &mut Steps::silent()) },
    )
}

/// Asks the engine, and prints what it decides.
fn ask<R: Print + AllocGlobal + Threads + Sync>(rt: &R, engine: &Engine) -> Result<()> {
    println!(rt; "policies at version {}", engine.policy_version().0)?;
    let verdicts = verdicts(rt, engine, requests(rt.alloc())?)?;
    for ((user, _), verdict) in ASKERS.iter().zip(&verdicts) {
        println!(rt;
            "{user}: {} {}",
            access_word(verdict.access),
            verdict.policy.0
        )?;
    }
    Ok(())
}

fn main(rt: HostRuntime) -> Result<()> {
    let alloc = rt.alloc();
    let engine = built(alloc, FACTS)?;
    ask(&rt, &engine)?;
    let policy = read_policy(alloc, POLICY.as_bytes()).map_err(Fault::from)?;
    let change = PolicyChange {
        change_type: CREATED,
        tag: false,
        policy: Shared::new(alloc, policy).map_err(Fault::from)?,
    };
    let next = changed(alloc, &engine, change)?;
    ask(&rt, &next)
}
