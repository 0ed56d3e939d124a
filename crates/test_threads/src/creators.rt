// Two threads create policies by one administration, 100 each, over databases of their own.
use crate::administration::{ask_of, kept_id, started};
use crate::callers::{Asks, asked_by_two, told_of_calls};
use crate::printing::print_row;
use anyhow::Result;
use rg_admin::Admin;
use rg_cmd::{AdminReply, Ask};
use std::alloc::Global;
use std::sync::Wait;
use std::thread::Threads;

/// The creations of policies whose names begin so.
#[derive(Clone, Copy)]
struct Creations(&'static str);

impl Asks<Admin> for Creations {
    fn count(&self) -> u32 {
        100
    }

    fn ask(&self, alloc: Global, number: u32) -> Option<Ask> {
        let name = self.0;
        let json = format!(in alloc;
            "{{\"command\":\"createPolicy\",\"policy\":{{\"service\":\"hive1\",\"name\":\"{name}{number}\",\"resources\":{{\"database\":{{\"values\":[\"{name}{number}\"]}}}},\"policyItems\":[{{\"users\":[\"ann\"],\"accesses\":[{{\"type\":\"select\"}}]}}]}}}}"
        );
        match json {
            Ok(json) => ask_of(alloc, json.as_str()),
            Err(_) => None,
        }
    }

    fn id_of(&self, reply: AdminReply) -> Option<u64> {
        kept_id(reply)
    }
}

/// How often each thread called, which ids its policies got, all policies, and the entries of the history.
fn created<R: Threads + Wait + Sync>(rt: &R, alloc: Global, config: &str) -> Option<String> {
    let Some(admin) = started(alloc, config) else {
        return None;
    };
    let Some(asked) = asked_by_two(rt, alloc, admin, (&Creations("a"), &Creations("b"))) else {
        return None;
    };
    let calls = told_of_calls(alloc, &asked).ok()?;
    let policies = asked.machine.state().policies.len();
    let entries = asked.entries;
    format!(in alloc;
        "{}, policies {policies}, entries {entries}",
        calls.as_str()
    )
    .ok()
}

/// Prints the table.
pub(crate) fn print<R: Print + Threads + Wait + Sync>(
    rt: &R,
    alloc: Global,
    config: &str,
) -> Result<()> {
    print_row(
        rt,
        "two threads, 100 policies each",
        created(rt, alloc, config),
    )
}
