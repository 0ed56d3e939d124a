// Two threads grant by one administration, each to 50 users. Told are the grants that were accepted, the items for the users of each
// thread, all items of the one policy, and the entries of the history.
use crate::administration::{CREATE, ask_of, kept_id, root, started};
use crate::callers::{Asked, Asks, asked_by_two};
use crate::printing::print_row;
use anyhow::Result;
use rg_admin::Admin;
use rg_cmd::AdminReply;
use rg_grant::{GrantAsk, GrantDesk, read_grant};
use rg_policy::Item;
use std::alloc::Global;
use std::sync::Wait;
use std::thread::Threads;

/// The grants to users whose names begin so.
#[derive(Clone, Copy)]
struct Grants(&'static str);

fn grant_in(alloc: Global, json: &str) -> Option<GrantAsk> {
    let actor = root(alloc)?;
    match read_grant(alloc, json.as_bytes()) {
        Ok(row) => Some(GrantAsk::Grant { actor, row }),
        Err(_) => None,
    }
}

impl Asks<GrantDesk> for Grants {
    fn count(&self) -> u32 {
        50
    }

    /// The grant of select on `sales` to the user of this number.
    fn ask(&self, alloc: Global, number: u32) -> Option<GrantAsk> {
        let name = self.0;
        let json = format!(in alloc;
            "{{\"service\":\"hive1\",\"resources\":{{\"database\":{{\"values\":[\"sales\"]}}}},\"users\":[\"{name}{number}\"],\"accessTypes\":[\"select\"]}}"
        );
        match json {
            Ok(json) => grant_in(alloc, json.as_str()),
            Err(_) => None,
        }
    }

    fn id_of(&self, reply: AdminReply) -> Option<u64> {
        kept_id(reply)
    }
}

/// Whether the item is for one user, whose name begins so.
fn is_for(item: &Item, name: &str) -> bool {
    match item.users.as_slice() {
        [user] => user.as_str().starts_with(name),
        _ => false,
    }
}

fn count_for(items: &[Item], name: &str) -> usize {
    items.iter().filter(|item| is_for(item, name)).count()
}

/// The allow items of the first policy.
fn items_of_first(admin: &Admin) -> &[Item] {
    match admin.state().policies.as_slice().first() {
        Some(policy) => policy.items.as_slice(),
        None => &[],
    }
}

/// The administration with its one policy.
fn with_policy(alloc: Global, config: &str) -> Option<GrantDesk> {
    let admin = started(alloc, config)?;
    let ask = ask_of(alloc, CREATE)?;
    let mut desk = GrantDesk::new(admin);
    match desk.step(alloc, GrantAsk::Plain(ask)) {
        Ok(reply) => {
            let _id = kept_id(reply)?;
            Some(desk)
        }
        Err(_) => None,
    }
}

fn told_of(alloc: Global, asked: &Asked<GrantDesk>) -> Option<String> {
    let (granted, other_granted) = (asked.ids.0.len(), asked.ids.1.len());
    let items = items_of_first(&asked.machine.admin);
    let (appended, other_appended) = (count_for(items, "one"), count_for(items, "two"));
    let all = items.len();
    let entries = asked.entries;
    format!(in alloc;
        "granted={granted}+{other_granted} appended={appended}+{other_appended} items={all} entries={entries}"
    ).ok()
}

/// Two threads grant at once.
fn granted<R: Threads + Wait + Sync>(rt: &R, alloc: Global, config: &str) -> Option<String> {
    let Some(desk) = with_policy(alloc, config) else {
        return None;
    };
    let Some(asked) = asked_by_two(rt, alloc, desk, (&Grants("one"), &Grants("two"))) else {
        return None;
    };
    told_of(alloc, &asked)
}

/// Prints the table.
pub(crate) fn print<R: Print + Threads + Wait + Sync>(
    rt: &R,
    alloc: Global,
    config: &str,
) -> Result<()> {
    print_row(
        rt,
        "two threads, 50 grants each",
        granted(rt, alloc, config),
    )
}
