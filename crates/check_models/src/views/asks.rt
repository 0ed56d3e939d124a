// Made-up commands, of which some break a rule.
use crate::draws::{FACTOR, spread};
use rg_admin::Admin;
use rg_base::{NoMemory, Text};
use rg_cmd::{AdminCommand, AdminReply, Ask};
use rg_cmd_wire::{read_command, read_config};
use std::alloc::Global;

const CONFIG: &str =
    r#"{"admins":["root"],"plugin":"hive1","serviceDefs":[{"name":"hive","resources":[{"name":"database"},{"name":"table","parent":"database","level":1},{"name":"column","parent":"table","level":2}],"accessTypes":[{"name":"select"},{"name":"all","impliedGrants":["select"]}]},{"name":"tag","resources":[{"name":"tag"}],"accessTypes":[{"name":"hive:select"}]}],"services":[{"name":"hive1","type":"hive","tagService":"tags1"},{"name":"hive2","type":"hive","tagService":"tags1"},{"name":"tags1","type":"tag"}]}"#;

/// The administration before any ask.
pub(crate) fn started(alloc: Global) -> Option<Admin> {
    match read_config(alloc, CONFIG.as_bytes()) {
        Ok(config) => match Admin::start(alloc, config) {
            Ok(admin) => Some(admin),
            Err(_) => None,
        },
        Err(_) => None,
    }
}

/// A number below `count`, 0 where that is 0; `place` tells the draws of one ask apart.
fn drawn(ask: u64, place: u64, count: u64) -> u64 {
    if count == 0 {
        return 0;
    }
    let mixed = spread(ask.wrapping_mul(16).wrapping_add(place));
    (mixed.wrapping_mul(FACTOR) >> 40) % count
}

// ---- commands in JSON

fn tag_policy(alloc: Global, ask: u64) -> Result<Text, NoMemory> {
    let name = drawn(ask, 1, 6);
    let user = drawn(ask, 2, 50);
    Ok(Text::of(format!(in alloc;
        "{{\"command\":\"createPolicy\",\"policy\":{{\"service\":\"tags1\",\"name\":\"t{name}\",\"resources\":{{\"tag\":{{\"values\":[\"T{name}\"]}}}},\"policyItems\":[{{\"users\":[\"u{user}\"],\"accesses\":[{{\"type\":\"hive:select\"}}]}}]}}}}"
    )?))
}

fn zone_policy(alloc: Global, ask: u64) -> Result<Text, NoMemory> {
    let zone = drawn(ask, 1, 5);
    let table = drawn(ask, 2, 4);
    Ok(Text::of(format!(in alloc;
        "{{\"command\":\"createPolicy\",\"policy\":{{\"service\":\"hive1\",\"zoneName\":\"z{zone}\",\"name\":\"z{table}\",\"resources\":{{\"table\":{{\"values\":[\"t{table}\"]}}}},\"policyItems\":[{{\"roles\":[\"r{table}\"],\"accesses\":[{{\"type\":\"all\"}}]}}]}}}}"
    )?))
}

fn role(alloc: Global, ask: u64) -> Result<Text, NoMemory> {
    let name = drawn(ask, 1, 6);
    let held = drawn(ask, 2, 12);
    Ok(Text::of(format!(in alloc;
        "{{\"command\":\"putRole\",\"role\":{{\"name\":\"r{name}\",\"users\":[\"u{held}\"],\"roles\":[\"r{held}\"]}}}}"
    )?))
}

fn bare_role(alloc: Global, ask: u64) -> Result<Text, NoMemory> {
    let name = drawn(ask, 1, 6);
    let user = drawn(ask, 2, 50);
    Ok(Text::of(format!(in alloc;
        "{{\"command\":\"putRole\",\"role\":{{\"name\":\"r{name}\",\"users\":[\"u{user}\"]}}}}"
    )?))
}

fn no_role(alloc: Global, ask: u64) -> Result<Text, NoMemory> {
    let name = drawn(ask, 1, 6);
    Ok(Text::of(format!(in alloc; "{{\"command\":\"deleteRole\",\"name\":\"r{name}\"}}")?))
}

fn zone(alloc: Global, ask: u64) -> Result<Text, NoMemory> {
    let name = drawn(ask, 1, 5);
    let prefix = drawn(ask, 2, 6);
    let user = drawn(ask, 3, 50);
    Ok(Text::of(format!(in alloc;
        "{{\"command\":\"putZone\",\"zone\":{{\"name\":\"z{name}\",\"services\":{{\"hive1\":{{\"resources\":[{{\"database\":[\"{prefix}*\"]}}]}}}},\"tagServices\":[\"tags1\"],\"auditUsers\":[\"u{user}\"]}}}}"
    )?))
}

fn no_zone(alloc: Global, ask: u64) -> Result<Text, NoMemory> {
    let name = drawn(ask, 1, 5);
    Ok(Text::of(format!(in alloc; "{{\"command\":\"deleteZone\",\"name\":\"z{name}\"}}")?))
}

fn tags(alloc: Global, ask: u64) -> Result<Text, NoMemory> {
    let id = drawn(ask, 1, 12);
    let service = drawn(ask, 2, 3);
    let database = drawn(ask, 3, 50);
    Ok(Text::of(format!(in alloc;
        "{{\"command\":\"putTags\",\"id\":{id},\"row\":{{\"serviceName\":\"hive{service}\",\"resourceElements\":{{\"database\":{{\"values\":[\"db{database}\"]}}}},\"tags\":[{{\"type\":\"T{id}\"}}]}}}}"
    )?))
}

fn no_tags(alloc: Global, ask: u64) -> Result<Text, NoMemory> {
    let id = drawn(ask, 1, 12);
    Ok(Text::of(format!(in alloc; "{{\"command\":\"deleteTags\",\"id\":{id}}}")?))
}

/// The plugin's service leaves undecided requests open, or not.
fn service(alloc: Global, ask: u64) -> Result<Text, NoMemory> {
    let is_open = drawn(ask, 1, 2) == 0;
    Ok(Text::of(format!(in alloc;
        "{{\"command\":\"updateService\",\"service\":{{\"name\":\"hive1\",\"type\":\"hive\",\"tagService\":\"tags1\",\"fallback\":{is_open}}}}}"
    )?))
}

/// A definition with one access type more.
fn definition(alloc: Global, ask: u64) -> Result<Text, NoMemory> {
    let access = drawn(ask, 1, 9);
    Ok(Text::of(format!(in alloc;
        "{{\"command\":\"putDef\",\"def\":{{\"name\":\"tag\",\"resources\":[{{\"name\":\"tag\"}}],\"accessTypes\":[{{\"name\":\"hive:select\"}},{{\"name\":\"hive:{access}\"}}]}}}}"
    )?))
}

/// Seldom one of those that empty a log.
fn service_or_definition(alloc: Global, ask: u64) -> Result<Text, NoMemory> {
    match drawn(ask, 5, 4) {
        0 => service(alloc, ask),
        1 => definition(alloc, ask),
        _ => bare_role(alloc, ask),
    }
}

/// One of 48 policies: a new one where the id is 0, else the new form of that one.
fn policy(alloc: Global, ask: u64, command: &str, id: i64) -> Result<Text, NoMemory> {
    let name = drawn(ask, 2, 48);
    let database = drawn(ask, 3, 50);
    let user = drawn(ask, 4, 100);
    let items = if drawn(ask, 5, 8) == 0 {
        "denyPolicyItems"
    } else {
        "policyItems"
    };
    Ok(Text::of(format!(in alloc;
        "{{\"command\":\"{command}\",\"policy\":{{\"id\":{id},\"service\":\"hive1\",\"name\":\"p{name}\",\"resources\":{{\"database\":{{\"values\":[\"db{database}\"]}},\"table\":{{\"values\":[\"t{name}\"]}}}},\"{items}\":[{{\"users\":[\"u{user}\"],\"accesses\":[{{\"type\":\"all\"}}]}}]}}}}"
    )?))
}

fn no_policy(alloc: Global, id: i64) -> Result<Text, NoMemory> {
    Ok(Text::of(format!(in alloc; "{{\"command\":\"deletePolicy\",\"id\":{id}}}")?))
}

/// The command of this kind; the id is that of some policy.
fn text_of(alloc: Global, ask: u64, kind: u64, id: i64) -> Result<Text, NoMemory> {
    match kind {
        0 => tag_policy(alloc, ask),
        1 => zone_policy(alloc, ask),
        2 => role(alloc, ask),
        3 => bare_role(alloc, ask),
        4 => no_role(alloc, ask),
        5 => zone(alloc, ask),
        6 => no_zone(alloc, ask),
        7 | 8 => tags(alloc, ask),
        9 => no_tags(alloc, ask),
        10 => service_or_definition(alloc, ask),
        11..=13 => policy(alloc, ask, "createPolicy", 0),
        14 | 15 => policy(alloc, ask, "updatePolicy", id),
        16..=18 => no_policy(alloc, id),
        _ => bare_role(alloc, ask),
    }
}

/// The id of some policy that is there; 1 where there is none.
fn some_id(admin: &Admin, ask: u64) -> i64 {
    let policies = admin.state().policies.as_slice();
    let place = drawn(ask, 1, policies.len() as u64);
    match policies.get(place as usize) {
        Some(policy) => policy.id.0,
        None => 1,
    }
}

fn command(alloc: Global, admin: &Admin, ask: u64) -> Option<AdminCommand> {
    match text_of(alloc, ask, drawn(ask, 0, 20), some_id(admin, ask)) {
        Ok(text) => match read_command(alloc, text.as_str().as_bytes()) {
            Ok(command) => Some(command),
            Err(_) => None,
        },
        Err(_) => None,
    }
}

// ---- asking

fn ask_of(alloc: Global, command: AdminCommand) -> Option<Ask> {
    match Text::copy_of(alloc, "root") {
        Ok(actor) => Some(Ask { actor, command }),
        Err(_) => {
            drop(command);
            None
        }
    }
}

fn is_accepted(reply: AdminReply) -> bool {
    let is_refused = matches!(reply, AdminReply::Refused(_));
    drop(reply);
    !is_refused
}

/// Asks the command of this number. Whether it was accepted.
pub(crate) fn ask(alloc: Global, admin: &mut Admin, number: u64) -> Option<bool> {
    let command = command(alloc, admin, number)?;
    let ask = ask_of(alloc, command)?;
    match admin.step(alloc, ask) {
        Ok(reply) => Some(is_accepted(reply)),
        Err(_) => None,
    }
}
