// What deltas make of facts.
//
// `changes|CHANGE|CHANGE..`: the names of policies, of tag policies and of tag rows after the changes, a `/` between. Before them are
// the policies a, b and c with the ids 1, 2 and 1, and tag rows of the same ids and names. A change is of a policy and of a tag row;
// with `tag` before it, of a tag policy alone.
// `replaced|PART|PART..`: how many zones and roles there are, of one each, after deltas that have no zones where `zones` is among the
// parts, and no roles where `roles` is, and the versions.
use super::Table;
use super::asked::{Change, read_change};
use crate::deltas::Deltas;
use crate::reading;
use rg_base::{NoMemory, Seq, Version};
use rg_cmd::{PolicyChange, PolicyDelta, RoleDelta, TagChange, TagDelta};
use rg_delta::apply_plain;
use rg_facts::Facts;
use rg_policy::Policy;
use rg_shared::Shared;
use rg_tags::TagRow;
use std::alloc::Global;

const FACTS: &str =
    r#"{"service":"","serviceDef":{"name":""},"zones":[{"name":""}],"roles":[{"name":""}]}"#;

const THREE: [(i64, &str); 3] = [(1, "a"), (2, "b"), (1, "c")];

fn policy(alloc: Global, id: i64, name: &str) -> Result<Shared<Policy>, NoMemory> {
    let text = format!(in alloc; "{{\"id\":{id},\"name\":\"{name}\"}}")?;
    Shared::new(alloc, reading::policy(alloc, text.as_str())?)
}

/// A tag row, whose service stands for its name.
fn tag_row(alloc: Global, id: i64, name: &str) -> Result<TagRow, NoMemory> {
    let text = format!(in alloc; "{{\"id\":{id},\"serviceName\":\"{name}\"}}")?;
    reading::tag_row(alloc, text.as_str())
}

fn facts_of_three(alloc: Global) -> Result<Facts, NoMemory> {
    let mut facts = reading::facts(alloc, FACTS)?;
    for (id, name) in THREE {
        facts.policies.add(policy(alloc, id, name)?)?;
        facts.tag_rows.add(tag_row(alloc, id, name)?)?;
    }
    Ok(facts)
}

fn policy_change(alloc: Global, change: Change) -> Result<PolicyChange, NoMemory> {
    Ok(PolicyChange {
        change_type: change.change_type,
        tag: change.is_tag,
        policy: policy(alloc, change.id, change.what)?,
    })
}

fn tag_change(alloc: Global, change: Change) -> Result<TagChange, NoMemory> {
    Ok(TagChange {
        change_type: change.change_type,
        row: tag_row(alloc, change.id, change.what)?,
    })
}

/// Deltas without changes, each to a version of its own.
fn deltas(alloc: Global) -> Deltas {
    Deltas {
        policies: PolicyDelta {
            from: Version(1),
            to: Version(9),
            changes: Seq::new(alloc),
            zones: None,
        },
        tags: TagDelta {
            from: Version(1),
            to: Version(8),
            changes: Seq::new(alloc),
        },
        roles: RoleDelta {
            from: Version(1),
            to: Version(7),
            roles: None,
        },
    }
}

/// Adds a change as it is written.
fn add_change(alloc: Global, deltas: &mut Deltas, written: &str) -> Result<(), NoMemory> {
    let change = read_change(written);
    deltas.policies.changes.add(policy_change(alloc, change)?)?;
    if !change.is_tag {
        deltas.tags.changes.add(tag_change(alloc, change)?)?;
    }
    Ok(())
}

fn deltas_of(alloc: Global, asked: &str) -> Result<Deltas, NoMemory> {
    let mut deltas = deltas(alloc);
    if asked.is_empty() {
        return Ok(deltas);
    }
    for written in asked.split('|') {
        add_change(alloc, &mut deltas, written)?;
    }
    Ok(deltas)
}

fn add_names(told: &mut String, policies: &[Shared<Policy>]) -> Result<(), NoMemory> {
    for policy in policies {
        told.push_str(policy.name.as_str())?;
    }
    told.push('/')?;
    Ok(())
}

fn changed(alloc: Global, asked: &str) -> Result<String, NoMemory> {
    let deltas = deltas_of(alloc, asked)?;
    let facts = facts_of_three(alloc)?;
    let after = apply_plain(alloc, facts, &deltas.policies, &deltas.tags, &deltas.roles)?;
    let mut told = String::new(alloc);
    add_names(&mut told, after.policies.as_slice())?;
    add_names(&mut told, after.tag_policies.as_slice())?;
    for row in after.tag_rows.as_slice() {
        told.push_str(row.service.as_str())?;
    }
    Ok(told)
}

/// Makes the part one that has no row.
fn empty_part(alloc: Global, deltas: &mut Deltas, part: &str) {
    match part {
        "zones" => deltas.policies.zones = Some(Seq::new(alloc)),
        "roles" => deltas.roles.roles = Some(Seq::new(alloc)),
        _ => {}
    }
}

fn replaced(alloc: Global, asked: &str) -> Result<String, NoMemory> {
    let mut deltas = deltas(alloc);
    for part in asked.split('|') {
        empty_part(alloc, &mut deltas, part);
    }
    let facts = reading::facts(alloc, FACTS)?;
    let after = apply_plain(alloc, facts, &deltas.policies, &deltas.tags, &deltas.roles)?;
    let zones = after.zones.len();
    let roles = after.roles.len();
    let policies = after.policy_version.0;
    let tags = after.tag_version.0;
    let role_version = after.role_version.0;
    Ok(format!(in alloc;
        "{zones} zones, {roles} roles, versions {policies} {tags} {role_version}"
    )?)
}

/// Each row has facts and deltas of its own.
#[derive(Drop)]
pub(super) struct DeltaTable;

impl Table for DeltaTable {
    fn answer(&mut self, alloc: Global, word: &str, asked: &str) -> Result<String, NoMemory> {
        match word {
            "changes" => changed(alloc, asked),
            "replaced" => replaced(alloc, asked),
            _ => Err(NoMemory),
        }
    }
}
