// Engines over facts of one service, and deltas that lead them on.
ghost use Rattle.std.specs.Prelude.{◌≡◌, ◌≤◌, IfSome, true};
ghost use Rattle.rg_facts.specs.Sound.{sound};

use rg_base::{Seq, Steps, Version};
use rg_cmd::{CREATED, DELETED, PolicyChange, PolicyDelta, RoleDelta, TagDelta, UPDATED};
use rg_delta::apply_plain;
use rg_engine::{ApplyFault, Engine};
use rg_facts::Facts;
use rg_facts_check::facts_fault;
use rg_policy::Policy;
use rg_shared::Shared;
use rg_wire::{read_facts, read_policy};
use std::alloc::Global;

/// Facts at version 5 of each part, in which ann may select on the database `sales`.
const FACTS: &str =
    r#"{"service":"hive1","serviceDef":{"name":"hive","resources":[{"name":"database","level":10}],"accessTypes":[{"name":"select"}]},"policies":[{"id":1,"version":1,"service":"hive1","name":"p1","resources":{"database":{"values":["sales"]}},"policyItems":[{"users":["ann"],"accesses":[{"type":"select"}]}]}],"policyVersion":5,"tagVersion":5,"roleVersion":5}"#;

/// Policy 7, which lets bob select on the database `sales`.
const ON_SALES: &str =
    r#"{"id":7,"version":1,"service":"hive1","name":"p7","resources":{"database":{"values":["sales"]}},"policyItems":[{"users":["bob"],"accesses":[{"type":"select"}]}]}"#;

/// The same on the database `hr`.
const ON_HR: &str =
    r#"{"id":7,"version":1,"service":"hive1","name":"p7","resources":{"database":{"values":["hr"]}},"policyItems":[{"users":["bob"],"accesses":[{"type":"select"}]}]}"#;

/// A delta of each part, none of which leads back.
#[derive(Drop)]
pub(crate) struct Deltas {
    policies: PolicyDelta,
    tags: TagDelta,
    roles: RoleDelta,
    ghost forward: { (policies.from.0 ≤ policies.to.0) × (tags.from.0 ≤ tags.to.0) × (roles.from.0 ≤ roles.to.0) },
}

fn facts(alloc: Global) -> Option<Facts> {
    match read_facts(alloc, FACTS.as_bytes()) {
        Ok(facts) => Some(facts),
        Err(_) => None,
    }
}

/// The facts, if they are sound.
fn judged(alloc: Global, facts: Facts) -> Option<Facts>
    ensures same { IfSome result (λ after. after ≡ facts) }
    ensures sound { IfSome result (λ after. sound after ≡ true) }
{
    match facts_fault(alloc, &facts) {
        Ok(false) => Some(facts),
        _ => {
            drop(facts);
            None
        }
    }
}

/// An engine over the facts. None where memory is refused.
pub(crate) fn engine(alloc: Global) -> Option<Engine> {
    let facts = judged(alloc, facts(alloc)?)?;
    match Engine::build(alloc, facts, &mut Steps::silent()) {
        Ok(engine) => Some(engine),
        Err(_) => None,
    }
}

fn policy_of(alloc: Global, json: &str) -> Option<Shared<Policy>> {
    match read_policy(alloc, json.as_bytes()) {
        Ok(policy) => Shared::new(alloc, policy).ok(),
        Err(_) => None,
    }
}

fn add_change(
    alloc: Global,
    changes: &mut Seq<PolicyChange>,
    change_type: u8,
    policy: &str,
) -> Option<()> {
    let change = PolicyChange {
        change_type,
        tag: false,
        policy: policy_of(alloc, policy)?,
    };
    changes.add(change).ok()
}

/// Policy 7 is created, updated, and deleted again.
fn changes(alloc: Global) -> Option<Seq<PolicyChange>> {
    let mut changes = Seq::new(alloc);
    add_change(alloc, &mut changes, CREATED, ON_SALES)?;
    add_change(alloc, &mut changes, UPDATED, ON_HR)?;
    add_change(alloc, &mut changes, DELETED, ON_HR)?;
    Some(changes)
}

/// Three changes of policy 7, which lead from version 5 to version 8, and none of tags and roles. None where memory is refused.
pub(crate) fn three_changes(alloc: Global) -> Option<Deltas> {
    let changes = changes(alloc)?;
    let policies = PolicyDelta {
        from: Version(5),
        to: Version(8),
        changes,
        zones: None,
    };
    let tags = TagDelta {
        from: Version(5),
        to: Version(5),
        changes: Seq::new(alloc),
    };
    let roles = RoleDelta {
        from: Version(5),
        to: Version(5),
        roles: None,
    };
    Some(Deltas {
        policies,
        tags,
        roles,
    })
}

/// The engine after the deltas. Where these would lead it to facts that aren't sound, memory counts as refused.
pub(crate) fn moved(alloc: Global, engine: &Engine, deltas: &Deltas) -> Result<Engine, ApplyFault> {
    let before = engine.facts(alloc)?;
    let after = apply_plain(alloc, before, &deltas.policies, &deltas.tags, &deltas.roles)?;
    let Some(after) = judged(alloc, after) else {
        return Err(ApplyFault::NoMemory);
    };
    drop(after);
    engine.apply(
        alloc,
        &deltas.policies,
        &deltas.tags,
        &deltas.roles,
        &mut Steps::silent(),
    )
}
