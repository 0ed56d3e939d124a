// A change of one policy, and the engine after it.
ghost use Rattle.std.specs.Prelude.{◌≡◌, ◌≤◌, IfOk, true};
ghost use Rattle.rg_delta.specs.Applied.{applied};
ghost use Rattle.rg_facts.specs.Sound.{sound};

use super::workload::{judged, policy};
use rg_base::{NoMemory, Seq, Steps, TryCopy, Version};
use rg_cmd::{PolicyChange, PolicyDelta, RoleDelta, TagDelta, UPDATED};
use rg_delta::apply_plain;
use rg_drill::Generator;
use rg_engine::Engine;
use rg_facts::Facts;
use std::alloc::Global;

/// A delta of each part.
#[derive(Drop)]
pub(super) struct Deltas {
    policies: PolicyDelta,
    tags: TagDelta,
    roles: RoleDelta,
}

/// The policy of this number gets a new form.
pub(super) fn one_change(
    alloc: Global,
    generator: &mut Generator,
    number: u32,
) -> Result<Deltas, NoMemory>
    ensures policies { IfOk result (λ d. d.policies.from.0 ≤ d.policies.to.0) }
    ensures tags { IfOk result (λ d. d.tags.from.0 ≤ d.tags.to.0) }
    ensures roles { IfOk result (λ d. d.roles.from.0 ≤ d.roles.to.0) }
{
    let mut changes = Seq::new(alloc);
    changes.add(PolicyChange {
        change_type: UPDATED,
        tag: false,
        policy: policy(alloc, generator, number)?,
    })?;
    Ok(Deltas {
        policies: PolicyDelta {
            from: Version(1),
            to: Version(2),
            changes,
            zones: None,
        },
        tags: TagDelta {
            from: Version(1),
            to: Version(1),
            changes: Seq::new(alloc),
        },
        roles: RoleDelta {
            from: Version(1),
            to: Version(1),
            roles: None,
        },
    })
}

/// Sees to it that the facts after the deltas are sound.
fn check_after(alloc: Global, facts: &Facts, deltas: &Deltas) -> Result<(), NoMemory>
    ensures { IfOk result (λ _.
        sound (applied facts.now deltas.now.policies deltas.now.tags deltas.now.roles) ≡ true) }
{
    let copy = facts.try_copy(alloc)?;
    let after = apply_plain(alloc, copy, &deltas.policies, &deltas.tags, &deltas.roles)?;
    drop(judged(alloc, after)?);
    Ok(())
}

/// The deltas applied so many times to the same engine.
fn applied_often(
    alloc: Global,
    engine: &Engine,
    deltas: &Deltas,
    count: u32,
) -> Result<u32, NoMemory>
    requires sound { sound (applied engine.now deltas.now.policies deltas.now.tags deltas.now.roles) ≡ true }
    requires policies { deltas.now.policies.from.0 ≤ deltas.now.policies.to.0 }
    requires tags { deltas.now.tags.from.0 ≤ deltas.now.tags.to.0 }
    requires roles { deltas.now.roles.from.0 ≤ deltas.now.roles.to.0 }
{
    let mut done = 0u32;
    for _ in 0..count {
        let moved = engine.apply(
            alloc,
            &deltas.policies,
            &deltas.tags,
            &deltas.roles,
            &mut Steps::silent(),
        );
        if moved.is_ok() {
            done = done.saturating_add(1);
        }
        drop(moved);
    }
    Ok(done)
}

/// Moves an engine over these facts so many times by the change of one policy.
pub(super) fn moved(
    alloc: Global,
    facts: Facts,
    deltas: &Deltas,
    count: u32,
) -> Result<u32, NoMemory>
    requires sound { sound facts ≡ true }
    requires policies { deltas.now.policies.from.0 ≤ deltas.now.policies.to.0 }
    requires tags { deltas.now.tags.from.0 ≤ deltas.now.tags.to.0 }
    requires roles { deltas.now.roles.from.0 ≤ deltas.now.roles.to.0 }
{
    check_after(alloc, &facts, deltas)?;
    let engine = Engine::build(alloc, facts, &mut Steps::silent())?;
    let done = applied_often(alloc, &engine, deltas, count);
    drop(engine);
    done
}
