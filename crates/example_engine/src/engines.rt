// An engine from facts, and the next one from a change.
ghost use Rattle.std.specs.Prelude.{◌≡◌, ◌≤◌, IfOk, true};
ghost use Rattle.rg_facts.specs.Sound.{sound};

use crate::fault::Fault;
use rg_base::{Seq, Steps, Version};
use rg_cmd::{PolicyChange, PolicyDelta, RoleDelta, TagDelta};
use rg_delta::apply_plain;
use rg_engine::Engine;
use rg_facts::Facts;
use rg_facts_check::facts_fault;
use rg_wire::read_facts;
use std::alloc::Global;

/// The facts themselves, which keep the rules. An engine takes no others.
fn judged(alloc: Global, facts: Facts) -> Result<Facts, Fault>
    ensures same { IfOk result (λ after. after ≡ facts) }
    ensures sound { IfOk result (λ after. sound after ≡ true) }
{
    let is_unsound = facts_fault(alloc, &facts)?;
    if is_unsound {
        drop(facts);
        return Err(Fault::Unsound);
    }
    Ok(facts)
}

/// An engine over the facts of this JSON, which is that of a `facts` line.
pub(crate) fn built(alloc: Global, json: &str) -> Result<Engine, Fault> {
    let facts = judged(alloc, read_facts(alloc, json.as_bytes())?)?;
    Ok(Engine::build(alloc, facts, &mut Steps::silent())?)
}

/// The engine after the delta of policies. The old one stays as it is, and the two share what the delta doesn't touch.
fn applied(alloc: Global, engine: &Engine, policies: &PolicyDelta) -> Result<Engine, Fault>
    requires { policies.now.from.0 ≤ policies.now.to.0 }
{
    let tags = TagDelta {
        from: engine.tag_version(),
        to: engine.tag_version(),
        changes: Seq::new(alloc),
    };
    let roles = RoleDelta {
        from: engine.role_version(),
        to: engine.role_version(),
        roles: None,
    };
    let facts = apply_plain(alloc, engine.facts(alloc)?, policies, &tags, &roles)?;
    drop(judged(alloc, facts)?);
    Ok(engine.apply(alloc, policies, &tags, &roles, &mut Steps::silent())?)
}

/// The engine after one change of a policy, at the next version.
pub(crate) fn changed(
    alloc: Global,
    engine: &Engine,
    change: PolicyChange,
) -> Result<Engine, Fault> {
    let from = engine.policy_version();
    let to = Version(from.0.saturating_add(1));
    let mut changes = Seq::new(alloc);
    changes.add(change)?;
    let delta = PolicyDelta {
        from,
        to,
        changes,
        zones: None,
    };
    applied(alloc, engine, &delta)
}
