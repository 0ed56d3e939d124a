// Facts and requests of the drill's workload.
ghost use Rattle.std.specs.Prelude.{◌≡◌, IfOk, true};
ghost use Rattle.rg_facts.specs.Sound.{sound};

use rg_base::{NoMemory, PolicyId, Seq, Text, Version};
use rg_drill::{Generator, hive};
use rg_facts::Facts;
use rg_facts_check::facts_fault;
use rg_policy::{AccessRequest, Policy};
use rg_shared::Shared;
use std::alloc::Global;

/// What the draws begin with.
const SEED: u64 = 1;

/// A generator before its first draw.
pub(super) fn generator() -> Generator {
    Generator::new(SEED)
}

/// Policy `number`, under the id of its number.
pub(super) fn policy(
    alloc: Global,
    generator: &mut Generator,
    number: u32,
) -> Result<Shared<Policy>, NoMemory> {
    let mut policy = generator.policy(alloc, number)?;
    policy.id = PolicyId(i64::from(number));
    Shared::new(alloc, policy)
}

fn policies(
    alloc: Global,
    generator: &mut Generator,
    count: u32,
) -> Result<Seq<Shared<Policy>>, NoMemory> {
    let mut policies = Seq::new(alloc);
    for place in 0..count {
        policies.add(policy(alloc, generator, place.saturating_add(1))?)?;
    }
    Ok(policies)
}

/// Facts with these policies alone, each part at version 1.
fn facts_with(alloc: Global, policies: Seq<Shared<Policy>>) -> Result<Facts, NoMemory> {
    let service = Text::copy_of(alloc, "hive1")?;
    let def = hive(alloc)?;
    Ok(Facts {
        service,
        fallback: false,
        def,
        tag_def: None,
        policies,
        tag_policies: Seq::new(alloc),
        zones: Seq::new(alloc),
        roles: Seq::new(alloc),
        tag_rows: Seq::new(alloc),
        time_zones: Seq::new(alloc),
        policy_version: Version(1),
        tag_version: Version(1),
        role_version: Version(1),
    })
}

/// The facts themselves. Unsound ones count as want of memory: the workload has none.
pub(super) fn judged(alloc: Global, facts: Facts) -> Result<Facts, NoMemory>
    ensures same { IfOk result (λ judged. judged ≡ facts) }
    ensures sound { IfOk result (λ _. sound facts ≡ true) }
{
    let is_unsound = facts_fault(alloc, &facts)?;
    if is_unsound {
        drop(facts);
        return Err(NoMemory);
    }
    Ok(facts)
}

/// Facts with so many policies.
pub(super) fn facts(alloc: Global, generator: &mut Generator, count: u32) -> Result<Facts, NoMemory>
    ensures { IfOk result (λ facts. sound facts ≡ true) }
{
    let policies = policies(alloc, generator, count)?;
    let facts = facts_with(alloc, policies)?;
    judged(alloc, facts)
}

/// So many requests about so many policies.
pub(super) fn requests(
    alloc: Global,
    generator: &mut Generator,
    policies: u32,
    count: u32,
) -> Result<Seq<AccessRequest>, NoMemory> {
    let mut requests = Seq::new(alloc);
    for _ in 0..count {
        requests.add(generator.request(alloc, policies)?)?;
    }
    Ok(requests)
}
