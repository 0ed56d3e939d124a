// All causes for which facts aren't sound, and whether there is one.
ghost use Rattle.std.specs.Prelude.{◌≡◌, ◌++◌, [], IfOk, OnOk, not};
ghost use Rattle.rg_facts.specs.Sound.{sound, versions_fit};
ghost use Rattle.rg_facts.specs.declared.facts.Facts.{Facts};
ghost use Rattle.rg_roles.specs.Members.{names_of};
ghost use Rattle.rg_facts_check.specs.Causes.{def_causes, later_causes, no_cause, present, some_of, unless, unsound_causes};

use crate::definitions::def_causes;
use crate::ids::ids_sound;
use crate::noting::{note, unless};
use crate::policies::{add_policy_causes, add_role_causes, add_zone_name_causes};
use crate::prepared::Prepared;
use crate::tag_rows::add_tag_row_causes;
use crate::unsound::Unsound;
use crate::zones::add_zone_causes;
use rg_base::{NameIndex, NoMemory};
use rg_defs::Paths;
use rg_facts::Facts;
use std::alloc::Global;

/// The greatest version that facts may have.
const LAST_VERSION: u64 = 1 << 62;

fn versions_fit(facts: &Facts) -> bool
    ensures { result ≡ versions_fit facts.now }
{
    facts.policy_version.0 <= LAST_VERSION
        && (facts.tag_version.0 <= LAST_VERSION && facts.role_version.0 <= LAST_VERSION)
}

/// Adds the causes behind the definitions.
#[tactic(auto, unfolding(crate::specs::Causes::later_causes))]
fn add_causes_under(
    alloc: Global,
    prepared: &Prepared,
    causes: &mut Vec<Unsound>,
) -> Result<(), NoMemory>
    ensures { OnOk result (causes.new.items ≡ causes.old.items ++ later_causes prepared.now) }
{
    let facts = prepared.facts();
    note(causes, unless(ids_sound(alloc, facts)?, Unsound::PolicyIds))?;
    add_role_causes(alloc, prepared, causes)?;
    add_zone_name_causes(facts, causes)?;
    add_zone_causes(alloc, prepared, causes)?;
    add_tag_row_causes(alloc, prepared, causes)?;
    add_policy_causes(alloc, prepared, causes)
}

/// As `add_causes_under`. It takes memory for the paths and the names of the roles.
fn add_later_causes(alloc: Global, facts: &Facts, causes: &mut Vec<Unsound>) -> Result<(), NoMemory>
    ensures { OnOk result (causes.new.items ≡ causes.old.items ++ later_causes facts.now) }
{
    let paths = Paths::of(alloc, &facts.def)?;
    let roles = NameIndex::build(alloc, facts.roles.as_slice())?;
    let prepared = Prepared {
        facts,
        paths: &paths,
        roles: &roles,
    };
    add_causes_under(alloc, &prepared, causes)
}

/// What makes the facts unsound, in the order in which soundness is asked; nothing where they are sound. Of each rule there is the first row
/// that breaks it, and nothing where it can't be asked: behind definitions that break their own rules, Z6 of zones that break others, and of
/// policies where a time zone doesn't read. It takes memory for the ids, the paths, the time zones, the names of the roles and patterns.
#[tactic(auto, unfolding(crate::specs::Causes::unsound_causes))]
pub fn unsound_causes(alloc: Global, facts: &Facts) -> Result<Vec<Unsound>, NoMemory>
    ensures { IfOk result (λ causes. causes.items ≡ unsound_causes facts.now) }
{
    let mut causes = Vec::new(alloc);
    note(&mut causes, unless(versions_fit(facts), Unsound::Version))?;
    let of_defs = def_causes(alloc, facts)?;
    match of_defs.as_slice() {
        [] => add_later_causes(alloc, facts, &mut causes)?,
        found => causes.extend_from_slice(found)?,
    }
    Ok(causes)
}

/// Facts are sound exactly where there is no such cause.
pub fn sound_without_cause()
    ensures { (facts : Facts) → no_cause (unsound_causes facts) ≡ sound facts }
{}

/// Whether the facts break a rule of soundness.
pub fn facts_fault(alloc: Global, facts: &Facts) -> Result<bool, NoMemory>
    ensures { IfOk result (λ fault. fault ≡ not (sound facts.now)) }
{
    sound_without_cause();
    let causes = unsound_causes(alloc, facts)?;
    match causes.as_slice() {
        [] => Ok(false),
        _ => Ok(true),
    }
}
