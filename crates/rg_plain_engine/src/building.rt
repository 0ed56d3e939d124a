// What the plain engine compiles of sound facts.
ghost use Rattle.std.specs.Prelude.{◌≡◌, IfOk, None, is_none, map, true};
ghost use Rattle.std.specs.List.{list_all};
ghost use Rattle.rg_base.specs.Listed.{listed};
ghost use Rattle.rg_policy.specs.declared.policy.Policy.{Policy};
ghost use Rattle.rg_resmatch.specs.Rules.{tagged_fit};
ghost use Rattle.rg_tags.specs.declared.row.TagRow.{TagRow};
ghost use Rattle.rg_evalr.specs.Compiling.{policy_fault};
ghost use Rattle.rg_evalr.specs.Frames.{def_of};
ghost use Rattle.rg_facts.specs.Candidates.{frame_of};
ghost use Rattle.rg_facts.specs.Engines.{row_matching};
ghost use Rattle.rg_facts.specs.Sound.{sound};
ghost use Rattle.rg_plain_engine.specs.Compiled.{AreCompiled, sources_of};

use crate::plain::Compiled;
use rg_base::{NoMemory, Seq, Steps};
use rg_defs::{Paths, ServiceDef};
use rg_evalr::{Evaluator, Frame, Side};
use rg_facts::{Facts, frame_of};
use rg_policy::Policy;
use rg_resmatch::{Matcher, Reach};
use rg_roles::{RoleRow, Roles};
use rg_shared::Shared;
use rg_tags::TagRow;
use rg_zones::ZoneMap;
use std::alloc::Global;

/// The roles of sound facts.
pub(crate) fn roles_of(alloc: Global, rows: &[RoleRow]) -> Result<Roles, NoMemory>
    ensures { IfOk result (λ roles. roles ≡ rows.now) }
{
    match Roles::build(alloc, rows) {
        Ok(roles) => Ok(roles),
        Err(_) => Err(NoMemory),
    }
}

/// The zones of sound facts.
pub(crate) fn zones_of(alloc: Global, facts: &Facts) -> Result<ZoneMap, NoMemory>
    requires { sound facts.now ≡ true }
    ensures { IfOk result (λ m. m ≡ record {
      zones = facts.now.zones.items;
      service = facts.now.service;
      def = facts.now.def;
    }) }
{
    let map = ZoneMap::build(
        alloc,
        facts.zones.as_slice(),
        facts.service.as_str(),
        &facts.def,
    )?;
    Ok(map)
}

/// The evaluator of each policy.
fn evaluators(
    alloc: Global,
    frame: &Frame,
    side: Side,
    policies: &[Shared<Policy>],
) -> Result<Seq<Evaluator>, NoMemory>
    requires { list_all (λ (p : Policy). is_none (policy_fault frame.now side p)) policies.now
        ≡ true }
    ensures { IfOk result (λ list. list ≡ listed (sources_of frame.now side policies.now)) }
{
    let mut steps = Steps::silent();
    let mut list = Seq::new(alloc);
    for policy in policies {
        list.add(Evaluator::compile(alloc, frame, policy, side, &mut steps)?)?;
    }
    Ok(list)
}

fn row_matcher(alloc: Global, def: &ServiceDef, row: &TagRow) -> Result<Matcher, NoMemory>
    requires { tagged_fit def.now row.now.resources.items ≡ true }
    ensures { IfOk result (λ m. m ≡ row_matching def.now row.now) }
{
    let matcher = Matcher::of_resources(alloc, def, &row.resources, Reach::Down)?;
    Ok(matcher)
}

/// The matcher of each tag row.
fn row_matchers(alloc: Global, def: &ServiceDef, rows: &[TagRow]) -> Result<Seq<Matcher>, NoMemory>
    requires { list_all (λ (row : TagRow). tagged_fit def.now row.resources.items) rows.now ≡ true }
    ensures { IfOk result (λ list. list ≡ listed (map (row_matching def.now) rows.now)) }
{
    let mut list = Seq::new(alloc);
    for row in rows {
        list.add(row_matcher(alloc, def, row)?)?;
    }
    Ok(list)
}

/// What is compiled of the policies and the tag rows of sound facts.
pub(crate) fn compile(alloc: Global, facts: &Facts) -> Result<Compiled, NoMemory>
    requires { sound facts.now ≡ true }
    ensures { IfOk result (λ c. AreCompiled facts.now c) }
{
    let frame = frame_of(alloc, facts)?;
    let policies = facts.policies.as_slice();
    let tag_policies = facts.tag_policies.as_slice();
    Ok(Compiled {
        evaluators: evaluators(alloc, &frame, Side::Resource, policies)?,
        tag_evaluators: evaluators(alloc, &frame, Side::Tag, tag_policies)?,
        row_matchers: row_matchers(alloc, &facts.def, facts.tag_rows.as_slice())?,
    })
}
