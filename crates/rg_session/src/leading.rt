// The engine to which a document leads.
ghost use Rattle.std.specs.Prelude.{◌≡◌, false, true, [], IfOk, None};
ghost use Rattle.rg_base.specs.Listed.{listed};
ghost use Rattle.rg_facts.specs.Sound.{sound};
ghost use Rattle.rg_admin_laws.specs.Leading.{led, no_roles, policies_in, tags_in, with_policies, with_roles, with_tags};
ghost use Rattle.rg_session.specs.Documents.{IsFit, roles_in};
ghost use Rattle.rg_session.specs.Refreshing.{IsWithin, is_partial};

use crate::document::is_partial;
use rg_base::{Ledger, NoMemory, Seq, Steps, Version};
use rg_cmd::{
    Download, PolicyDelta, PolicyPart, PolicyWhole, RoleDelta, RolePart, RoleWhole, TagDelta,
    TagPart, TagWhole,
};
use rg_delta::apply_plain;
use rg_facts::Facts;
use rg_publish::Engine;
use std::alloc::Global;

// ---- deltas

/// A delta that changes nothing.
fn no_policies(alloc: Global, version: Version) -> PolicyDelta
    ensures { result ≡ record { from = version; to = version; changes = listed []; zones = None } }
{
    PolicyDelta {
        from: version,
        to: version,
        changes: Seq::new(alloc),
        zones: None,
    }
}

fn no_tags(alloc: Global, version: Version) -> TagDelta
    ensures { result ≡ record { from = version; to = version; changes = listed [] } }
{
    TagDelta {
        from: version,
        to: version,
        changes: Seq::new(alloc),
    }
}

/// The part's delta; of one that is unchanged or whole, one that changes nothing.
fn policy_delta(alloc: Global, engine: &Engine, part: PolicyPart) -> PolicyDelta
    ensures { result ≡ policies_in engine.now part }
{
    match part {
        PolicyPart::Unchanged => return no_policies(alloc, engine.policy_version()),
        PolicyPart::Delta(delta) => return delta,
        PolicyPart::Whole(whole) => {
            drop(whole);
            return no_policies(alloc, engine.policy_version());
        }
    }
}

fn tag_delta(alloc: Global, engine: &Engine, part: TagPart) -> TagDelta
    ensures { result ≡ tags_in engine.now part }
{
    match part {
        TagPart::Unchanged => return no_tags(alloc, engine.tag_version()),
        TagPart::Delta(delta) => return delta,
        TagPart::Whole(whole) => {
            drop(whole);
            return no_tags(alloc, engine.tag_version());
        }
    }
}

/// Whole roles are a delta too.
fn role_delta(engine: &Engine, part: RolePart) -> RoleDelta
    ensures { result ≡ roles_in engine.now part }
{
    let from = engine.role_version();
    match part {
        RolePart::Unchanged => {
            return RoleDelta {
                from,
                to: from,
                roles: None,
            };
        }
        RolePart::Whole(RoleWhole { version, roles }) => {
            return RoleDelta {
                from,
                to: version,
                roles: Some(roles),
            };
        }
    }
}

/// The engine after the document's deltas.
fn apply<L: Ledger>(
    alloc: Global,
    engine: &Engine,
    document: Download,
    steps: &mut Steps<L>,
) -> Result<Engine, NoMemory>
    requires partial { is_partial document ≡ true }
    requires fit { IsFit engine.now document }
    ensures facts { IfOk result (λ e. e ≡ led engine.now document) }
    ensures work { IsWithin engine.now document steps.old steps.new }
{
    let Download {
        seq: _,
        policies,
        tags,
        roles,
    } = document;
    let policies = policy_delta(alloc, engine, policies);
    let tags = tag_delta(alloc, engine, tags);
    let roles = role_delta(engine, roles);
    let applied = engine.apply(alloc, &policies, &tags, &roles, steps);
    drop(policies);
    drop(tags);
    drop(roles);
    match applied {
        Ok(next) => Ok(next),
        Err(_) => Err(NoMemory),
    }
}

// ---- parts that are whole

/// All that the policy version speaks of is replaced.
fn replace_policies(facts: Facts, whole: PolicyWhole) -> Facts
    ensures { result ≡ with_policies facts (PolicyPart.Whole whole) }
{
    let mut facts = facts;
    facts.fallback = whole.fallback;
    facts.def = whole.def;
    facts.tag_def = whole.tag_def;
    facts.policies = whole.policies;
    facts.tag_policies = whole.tag_policies;
    facts.zones = whole.zones;
    facts.time_zones = whole.time_zones;
    facts.policy_version = whole.version;
    facts
}

/// The facts with the part where it is whole, and its delta.
fn take_policies(alloc: Global, facts: Facts, part: PolicyPart) -> (Facts, PolicyDelta)
    ensures facts { result.0 ≡ with_policies facts part }
    ensures delta { result.1 ≡ policies_in (with_policies facts part) part }
{
    let facts = match part {
        PolicyPart::Unchanged => facts,
        PolicyPart::Delta(delta) => return (facts, delta),
        PolicyPart::Whole(whole) => replace_policies(facts, whole),
    };
    let delta = no_policies(alloc, facts.policy_version);
    (facts, delta)
}

fn replace_tags(facts: Facts, whole: TagWhole) -> Facts
    ensures { result ≡ with_tags facts (TagPart.Whole whole) }
{
    let mut facts = facts;
    facts.tag_rows = whole.rows;
    facts.tag_version = whole.version;
    facts
}

fn take_tags(alloc: Global, facts: Facts, part: TagPart) -> (Facts, TagDelta)
    ensures facts { result.0 ≡ with_tags facts part }
    ensures delta { result.1 ≡ tags_in (with_tags facts part) part }
{
    let facts = match part {
        TagPart::Unchanged => facts,
        TagPart::Delta(delta) => return (facts, delta),
        TagPart::Whole(whole) => replace_tags(facts, whole),
    };
    let delta = no_tags(alloc, facts.tag_version);
    (facts, delta)
}

fn take_roles(facts: Facts, part: RolePart) -> (Facts, RoleDelta)
    ensures facts { result.0 ≡ with_roles facts part }
    ensures delta { result.1 ≡ no_roles (with_roles facts part) }
{
    let mut facts = facts;
    if let RolePart::Whole(RoleWhole { version, roles }) = part {
        facts.roles = roles;
        facts.role_version = version;
    }
    let version = facts.role_version;
    let delta = RoleDelta {
        from: version,
        to: version,
        roles: None,
    };
    (facts, delta)
}

/// The facts to which the document leads from these. Where memory is refused the facts are gone.
pub fn lead_facts(alloc: Global, facts: Facts, document: Download) -> Result<Facts, NoMemory>
    ensures { IfOk result (λ after. after ≡ led facts document) }
{
    let (facts, policies) = take_policies(alloc, facts, document.policies);
    let (facts, tags) = take_tags(alloc, facts, document.tags);
    let (facts, roles) = take_roles(facts, document.roles);
    apply_plain(alloc, facts, &policies, &tags, &roles)
}

/// An engine that is built anew.
fn rebuild<L: Ledger>(
    alloc: Global,
    engine: &Engine,
    document: Download,
    steps: &mut Steps<L>,
) -> Result<Engine, NoMemory>
    requires { sound (led engine.now document) ≡ true }
    ensures facts { IfOk result (λ e. e ≡ led engine.now document) }
    ensures tries { steps.new.tries ≡ steps.old.tries }
{
    match engine.facts(alloc) {
        Ok(facts) => match lead_facts(alloc, facts, document) {
            Ok(facts) => return Engine::build(alloc, facts, steps),
            Err(NoMemory) => return Err(NoMemory),
        },
        Err(NoMemory) => {
            drop(document);
            return Err(NoMemory);
        }
    }
}

/// The engine to which the document leads. Where neither the policies nor the tag rows are whole its deltas are applied.
pub fn lead<L: Ledger>(
    alloc: Global,
    engine: &Engine,
    document: Download,
    steps: &mut Steps<L>,
) -> Result<Engine, NoMemory>
    requires { IsFit engine.now document }
    ensures facts { IfOk result (λ e. e ≡ led engine.now document) }
    ensures tries { steps.new.tries ≡ steps.old.tries }
    ensures work { is_partial document ≡ true → IsWithin engine.now document steps.old steps.new }
{
    if is_partial(&document) {
        return apply(alloc, engine, document, steps);
    }
    rebuild(alloc, engine, document, steps)
}
