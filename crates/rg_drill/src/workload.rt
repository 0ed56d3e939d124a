// The policies and requests of what was drawn.
ghost use Rattle.std.specs.Prelude.{◌≡◌, ◌∷◌, [], IfOk, if◌then◌else◌};
ghost use Rattle.rg_base.specs.Listed.{listed};
ghost use Rattle.rg_drill.specs.Workload.{element_of, elements_from, entry_from, item_from, level_of, policy_from, request_from, resources_from, table_name};

use crate::draws::{PolicyDraws, RequestDraws};
use crate::word::{Word, numbered};
use rg_base::{Moment, NoMemory, PolicyId, Seq, Text, Version};
use rg_policy::{
    ACCESS_POLICY, AccessEntry, AccessRequest, Element, Item, NORMAL, OVERRIDE, Policy,
    PolicyResource, Resource,
};
use std::alloc::Global;

#[tactic(auto, unfolding(crate::specs::Words::text_of))]
fn table_name(alloc: Global, n: u32, is_prefix: bool) -> Result<Text, NoMemory>
    ensures { IfOk result (λ t. t ≡ table_name n is_prefix) }
{
    let mut name = numbered(alloc, Word::TablePrefix, u64::from(n))?;
    if !is_prefix {
        return Ok(name);
    }
    name.append(Word::Star.letters())?;
    Ok(name)
}

fn level(alloc: Global, level: Word, value: Text) -> Result<PolicyResource, NoMemory>
    ensures { IfOk result (λ r. r ≡ level_of level value) }
{
    let mut values = Seq::new(alloc);
    values.add(value)?;
    Ok(PolicyResource {
        level: level.text(alloc)?,
        values,
        excludes: false,
        recursive: false,
    })
}

#[tactic(auto, unfolding(crate::specs::Workload::resources_from))]
fn resources(alloc: Global, n: u32, draws: PolicyDraws) -> Result<Seq<PolicyResource>, NoMemory>
    ensures { IfOk result (λ list. list ≡ listed (resources_from n draws)) }
{
    let mut list = Seq::new(alloc);
    let database = numbered(alloc, Word::DatabasePrefix, draws.database)?;
    list.add(level(alloc, Word::Database, database)?)?;
    let table = table_name(alloc, n, draws.is_prefix)?;
    list.add(level(alloc, Word::Table, table)?)?;
    let column = Word::Star.text(alloc)?;
    list.add(level(alloc, Word::Column, column)?)?;
    Ok(list)
}

fn accesses(alloc: Global, draws: PolicyDraws) -> Result<Seq<AccessEntry>, NoMemory>
    ensures { IfOk result (λ list. list ≡ listed (entry_from draws ∷ [])) }
{
    let word = if draws.is_for_all {
        Word::All
    } else {
        Word::Select
    };
    let mut list = Seq::new(alloc);
    list.add(AccessEntry {
        access: word.text(alloc)?,
        allowed: true,
    })?;
    Ok(list)
}

#[tactic(auto, unfolding(crate::specs::Workload::item_from))]
fn item(alloc: Global, draws: PolicyDraws) -> Result<Item, NoMemory>
    ensures { IfOk result (λ i. i ≡ item_from draws) }
{
    let mut users = Seq::new(alloc);
    users.add(numbered(alloc, Word::UserPrefix, draws.user)?)?;
    Ok(Item {
        accesses: accesses(alloc, draws)?,
        users,
        groups: Seq::new(alloc),
        roles: Seq::new(alloc),
        conditions: Seq::new(alloc),
        delegate: false,
        mask: None,
        filter: None,
    })
}

/// The allow items and the deny items: the one item stands in one of the two lists.
fn items(alloc: Global, draws: PolicyDraws) -> Result<(Seq<Item>, Seq<Item>), NoMemory>
    ensures allowed { IfOk result
        (λ lists. lists.0 ≡ listed (if draws.denies then [] else item_from draws ∷ [])) }
    ensures denied { IfOk result
        (λ lists. lists.1 ≡ listed (if draws.denies then item_from draws ∷ [] else [])) }
{
    let mut full = Seq::new(alloc);
    full.add(item(alloc, draws)?)?;
    if draws.denies {
        Ok((Seq::new(alloc), full))
    } else {
        Ok((full, Seq::new(alloc)))
    }
}

/// Policy `n` of what was drawn.
#[tactic(auto, unfolding(crate::specs::Workload::policy_from))]
pub(crate) fn policy_from(alloc: Global, n: u32, draws: PolicyDraws) -> Result<Policy, NoMemory>
    ensures { IfOk result (λ p. p ≡ policy_from n draws) }
{
    let (items, deny_items) = items(alloc, draws)?;
    Ok(Policy {
        id: PolicyId(0),
        guid: Text::empty(alloc),
        version: Version(1),
        service: Word::Hive1.text(alloc)?,
        name: numbered(alloc, Word::PolicyPrefix, u64::from(n))?,
        policy_type: ACCESS_POLICY,
        priority: if draws.overrides { OVERRIDE } else { NORMAL },
        resources: resources(alloc, n, draws)?,
        additional: Seq::new(alloc),
        conditions: Seq::new(alloc),
        items,
        deny_items,
        allow_exceptions: Seq::new(alloc),
        deny_exceptions: Seq::new(alloc),
        mask_items: Seq::new(alloc),
        filter_items: Seq::new(alloc),
        schedules: Seq::new(alloc),
        zone: Text::empty(alloc),
        deny_all_else: false,
        enabled: true,
        audited: true,
    })
}

fn element(alloc: Global, level: Word, value: Text) -> Result<Element, NoMemory>
    ensures { IfOk result (λ e. e ≡ element_of level value) }
{
    Ok(Element {
        level: level.text(alloc)?,
        value,
    })
}

#[tactic(auto, unfolding(crate::specs::Workload::elements_from))]
fn elements(alloc: Global, draws: RequestDraws) -> Result<Seq<Element>, NoMemory>
    ensures { IfOk result (λ list. list ≡ listed (elements_from draws)) }
{
    let mut list = Seq::new(alloc);
    let database = numbered(alloc, Word::DatabasePrefix, draws.database)?;
    list.add(element(alloc, Word::Database, database)?)?;
    let table = numbered(alloc, Word::TablePrefix, draws.table)?;
    list.add(element(alloc, Word::Table, table)?)?;
    let column = Word::AColumn.text(alloc)?;
    list.add(element(alloc, Word::Column, column)?)?;
    Ok(list)
}

/// The request of what was drawn. Its moment is 0.
#[tactic(auto, unfolding(crate::specs::Workload::request_from))]
pub(crate) fn request_from(alloc: Global, draws: RequestDraws) -> Result<AccessRequest, NoMemory>
    ensures { IfOk result (λ r. r ≡ request_from draws) }
{
    Ok(AccessRequest {
        user: numbered(alloc, Word::UserPrefix, draws.user)?,
        groups: Seq::new(alloc),
        resource: Resource {
            elements: elements(alloc, draws)?,
            owner: Text::empty(alloc),
        },
        access: Word::Select.text(alloc)?,
        moment: Moment(0),
        address: Text::empty(alloc),
        context: Seq::new(alloc),
    })
}
