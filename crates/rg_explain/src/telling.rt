// What is told of the policies that are asked one question.
ghost use Rattle.std.specs.Prelude.{◌≡◌, ◌++◌, IfOk, map, option_map, true};
ghost use Rattle.rg_base.specs.Listed.{listed};
ghost use Rattle.rg_policy.specs.declared.tags.Tag.{Tag};
ghost use Rattle.rg_facts.specs.Candidates.{is_chosen};
ghost use Rattle.rg_facts.specs.Flow.{cell_at};
ghost use Rattle.rg_standing.specs.Standing.{standing_of};
ghost use Rattle.rg_explain.specs.Explaining.{told, told_all, told_by};
ghost use Rattle.rg_explain.specs.Parts.{candidate_in, setting_in};

use crate::cells::cell_told;
use crate::choosing::is_chosen;
use crate::explanation::Told;
use rg_base::{NoMemory, Seq, Text, TryCopy};
use rg_policy::{Policy, Tag};
use rg_shared::Shared;
use rg_standing::{Question, Standing, told_standing_gives_effect};
use rg_zone_rules::ZoneRow;
use std::alloc::Global;

fn kind_of(alloc: Global, tag: Option<&Tag>) -> Result<Option<Text>, NoMemory>
    ensures { let asked = option_map (λ t. t.now) tag.entry in
        IfOk result (λ kind. kind ≡ option_map (λ (t : Tag). t.kind) asked) }
{
    match tag {
        Some(tag) => Ok(Some(tag.kind.try_copy(alloc)?)),
        None => Ok(None),
    }
}

/// The cell of a policy that the zone chooses and that stands so.
fn cell_at(
    question: &Question,
    zone: Option<&ZoneRow>,
    policy: &Policy,
    standing: &Standing,
) -> Option<u8>
    requires chosen { let s = setting_in question.now (option_map (λ z. z.now) zone) in
        is_chosen s (candidate_in question.now policy.now) ≡ true }
    requires standing { standing.now ≡ standing_of question.now policy.now }
    ensures { let s = setting_in question.now (option_map (λ z. z.now) zone.entry) in
        result ≡ cell_at s (candidate_in question.now policy.now) }
{
    told_standing_gives_effect();
    cell_told(policy, question.side, standing)
}

/// What is told of a policy that the zone chooses.
fn tell(
    alloc: Global,
    question: &Question,
    zone: Option<&ZoneRow>,
    policy: &Policy,
) -> Result<Told, NoMemory>
    requires { let s = setting_in question.now (option_map (λ z. z.now) zone) in
        is_chosen s (candidate_in question.now policy.now) ≡ true }
    ensures { let s = setting_in question.now (option_map (λ z. z.now) zone.entry) in
        IfOk result (λ t. t ≡ told s (candidate_in question.now policy.now)) }
{
    let standing = question.standing_of(alloc, policy)?;
    let cell = cell_at(question, zone, policy, &standing);
    let tag = kind_of(alloc, question.tag)?;
    Ok(Told {
        policy: policy.id,
        name: policy.name.try_copy(alloc)?,
        tag,
        cell,
        standing,
    })
}

/// The list with what is told of the policy behind it, where the zone chooses it.
fn with_told(
    alloc: Global,
    question: &Question,
    zone: Option<&ZoneRow>,
    mut list: Seq<Told>,
    policy: &Policy,
) -> Result<Seq<Told>, NoMemory>
    requires { list ≡ listed list.items }
    ensures { let s = setting_in question.now (option_map (λ z. z.now) zone.entry) in
        let told = told_by s (candidate_in question.now policy.now) in
        IfOk result (λ longer. longer ≡ listed (list.items ++ told)) }
{
    if is_chosen(zone, question.side, policy) {
        list.add(tell(alloc, question, zone, policy)?)?;
    }
    Ok(list)
}

/// The list with what is told of the policies behind it.
pub(crate) fn with_policies(
    alloc: Global,
    question: &Question,
    zone: Option<&ZoneRow>,
    mut list: Seq<Told>,
    policies: &[Shared<Policy>],
) -> Result<Seq<Told>, NoMemory>
    requires { list ≡ listed list.items }
    ensures { let s = setting_in question.now (option_map (λ z. z.now) zone.entry) in
        let told = told_all s (map (candidate_in question.now) policies.now) in
        IfOk result (λ longer. longer ≡ listed (list.items ++ told)) }
{
    for policy in policies {
        list = with_told(alloc, question, zone, list, policy)?;
    }
    Ok(list)
}
