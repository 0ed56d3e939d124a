// Which items match, and by which subject.
ghost use Rattle.std.specs.Prelude.{◌≡◌, IfOk, is_none, map, not, option_and_then, option_map, position};
ghost use Rattle.rg_policy.specs.declared.policy.PolicyCondition.{PolicyCondition};
ghost use Rattle.rg_cond.specs.Conditions.{condition_holds};
ghost use Rattle.rg_items.specs.Subjects.{names_asker, subjects_of};
ghost use Rattle.rg_evalr.specs.Items.{all_hold, first_item, item_matches};
ghost use Rattle.rg_standing.specs.Matching.{effect_by, match_at, matched, matches_of, subject_of};
ghost use Rattle.rg_standing.specs.Standing.{def_asked, first_failing};

use crate::members::member_of;
use crate::question::Question;
use crate::reason::{Match, Matches, Subject};
use rg_base::NoMemory;
use rg_cond::compile_condition;
use rg_evalr::Effect;
use rg_items::{Subjects, any_grants, has_owner_word, has_user_word, is_owner, names};
use rg_policy::{Item, Policy, PolicyCondition};
use std::alloc::Global;

/// The users, groups and roles of the item.
fn subjects_of<'a>(item: &'a Item) -> Subjects<'a>
    ensures { result ≡ subjects_of item.now }
{
    Subjects {
        users: item.users.as_slice(),
        groups: item.groups.as_slice(),
        roles: item.roles.as_slice(),
    }
}

fn first_set(flags: &[bool]) -> Option<usize>
    ensures { result ≡ position (λ b. b) flags.now }
{
    flags.iter().position(|flag| *flag)
}

impl<'a> Question<'a> {
    /// Whether the condition holds.
    fn condition_holds(&self, alloc: Global, condition: &PolicyCondition) -> Result<bool, NoMemory>
        ensures { IfOk result (λ b. b ≡ condition_holds
            (def_asked self.now) condition.now self.now.context.request self.now.context.tag) }
    {
        match compile_condition(alloc, self.def(), condition) {
            Ok(compiled) => Ok(compiled.holds(self.request, self.tag)),
            Err(_) => Err(NoMemory),
        }
    }

    /// The first condition that doesn't hold.
    pub(crate) fn first_failing<'c>(
        &self,
        alloc: Global,
        conditions: &'c [PolicyCondition],
    ) -> Result<Option<&'c PolicyCondition>, NoMemory>
        ensures { IfOk result
            (λ o. option_map (λ w. w.now) o ≡ first_failing self.now conditions.now) }
    {
        for condition in conditions {
            if !self.condition_holds(alloc, condition)? {
                return Ok(Some(condition));
            }
        }
        Ok(None)
    }

    /// Whether all conditions hold.
    #[tactic(auto, using(crate::proofs::Tests::all_by_first))]
    fn all_hold(&self, alloc: Global, conditions: &[PolicyCondition]) -> Result<bool, NoMemory>
        ensures { IfOk result
            (λ b. b ≡ all_hold self.now.frame self.now.side self.now.context conditions.now) }
    {
        match self.first_failing(alloc, conditions)? {
            Some(_) => Ok(false),
            None => Ok(true),
        }
    }

    /// Whether a subject of the item is the asker.
    fn names_asker(&self, item: &Item) -> bool
        ensures { result ≡ names_asker self.now.context.roles self.now.context.request item.now }
    {
        let request = self.request;
        let users = item.users.as_slice();
        has_user_word(users)
            || ((has_owner_word(users) && is_owner(request))
                || names(
                    self.roles,
                    request.user.as_str(),
                    request.groups.as_slice(),
                    &subjects_of(item),
                ))
    }

    /// The first subject of the item that is the asker.
    fn subject_of(&self, alloc: Global, item: &Item) -> Result<Option<Subject>, NoMemory>
        ensures { IfOk result
            (λ s. s ≡ subject_of self.now.context.roles self.now.context.request item.now) }
    {
        let users = item.users.as_slice();
        if has_user_word(users) {
            return Ok(Some(Subject::EveryUser));
        }
        if has_owner_word(users) && is_owner(self.request) {
            return Ok(Some(Subject::Owner));
        }
        member_of(alloc, self.roles, self.request, &subjects_of(item))
    }

    /// Whether the item matches.
    fn item_matches(&self, alloc: Global, item: &Item) -> Result<bool, NoMemory>
        ensures { IfOk result
            (λ b. b ≡ item_matches self.now.frame self.now.side self.now.context item.now) }
    {
        if !any_grants(self.def(), self.access, item.accesses.as_slice()) {
            return Ok(false);
        }
        if !self.names_asker(item) {
            return Ok(false);
        }
        self.all_hold(alloc, item.conditions.as_slice())
    }

    /// Which of the items match.
    fn flags(&self, alloc: Global, items: &[Item]) -> Result<Vec<bool>, NoMemory>
        ensures { IfOk result (λ v. v.items
            ≡ map (item_matches self.now.frame self.now.side self.now.context) items.now) }
    {
        let mut flags = Vec::new(alloc);
        for item in items {
            flags.push(self.item_matches(alloc, item)?)?;
        }
        Ok(flags)
    }

    /// The place of the first item that matches.
    #[tactic(auto, using(crate::proofs::Tests::place_mapped))]
    fn first_item(&self, alloc: Global, items: &[Item]) -> Result<Option<usize>, NoMemory>
        ensures { IfOk result
            (λ o. o ≡ first_item self.now.frame self.now.side self.now.context items.now) }
    {
        let flags = self.flags(alloc, items)?;
        Ok(first_set(&flags))
    }

    fn subject_at(
        &self,
        alloc: Global,
        items: &[Item],
        place: usize,
    ) -> Result<Option<Subject>, NoMemory>
        ensures { IfOk result (λ s. s ≡ (match_at self.now items.now place).subject) }
    {
        match items.get(place) {
            Some(item) => self.subject_of(alloc, item),
            None => Ok(None),
        }
    }

    /// The first of the items that matches.
    fn matched(&self, alloc: Global, items: &[Item]) -> Result<Option<Match>, NoMemory>
        ensures { IfOk result (λ m. m ≡ matched self.now items.now) }
    {
        match self.first_item(alloc, items)? {
            Some(item) => Ok(Some(Match {
                item,
                subject: self.subject_at(alloc, items, item)?,
            })),
            None => Ok(None),
        }
    }

    /// The first of each list that matches.
    pub(crate) fn matches_of(&self, alloc: Global, policy: &Policy) -> Result<Matches, NoMemory>
        ensures { IfOk result (λ m. m ≡ matches_of self.now policy.now) }
    {
        Ok(Matches {
            allow: self.matched(alloc, policy.items.as_slice())?,
            deny: self.matched(alloc, policy.deny_items.as_slice())?,
            allow_exception: self.matched(alloc, policy.allow_exceptions.as_slice())?,
            deny_exception: self.matched(alloc, policy.deny_exceptions.as_slice())?,
            mask: self.matched(alloc, policy.mask_items.as_slice())?,
            filter: self.matched(alloc, policy.filter_items.as_slice())?,
        })
    }
}

impl Matches {
    /// The effect of a policy with these matches.
    pub(crate) fn effect(&self, deny_all_else: bool) -> Effect
        ensures { result ≡ effect_by self.now deny_all_else }
    {
        if self.deny.is_some() && !self.deny_exception.is_some() {
            return Effect::Deny;
        }
        if self.allow.is_some() && !self.allow_exception.is_some() {
            return Effect::Allow;
        }
        if deny_all_else {
            Effect::Deny
        } else {
            Effect::Nothing
        }
    }
}
