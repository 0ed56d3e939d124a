// What is known of a policy before it is read: how the values begin on which it lies.
ghost use Rattle.std.specs.Prelude.{◌≡◌, [], None, IfOk, ℕ, List, length, option_map, take, true};
ghost use Rattle.std.specs.List.{list_all, slice_get};
ghost use Rattle.std.specs.Str.{chars};
ghost use Rattle.rg_base.specs.Texts.{is_name};
ghost use Rattle.rg_defs.specs.Rules.{def_fault};
ghost use Rattle.rg_defs.specs.declared.service_def.ServiceDef.{ServiceDef};
ghost use Rattle.rg_policy.specs.Maps.{maps_of};
ghost use Rattle.rg_policy.specs.declared.policy.Policy.{Policy};
ghost use Rattle.rg_policy.specs.declared.request.Element.{Element};
ghost use Rattle.rg_resmatch.specs.Rules.{are_written};
ghost use Rattle.rg_resmatch.specs.Tests.{some_lies, value_at};
ghost use Rattle.rg_resmatch.specs.declared.reach.Reach.TheVariants.{Exact};
ghost use Rattle.rg_tree.specs.Hashes.{hash_of};
ghost use Rattle.rg_index.specs.Filing.{value_key};
ghost use Rattle.rg_policy_sets.specs.Marks.{agrees, asked_at, mark_at, mark_of, named_key, only_key, policy_key, resource_key, unasked};

use rg_base::{NoMemory, Text, char_count, find_named, folded_char, split_char};
use rg_defs::Level;
use rg_pattern::{pattern_of, prefix_begins_text, stands_is_decided};
use rg_policy::{Element, Policy, PolicyResource};
use rg_tree::{hash_of, hash_of_state, step};
use std::alloc::Global;
use std::marker::Model;

fn level_at(levels: &[Level], place: usize) -> Option<&Level>
    ensures { option_map (λ l. l.now) result ≡ slice_get levels.now place }
{
    levels.get(place)
}

/// What a resource has at a level, and whether the level folds.
#[derive(Drop)]
pub(crate) struct Asked<'a> {
    value: Option<&'a str>,
    fold: bool,
}

impl<'a> Model for Asked<'a> {
    ghost use Rattle.std.specs.Prelude.{option_map};
    ghost use Rattle.std.specs.Str.{chars};
    ghost use Rattle.rg_policy_sets.specs.Marks.{Asked};

    ghost Value = { Asked };

    ghost view = { λ a. record { value = option_map (λ v. chars v.now) a.value; fold = a.fold } };
}

impl<'a> Asked<'a> {
    /// No value.
    pub(crate) fn nothing() -> Asked<'a>
        ensures { result ≡ unasked }
    {
        Asked {
            value: None,
            fold: false,
        }
    }

    /// What the resource has at the level of this place, if there is one.
    pub(crate) fn at(levels: &[Level], place: usize, elements: &'a [Element]) -> Asked<'a>
        ensures { result ≡ asked_at (slice_get levels.now place) elements.now }
    {
        match level_at(levels, place) {
            Some(level) => Asked {
                value: value_at(elements, level.name.as_str()),
                fold: level.fold,
            },
            None => Asked::nothing(),
        }
    }
}

/// The value that the resource has at the level of this name.
fn value_at<'a>(elements: &'a [Element], name: &str) -> Option<&'a str>
    ensures { option_map (λ v. chars v.now) result ≡ value_at elements.now (chars name.now) }
{
    match find_named(elements, name) {
        Some(element) => Some(element.value.as_str()),
        None => None,
    }
}

/// How all values begin on which a policy lies at a level: so many characters, and their hash.
#[derive(Clone, Copy)]
pub(crate) struct Mark {
    count: usize,
    hash: u64,
}

impl Mark {
    /// That of the empty text, with which all values begin.
    fn none() -> Mark
        ensures { result ≡ mark_of [] }
    {
        Mark { count: 0, hash: 0 }
    }

    fn of(key: &str) -> Mark
        ensures { result ≡ mark_of (chars key.now) }
    {
        Mark {
            count: char_count(key),
            hash: hash_of(key, false),
        }
    }

    /// The mark of a policy, whose values are patterns, at the level of this place, if there is one.
    pub(crate) fn at(
        alloc: Global,
        levels: &[Level],
        place: usize,
        policy: &Policy,
    ) -> Result<Mark, NoMemory>
        requires { are_written policy.now.resources.items ≡ true }
        ensures { IfOk result (λ m. m ≡ mark_at (slice_get levels.now place) policy.now) }
    {
        match level_at(levels, place) {
            Some(level) => {
                let key = policy_key(alloc, level, policy)?;
                Ok(Mark::of(key.as_str()))
            }
            None => Ok(Mark::none()),
        }
    }

    /// Whether the value that is asked for begins so, as far as its hash tells.
    pub(crate) fn agrees(&self, asked: &Asked<'_>) -> bool
        ensures { result ≡ agrees asked.now self.now }
    {
        match asked.value {
            Some(value) => hash_of_first(value, self.count, asked.fold) == self.hash,
            None => true,
        }
    }
}

/// The hash of so many characters at the beginning of the text, or of all.
fn hash_of_first(text: &str, count: usize, fold: bool) -> u64
    ensures { result ≡ hash_of fold (take count (chars text.now)) }
{
    let mut rest = text;
    let mut left = count;
    let mut state = 0;
    'characters: while left > 0 {
        let Some((c, others)) = split_char(rest) else {
            return hash_of_state(state);
        };
        state = step(state, folded_char(fold, c));
        rest = others;
        left -= 1;
    }
    hash_of_state(state)
}

/// With what the values begin that a written value stands for.
fn value_key(alloc: Global, level: &Level, value: &str) -> Result<Text, NoMemory>
    requires { is_name (chars value.now) ≡ true }
    ensures { IfOk result (λ t. t ≡ value_key level.now (chars value.now)) }
{
    let pattern = pattern_of(alloc, value, level.wild)?;
    pattern.literal_prefix(alloc, level.fold)
}

fn only_key(alloc: Global, level: &Level, values: &[Text]) -> Result<Text, NoMemory>
    requires { list_all is_name values.now ≡ true }
    ensures { IfOk result (λ t. t ≡ only_key level.now values.now) }
{
    let Some((value, others)) = values.split_first() else {
        return Ok(Text::empty(alloc));
    };
    if !others.is_empty() {
        return Ok(Text::empty(alloc));
    }
    value_key(alloc, level, value.as_str())
}

fn resource_key(alloc: Global, level: &Level, resource: &PolicyResource) -> Result<Text, NoMemory>
    requires { list_all is_name resource.now.values.items ≡ true }
    ensures { IfOk result (λ t. t ≡ resource_key level.now resource.now) }
{
    if resource.excludes {
        return Ok(Text::empty(alloc));
    }
    only_key(alloc, level, resource.values.as_slice())
}

fn named_key(alloc: Global, level: &Level, resources: &[PolicyResource]) -> Result<Text, NoMemory>
    requires { are_written resources.now ≡ true }
    ensures { IfOk result (λ t. t ≡ named_key level.now resources.now) }
{
    match find_named(resources, level.name.as_str()) {
        Some(resource) => resource_key(alloc, level, resource),
        None => Ok(Text::empty(alloc)),
    }
}

fn policy_key(alloc: Global, level: &Level, policy: &Policy) -> Result<Text, NoMemory>
    requires { are_written policy.now.resources.items ≡ true }
    ensures { IfOk result (λ t. t ≡ policy_key level.now policy.now) }
{
    if policy.additional.is_empty() {
        named_key(alloc, level, policy.resources.as_slice())
    } else {
        Ok(Text::empty(alloc))
    }
}

/// A policy that lies on a resource has marks with which the values of the resource agree.
pub(crate) fn lying_policies_agree()
    ensures { (def : ServiceDef) (p : Policy) (elements : List Element) (user : List ℕ) (place : ℕ)
        → def_fault def ≡ None
        → some_lies def (maps_of p) Exact elements user ≡ true
        → agrees (asked_at (slice_get def.levels.items place) elements) (mark_at (slice_get def.levels.items place) p) ≡ true }
{
    stands_is_decided();
    prefix_begins_text();
}
