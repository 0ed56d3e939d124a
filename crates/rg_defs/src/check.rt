// The rules of a service definition.
ghost use Rattle.std.specs.Prelude.{◌≡◌, ◌≤◌, ◌&&◌, ℕ, not, map, None, Some, IfErr, IfOk, OnErr, OnOk};
ghost use Rattle.std.specs.List.{list_all, list_any};
ghost use Rattle.std.specs.Str.{bytes_eq, chars};
ghost use Rattle.rg_base.specs.Texts.{is_among, is_empty, is_name};
ghost use Rattle.rg_defs.specs.Faults.{Names};
ghost use Rattle.rg_defs.specs.declared.service_def.AccessType.{AccessType};
ghost use Rattle.rg_defs.specs.Rules.{access_types_rule, conditions_rule, def_fault, has_from_to, has_level, implied_rule, is_parent, is_tag_level, levels_rule, masks_rule, name_rule, parents_rule, parts_rule, tag_name, tag_rule};

use crate::service_def::{AccessType, ConditionDef, Level, MaskType, ServiceDef};
use rg_base::{NameIndex, NoMemory, Text, is_empty, is_name, is_named, names_distinct, same_text};
use std::alloc::Global;

/// Why a definition is refused.
#[derive(Clone, Copy, Debug, PartialEq, Eq)]
pub enum DefFault {
    /// The rule of this number, S1 to S8, fails, and none before it.
    Rule(u8),
    /// Memory was refused.
    NoMemory,
}

impl From<NoMemory> for DefFault {
    ghost use Rattle.rg_defs.specs.declared.check.DefFault.TheVariants.{NoMemory as Refused};

    ghost from_gives = { λ _ fault. fault ≡ Refused };

    fn from(_refused: NoMemory) -> DefFault {
        DefFault::NoMemory
    }
}

fn name_rule(def: &ServiceDef) -> bool
    ensures { result ≡ name_rule def.now }
{
    is_name(def.name.as_str())
}

fn has_from_to(low: usize, high: usize, count: usize) -> bool
    ensures { result ≡ has_from_to low high count }
{
    low <= count && count <= high
}

fn level_names_fit(levels: &[Level]) -> bool
    ensures { result ≡ list_all (λ (l : Level). is_name l.name) levels.now }
{
    levels.iter().all(|level| is_name(level.name.as_str()))
}

fn levels_rule(levels: &[Level]) -> bool
    ensures { result ≡ levels_rule levels.now }
{
    has_from_to(1, 16, levels.len()) && level_names_fit(levels) && names_distinct(levels)
}

/// Whether a level of the parent's name stands above the child.
fn has_parent(levels: &[Level], child: &Level) -> bool
    ensures { result ≡ list_any (is_parent child.now) levels.now }
{
    levels.iter().any(|level| same_text(level.name.as_str(), child.parent.as_str())
        && level.level < child.level)
}

fn parents_rule(levels: &[Level]) -> bool
    ensures { result ≡ parents_rule levels.now }
{
    levels.iter().all(|level| is_empty(level.parent.as_str()) || has_parent(levels, level))
}

fn access_names_fit(types: &[AccessType]) -> bool
    ensures { result ≡ list_all (λ (t : AccessType). is_name t.name) types.now }
{
    types.iter().all(|kind| is_name(kind.name.as_str()))
}

fn access_types_rule(types: &[AccessType]) -> bool
    ensures { result ≡ access_types_rule types.now }
{
    has_from_to(1, 1024, types.len()) && access_names_fit(types) && names_distinct(types)
}

fn are_known(known: &NameIndex, names: &[Text]) -> bool
    ensures { result ≡ list_all (λ n. is_among n known.now) names.now }
{
    names.iter().all(|name| known.contains(name.as_str()))
}

fn are_implied_known(known: &NameIndex, types: &[AccessType]) -> bool
    ensures { result ≡ list_all
        (λ (t : AccessType). list_all (λ n. is_among n known.now) t.implied.items) types.now }
{
    types
        .iter()
        .all(|kind| are_known(known, kind.implied.as_slice()))
}

fn implied_rule(known: &NameIndex, types: &[AccessType]) -> bool
    requires { known.now ≡ map (λ (t : AccessType). t.name) types.now }
    ensures { result ≡ implied_rule types.now }
{
    are_implied_known(known, types)
}

fn conditions_rule(conditions: &[ConditionDef]) -> bool
    ensures { result ≡ conditions_rule conditions.now }
{
    conditions.len() <= 64 && conditions_have_names(conditions) && names_distinct(conditions)
}

fn conditions_have_names(conditions: &[ConditionDef]) -> bool
    ensures { result ≡ list_all (λ (c : ConditionDef). not (is_empty c.name)) conditions.now }
{
    conditions
        .iter()
        .all(|condition| !is_empty(condition.name.as_str()))
}

fn masks_rule(masks: &[MaskType]) -> bool
    ensures { result ≡ masks_rule masks.now }
{
    masks.len() <= 64 && masks_have_names(masks) && names_distinct(masks)
}

fn masks_have_names(masks: &[MaskType]) -> bool
    ensures { result ≡ list_all (λ (m : MaskType). not (is_empty m.name)) masks.now }
{
    masks.iter().all(|mask| !is_empty(mask.name.as_str()))
}

fn are_levels(levels: &[Level], names: &[Text]) -> bool
    ensures { result ≡ list_all (has_level levels.now) names.now }
{
    names.iter().all(|name| is_named(levels, name.as_str()))
}

fn parts_are_known(known: &NameIndex, def: &ServiceDef) -> bool
    ensures { result ≡ (list_all (λ n. is_among n known.now) def.now.mask_access.items
        && list_all (has_level def.now.levels.items) def.now.mask_levels.items
        && list_all (λ n. is_among n known.now) def.now.filter_access.items && list_all (has_level def.now.levels.items) def.now.filter_levels.items) }
{
    let levels = def.levels.as_slice();
    are_known(known, def.mask_access.as_slice())
        && are_levels(levels, def.mask_levels.as_slice())
        && are_known(known, def.filter_access.as_slice())
        && are_levels(levels, def.filter_levels.as_slice())
}

fn parts_rule(known: &NameIndex, def: &ServiceDef) -> bool
    requires { known.now ≡ map (λ (t : AccessType). t.name) def.now.access_types.items }
    ensures { result ≡ parts_rule def.now }
{
    parts_are_known(known, def)
}

/// The name of tag definitions, and of their one level.
#[tactic(auto, using(crate::proofs::Tags::tag_facts))]
pub fn tag_name() -> &'static str
    ensures { chars result.now ≡ tag_name }
{
    "tag"
}

fn is_tag(text: &str) -> bool
    ensures { result ≡ bytes_eq (chars text.now) tag_name }
{
    same_text(text, tag_name())
}

fn is_tag_level(levels: &[Level]) -> bool
    ensures { result ≡ is_tag_level levels.now }
{
    match levels {
        [level] => is_tag(level.name.as_str()),
        _ => false,
    }
}

fn tag_rule(def: &ServiceDef) -> bool
    ensures { result ≡ tag_rule def.now }
{
    !is_tag(def.name.as_str()) || is_tag_level(def.levels.as_slice())
}

#[tactic(auto, unfolding(crate::specs::Rules::def_fault))]
fn first_fault(alloc: Global, def: &ServiceDef) -> Result<Option<u8>, NoMemory>
    ensures fault { IfOk result (λ fault. fault ≡ def_fault def.now) }
    ensures late { OnErr result ((number : ℕ) → def_fault def.now ≡ Some number → 5 ≤ number) }
{
    let levels = def.levels.as_slice();
    let types = def.access_types.as_slice();
    if !name_rule(def) {
        return Ok(Some(1));
    }
    if !levels_rule(levels) {
        return Ok(Some(2));
    }
    if !parents_rule(levels) {
        return Ok(Some(3));
    }
    if !access_types_rule(types) {
        return Ok(Some(4));
    }
    let known = NameIndex::build(alloc, types)?;
    if !implied_rule(&known, types) {
        return Ok(Some(5));
    }
    if !conditions_rule(def.conditions.as_slice()) {
        return Ok(Some(6));
    }
    if !masks_rule(def.masks.as_slice()) || !parts_rule(&known, def) {
        return Ok(Some(7));
    }
    Ok(if tag_rule(def) { None } else { Some(8) })
}

/// Whether the definition is lawful; if not, the least of its rules that fails.
pub fn check_def(alloc: Global, def: &ServiceDef) -> Result<(), DefFault>
    ensures ok { OnOk result (def_fault def.now ≡ None) }
    ensures fault { IfErr result (λ e. Names e (def_fault def.now)) }
{
    match first_fault(alloc, def)? {
        None => Ok(()),
        Some(number) => Err(DefFault::Rule(number)),
    }
}
