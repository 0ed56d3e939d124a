// Conditions as policies write them, compiled.
ghost use Rattle.std.specs.Prelude.{◌≡◌, [], IfOk, IfErr, IfSome, IfNone, Some, option_map, unwrap_or};
ghost use Rattle.rg_cond.specs.Conditions.{rule_holds};
ghost use Rattle.rg_cond.specs.Kinds.{condition_fault, fault_of_kind, key_of, kind_of, row_named, rule_of, rule_of_kind};

use crate::faults::CondFault;
use crate::kinds::{Kind, asks_context, begins_with_yes, key_of, kind_of, takes};
use crate::rules::Rule;
use rg_base::{NoMemory, Seq, Text, TryCopy, find_named};
use rg_defs::{ConditionDef, ServiceDef};
use rg_policy::{AccessRequest, PolicyCondition, Tag};
use std::alloc::Global;
use std::marker::Model;

/// A compiled condition. Contracts see what it asks.
#[derive(Drop)]
pub struct Condition {
    rule: Rule,
}

impl Model for Condition {
    ghost use Rattle.rg_cond.specs.declared.rules.Rule.{Rule};

    ghost Value = { Rule };

    ghost view = { λ c. c.rule };
}

/// Why a condition of this kind doesn't compile.
fn fault_of_kind(kind: Kind, def: &ConditionDef, values: &[Text]) -> Option<CondFault>
    ensures { result ≡ fault_of_kind (Some kind) def.now values.now }
{
    if asks_context(kind) && key_of(def).is_none() {
        Some(CondFault::Unsupported)
    } else if !takes(kind, values) {
        Some(CondFault::BadValues)
    } else {
        None
    }
}

/// The definition's condition of this name and its kind, or why the condition doesn't compile.
#[tactic(auto, unfolding(crate::specs::Kinds::condition_fault))]
fn find_kind<'a>(
    def: &'a ServiceDef,
    condition: &PolicyCondition,
) -> Result<(&'a ConditionDef, Kind), CondFault>
    ensures row { IfOk result (λ found. row_named def.now condition.now.name ≡ Some found.0.now) }
    ensures kind { IfOk result (λ found. kind_of found.0.now ≡ Some found.1) }
    ensures sound { IfOk result (λ _. condition_fault def.now condition.now ≡ None) }
    ensures fault { IfErr result (λ fault. condition_fault def.now condition.now ≡ Some fault) }
{
    let Some(row) = find_named(def.conditions.as_slice(), condition.name.as_str()) else {
        return Err(CondFault::Unknown);
    };
    let Some(kind) = kind_of(row) else {
        return Err(CondFault::Unsupported);
    };
    match fault_of_kind(kind, row, condition.values.as_slice()) {
        Some(fault) => Err(fault),
        None => Ok((row, kind)),
    }
}

/// Why a condition doesn't compile, None where it does. It takes no memory.
pub fn condition_fault(def: &ServiceDef, condition: &PolicyCondition) -> Option<CondFault>
    ensures { result ≡ condition_fault def.now condition.now }
{
    find_kind(def, condition).err()
}

/// The key that the definition names, empty where it names none.
fn copy_key(alloc: Global, def: &ConditionDef) -> Result<Text, NoMemory>
    ensures { IfOk result (λ key. key ≡ unwrap_or (key_of def.now) []) }
{
    match key_of(def) {
        Some(key) => key.try_copy(alloc),
        None => Ok(Text::empty(alloc)),
    }
}

/// The rule of a condition of this kind.
fn rule_of_kind(
    alloc: Global,
    kind: Kind,
    def: &ConditionDef,
    values: &Seq<Text>,
) -> Result<Rule, NoMemory>
    ensures { IfOk result (λ rule. rule ≡ rule_of_kind kind def.now values.now) }
{
    match kind {
        Kind::AccessedAfterExpiry => Ok(Rule::Expired(begins_with_yes(values.as_slice()))),
        Kind::IpRange => Ok(Rule::Address(values.try_copy(alloc)?)),
        Kind::ContextValueIn => Ok(Rule::Context(
            copy_key(alloc, def)?,
            values.try_copy(alloc)?,
            true,
        )),
        Kind::ContextValueNotIn => Ok(Rule::Context(
            copy_key(alloc, def)?,
            values.try_copy(alloc)?,
            false,
        )),
    }
}

/// Compiles a condition. Its values and the key that its definition names are copied, so that `holds` takes no
/// memory.
#[tactic(auto, unfolding(crate::specs::Kinds::rule_of))]
pub fn compile_condition(
    alloc: Global,
    def: &ServiceDef,
    condition: &PolicyCondition,
) -> Result<Condition, CondFault>
    ensures compiled { IfOk result (λ c. c ≡ rule_of def.now condition.now) }
    ensures sound { IfOk result (λ _. condition_fault def.now condition.now ≡ None) }
    ensures refused { IfSome (condition_fault def.now condition.now) (λ fault. result ≡ Err fault) }
    ensures accepted { IfNone (condition_fault def.now condition.now)
        (IfErr result (λ fault. fault ≡ CondFault.NoMemory)) }
{
    let (row, kind) = find_kind(def, condition)?;
    let rule = rule_of_kind(alloc, kind, row, &condition.values)?;
    Ok(Condition { rule })
}

impl Condition {
    /// Whether the condition holds for the request, and for the tag that a tag policy is asked about. It takes no
    /// memory.
    pub fn holds(&self, request: &AccessRequest, tag: Option<&Tag>) -> bool
        ensures { result ≡ rule_holds self.now request.now (option_map (λ t. t.now) tag.entry) }
    {
        self.rule.holds(request, tag)
    }
}
