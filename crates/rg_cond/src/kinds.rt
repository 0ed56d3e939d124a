// The kinds of conditions that can be evaluated.
ghost use Rattle.std.specs.Prelude.{◌≡◌, option_map};
ghost use Rattle.std.specs.Str.{bytes_eq, chars};
ghost use Rattle.rg_cond.specs.Kinds.{asks_context, is_answer, begins_with_yes, key_of, kind_named, name_of, kind_of, says_no, says_yes, takes};

use rg_base::{Text, same_text, value_of};
use rg_defs::ConditionDef;

/// What a condition asks about.
#[derive(Clone, Copy, Debug, PartialEq, Eq)]
pub(crate) enum Kind {
    /// `accessed-after-expiry`
    AccessedAfterExpiry,
    /// `ip-range`
    IpRange,
    /// `context-value-in`
    ContextValueIn,
    /// `context-value-not-in`
    ContextValueNotIn,
}

const KINDS: [Kind; 4] = [
    Kind::AccessedAfterExpiry,
    Kind::IpRange,
    Kind::ContextValueIn,
    Kind::ContextValueNotIn,
];

/// The name of a kind.
#[tactic(auto, using(crate::proofs::Spelled::names))]
fn name_of(kind: Kind) -> &'static str
    ensures { chars result.now ≡ name_of kind }
{
    match kind {
        Kind::AccessedAfterExpiry => "accessed-after-expiry",
        Kind::IpRange => "ip-range",
        Kind::ContextValueIn => "context-value-in",
        Kind::ContextValueNotIn => "context-value-not-in",
    }
}

/// Whether the name is that of the kind.
fn is_name_of(name: &str, kind: Kind) -> bool
    ensures { result ≡ bytes_eq (chars name.now) (name_of kind) }
{
    same_text(name, name_of(kind))
}

/// The kind of this name.
#[tactic(auto, unfolding(crate::specs::Kinds::kind_named))]
fn kind_named(name: &str) -> Option<Kind>
    ensures { result ≡ kind_named (chars name.now) }
{
    KINDS.iter().copied().find(|kind| is_name_of(name, *kind))
}

/// The kind of the evaluator's text, else of the condition's name.
#[tactic(auto, unfolding(crate::specs::Kinds::kind_of))]
pub(crate) fn kind_of(def: &ConditionDef) -> Option<Kind>
    ensures { result ≡ kind_of def.now }
{
    match kind_named(def.evaluator.as_str()) {
        Some(kind) => Some(kind),
        None => kind_named(def.name.as_str()),
    }
}

/// The key of the context that the definition names.
#[tactic(auto, using(crate::proofs::Spelled::words))]
pub(crate) fn key_of(def: &ConditionDef) -> Option<&Text>
    ensures { option_map (λ t. t.now) result ≡ key_of def.now }
{
    value_of(def.options.as_slice(), "attributeName")
}

/// Whether the kind asks for a key of the context.
pub(crate) fn asks_context(kind: Kind) -> bool
    ensures { result ≡ asks_context kind }
{
    match kind {
        Kind::ContextValueIn | Kind::ContextValueNotIn => true,
        Kind::AccessedAfterExpiry | Kind::IpRange => false,
    }
}

#[tactic(auto, using(crate::proofs::Spelled::words))]
fn says_yes(value: &str) -> bool
    ensures { result ≡ says_yes (chars value.now) }
{
    same_text(value, "yes") || same_text(value, "true")
}

#[tactic(auto, using(crate::proofs::Spelled::words))]
fn says_no(value: &str) -> bool
    ensures { result ≡ says_no (chars value.now) }
{
    same_text(value, "no") || same_text(value, "false")
}

/// Whether there is one value, which says yes or no.
#[tactic(auto, unfolding(crate::specs::Kinds::is_answer))]
fn is_answer(values: &[Text]) -> bool
    ensures { result ≡ is_answer values.now }
{
    match values {
        [value] => says_yes(value.as_str()) || says_no(value.as_str()),
        _ => false,
    }
}

/// Whether the first value says yes.
#[tactic(auto, unfolding(crate::specs::Kinds::begins_with_yes))]
pub(crate) fn begins_with_yes(values: &[Text]) -> bool
    ensures { result ≡ begins_with_yes values.now }
{
    match values.split_first() {
        Some((value, _)) => says_yes(value.as_str()),
        None => false,
    }
}

/// Whether the kind takes these values.
pub(crate) fn takes(kind: Kind, values: &[Text]) -> bool
    ensures { result ≡ takes kind values.now }
{
    match kind {
        Kind::AccessedAfterExpiry => is_answer(values),
        Kind::IpRange | Kind::ContextValueIn | Kind::ContextValueNotIn => !values.is_empty(),
    }
}
