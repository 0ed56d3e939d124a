// Masks and row filters as text.
ghost use Rattle.std.specs.Prelude.{◌≡◌, ◌++◌, ◌∷◌, [], IfOk, MatchOption, false, option_map, unwrap_or};
ghost use Rattle.std.specs.Str.{chars};
ghost use Rattle.rg_facts.specs.Texts.{begins_with_mark, col_mark, masked, replaced, template_of, transformer_of};

use crate::decision::MaskText;
use rg_base::{NoMemory, Text, TryCopy, find_named, split_char};
use rg_defs::ServiceDef;
use rg_evalr::is_custom;
use rg_policy::MaskInfo;
use std::alloc::Global;

/// What follows `{col}` in a text that begins with it.
fn past_mark(text: &str) -> Option<&str>
    ensures { MatchOption result (begins_with_mark (chars text.now) ≡ false)
        (λ rest. chars text.now ≡ col_mark ++ chars rest.now) }
{
    text.strip_prefix("{col}")
}

/// The template with the column in place of each `{col}`.
pub(crate) fn replaced(alloc: Global, template: &str, column: &str) -> Result<Text, NoMemory>
    ensures { IfOk result (λ t. t ≡ replaced (chars template.now) (chars column.now)) }
{
    let mut text = Text::empty(alloc);
    let mut rest = template;
    while let Some((c, more)) = split_char(rest) {
        if let Some(after) = past_mark(rest) {
            text.append(column)?;
            rest = after;
            continue;
        }
        text.push(c)?;
        rest = more;
    }
    Ok(text)
}

#[tactic(auto, using(crate::proofs::Marks::spelled))]
fn or_empty(text: Option<&Text>) -> &str
    ensures { chars result.now ≡ unwrap_or (option_map (λ t. t.now) text.entry) [] }
{
    match text {
        Some(text) => text.as_str(),
        None => "",
    }
}

/// The transformer of the definition's mask type of this name.
fn transformer_in<'a>(def: &'a ServiceDef, kind: &str) -> Option<&'a Text>
    ensures { unwrap_or (option_map (λ t. t.now) result) []
        ≡ transformer_of (chars kind.now) def.now }
{
    let mask = find_named(def.masks.as_slice(), kind)?;
    Some(&mask.transformer)
}

/// The mask's expression before its column is put in: CUSTOM brings its own.
fn template_of<'a>(def: &'a ServiceDef, mask: &'a MaskInfo) -> &'a str
    ensures { chars result.now ≡ template_of def.now mask.now }
{
    let kind = mask.kind.as_str();
    if is_custom(kind) {
        mask.value_expr.as_str()
    } else {
        or_empty(transformer_in(def, kind))
    }
}

/// The mask as text, over this column.
pub(crate) fn masked(
    alloc: Global,
    def: &ServiceDef,
    column: Option<&Text>,
    mask: &MaskInfo,
) -> Result<MaskText, NoMemory>
    ensures { IfOk result
        (λ m. m ≡ masked def.now (unwrap_or (option_map (λ t. t.now) column.entry) []) mask.now) }
{
    let kind = mask.kind.try_copy(alloc)?;
    let expr = replaced(alloc, template_of(def, mask), or_empty(column))?;
    Ok(MaskText { kind, expr })
}
