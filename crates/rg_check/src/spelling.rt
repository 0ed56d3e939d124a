// Texts as a JSON string spells them.
ghost use Rattle.std.specs.Prelude.{◌≡◌, ◌≢◌, ◌++◌, ◌∷◌, [], ℕ, List, IfOk, MatchOption, Some, option_map, string_bytes};
ghost use Rattle.json.specs.Print.{escape, quoted};

use crate::words::owned;
use rg_base::NoMemory;
use rg_json::text_of;
use serde_json::Value;
use std::alloc::Global;

fn past_quote(text: &str) -> Option<&str>
    ensures { MatchOption result ((rest : List ℕ) → text.now ≢ 34 ∷ rest)
        (λ rest. text.now ≡ 34 ∷ rest.now) }
{
    text.strip_prefix('"')
}

fn before_quote(text: &str) -> Option<&str>
    ensures { MatchOption result ((front : List ℕ) → text.now ≢ front ++ 34 ∷ [])
        (λ front. text.now ≡ front.now ++ 34 ∷ []) }
{
    text.strip_suffix('"')
}

/// What stands between the quotes of a JSON string.
fn unquoted(string: &str) -> Option<&str>
    ensures { (text : List ℕ) → string.now ≡ quoted text
        → option_map (λ inner. inner.now) result ≡ Some (escape text) }
{
    before_quote(past_quote(string)?)
}

/// The text as a JSON string spells it (RFC 8259, section 7), so that no control below U+0020 breaks a line or reaches a terminal.
pub(crate) fn spelled(alloc: Global, text: &str) -> Result<String, NoMemory>
    ensures { IfOk result (λ s. string_bytes s ≡ escape text.now) }
{
    let string = text_of(alloc, &Value::String(owned(alloc, text)?))?;
    match unquoted(string.as_str()) {
        Some(inner) => owned(alloc, inner),
        None => unreachable!(),
    }
}
