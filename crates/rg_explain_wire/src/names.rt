// Names in words: each is spelled as a JSON string.
ghost use Rattle.std.specs.Prelude.{◌≡◌, ◌++◌, IfOk, string_bytes};
ghost use Rattle.std.specs.Str.{encode_utf8_all};
ghost use Rattle.rg_explain_wire.specs.Words.{quoted, quoted_list};

use crate::key::Key;
use rg_base::{NoMemory, Seq, Text};
use rg_json::{ToJson, text_of};
use std::alloc::Global;

/// The text, in memory of its own.
pub(crate) fn owned(alloc: Global, text: &str) -> Result<String, NoMemory>
    ensures { IfOk result (λ s. string_bytes s ≡ text.now) }
{
    Ok(String::from_str(alloc, text)?)
}

/// The name as a JSON string.
#[tactic(auto, using(crate::proofs::Plain::names), unfolding(crate::specs::Words::quoted))]
pub(crate) fn quoted(alloc: Global, name: &Text) -> Result<Text, NoMemory>
    ensures { IfOk result (λ t. encode_utf8_all t ≡ quoted name.now) }
{
    let value = <Text as ToJson<Key>>::json(name, alloc)?;
    text_of(alloc, &value)
}

/// The names as a JSON list.
#[tactic(auto, using(crate::proofs::Plain::names), unfolding(crate::specs::Words::quoted_list))]
pub(crate) fn quoted_list(alloc: Global, names: &Seq<Text>) -> Result<Text, NoMemory>
    ensures { IfOk result (λ t. encode_utf8_all t ≡ quoted_list names.now) }
{
    let value = <Seq<Text> as ToJson<Key>>::json(names, alloc)?;
    text_of(alloc, &value)
}

/// A name between two words.
pub(crate) fn with_name(
    alloc: Global,
    before: &str,
    name: &Text,
    after: &str,
) -> Result<String, NoMemory>
    ensures { IfOk result (λ s. string_bytes s ≡ before.now ++ (quoted name.now ++ after.now)) }
{
    let name = quoted(alloc, name)?;
    let name = name.as_str();
    Ok(format!(in alloc; "{before}{name}{after}")?)
}

/// A word with a name behind it.
pub(crate) fn after_word(alloc: Global, word: &str, name: &Text) -> Result<String, NoMemory>
    ensures { IfOk result (λ s. string_bytes s ≡ word.now ++ quoted name.now) }
{
    let name = quoted(alloc, name)?;
    let name = name.as_str();
    Ok(format!(in alloc; "{word}{name}")?)
}
