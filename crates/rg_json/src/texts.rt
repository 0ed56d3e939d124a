// Whole texts.
ghost use Rattle.std.specs.Prelude.{◌≡◌, Some, None, IfOk, option_map};
ghost use Rattle.serde_json.specs.View.{view};
ghost use Rattle.rg_json.specs.Texts.{data_of};

use rg_base::NoMemory;
use serde_json::Value;
use std::alloc::Global;
use std::str;

/// Why a text is no JSON.
#[derive(Clone, Copy, Debug, PartialEq, Eq)]
pub(crate) enum ParseFault {
    /// It is no UTF-8, or no JSON.
    Syntax,
    NoMemory,
}

/// The JSON of a text.
#[tactic(auto, using(crate::proofs::Utf8::utf8_facts), unfolding(crate::specs::Texts::data_of))]
pub(crate) fn parse(alloc: Global, text: &[u8]) -> Result<Value, ParseFault>
    ensures ok { IfOk result (λ value. data_of text.now ≡ Some (view value)) }
    ensures syntax { result ≡ Err ParseFault.Syntax → data_of text.now ≡ None }
{
    match str::from_utf8(text) {
        Err(_) => Err(ParseFault::Syntax),
        Ok(text) => match Value::from_str(alloc, text) {
            Ok(value) => Ok(value),
            Err(error) => {
                if error.is_memory() {
                    Err(ParseFault::NoMemory)
                } else {
                    Err(ParseFault::Syntax)
                }
            }
        },
    }
}

/// The JSON of a text, None where it is none: where it is no UTF-8 or no JSON, or nested more than 127 deep.
pub fn json_of(alloc: Global, text: &[u8]) -> Result<Option<Value>, NoMemory>
    ensures { IfOk result (λ value. option_map view value ≡ data_of text.now) }
{
    match parse(alloc, text) {
        Ok(value) => Ok(Some(value)),
        Err(ParseFault::Syntax) => Ok(None),
        Err(ParseFault::NoMemory) => Err(NoMemory),
    }
}
