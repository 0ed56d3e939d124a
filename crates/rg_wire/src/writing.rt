// JSON written token by token: nothing is made between a record and its text.
ghost use Rattle.std.specs.Prelude.{◌≡◌, [], ◌∷◌, OnOk};
ghost use Rattle.std.specs.Str.{chars, encode_utf8_all};
ghost use Rattle.json.specs.Print.{print};
ghost use Rattle.json.specs.Token.{begin_object, end_object};
ghost use Rattle.rg_json.specs.Printing.{text_data};
ghost use Rattle.rg_wire.specs.Tokens.{Adds, member_tokens, tokens_of};

use crate::key::Key;
use json::Writer;
use rg_base::{NoMemory, Text};
use rg_json::Name;

/// What is written as JSON.
pub(crate) trait WriteJson {
    ghost use Rattle.std.specs.Prelude.{OnOk};
    ghost use Rattle.serde_json.specs.Data.{Data};
    ghost use Rattle.rg_wire.specs.Tokens.{Adds, tokens_of};

    /// The JSON.
    ghost printing: { Self → Data };

    /// Writes it.
    fn write(&self, out: &mut Writer) -> Result<(), NoMemory>
        ensures { OnOk result (Adds out.old out.new (tokens_of (printing self.now))) };
}

impl WriteJson for bool {
    ghost use Rattle.rg_json.specs.Printing.{bool_data};

    ghost printing = { bool_data };

    #[tactic(auto, unfolding(crate::specs::Tokens::tokens_of))]
    fn write(&self, out: &mut Writer) -> Result<(), NoMemory> {
        out.boolean(*self)?;
        Ok(())
    }
}

impl WriteJson for i64 {
    ghost use Rattle.rg_json.specs.Printing.{integer_data};

    ghost printing = { integer_data };

    #[tactic(auto, using(crate::proofs::Tokens::integer_tokens))]
    fn write(&self, out: &mut Writer) -> Result<(), NoMemory> {
        out.i64(*self)?;
        Ok(())
    }
}

impl WriteJson for u64 {
    ghost use Rattle.rg_json.specs.Printing.{count_data};

    ghost printing = { count_data };

    #[tactic(auto, unfolding(crate::specs::Tokens::tokens_of))]
    fn write(&self, out: &mut Writer) -> Result<(), NoMemory> {
        out.u64(*self)?;
        Ok(())
    }
}

/// Writes a text.
#[tactic(auto, using(crate::proofs::Tokens::text_tokens))]
fn write_text(out: &mut Writer, text: &str) -> Result<(), NoMemory>
    ensures { OnOk result (Adds out.old out.new (tokens_of (text_data (chars text.now)))) }
{
    out.string(text)?;
    Ok(())
}

impl WriteJson for Text {
    ghost use Rattle.rg_json.specs.Printing.{text_data};

    ghost printing = { text_data };

    fn write(&self, out: &mut Writer) -> Result<(), NoMemory> {
        write_text(out, self.as_str())
    }
}

impl<X: WriteJson> WriteJson for Option<X> {
    ghost use Rattle.rg_json.specs.Printing.{option_data};

    ghost printing = { λ o. option_data X.printing o };

    #[tactic(auto, unfolding(crate::specs::Tokens::tokens_of))]
    fn write(&self, out: &mut Writer) -> Result<(), NoMemory> {
        match self {
            None => {
                out.null()?;
                Ok(())
            }
            Some(part) => part.write(out),
        }
    }
}

/// Begins an object.
pub(crate) fn begin(out: &mut Writer) -> Result<(), NoMemory>
    ensures { OnOk result (Adds out.old out.new (begin_object ∷ [])) }
{
    out.begin_object()?;
    Ok(())
}

/// Ends an object.
pub(crate) fn end(out: &mut Writer) -> Result<(), NoMemory>
    ensures { OnOk result (Adds out.old out.new (end_object ∷ [])) }
{
    out.end_object()?;
    Ok(())
}

/// Writes a field.
pub(crate) fn member<X: WriteJson>(out: &mut Writer, key: Key, part: &X) -> Result<(), NoMemory>
    ensures { OnOk result (Adds out.old out.new (member_tokens key (X.printing part.now))) }
{
    out.key(key.name())?;
    part.write(out)
}

/// Writes a field that holds a text.
pub(crate) fn text_member(out: &mut Writer, key: Key, text: &str) -> Result<(), NoMemory>
    ensures { OnOk result (Adds out.old out.new (member_tokens key (text_data (chars text.now)))) }
{
    out.key(key.name())?;
    write_text(out, text)
}

/// The text that was written.
#[tactic(auto, using(rg_json::proofs::Printed::spelled))]
pub(crate) fn written(out: Writer) -> Text
    requires { out.before ≡ [] }
    ensures text { result ≡ chars (print out.tokens) }
    ensures bytes { encode_utf8_all result ≡ print out.tokens }
{
    let Ok(text) = String::from_utf8(out.into_inner()) else {
        unreachable!();
    };
    Text::of(text)
}
