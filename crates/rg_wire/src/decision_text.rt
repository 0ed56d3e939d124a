// A decision, printed.
ghost use Rattle.std.specs.Prelude.{◌≡◌, IfOk};
ghost use Rattle.std.specs.Str.{chars, encode_utf8_all};
ghost use Rattle.rg_wire.specs.Printing.{decision_text, word_of};

use crate::key::Key;
use crate::writing::{WriteJson, begin, end, member, written};
use json::Writer;
use rg_base::{NoMemory, Text};
use rg_facts::{Access, Decision, MaskText};
use std::alloc::Global;

/// The room for a line, in bytes: enough for one without a row filter and a mask. A longer one takes more.
pub(crate) const LINE_ROOM: usize = 192;

/// The word for what a decision says of an access.
#[tactic(auto, unfolding(crate::specs::Printing::word_of))]
pub fn access_word(access: Access) -> &'static str
    ensures { result.now ≡ word_of access }
{
    match access {
        Access::Allowed => "ALLOWED",
        Access::Denied => "DENIED",
        Access::Undetermined => "UNDETERMINED",
    }
}

impl WriteJson for Access {
    ghost use Rattle.rg_wire.specs.Printing.{access_data};

    ghost printing = { access_data };

    #[tactic(auto, unfolding(crate::specs::Tokens::tokens_of))]
    fn write(&self, out: &mut Writer) -> Result<(), NoMemory> {
        out.string(access_word(*self))?;
        Ok(())
    }
}

impl WriteJson for MaskText {
    ghost use Rattle.rg_wire.specs.Printing.{mask_text_data};

    ghost printing = { mask_text_data };

    fn write(&self, out: &mut Writer) -> Result<(), NoMemory> {
        begin(out)?;
        member(out, Key::Expr, &self.expr)?;
        member(out, Key::Type, &self.kind)?;
        end(out)?;
        Ok(())
    }
}

impl WriteJson for Decision {
    ghost use Rattle.rg_wire.specs.Printing.{decision_data};

    ghost printing = { decision_data };

    fn write(&self, out: &mut Writer) -> Result<(), NoMemory> {
        begin(out)?;
        member(out, Key::Access, &self.access)?;
        member(out, Key::Audited, &self.audited)?;
        member(out, Key::Mask, &self.mask)?;
        member(out, Key::PolicyId, &self.policy.0)?;
        member(out, Key::PolicyVersion, &self.policy_version.0)?;
        member(out, Key::RowFilter, &self.filter)?;
        member(out, Key::Serial, &self.serial.0)?;
        member(out, Key::TagVersion, &self.tag_version.0)?;
        end(out)?;
        Ok(())
    }
}

/// Prints a decision: the decision line of a script, without its LF.
#[tactic(auto, using(crate::proofs::Tokens::tokens_printed), unfolding(crate::specs::Printing::decision_text))]
pub fn print_decision(alloc: Global, decision: &Decision) -> Result<Text, NoMemory>
    ensures text { IfOk result (λ t. t ≡ chars (decision_text decision.now)) }
    ensures bytes { IfOk result (λ t. encode_utf8_all t ≡ decision_text decision.now) }
{
    let mut out = Writer::new(Vec::with_capacity(alloc, LINE_ROOM)?);
    decision.write(&mut out)?;
    Ok(written(out))
}
