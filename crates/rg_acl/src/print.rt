// A row, printed.
ghost use Rattle.std.specs.Prelude.{◌≡◌, IfOk};
ghost use Rattle.std.specs.Str.{chars, encode_utf8_all};
ghost use Rattle.rg_acl.specs.Printing.{kind_word, row_text};

use crate::row::{ReportRow, SubjectKind};
use rg_base::{NoMemory, Text};
use rg_facts::Access;
use rg_json::{Name, ToJson, put, text_of};
use rg_wire::access_word;
use serde_json::{Map, Value};
use std::alloc::Global;

/// The fields of a printed row.
#[derive(Clone, Copy)]
pub(crate) enum RowKey {
    Access,
    AccessType,
    Kind,
    Name,
    PolicyId,
}

impl Name for RowKey {
    ghost use Rattle.rg_acl.specs.Printing.{name_of};

    ghost name_of = { name_of };

    #[tactic(auto, unfolding(crate::specs::Printing::name_of))]
    fn name(self) -> &'static str {
        match self {
            RowKey::Access => "access",
            RowKey::AccessType => "accessType",
            RowKey::Kind => "kind",
            RowKey::Name => "name",
            RowKey::PolicyId => "policyId",
        }
    }
}

#[tactic(auto, unfolding(crate::specs::Printing::kind_word))]
fn kind_word(kind: SubjectKind) -> &'static str
    ensures { result.now ≡ kind_word kind }
{
    match kind {
        SubjectKind::User => "user",
        SubjectKind::Group => "group",
        SubjectKind::Role => "role",
        SubjectKind::Other => "other",
    }
}

impl ToJson<RowKey> for SubjectKind {
    ghost use Rattle.rg_acl.specs.Printing.{kind_data};

    ghost printing = { kind_data };

    fn json(&self, alloc: Global) -> Result<Value, NoMemory> {
        Ok(Value::String(String::from_str(alloc, kind_word(*self))?))
    }
}

impl ToJson<RowKey> for Access {
    ghost use Rattle.rg_wire.specs.Printing.{access_data};

    ghost printing = { access_data };

    fn json(&self, alloc: Global) -> Result<Value, NoMemory> {
        Ok(Value::String(String::from_str(alloc, access_word(*self))?))
    }
}

impl ToJson<RowKey> for ReportRow {
    ghost use Rattle.rg_acl.specs.Printing.{row_data};

    ghost printing = { row_data };

    #[tactic(auto, unfolding(crate::specs::Printing::row_data))]
    fn json(&self, alloc: Global) -> Result<Value, NoMemory> {
        let mut members = Map::new(alloc);
        put(alloc, &mut members, RowKey::Access, &self.verdict.access)?;
        put(alloc, &mut members, RowKey::AccessType, &self.access)?;
        put(alloc, &mut members, RowKey::Kind, &self.kind)?;
        put(alloc, &mut members, RowKey::Name, &self.name)?;
        put(
            alloc,
            &mut members,
            RowKey::PolicyId,
            &self.verdict.policy.0,
        )?;
        Ok(Value::Object(members))
    }
}

/// Prints a row: a line of a report, without its LF.
#[tactic(auto, using(crate::proofs::Plain::rows), unfolding(crate::specs::Printing::row_text))]
pub fn print_row(alloc: Global, row: &ReportRow) -> Result<Text, NoMemory>
    ensures text { IfOk result (λ t. t ≡ chars (row_text row.now)) }
    ensures bytes { IfOk result (λ t. encode_utf8_all t ≡ row_text row.now) }
{
    let value = row.json(alloc)?;
    text_of(alloc, &value)
}
