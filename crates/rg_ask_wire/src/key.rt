// The names of an ask's fields in JSON, and their table.
use rg_json::Need::Must;
use rg_json::{Field, Kind, Name, Table};

/// A field of an ask.
#[derive(Clone, Copy, Debug, PartialEq, Eq)]
pub enum AskKey {
    Actor,
    Command,
}

impl Name for AskKey {
    ghost use Rattle.rg_ask_wire.specs.Asks.{ask_name};

    ghost name_of = { ask_name };

    #[tactic(auto, unfolding(crate::specs::Asks::ask_name))]
    fn name(self) -> &'static str {
        match self {
            AskKey::Actor => "actor",
            AskKey::Command => "command",
        }
    }
}

/// An ask as a table of its fields. What the command is comes after.
#[derive(Clone, Copy, Debug, PartialEq, Eq)]
pub struct AskTable;

impl Table<AskKey> for AskTable {
    ghost use Rattle.rg_ask_wire.specs.Reading.{ask_shape};

    ghost record_shape = { λ t. ask_shape };

    #[tactic(auto, unfolding(rg_json::specs::Kinds::shape_of))]
    fn fields(self) -> &'static [Field<AskKey, AskTable>] {
        &[
            Field(AskKey::Actor, Must, Kind::Text),
            Field(AskKey::Command, Must, Kind::Anything),
        ]
    }
}
