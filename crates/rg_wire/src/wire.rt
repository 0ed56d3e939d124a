// How the records are read.
use crate::key::Key;
use rg_base::{NoMemory, Text};
use rg_json::{Reader, text_in, text_or_at};
use serde_json::Value;
use std::alloc::Global;

/// Reads each record as the format has it.
#[derive(Clone, Copy)]
pub struct Wire;

/// Reads the members of a list that are kept by their names.
#[derive(Clone, Copy)]
pub(crate) struct Members;

impl Reader<Text> for Wire {
    ghost use Rattle.rg_json.specs.Fields.{text_of};
    ghost use Rattle.rg_json.specs.Own.{IsText};

    ghost reading = { λ w. text_of };

    ghost owned = { IsText };

    fn read(&self, alloc: Global, value: &Value) -> Result<Text, NoMemory> {
        text_in(alloc, value)
    }
}

impl Reader<Text> for Members {
    ghost use Rattle.rg_json.specs.Own.{Whatever};
    ghost use Rattle.rg_wire.specs.Fields.{member_name};

    ghost reading = { λ w. member_name };

    ghost owned = { Whatever };

    fn read(&self, alloc: Global, value: &Value) -> Result<Text, NoMemory> {
        text_or_at(alloc, value, Key::Name)
    }
}
