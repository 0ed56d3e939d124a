// What the types of a JSON value keep: looked up in every part, so that contracts can speak of the whole.
ghost use Rattle.std.specs.Prelude.{◌≡◌, IfSome, Ok, OnOk, string_bytes};
ghost use Rattle.std.specs.Str.{IsUtf8};
ghost use Rattle.serde_json.specs.View.{items_view, members_view, view};
ghost use Rattle.rg_cmd.specs.declared.ask.AdminCommand.{AdminCommand};
ghost use Rattle.rg_cmd_wire.specs.Commands.{OwnsPolicy};
ghost use Rattle.rg_cmd_wire.specs.Reading.{command_reading};
ghost use Rattle.rg_json.specs.Own.{IsInteger};
ghost use Rattle.rg_json.specs.Texts.{data_of};
ghost use Rattle.rg_ask_wire.specs.KeyOrder.{IsCommandInOrder};
ghost use Rattle.rg_ask_wire.specs.Orderly.{AreKeyed, AreOrderly, IsFineNumber, IsOrderly};

use rg_base::NoMemory;
use rg_json::json_of;
use serde_json::{Map, Value};
use std::alloc::Global;

/// Walks the value and does nothing with it.
#[cycle(seeing)]
pub(crate) fn see(value: &Value)
    ensures { IsOrderly (view value.now) }
{
    match value {
        Value::Null | Value::Bool(_) => {}
        Value::Number(_) => see_number(value),
        Value::String(text) => see_text(text),
        Value::Array(items) => see_items(items),
        Value::Object(members) => see_members(members),
    }
}

fn see_text(text: &String)
    ensures { IsUtf8 (string_bytes text.now) }
{}

fn see_integer(number: i64)
    ensures { IsInteger number }
{}

fn see_number(value: &Value)
    ensures { IsFineNumber (view value.now) }
{
    match value.as_i64() {
        None => {}
        Some(number) => see_integer(number),
    }
}

#[cycle(seeing)]
fn see_items(items: &Vec<Value>)
    ensures { AreOrderly (items_view items.now.items) }
{
    for item in items {
        see(item);
    }
}

#[cycle(seeing)]
fn see_members(members: &Map<String, Value>)
    ensures { AreKeyed (members_view members.now.entries) }
{
    for (_, member) in members.iter() {
        see(member);
    }
}

/// The JSON of each text is as JSON in memory: its strings and keys are text, the keys of its maps stand in byte order, and its
/// integers fit. Nothing is answered: it looks at the text, so that a caller who read a record from it knows this.
pub fn json_is_orderly(alloc: Global, text: &[u8]) -> Result<(), NoMemory>
    ensures { OnOk result (IfSome (data_of text.now) IsOrderly) }
{
    match json_of(alloc, text) {
        Err(NoMemory) => Err(NoMemory),
        Ok(None) => Ok(()),
        Ok(Some(value)) => {
            see(&value);
            Ok(())
        }
    }
}

/// Each command that reads from this text is in key order. Nothing is answered: it looks at the text, so that a caller who read
/// a command from it knows this.
pub fn commands_are_in_order(alloc: Global, text: &[u8]) -> Result<(), NoMemory>
    ensures { OnOk result ((command : AdminCommand) → command_reading text.now ≡ Ok command
        → OwnsPolicy command → IsCommandInOrder command) }
{
    json_is_orderly(alloc, text)
}
