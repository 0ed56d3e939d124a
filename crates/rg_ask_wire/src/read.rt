// Asks, read.
ghost use Rattle.std.specs.Prelude.{◌≡◌, ◌++◌, ◌≤◌, codes, IfErr, IfOk, IfSome, None, Ok, Some, option_map};
ghost use Rattle.serde_json.specs.Data.{depth};
ghost use Rattle.serde_json.specs.Read.{max_depth};
ghost use Rattle.serde_json.specs.View.{view};
ghost use Rattle.rg_cmd_wire.specs.Commands.{OwnsPolicy};
ghost use Rattle.rg_cmd_wire.specs.Reading.{reading_in};
ghost use Rattle.rg_json.specs.Faults.{fault_of};
ghost use Rattle.rg_json.specs.Fields.{within};
ghost use Rattle.rg_json.specs.Reading.{Answers, Refuses};
ghost use Rattle.rg_json.specs.Texts.{data_of};
ghost use Rattle.rg_ask_wire.specs.KeyOrder.{IsInKeyOrder};
ghost use Rattle.rg_ask_wire.specs.Asks.{ask_name};
ghost use Rattle.rg_ask_wire.specs.Orderly.{IsOrderly};
ghost use Rattle.rg_ask_wire.specs.Reading.{IsBelowCommand, ask_in, ask_reading, ask_shape};
ghost use Rattle.rg_ask_wire.specs.declared.key.AskKey.TheVariants as own;

use crate::key::{AskKey, AskTable};
use crate::orderly::see;
use rg_base::{NoMemory, Text};
use rg_cmd::{AdminCommand, Ask};
use rg_cmd_wire::read_command;
use rg_json::{Table, WireFault, WireKind, find_or, judge, text_at};
use serde_json::Value;
use std::alloc::Global;

/// The JSON of a text, with what is known of its depth; None where it is none.
#[tactic(auto, using(crate::proofs::Parsed::parsed))]
fn shallow_json(alloc: Global, text: &[u8]) -> Result<Option<Value>, NoMemory>
    ensures json { IfOk result (λ value. option_map view value ≡ data_of text.now) }
    ensures shallow { IfOk result (λ value. IfSome value (λ v. depth (view v) ≤ max_depth)) }
{
    match Value::from_slice(alloc, text) {
        Ok(value) => Ok(Some(value)),
        Err(error) => {
            if error.is_memory() {
                Err(NoMemory)
            } else {
                Ok(None)
            }
        }
    }
}

/// The command of a value, through its compact text.
#[tactic(auto, using(crate::proofs::Parsed::parsed))]
fn command_in(alloc: Global, value: &Value) -> Result<AdminCommand, WireFault>
    requires { depth (view value.now) ≤ max_depth }
    ensures reads { Answers result (reading_in (Some (view value.now))) }
    ensures owned { IfOk result OwnsPolicy }
{
    match value.to_string(alloc) {
        Ok(text) => read_command(alloc, text.as_bytes()),
        Err(_) => Err(WireFault::NoMemory),
    }
}

/// The path of a place below the command.
#[tactic(auto, using(crate::proofs::Paths::paths))]
fn command_path(alloc: Global, path: &Text) -> Result<Text, NoMemory>
    ensures { IfOk result (λ t. t ≡ codes "/command" ++ path.now) }
{
    let rest = path.as_str();
    Ok(Text::of(format!(in alloc; "/command{rest}")?))
}

/// The fault of the command, as the ask has it.
fn below_command(alloc: Global, fault: WireFault) -> WireFault
    ensures { IsBelowCommand fault result }
{
    match fault {
        WireFault::NoMemory => WireFault::NoMemory,
        WireFault::Bad { path, kind } => match command_path(alloc, &path) {
            Ok(path) => WireFault::Bad { path, kind },
            Err(_) => WireFault::NoMemory,
        },
    }
}

/// The first fault of the fields of an ask.
fn judge_ask(alloc: Global, value: &Value) -> Result<(), WireFault>
    ensures right { IfOk result (λ u. fault_of ask_shape (view value.now) ≡ None) }
    ensures wrong { IfErr result (λ e. Refuses e (fault_of ask_shape (view value.now))) }
{
    judge::<AskKey, AskTable>(alloc, AskTable.fields(), value)
}

/// The command of an ask.
fn command_at(alloc: Global, value: &Value) -> Result<AdminCommand, WireFault>
    requires { depth (view value.now) ≤ max_depth }
    ensures reads { Answers result
        (reading_in (Some (within (ask_name own.Command) (view value.now)))) }
    ensures owned { IfOk result OwnsPolicy }
{
    let null = Value::Null;
    command_in(alloc, find_or(value, AskKey::Command, &null))
}

/// The ask of this command.
#[tactic(auto, using(crate::proofs::Refusals::ask_read, crate::proofs::Owned::orders))]
fn with_actor(alloc: Global, value: &Value, command: AdminCommand) -> Result<Ask, WireFault>
    requires orderly { IsOrderly (view value.now) }
    requires right { fault_of ask_shape (view value.now) ≡ None }
    requires command { reading_in (Some (within (ask_name own.Command) (view value.now)))
        ≡ Ok command }
    requires owned { OwnsPolicy command }
    ensures reads { Answers result (ask_in (Some (view value.now))) }
    ensures in_order { IfOk result IsInKeyOrder }
{
    match text_at(alloc, value, AskKey::Actor) {
        Ok(actor) => Ok(Ask { actor, command }),
        Err(_) => {
            drop(command);
            Err(WireFault::NoMemory)
        }
    }
}

/// The ask of a value whose fields are right, or the fault of its command.
#[tactic(auto, using(crate::proofs::Refusals::refusals))]
fn right_ask(alloc: Global, value: &Value) -> Result<Ask, WireFault>
    requires shallow { depth (view value.now) ≤ max_depth }
    requires orderly { IsOrderly (view value.now) }
    requires right { fault_of ask_shape (view value.now) ≡ None }
    ensures reads { Answers result (ask_in (Some (view value.now))) }
    ensures in_order { IfOk result IsInKeyOrder }
{
    match command_at(alloc, value) {
        Ok(command) => with_actor(alloc, value, command),
        Err(fault) => Err(below_command(alloc, fault)),
    }
}

/// The ask of a value, or its first fault.
#[tactic(auto, using(crate::proofs::Refusals::refusals))]
fn ask_of(alloc: Global, value: &Value) -> Result<Ask, WireFault>
    requires { depth (view value.now) ≤ max_depth }
    ensures reads { Answers result (ask_in (Some (view value.now))) }
    ensures in_order { IfOk result IsInKeyOrder }
{
    see(value);
    match judge_ask(alloc, value) {
        Ok(()) => right_ask(alloc, value),
        Err(fault) => Err(fault),
    }
}

/// Reads an ask from the record that is kept of it: a map with `actor` and `command`. It is in key order.
#[tactic(auto, unfolding(crate::specs::Reading::ask_reading))]
pub fn read_ask(alloc: Global, text: &[u8]) -> Result<Ask, WireFault>
    ensures reads { Answers result (ask_reading text.now) }
    ensures in_order { IfOk result IsInKeyOrder }
{
    match shallow_json(alloc, text) {
        Err(_) => Err(WireFault::NoMemory),
        Ok(None) => Err(WireFault::Bad {
            path: Text::empty(alloc),
            kind: WireKind::Syntax,
        }),
        Ok(Some(value)) => ask_of(alloc, &value),
    }
}
