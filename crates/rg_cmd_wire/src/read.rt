// Texts to the records of the administration.
ghost use Rattle.std.specs.Prelude.{◌≡◌, IfOk};
ghost use Rattle.rg_json.specs.Reading.{Answers, reading};
ghost use Rattle.rg_wire.specs.Shapes.{config_shape, service_shape, user_shape};
ghost use Rattle.rg_cmd_wire.specs.Commands.{OwnsPolicy};
ghost use Rattle.rg_cmd_wire.specs.Reading.{command_reading};
ghost use Rattle.rg_cmd_wire.specs.Rows.{config_of, service_of, user_of};

use crate::command::command_in;
use crate::rows::AdminWire;
use rg_base::Text;
use rg_cmd::{AdminCommand, Config, ServiceRow, UserRow};
use rg_json::{WireFault, WireKind, json_of, read_as};
use rg_wire::{Key, Record};
use std::alloc::Global;

/// Reads a command: a map with `command`, which is read before the other fields, and the fields of that command.
pub fn read_command(alloc: Global, text: &[u8]) -> Result<AdminCommand, WireFault>
    ensures reads { Answers result (command_reading text.now) }
    ensures owned { IfOk result OwnsPolicy }
{
    match json_of(alloc, text) {
        Err(_) => Err(WireFault::NoMemory),
        Ok(None) => Err(WireFault::Bad {
            path: Text::empty(alloc),
            kind: WireKind::Syntax,
        }),
        Ok(Some(value)) => command_in(alloc, &value),
    }
}

/// Reads a service (Ranger's RangerService).
#[tactic(auto, unfolding(rg_wire::specs::Shapes::record_shape))]
pub fn read_service(alloc: Global, text: &[u8]) -> Result<ServiceRow, WireFault>
    ensures { Answers result (reading service_shape service_of text.now) }
{
    read_as::<ServiceRow, AdminWire, Key, Record>(alloc, &AdminWire, Record::Service, text)
}

/// Reads a user.
#[tactic(auto, unfolding(rg_wire::specs::Shapes::record_shape))]
pub fn read_user(alloc: Global, text: &[u8]) -> Result<UserRow, WireFault>
    ensures { Answers result (reading user_shape user_of text.now) }
{
    read_as::<UserRow, AdminWire, Key, Record>(alloc, &AdminWire, Record::User, text)
}

/// Reads what an administration starts from.
#[tactic(auto, unfolding(rg_wire::specs::Shapes::record_shape))]
pub fn read_config(alloc: Global, text: &[u8]) -> Result<Config, WireFault>
    ensures { Answers result (reading config_shape config_of text.now) }
{
    read_as::<Config, AdminWire, Key, Record>(alloc, &AdminWire, Record::Config, text)
}
