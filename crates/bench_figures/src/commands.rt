// An administration of the configuration, and commands of its administrator.
ghost use Rattle.std.specs.Prelude.{IfSome};
ghost use Rattle.rg_admin_laws.specs.Starts.{IsStart};

use crate::texts::{CONFIG, Draft, command};
use rg_admin::Admin;
use rg_base::Text;
use rg_cmd::{AdminCommand, Ask};
use rg_cmd_wire::{read_command, read_config};
use std::alloc::Global;

/// The administration of the configuration.
pub(crate) fn started(alloc: Global) -> Option<Admin>
    ensures { IfSome result IsStart }
{
    match read_config(alloc, CONFIG.as_bytes()) {
        Ok(config) => match Admin::start(alloc, config) {
            Ok(admin) => Some(admin),
            Err(_) => None,
        },
        Err(_) => None,
    }
}

/// The command about this policy.
pub(crate) fn put_policy(alloc: Global, draft: Draft) -> Option<AdminCommand> {
    match command(alloc, draft) {
        Ok(text) => match read_command(alloc, text.as_bytes()) {
            Ok(command) => Some(command),
            Err(_) => None,
        },
        Err(_) => None,
    }
}

/// The administrator commands this.
pub(crate) fn ask_of(alloc: Global, command: AdminCommand) -> Option<Ask> {
    match Text::copy_of(alloc, "root") {
        Ok(actor) => Some(Ask { actor, command }),
        Err(_) => {
            drop(command);
            None
        }
    }
}
