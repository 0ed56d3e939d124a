// Which commands are kept.
ghost use Rattle.std.specs.Prelude.{◌≡◌};
ghost use Rattle.rg_ask_wire.specs.Keeping.{is_keeping};

use rg_cmd::AdminCommand;

/// Whether the command changes the state where it is accepted, so that it has to be kept.
pub fn is_keeping(command: &AdminCommand) -> bool
    ensures { result ≡ is_keeping command.now }
{
    !matches!(
        command,
        AdminCommand::GetPolicy { .. }
            | AdminCommand::ListPolicies { .. }
            | AdminCommand::Download { .. }
    )
}
