// Asks in key order.
ghost use Rattle.std.specs.Prelude.{◌≡◌, true, IfSome};
ghost use Rattle.rg_ask_wire.specs.KeyOrder.{IsCommandInOrder, IsInKeyOrder};

use crate::ordered::Ordered;
use rg_cmd::{AdminCommand, Ask};

impl Ordered for AdminCommand {
    ghost in_order = { IsCommandInOrder };

    #[tactic(auto, unfolding(rg_ask_wire::specs::KeyOrder::IsCommandInOrder))]
    fn check(&self) -> Option<()> {
        match self {
            AdminCommand::PutDef { def } => def.check(),
            AdminCommand::CreateService { service } | AdminCommand::UpdateService { service } => {
                service.check()
            }
            AdminCommand::CreatePolicy { policy } | AdminCommand::UpdatePolicy { policy } => {
                policy.check()
            }
            AdminCommand::DeletePolicy { id } | AdminCommand::GetPolicy { id } => id.0.check(),
            AdminCommand::PutRole { role } => role.check(),
            AdminCommand::PutZone { zone } => zone.check(),
            AdminCommand::PutTags { id, row } => {
                id.check()?;
                row.check()
            }
            AdminCommand::DeleteTags { id } => id.check(),
            AdminCommand::PutUser { user } => user.check(),
            AdminCommand::DeleteService { name }
            | AdminCommand::DeleteRole { name }
            | AdminCommand::DeleteZone { name }
            | AdminCommand::DeleteUser { name }
            | AdminCommand::ListPolicies { service: name } => name.check(),
            AdminCommand::Download {
                service,
                policies_from: _,
                tags_from: _,
                roles_from: _,
            } => service.check(),
        }
    }
}

impl Ordered for Ask {
    ghost in_order = { IsInKeyOrder };

    #[tactic(auto, unfolding(rg_ask_wire::specs::KeyOrder::IsInKeyOrder))]
    fn check(&self) -> Option<()> {
        self.actor.check()?;
        self.command.check()
    }
}

/// Whether the ask is in key order, so that what is printed of it is read again as itself. Each ask that was read is.
pub fn is_in_key_order(ask: &Ask) -> bool
    ensures { result ≡ true → IsInKeyOrder ask.now }
{
    ask.check().is_some()
}
