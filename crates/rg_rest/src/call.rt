// What a message asks.
ghost use Rattle.std.specs.Prelude.{◌≡◌};
ghost use Rattle.rg_rest.specs.Responses.{is_command};

use rg_cmd::{AdminCommand, Part};
use rg_http::Response;
use rg_policy::AccessRequest;

/// What a message asks, or the answer to one that asks nothing.
#[derive(Drop)]
pub enum Call {
    /// A command of the actor whom the field `x-user` names. The part is the one of a download that is answered, and
    /// `Part::Policies` for every other command.
    Admin(AdminCommand, Part),
    /// A decision of the plugin's service. Whose request it is stands in the body.
    Decide(AccessRequest),
    /// The answer, which closes the connection where the message asks to.
    Answer(Response),
}

impl Call {
    /// Whether it is a command.
    pub fn is_command(&self) -> bool
        ensures { result ≡ is_command self.now }
    {
        matches!(self, Call::Admin(_, _))
    }
}
