// What a message asks of a plugin.
ghost use Rattle.std.specs.Prelude.{◌≡◌, IfOk};
ghost use Rattle.std.specs.Str.{chars};
ghost use Rattle.rg_health.specs.Health.{health_text};
ghost use Rattle.rg_rest.specs.Bodies.{answer};
ghost use Rattle.rg_plugin_link.specs.Asks.{asks_health};
ghost use Rattle.rg_plugin_link.specs.Loop.{IsAsked};

use crate::link::Desk;
use crate::standing::Standing;
use http::StatusCode;
use rg_base::{Moment, NoMemory};
use rg_health::{Health, print_health};
use rg_http::{Message, Response};
use rg_policy::AccessRequest;
use rg_rest::{Call, Router, answer, no_path};
use std::alloc::Global;

/// What a message asks of a plugin.
#[derive(Drop)]
pub(crate) enum Asked {
    Decision(AccessRequest),
    /// Nothing but this response.
    Response(Response),
}

/// Whether it asks how the plugin stands.
#[tactic(auto, unfolding(crate::specs::Asks::asks_health))]
fn asks_health(message: &Message) -> bool
    ensures { result ≡ asks_health message.now }
{
    message.method.as_str() == "GET" && message.target.as_str() == "/service/plugin/health"
}

/// How the plugin stands, as it is answered.
fn health_answer(alloc: Global, health: Health, close: bool) -> Result<Response, NoMemory>
    ensures { IfOk result (λ r. r ≡ answer 200 (health_text health) close) }
{
    let text = print_health(alloc, health)?;
    answer(alloc, StatusCode::OK, text.as_str(), close)
}

/// Reads what the message asks. What an administration would do isn't here.
pub(crate) fn read_asked<G, S: Standing>(
    desk: &Desk<G, S>,
    router: &Router,
    message: &Message,
    now: Moment,
) -> Result<Asked, NoMemory>
    ensures { IfOk result (IsAsked (chars desk.now.deciding.plugin.now) message.now now) }
{
    let alloc = desk.deciding.alloc;
    if asks_health(message) {
        let response = health_answer(alloc, desk.standing.health(now), message.close)?;
        return Ok(Asked::Response(response));
    }
    match router.read_call(alloc, message, desk.deciding.plugin, now)? {
        Call::Decide(request) => Ok(Asked::Decision(request)),
        Call::Answer(response) => Ok(Asked::Response(response)),
        Call::Admin(_, _) => Ok(Asked::Response(no_path(alloc, message.close)?)),
    }
}
