// One message of a session.
ghost use Rattle.std.specs.Prelude.{◌≡◌, OnOk, OnErr, MatchResult};
ghost use Rattle.std.specs.Str.{chars};
ghost use Rattle.rg_link.specs.Sessions.{Counts};
ghost use Rattle.rg_plugin_link.specs.Exchanges.{decider_of};
ghost use Rattle.rg_plugin_link.specs.Loop.{IsServed, Unserved};

use crate::asks::{Asked, read_asked};
use crate::link::Desk;
use crate::standing::Standing;
use rg_hook::RequestHooks;
use rg_http::Message;
use rg_link::{LinkFault, answer_decision, send};
use rg_ports::{Clock, Gate, Link};
use rg_publish::Pass;
use rg_rest::Router;

/// Reads what the message asks at a moment of the clock, and answers it.
pub(crate) fn answer_message<T: Link, C: Clock, H: RequestHooks, G: Gate, S: Standing>(
    desk: &Desk<G, S>,
    router: &Router,
    link: &mut T,
    pass: &mut Pass,
    clock: &mut C,
    hooks: &mut H,
    message: &Message,
) -> Result<(), LinkFault>
    ensures served { OnOk result (IsServed (chars desk.now.deciding.plugin.now)
        (decider_of pass.old (C.given clock.old) (H.sinks hooks.old) (H.enrichers hooks.old))
        (decider_of pass.new (C.given clock.new) (H.sinks hooks.new) (H.enrichers hooks.new))
        (T.held link.old) (T.held link.new) message.now) }
    ensures unserved { OnErr result (Unserved (chars desk.now.deciding.plugin.now)
        (decider_of pass.old (C.given clock.old) (H.sinks hooks.old) (H.enrichers hooks.old))
        (decider_of pass.new (C.given clock.new) (H.sinks hooks.new) (H.enrichers hooks.new))
        (T.held link.old) (T.held link.new) message.now) }
    ensures faults { MatchResult result (λ _. T.faults link.new ≡ T.faults link.old)
        (λ f. Counts f (T.faults link.old) (T.faults link.new)) }
    ensures unread { (T.left link.new ≡ T.left link.old) × (T.ended link.new ≡ T.ended link.old) }
{
    let now = clock.now();
    match read_asked(desk, router, message, now) {
        Ok(Asked::Response(response)) => match send(desk.deciding.alloc, link, &response) {
            Ok(()) => return Ok(()),
            Err(fault) => return Err(fault),
        },
        Ok(Asked::Decision(mut request)) => {
            match answer_decision(
                &desk.deciding,
                link,
                pass,
                hooks,
                &mut request,
                message.close,
            ) {
                Ok(()) => return Ok(()),
                Err(fault) => return Err(fault),
            }
        }
        Err(_) => return Err(LinkFault::NoMemory),
    }
}
