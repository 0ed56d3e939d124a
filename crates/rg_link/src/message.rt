// One message of a session.
ghost use Rattle.std.specs.Prelude.{◌≡◌, OnOk, OnErr, MatchResult};
ghost use Rattle.std.specs.Str.{chars};
ghost use Rattle.rg_link.specs.Loop.{IsServed, Unserved};
ghost use Rattle.rg_link.specs.Sessions.{Counts};
ghost use Rattle.rg_link.specs.Workers.{worker_of};

use crate::calls::answer_call;
use crate::decisions::answer_decision;
use crate::report::LinkFault;
use crate::setting::Setting;
use crate::writing::send;
use rg_hook::RequestHooks;
use rg_http::Message;
use rg_ports::{Clock, Gate, Link};
use rg_publish::Pass;
use rg_rest::Call;
use rg_session::{Admin, Recorder};
use rg_turn::Seat;
use std::sync::Wait;

/// Reads what the message asks at a moment of the clock, and answers it.
pub(crate) fn answer_message<P: Recorder, T: Link, C: Clock, H: RequestHooks, G: Gate, R: Wait>(
    setting: &Setting<P, G, R>,
    link: &mut T,
    seat: &mut Seat<Admin<P>>,
    pass: &mut Pass,
    clock: &mut C,
    hooks: &mut H,
    message: &Message,
) -> Result<(), LinkFault>
    requires { seat.old.turn ≡ setting.now.turn.now.turn }
    ensures served { OnOk result (IsServed (chars setting.now.deciding.plugin.now)
        (worker_of seat.old pass.old (C.given clock.old) (H.sinks hooks.old) (H.enrichers hooks.old))
        (worker_of seat.new pass.new (C.given clock.new) (H.sinks hooks.new) (H.enrichers hooks.new))
        (T.held link.old) (T.held link.new) message.now) }
    ensures unserved { OnErr result (Unserved (chars setting.now.deciding.plugin.now)
        (worker_of seat.old pass.old (C.given clock.old) (H.sinks hooks.old) (H.enrichers hooks.old))
        (worker_of seat.new pass.new (C.given clock.new) (H.sinks hooks.new) (H.enrichers hooks.new))
        (T.held link.old) (T.held link.new) message.now) }
    ensures faults { MatchResult result (λ _. T.faults link.new ≡ T.faults link.old)
        (λ f. Counts f (T.faults link.old) (T.faults link.new)) }
    ensures unread { (T.left link.new ≡ T.left link.old) × (T.ended link.new ≡ T.ended link.old) }
{
    let now = clock.now();
    let deciding = &setting.deciding;
    match setting
        .router
        .read_call(deciding.alloc, message, deciding.plugin, now)
    {
        Ok(Call::Admin(command, part)) => {
            match answer_call(setting, link, seat, message, command, part) {
                Ok(()) => return Ok(()),
                Err(fault) => return Err(fault),
            }
        }
        Ok(Call::Decide(mut request)) => {
            match answer_decision(deciding, link, pass, hooks, &mut request, message.close) {
                Ok(()) => return Ok(()),
                Err(fault) => return Err(fault),
            }
        }
        Ok(Call::Answer(response)) => match send(deciding.alloc, link, &response) {
            Ok(()) => return Ok(()),
            Err(fault) => return Err(fault),
        },
        Err(_) => return Err(LinkFault::NoMemory),
    }
}
