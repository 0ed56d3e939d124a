// The session of one link.
ghost use Rattle.std.specs.Prelude.{◌≡◌, IfOk, OnErr, MatchResult};
ghost use mathlib.Core.List.{IsPrefix};
ghost use Rattle.std.specs.Str.{chars};
ghost use Rattle.rg_admin_laws.specs.Steps.{step};
ghost use Rattle.rg_turn.specs.History.{IsLegal};
ghost use Rattle.rg_link.specs.Sessions.{Broken, Counts, Served, wire};
ghost use Rattle.rg_link.specs.Workers.{worker_of};

use crate::coming::{Coming, next_message};
use crate::message::answer_message;
use crate::report::{LinkFault, Report};
use crate::setting::{Deciding, Setting};
use rg_hook::RequestHooks;
use rg_http::{End, Framer, judged_stays_judged};
use rg_ports::{Clock, Gate, Link};
use rg_publish::Pass;
use rg_rest::Router;
use rg_session::{Admin, Bell, Recorder};
use rg_turn::{Seat, Turn};
use std::alloc::Global;
use std::sync::Wait;

/// The most messages of a session.
const MESSAGE_LIMIT: u32 = 10000;

/// Answers the messages of a link, one after another, up to the link's end, a message that asks to close, a bad place, or the
/// 10,000th message.
fn answer_messages<P: Recorder, T: Link, C: Clock, H: RequestHooks, G: Gate, R: Wait>(
    setting: &Setting<P, G, R>,
    link: &mut T,
    seat: &mut Seat<Admin<P>>,
    pass: &mut Pass,
    clock: &mut C,
    hooks: &mut H,
) -> Result<Report, LinkFault>
    requires { seat.old.turn ≡ setting.now.turn.now.turn }
    ensures served { IfOk result (λ report. Served (chars setting.now.deciding.plugin.now)
        (worker_of seat.old pass.old (C.given clock.old) (H.sinks hooks.old) (H.enrichers hooks.old))
        (worker_of seat.new pass.new (C.given clock.new) (H.sinks hooks.new) (H.enrichers hooks.new))
        (wire (T.left link.old) (T.held link.old) (T.ended link.old)) (wire (T.left link.new) (T.held link.new) (T.ended link.new)) report.end report.messages) }
    ensures broken { OnErr result (Broken (chars setting.now.deciding.plugin.now)
        (worker_of seat.old pass.old (C.given clock.old) (H.sinks hooks.old) (H.enrichers hooks.old))
        (worker_of seat.new pass.new (C.given clock.new) (H.sinks hooks.new) (H.enrichers hooks.new))
        (wire (T.left link.old) (T.held link.old) (T.ended link.old)) (wire (T.left link.new) (T.held link.new) (T.ended link.new))) }
    ensures faults { MatchResult result (λ _. T.faults link.new ≡ T.faults link.old)
        (λ f. Counts f (T.faults link.old) (T.faults link.new)) }
{
    judged_stays_judged();
    let alloc = setting.alloc();
    let Ok(mut framer) = Framer::new(alloc) else {
        return Err(LinkFault::NoMemory);
    };
    let mut messages: u32 = 0;
    while messages < MESSAGE_LIMIT {
        let message = match next_message(alloc, &mut framer, link) {
            Ok(Coming::Message(message)) => message,
            Ok(Coming::Over(end)) => return Ok(Report { end, messages }),
            Err(fault) => return Err(fault),
        };
        match answer_message(setting, link, seat, pass, clock, hooks, &message) {
            Ok(()) => {}
            Err(fault) => return Err(fault),
        }
        messages += 1;
        if message.close {
            return Ok(Report {
                end: End::Ended,
                messages,
            });
        }
    }
    Ok(Report {
        end: End::Full,
        messages,
    })
}

/// Answers the messages of a link, one after another, each at a moment of the clock. A command is a call of the turn; the bell
/// is rung after each change, before its answer is written. A decision is enriched, taken by the pass, answered and then audited;
/// the worker comes to the gate's point 1 before it, and to point 2 after its answer. After the 10,000th message nothing more is
/// read.
///
/// After a fault the link is of no more use. The seat's last entry, or the pass's last decision, may stand unanswered.
pub fn answer_link<P: Recorder, T: Link, C: Clock, H: RequestHooks, G: Gate, R: Wait>(
    setting: &Setting<P, G, R>,
    link: &mut T,
    seat: &mut Seat<Admin<P>>,
    pass: &mut Pass,
    clock: &mut C,
    hooks: &mut H,
) -> Result<Report, LinkFault>
    requires { seat.old.turn ≡ setting.now.turn.now.turn }
    ensures served { IfOk result (λ report. Served (chars setting.now.deciding.plugin.now)
        (worker_of seat.old pass.old (C.given clock.old) (H.sinks hooks.old) (H.enrichers hooks.old))
        (worker_of seat.new pass.new (C.given clock.new) (H.sinks hooks.new) (H.enrichers hooks.new))
        (wire (T.left link.old) (T.held link.old) (T.ended link.old)) (wire (T.left link.new) (T.held link.new) (T.ended link.new)) report.end report.messages) }
    ensures broken { OnErr result (Broken (chars setting.now.deciding.plugin.now)
        (worker_of seat.old pass.old (C.given clock.old) (H.sinks hooks.old) (H.enrichers hooks.old))
        (worker_of seat.new pass.new (C.given clock.new) (H.sinks hooks.new) (H.enrichers hooks.new))
        (wire (T.left link.old) (T.held link.old) (T.ended link.old)) (wire (T.left link.new) (T.held link.new) (T.ended link.new))) }
    ensures same { (seat.new.turn ≡ seat.old.turn) × (pass.new.book ≡ pass.old.book) }
    ensures begins { IsPrefix seat.old.history seat.new.history
        × IsPrefix pass.old.list pass.new.list }
    ensures legal { IsLegal step setting.now.turn.now.start seat.new.history }
    ensures faults { MatchResult result (λ _. T.faults link.new ≡ T.faults link.old)
        (λ f. Counts f (T.faults link.old) (T.faults link.new)) }
{
    match answer_messages(setting, link, seat, pass, clock, hooks) {
        Ok(report) => {
            setting.turn.knows(seat);
            return Ok(report);
        }
        Err(fault) => {
            setting.turn.knows(seat);
            return Err(fault);
        }
    }
}

/// Answers the messages of a link by [`answer_link`], with routes of its own.
pub fn serve_link<P: Recorder, T: Link, C: Clock, H: RequestHooks, G: Gate, R: Wait>(
    rt: &R,
    alloc: Global,
    link: &mut T,
    turn: &Turn<Admin<P>>,
    seat: &mut Seat<Admin<P>>,
    pass: &mut Pass,
    clock: &mut C,
    hooks: &mut H,
    gate: &G,
    bell: &Bell,
    plugin: &str,
    worker: u32,
) -> Result<Report, LinkFault>
    requires { seat.old.turn ≡ turn.now.turn }
    ensures served { IfOk result (λ report. Served (chars plugin.now)
        (worker_of seat.old pass.old (C.given clock.old) (H.sinks hooks.old) (H.enrichers hooks.old))
        (worker_of seat.new pass.new (C.given clock.new) (H.sinks hooks.new) (H.enrichers hooks.new))
        (wire (T.left link.old) (T.held link.old) (T.ended link.old)) (wire (T.left link.new) (T.held link.new) (T.ended link.new)) report.end report.messages) }
    ensures broken { OnErr result (Broken (chars plugin.now)
        (worker_of seat.old pass.old (C.given clock.old) (H.sinks hooks.old) (H.enrichers hooks.old))
        (worker_of seat.new pass.new (C.given clock.new) (H.sinks hooks.new) (H.enrichers hooks.new))
        (wire (T.left link.old) (T.held link.old) (T.ended link.old)) (wire (T.left link.new) (T.held link.new) (T.ended link.new))) }
    ensures same { (seat.new.turn ≡ seat.old.turn) × (pass.new.book ≡ pass.old.book) }
    ensures begins { IsPrefix seat.old.history seat.new.history
        × IsPrefix pass.old.list pass.new.list }
    ensures legal { IsLegal step turn.now.start seat.new.history }
    ensures faults { MatchResult result (λ _. T.faults link.new ≡ T.faults link.old)
        (λ f. Counts f (T.faults link.old) (T.faults link.new)) }
{
    judged_stays_judged();
    let Ok(router) = Router::new(alloc) else {
        turn.knows(seat);
        return Err(LinkFault::NoMemory);
    };
    let setting = Setting {
        rt,
        turn,
        bell,
        router: &router,
        deciding: Deciding {
            alloc,
            gate,
            plugin,
            worker,
        },
    };
    match answer_link(&setting, link, seat, pass, clock, hooks) {
        Ok(report) => return Ok(report),
        Err(fault) => return Err(fault),
    }
}
