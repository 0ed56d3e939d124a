// The session of one link.
ghost use Rattle.std.specs.Prelude.{◌≡◌, IfOk, OnErr, MatchResult};
ghost use mathlib.Core.List.{IsPrefix};
ghost use Rattle.std.specs.Str.{chars};
ghost use Rattle.rg_link.specs.Sessions.{Counts, wire};
ghost use Rattle.rg_plugin_link.specs.Exchanges.{decider_of};
ghost use Rattle.rg_plugin_link.specs.Sessions.{Broken, Served};

use crate::message::answer_message;
use crate::standing::Standing;
use rg_hook::RequestHooks;
use rg_http::{End, Framer, judged_stays_judged};
use rg_link::{Coming, Deciding, LinkFault, Report, next_message};
use rg_ports::{Clock, Gate, Link};
use rg_publish::Pass;
use rg_rest::Router;

/// The most messages of a session.
const MESSAGE_LIMIT: u32 = 10000;

/// What a worker's links share.
#[derive(Drop)]
pub struct Desk<'g, 's, 'p, G, S> {
    pub standing: &'s S,
    pub deciding: Deciding<'g, 'p, G>,
}

impl<'g, 's, 'p, G: Gate, S: Standing> Desk<'g, 's, 'p, G, S> {
    /// Answers the messages of a link, one after another, each at a moment of the clock: `POST /service/decide/SERVICE` by a decision,
    /// which is enriched, made by what was published last, answered and then audited, and `GET /service/plugin/health` by how the
    /// plugin stands. Whatever else an administration takes is answered 404. It ends at the link's end, after a message that asks to
    /// close, at a bad place, which is answered, or after the 10,000th message.
    ///
    /// After a fault the link is of no more use. The pass's last decision may stand unanswered.
    pub fn serve_link<T: Link, C: Clock, H: RequestHooks>(
        &self,
        link: &mut T,
        pass: &mut Pass,
        clock: &mut C,
        hooks: &mut H,
    ) -> Result<Report, LinkFault>
        ensures served { IfOk result (λ report. Served (chars self.now.deciding.plugin.now)
            (decider_of pass.old (C.given clock.old) (H.sinks hooks.old) (H.enrichers hooks.old))
            (decider_of pass.new (C.given clock.new) (H.sinks hooks.new) (H.enrichers hooks.new))
            (wire (T.left link.old) (T.held link.old) (T.ended link.old)) (wire (T.left link.new) (T.held link.new) (T.ended link.new)) report.end report.messages) }
        ensures broken { OnErr result (Broken (chars self.now.deciding.plugin.now)
            (decider_of pass.old (C.given clock.old) (H.sinks hooks.old) (H.enrichers hooks.old))
            (decider_of pass.new (C.given clock.new) (H.sinks hooks.new) (H.enrichers hooks.new))
            (wire (T.left link.old) (T.held link.old) (T.ended link.old)) (wire (T.left link.new) (T.held link.new) (T.ended link.new))) }
        ensures same { (pass.new.book ≡ pass.old.book) × IsPrefix pass.old.list pass.new.list }
        ensures faults { MatchResult result (λ _. T.faults link.new ≡ T.faults link.old)
            (λ f. Counts f (T.faults link.old) (T.faults link.new)) }
    {
        judged_stays_judged();
        let alloc = self.deciding.alloc;
        let Ok(router) = Router::new(alloc) else {
            return Err(LinkFault::NoMemory);
        };
        let Ok(mut framer) = Framer::new(alloc) else {
            return Err(LinkFault::NoMemory);
        };
        let mut messages: u32 = 0;
        while messages < MESSAGE_LIMIT {
            let message = match next_message(alloc, &mut framer, link) {
                Ok(Coming::Message(message)) => message,
                Ok(Coming::Over(end)) => return Ok(Report { end, messages }),
                Err(fault) => return Err(fault),
            };
            match answer_message(self, &router, link, pass, clock, hooks, &message) {
                Ok(()) => {}
                Err(fault) => return Err(fault),
            }
            messages += 1;
            if message.close {
                return Ok(Report {
                    end: End::Ended,
                    messages,
                });
            }
        }
        Ok(Report {
            end: End::Full,
            messages,
        })
    }
}
