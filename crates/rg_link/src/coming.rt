// What comes next of a link.
ghost use Rattle.std.specs.Prelude.{◌≡◌, ◌++◌, List, ℕ, true, MatchResult};
ghost use Rattle.rg_http.specs.Answers.{IsRead};
ghost use Rattle.rg_link.specs.Sessions.{Counts, wire};
ghost use Rattle.rg_link.specs.Coming.{BreaksOff, Comes};

use crate::report::LinkFault;
use crate::writing::refuse;
use rg_http::{End, Framer, Message, Next};
use rg_ports::Link;
use std::alloc::Global;

/// What comes next of a link.
#[derive(Drop)]
pub enum Coming {
    Message(Message),
    /// The end, which has been answered where it is a bad place.
    Over(End),
}

/// Reads the next message, or how the session ends; a bad place is answered.
pub fn next_message<T: Link>(
    alloc: Global,
    framer: &mut Framer,
    link: &mut T,
) -> Result<Coming, LinkFault>
    requires { framer.old.live ≡ true }
    ensures comes { (read : List ℕ) × IsRead (T.left link.old) read (T.left link.new)
        × MatchResult result
        (Comes (framer.old.bytes ++ read) (wire (T.left link.old) (T.held link.old) (T.ended link.old)) (wire (T.left link.new) (T.held link.new) (T.ended link.new)) framer.new)
        (λ _. BreaksOff (framer.old.bytes ++ read) (T.held link.old) (T.held link.new)) }
    ensures faults { MatchResult result (λ _. T.faults link.new ≡ T.faults link.old)
        (λ f. Counts f (T.faults link.old) (T.faults link.new)) }
{
    let next = match framer.next(alloc, link) {
        Ok(next) => next,
        Err(fault) => return Err(LinkFault::from(fault)),
    };
    match next {
        Next::Message(message) => return Ok(Coming::Message(message)),
        Next::Ended => return Ok(Coming::Over(End::Ended)),
        Next::Cut => return Ok(Coming::Over(End::Cut)),
        Next::Bad(status) => match refuse(alloc, link, status) {
            Ok(()) => return Ok(Coming::Over(End::Bad(status))),
            Err(fault) => return Err(fault),
        },
    }
}
