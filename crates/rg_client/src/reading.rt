// Reading a reply of a link, piece by piece.
ghost use Rattle.std.specs.Prelude.{◌≡◌, ◌≤◌, ◌+◌, length, max, true, IfOk, IfErr, MatchResult};
ghost use Rattle.rg_ports.specs.Bytes.{IsUsedUp};
ghost use Rattle.rg_http.specs.Answers.{piece_limit};
ghost use Rattle.rg_http.specs.Framing.{head_limit};
ghost use Rattle.rg_client.specs.declared.fault.ClientFault.TheVariants as fault;
ghost use Rattle.rg_client.specs.Replies.{Counts, kept_limit};
ghost use Rattle.rg_client.specs.Places.{Begins, Grows, Lacks, Told};

use crate::fault::ClientFault;
use crate::heads::{Begun, HEAD_LIMIT, Judged, judge};
use httparse::spans::HeaderSpan;
use rg_http::{Inbox, Response, bytes_of};
use rg_ports::Link;
use std::alloc::Global;

// Reads until a whole head stands at the front.
fn find_head<T: Link>(
    inbox: &mut Inbox,
    room: &mut Vec<HeaderSpan>,
    link: &mut T,
) -> Result<Begun, ClientFault>
    ensures grows { Grows (T.left link.old) (T.left link.new) inbox.old inbox.new }
    ensures bounded { length inbox.new ≤ max (length inbox.old) (head_limit + piece_limit) }
    ensures place { MatchResult result (Begins inbox.new) (Lacks inbox.new) }
    ensures ended { IfErr result (λ f. f ≡ fault.Ended
        → (T.ended link.new ≡ true) × IsUsedUp (T.left link.new)) }
    ensures faults { MatchResult result (λ _. T.faults link.new ≡ T.faults link.old)
        (λ f. Counts f (T.faults link.old) (T.faults link.new)) }
    ensures unwritten { T.held link.new ≡ T.held link.old }
{
    loop {
        match judge(inbox.bytes(), room)? {
            Judged::Head(begun) => return Ok(begun),
            Judged::Unread => return Err(ClientFault::Unreadable),
            Judged::Open => {}
        }
        if inbox.bytes().len() >= HEAD_LIMIT {
            return Err(ClientFault::Unreadable);
        }
        if !inbox.take_piece(link)? {
            return Err(ClientFault::Ended);
        }
    }
}

// Reads the body of a reply whose head came whole, and takes the reply out.
fn finish_reply<T: Link>(
    alloc: Global,
    inbox: &mut Inbox,
    begun: Begun,
    link: &mut T,
) -> Result<Response, ClientFault>
    requires { Begins inbox.old begun }
    ensures answer { Told (T.left link.old) (T.left link.new) inbox.old result inbox.new }
    ensures bounded { length inbox.new ≤ max (length inbox.old) kept_limit }
    ensures ended { IfErr result (λ f. f ≡ fault.Ended
        → (T.ended link.new ≡ true) × IsUsedUp (T.left link.new)) }
    ensures status { IfOk result (λ r. (200 ≤ r.status) × (r.status ≤ 999)) }
    ensures faults { MatchResult result (λ _. T.faults link.new ≡ T.faults link.old)
        (λ f. Counts f (T.faults link.old) (T.faults link.new)) }
    ensures unwritten { T.held link.new ≡ T.held link.old }
{
    let need = begun.len + begun.body;
    if !inbox.fill_to(need, link)? {
        return Err(ClientFault::Ended);
    }
    let body = bytes_of(alloc, &inbox.bytes()[begun.len..need])?;
    inbox.remove_front(need);
    Ok(Response {
        status: begun.status,
        body,
        close: begun.close,
    })
}

/// Reads until the reply at the front is whole, and takes it out.
pub(crate) fn read_reply<T: Link>(
    alloc: Global,
    inbox: &mut Inbox,
    room: &mut Vec<HeaderSpan>,
    link: &mut T,
) -> Result<Response, ClientFault>
    ensures answer { Told (T.left link.old) (T.left link.new) inbox.old result inbox.new }
    ensures bounded { length inbox.new ≤ max (length inbox.old) kept_limit }
    ensures ended { IfErr result (λ f. f ≡ fault.Ended
        → (T.ended link.new ≡ true) × IsUsedUp (T.left link.new)) }
    ensures status { IfOk result (λ r. (200 ≤ r.status) × (r.status ≤ 999)) }
    ensures faults { MatchResult result (λ _. T.faults link.new ≡ T.faults link.old)
        (λ f. Counts f (T.faults link.old) (T.faults link.new)) }
    ensures unwritten { T.held link.new ≡ T.held link.old }
{
    match find_head(inbox, room, link) {
        Ok(begun) => finish_reply(alloc, inbox, begun, link),
        Err(fault) => Err(fault),
    }
}
