// Responses written to a link.
ghost use Rattle.std.specs.Prelude.{◌≡◌, List, ℕ, OnOk, OnErr, MatchResult};
ghost use mathlib.Core.List.{IsPrefix};
ghost use Rattle.http.specs.StatusCode.{IsStatusCode};
ghost use Rattle.rg_http.specs.Print.{response_text};
ghost use Rattle.rg_link.specs.Answers.{refusal};
ghost use Rattle.rg_http.specs.Answers.{Wrote};
ghost use Rattle.rg_link.specs.Sessions.{Counts};

use crate::report::LinkFault;
use rg_base::Seq;
use rg_http::{Response, print_response, write_whole};
use rg_ports::Link;
use std::alloc::Global;

/// Writes a response, or a part of it.
pub fn send<T: Link>(alloc: Global, link: &mut T, response: &Response) -> Result<(), LinkFault>
    requires { IsStatusCode response.now.status }
    ensures ok { OnOk result
        (Wrote (T.held link.old) (T.held link.new) (response_text response.now)) }
    ensures err { OnErr result ((part : List ℕ) × Wrote (T.held link.old) (T.held link.new) part
        × IsPrefix part (response_text response.now)) }
    ensures faults { MatchResult result (λ _. T.faults link.new ≡ T.faults link.old)
        (λ f. Counts f (T.faults link.old) (T.faults link.new)) }
    ensures unread { (T.left link.new ≡ T.left link.old) × (T.ended link.new ≡ T.ended link.old) }
{
    let Ok(bytes) = print_response(alloc, response) else {
        return Err(LinkFault::NoMemory);
    };
    match write_whole(link, bytes.as_slice()) {
        Ok(()) => Ok(()),
        Err(_) => Err(LinkFault::Failed),
    }
}

/// The answer to a bad place: no body, and the connection is closed.
fn refusal(alloc: Global, status: u16) -> Response
    ensures { result ≡ refusal status }
{
    Response {
        status,
        body: Seq::new(alloc),
        close: true,
    }
}

/// Answers a bad place.
pub fn refuse<T: Link>(alloc: Global, link: &mut T, status: u16) -> Result<(), LinkFault>
    requires { IsStatusCode status }
    ensures ok { OnOk result
        (Wrote (T.held link.old) (T.held link.new) (response_text (refusal status))) }
    ensures err { OnErr result ((part : List ℕ) × Wrote (T.held link.old) (T.held link.new) part
        × IsPrefix part (response_text (refusal status))) }
    ensures faults { MatchResult result (λ _. T.faults link.new ≡ T.faults link.old)
        (λ f. Counts f (T.faults link.old) (T.faults link.new)) }
    ensures unread { (T.left link.new ≡ T.left link.old) × (T.ended link.new ≡ T.ended link.old) }
{
    let response = refusal(alloc, status);
    match send(alloc, link, &response) {
        Ok(()) => Ok(()),
        Err(fault) => Err(fault),
    }
}
