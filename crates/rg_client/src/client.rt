// A client of a service over HTTP/1.1.
ghost use Rattle.std.specs.Prelude.{◌≡◌, ◌≤◌, [], ◌++◌, length, true, false, List, ℕ, IfOk, IfErr, OnOk, OnErr, MatchResult};
ghost use Rattle.std.specs.Str.{chars};
ghost use mathlib.Core.List.{IsPrefix};
ghost use Rattle.rg_ports.specs.Bytes.{IsUsedUp};
ghost use Rattle.rg_http.specs.Answers.{Framed, IsRead, Wrote};
ghost use Rattle.rg_client.specs.declared.fault.ClientFault.TheVariants as fault;
ghost use Rattle.rg_client.specs.Questions.{question_text};
ghost use Rattle.rg_client.specs.Replies.{Counts, HasReply, Leaves, kept_limit};

use crate::fault::ClientFault;
use crate::question::{Question, send};
use crate::reading::read_reply;
use httparse::spans::{EMPTY_HEADER_SPAN, HeaderSpan};
use rg_base::NoMemory;
use rg_http::{FIELD_LIMIT, Inbox, Response};
use rg_ports::Link;
use std::alloc::Global;
use std::marker::Model;

/// Asks a service over a link, one question after another (RFC 9112, section 9.3). Contracts see the bytes that were read and belong
/// to no reply yet, and whether it still asks.
#[derive(Drop)]
pub struct Client {
    inbox: Inbox,
    room: Vec<HeaderSpan>,
    live: bool,
}

impl Model for Client {
    ghost use Rattle.std.specs.Prelude.{◌≤◌, length};
    ghost use Rattle.rg_http.specs.Answers.{Framed};
    ghost use Rattle.rg_client.specs.Replies.{kept_limit};

    ghost Value = { Framed };

    ghost view = { λ c. record { bytes = c.inbox; live = c.live } };

    ghost invariant = { λ c. length c.inbox ≤ kept_limit };
}

impl Client {
    /// At the beginning of a link. It takes room for one piece, and for as many fields as a head may have and one more.
    pub fn new(alloc: Global) -> Result<Client, NoMemory>
        ensures { IfOk result (λ c. c ≡ record { bytes = []; live = true }) }
    {
        Ok(Client {
            inbox: Inbox::new(alloc)?,
            room: vec![in alloc; EMPTY_HEADER_SPAN; FIELD_LIMIT + 1]?,
            live: true,
        })
    }

    /// Whether it still asks.
    pub fn is_live(&self) -> bool
        ensures { result ≡ self.now.live }
    {
        self.live
    }

    /// Writes the question whole, and then reads until its reply is whole (RFC 9112, sections 3, 4 and 6): its status is 200 to 999,
    /// its body, at most 256 MiB, is as long as `Content-Length` says, and takes memory as its pieces come. What came beyond a reply is
    /// kept, and begins the next one: ask a service that isn't trusted once a link. After a fault it asks no more, and keeps all that
    /// it read.
    pub fn ask<T: Link>(
        &mut self,
        alloc: Global,
        link: &mut T,
        question: &Question,
    ) -> Result<Response, ClientFault>
        requires { self.old.live ≡ true }
        ensures asked { OnOk result (Wrote
            (T.held link.old) (T.held link.new) (question_text (chars question.now.target.now)
            (chars question.now.host.now) (chars question.now.user.now))) }
        ensures begun { OnErr result ((part : List ℕ)
            × Wrote (T.held link.old) (T.held link.new) part
            × IsPrefix part (question_text (chars question.now.target.now) (chars question.now.host.now) (chars question.now.user.now))) }
        ensures answer { (read : List ℕ) × IsRead (T.left link.old) read (T.left link.new)
            × MatchResult result (λ r. HasReply (self.old.bytes ++ read) r self.new.bytes) (λ f. Leaves (self.old.bytes ++ read) f self.new.bytes) }
        ensures ended { IfErr result (λ f. f ≡ fault.Ended
            → (T.ended link.new ≡ true) × IsUsedUp (T.left link.new)) }
        ensures status { IfOk result (λ r. (200 ≤ r.status) × (r.status ≤ 999)) }
        ensures bounded { length self.new.bytes ≤ kept_limit }
        ensures live { OnOk result (self.new.live ≡ true) }
        ensures dead { OnErr result (self.new.live ≡ false) }
        ensures faults { MatchResult result (λ _. T.faults link.new ≡ T.faults link.old)
            (λ f. Counts f (T.faults link.old) (T.faults link.new)) }
    {
        self.live = false;
        send(alloc, link, question)?;
        match read_reply(alloc, &mut self.inbox, &mut self.room, link) {
            Ok(reply) => {
                self.live = true;
                Ok(reply)
            }
            Err(fault) => Err(fault),
        }
    }
}
