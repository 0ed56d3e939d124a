// Messages in the bytes that a link gives.
ghost use Rattle.std.specs.Prelude.{◌≡◌, ◌≤◌, ◌+◌, [], ◌++◌, length, max, true, false, IfOk, OnErr, MatchResult, List, ℕ};
ghost use Rattle.rg_ports.specs.Bytes.{IsUsedUp};
ghost use Rattle.rg_http.specs.Framing.{head_limit, window};
ghost use Rattle.rg_http.specs.Answers.{Framed, Answers, Leaves, Counts, IsRead, IsSparing, HasKnownStatus, is_message, is_end, piece_limit, kept_limit};
ghost use Rattle.rg_http.specs.Places.{Stands, Begins, Grows, Breaks, says_end};

use crate::heads::{Judged, judge};
use crate::inbox::Inbox;
use crate::message::{FrameFault, Message, Next};
use crate::parts::{begin_message, bytes_of};
use crate::rules::FIELD_LIMIT;
use httparse::spans::{EMPTY_HEADER_SPAN, HeaderSpan};
use rg_base::NoMemory;
use rg_ports::Link;
use std::alloc::Global;
use std::marker::Model;

/// How many bytes of a message's place its head is looked for in.
const HEAD_LIMIT: usize = 16384;

/// What stands at the front of a stream, as far as its head tells.
#[derive(Drop)]
pub enum Place {
    Ended,
    Cut,
    Bad(u16),
    /// A whole head of this length: its message without the body, and how long the body is.
    Begun(Message, usize, u32),
}

// The bytes in which a head is looked for.
fn window_of(held: &[u8]) -> &[u8]
    ensures { result.now ≡ window held.now }
{
    if held.len() < HEAD_LIMIT {
        held
    } else {
        &held[..HEAD_LIMIT]
    }
}

// Reads until it is known what stands at the front. The parts of a whole head are copied here, where its spans are fresh.
fn find_head<T: Link>(
    alloc: Global,
    inbox: &mut Inbox,
    room: &mut Vec<HeaderSpan>,
    link: &mut T,
) -> Result<Place, FrameFault>
    ensures grows { Grows (T.left link.old) (T.left link.new) inbox.old inbox.new }
    ensures bounded { length inbox.new ≤ max (length inbox.old) (head_limit + piece_limit) }
    ensures place { MatchResult result (Stands inbox.new) (Breaks inbox.new) }
    ensures end { IfOk result (λ p. says_end p ≡ true
        → (T.ended link.new ≡ true) × IsUsedUp (T.left link.new)) }
    ensures faults { MatchResult result (λ _. T.faults link.new ≡ T.faults link.old)
        (λ fault. Counts fault (T.faults link.old) (T.faults link.new)) }
    ensures unwritten { T.held link.new ≡ T.held link.old }
{
    loop {
        let window = window_of(inbox.bytes());
        match judge(window, room)? {
            Judged::Hopeless => return Ok(Place::Bad(400)),
            Judged::Refused(status) => return Ok(Place::Bad(status)),
            Judged::Head(head, n) => {
                let message = begin_message(alloc, window, room.as_slice(), head)?;
                return Ok(Place::Begun(message, head.len, n));
            }
            Judged::Open => {}
        }
        if inbox.bytes().len() >= HEAD_LIMIT {
            return Ok(Place::Bad(431));
        }
        let more = match inbox.take_piece(link) {
            Ok(more) => more,
            Err(fault) => return Err(fault),
        };
        if !more {
            if inbox.bytes().is_empty() {
                return Ok(Place::Ended);
            }
            return Ok(Place::Cut);
        }
    }
}

// Reads the body of a message whose head came whole, and takes the message out.
fn finish_message<T: Link>(
    alloc: Global,
    inbox: &mut Inbox,
    message: Message,
    len: usize,
    n: u32,
    link: &mut T,
) -> Result<Next, FrameFault>
    requires { Begins inbox.old message len n }
    ensures answer { (read : List ℕ) × IsRead (T.left link.old) read (T.left link.new)
        × IsSparing inbox.old read
        × MatchResult result (λ next. Answers (inbox.old ++ read) next inbox.new) (λ fault. Leaves (inbox.old ++ read) fault inbox.new) }
    ensures bounded { length inbox.new ≤ max (length inbox.old) kept_limit }
    ensures end { IfOk result (λ next. is_end next ≡ true
        → (T.ended link.new ≡ true) × IsUsedUp (T.left link.new)) }
    ensures faults { MatchResult result (λ _. T.faults link.new ≡ T.faults link.old)
        (λ fault. Counts fault (T.faults link.old) (T.faults link.new)) }
    ensures unwritten { T.held link.new ≡ T.held link.old }
{
    let need = len + n as usize;
    let whole = match inbox.fill_to(need, link) {
        Ok(whole) => whole,
        Err(fault) => return Err(fault),
    };
    if !whole {
        return Ok(Next::Cut);
    }
    let body = match bytes_of(alloc, &inbox.bytes()[len..need]) {
        Ok(body) => body,
        Err(NoMemory) => return Err(FrameFault::NoMemory),
    };
    inbox.remove_front(need);
    Ok(Next::Message(Message {
        method: message.method,
        target: message.target,
        user: message.user,
        body,
        close: message.close,
    }))
}

// Reads until it is known what stands at the front, and takes a message out.
fn answer<T: Link>(
    alloc: Global,
    inbox: &mut Inbox,
    room: &mut Vec<HeaderSpan>,
    link: &mut T,
) -> Result<Next, FrameFault>
    ensures answer { (read : List ℕ) × IsRead (T.left link.old) read (T.left link.new)
        × IsSparing inbox.old read
        × MatchResult result (λ next. Answers (inbox.old ++ read) next inbox.new) (λ fault. Leaves (inbox.old ++ read) fault inbox.new) }
    ensures bounded { length inbox.new ≤ max (length inbox.old) kept_limit }
    ensures end { IfOk result (λ next. is_end next ≡ true
        → (T.ended link.new ≡ true) × IsUsedUp (T.left link.new)) }
    ensures faults { MatchResult result (λ _. T.faults link.new ≡ T.faults link.old)
        (λ fault. Counts fault (T.faults link.old) (T.faults link.new)) }
    ensures unwritten { T.held link.new ≡ T.held link.old }
{
    let place = match find_head(alloc, inbox, room, link) {
        Ok(place) => place,
        Err(fault) => return Err(fault),
    };
    match place {
        Place::Ended => Ok(Next::Ended),
        Place::Cut => Ok(Next::Cut),
        Place::Bad(status) => Ok(Next::Bad(status)),
        Place::Begun(message, len, n) => finish_message(alloc, inbox, message, len, n, link),
    }
}

/// Finds the messages of a stream, however the link cuts it. Contracts see the bytes that were read and belong to no message yet,
/// and whether it still answers.
#[derive(Drop)]
pub struct Framer {
    inbox: Inbox,
    room: Vec<HeaderSpan>,
    live: bool,
}

impl Model for Framer {
    ghost use Rattle.std.specs.Prelude.{◌≤◌, length};
    ghost use Rattle.rg_http.specs.Answers.{Framed, kept_limit};

    ghost Value = { Framed };

    ghost view = { λ f. record { bytes = f.inbox; live = f.live } };

    ghost invariant = { λ f. length f.inbox ≤ kept_limit };
}

impl Framer {
    /// At the beginning of a stream. It takes room for one piece, and for as many fields as a head may have and one more.
    pub fn new(alloc: Global) -> Result<Framer, NoMemory>
        ensures { IfOk result (λ f. f ≡ record { bytes = []; live = true }) }
    {
        Ok(Framer {
            inbox: Inbox::new(alloc)?,
            room: vec![in alloc; EMPTY_HEADER_SPAN; FIELD_LIMIT + 1]?,
            live: true,
        })
    }

    /// Reads until it is known what stands at the front of the stream, and takes a message out. It reads no further than that takes,
    /// in pieces of at most 4,096 bytes, and keeps what it read beyond a message for the next call. After anything but a message it
    /// answers no more, and keeps all that it read. Want of memory costs no byte.
    pub fn next<T: Link>(&mut self, alloc: Global, link: &mut T) -> Result<Next, FrameFault>
        requires { self.old.live ≡ true }
        ensures answer { (read : List ℕ) × IsRead (T.left link.old) read (T.left link.new)
            × IsSparing self.old.bytes read
            × MatchResult result (λ next. Answers (self.old.bytes ++ read) next self.new.bytes) (λ fault. Leaves (self.old.bytes ++ read) fault self.new.bytes) }
        ensures end { IfOk result (λ next. is_end next ≡ true
            → (T.ended link.new ≡ true) × IsUsedUp (T.left link.new)) }
        ensures status { IfOk result HasKnownStatus }
        ensures bounded { length self.new.bytes ≤ kept_limit }
        ensures live { IfOk result (λ next. self.new.live ≡ is_message next) }
        ensures dead { OnErr result (self.new.live ≡ false) }
        ensures faults { MatchResult result (λ _. T.faults link.new ≡ T.faults link.old)
            (λ fault. Counts fault (T.faults link.old) (T.faults link.new)) }
        ensures unwritten { T.held link.new ≡ T.held link.old }
    {
        self.live = false;
        match answer(alloc, &mut self.inbox, &mut self.room, link) {
            Ok(next) => {
                self.live = next.is_message();
                Ok(next)
            }
            Err(fault) => Err(fault),
        }
    }
}
