// Judging the bytes at the front of what a link gave.
ghost use Rattle.std.specs.Prelude.{◌≡◌, ◌≤◌, length, IfOk, IfSome, IfNone};
ghost use Rattle.httparse.specs.Grammar.{ResponseHead};
ghost use Rattle.httparse.specs.Spans.{IsResponseAt, IsResponseWithin, ResponseExceeds};
ghost use Rattle.rg_http.specs.Framing.{head_limit, window};
ghost use Rattle.rg_client.specs.Replies.{length_of};
ghost use Rattle.rg_client.specs.Places.{IsBegun, Judges, Stands};

use crate::rules::body_length;
use httparse::spans::{EMPTY_HEADER_SPAN, HeaderSpan, ResponseSpans, parse_response};
use httparse::{Error, Status};
use rg_base::NoMemory;
use rg_http::asks_close;

/// How many bytes of a reply its head is looked for in.
pub(crate) const HEAD_LIMIT: usize = 16384;

/// Room for every field that the bytes can hold in which a head is looked for: each takes three of them at least.
const FIELD_ROOM: usize = 5461;

/// What the head of a reply tells: its status, whether the link is closed after it, its own length, and how many bytes of body follow.
#[derive(Clone, Copy, Debug, PartialEq, Eq)]
pub(crate) struct Begun {
    pub(crate) status: u16,
    pub(crate) close: bool,
    pub(crate) len: usize,
    pub(crate) body: usize,
}

/// What is found out about the bytes in which a head is looked for.
#[derive(Clone, Copy, Debug, PartialEq, Eq)]
pub(crate) enum Judged {
    /// There is no head so far.
    Open,
    /// There is no head, whatever follows, or one whose reply isn't read.
    Unread,
    Head(Begun),
}

// What a whole head tells; none where its reply isn't read.
fn told_by(window: &[u8], room: &[HeaderSpan], head: ResponseSpans) -> Option<Begun>
    requires { IsResponseWithin window.now room.now head }
    ensures some { IfSome result (λ b. (h : ResponseHead)
        → IsResponseAt window.now room.now head h → IsBegun h b) }
    ensures none { IfNone result ((h : ResponseHead)
        → IsResponseAt window.now room.now head h → length_of h ≡ None) }
{
    let fields = &room[..head.headers];
    let body = body_length(head.code, window, fields)?;
    Some(Begun {
        status: head.code,
        close: head.version == 0 || asks_close(window, fields),
        len: head.len,
        body,
    })
}

// Judges the bytes in which a head is looked for. None where they have more fields than there is room for.
fn judge_within(window: &[u8], room: &mut [HeaderSpan]) -> Option<Judged>
    requires { length window.now ≤ head_limit }
    ensures judged { IfSome result (Judges window.now) }
    ensures exceeds { IfNone result (ResponseExceeds (length room.old) window.now) }
{
    match parse_response(window, room) {
        Ok(Status::Partial) => Some(Judged::Open),
        Ok(Status::Complete(head)) => match told_by(window, room, head) {
            Some(begun) => Some(Judged::Head(begun)),
            None => Some(Judged::Unread),
        },
        Err(Error::TooManyHeaders) => None,
        Err(_) => Some(Judged::Unread),
    }
}

// The bytes in which a head is looked for.
fn window_of(held: &[u8]) -> &[u8]
    ensures value { result.now ≡ window held.now }
    ensures short { length result.now ≤ head_limit }
{
    if held.len() < HEAD_LIMIT {
        held
    } else {
        &held[..HEAD_LIMIT]
    }
}

/// Judges the bytes at the front. Room for every field that they can hold is taken only where the parser finds too many.
pub(crate) fn judge(held: &[u8], room: &mut Vec<HeaderSpan>) -> Result<Judged, NoMemory>
    ensures { IfOk result (Stands held.now) }
{
    let window = window_of(held);
    if let Some(judged) = judge_within(window, room.as_mut_slice()) {
        return Ok(judged);
    }
    room.resize(FIELD_ROOM, EMPTY_HEADER_SPAN)?;
    let Some(judged) = judge_within(window, room.as_mut_slice()) else {
        unreachable!()
    };
    Ok(judged)
}
