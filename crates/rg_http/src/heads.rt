// Judging the bytes at the front of a stream.
ghost use Rattle.std.specs.Prelude.{◌≡◌, ◌≤◌, length, IfOk, IfSome, IfNone};
ghost use Rattle.httparse.specs.Spans.{RequestExceeds};
ghost use Rattle.rg_http.specs.Framing.{head_limit, IsUnjudged};
ghost use Rattle.rg_http.specs.Places.{Judges};

use crate::rules::{Ruling, rule_on};
use crate::unjudged::is_unjudged;
use httparse::spans::{EMPTY_HEADER_SPAN, HeaderSpan, RequestSpans, parse_request};
use httparse::{Error, Status};
use rg_base::NoMemory;

/// Room for every field that the bytes can hold in which a head is looked for: each takes three of them at least.
const FIELD_ROOM: usize = 5461;

/// What is found out about the bytes in which a head is looked for.
#[derive(Clone, Copy, Debug, PartialEq, Eq)]
pub enum Judged {
    /// There is no head so far, and more bytes will tell.
    Open,
    /// There is no head, whatever follows.
    Hopeless,
    /// There is a whole head, which is refused with this status.
    Refused(u16),
    /// There is a whole head, whose body has so many bytes.
    Head(RequestSpans, u32),
}

/// Judges bytes that don't wait for more. None where they have more fields than there is room for.
fn judge_within(window: &[u8], room: &mut [HeaderSpan]) -> Option<Judged>
    requires waits { ¬ (IsUnjudged window.now) }
    requires within { length window.now ≤ head_limit }
    ensures judged { IfSome result (Judges window.now room.new) }
    ensures exceeds { IfNone result (RequestExceeds (length room.old) window.now) }
{
    match parse_request(window, room) {
        Ok(Status::Partial) => Some(Judged::Open),
        Ok(Status::Complete(head)) => {
            match rule_on(head.method.of(window), window, &room[..head.headers]) {
                Ruling::Refused(status) => Some(Judged::Refused(status)),
                Ruling::Body(n) => Some(Judged::Head(head, n)),
            }
        }
        Err(Error::TooManyHeaders) => None,
        Err(_) => Some(Judged::Hopeless),
    }
}

/// Judges the bytes in which a head is looked for. Those that wait for more are found first, since the parser refuses some of
/// them at once. Room for every field that the bytes can hold is taken only where the parser finds too many.
pub fn judge(window: &[u8], room: &mut Vec<HeaderSpan>) -> Result<Judged, NoMemory>
    requires { length window.now ≤ head_limit }
    ensures { IfOk result (Judges window.now room.new.items) }
{
    if is_unjudged(window) {
        return Ok(Judged::Open);
    }
    if let Some(judged) = judge_within(window, room.as_mut_slice()) {
        return Ok(judged);
    }
    room.resize(FIELD_ROOM, EMPTY_HEADER_SPAN)?;
    let Some(judged) = judge_within(window, room.as_mut_slice()) else {
        unreachable!()
    };
    Ok(judged)
}
