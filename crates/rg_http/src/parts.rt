// The parts of a message, copied out of the bytes.
ghost use Rattle.std.specs.Prelude.{◌≡◌, [], IfOk, IsUtf8, option_map, length, map, All};
ghost use Rattle.std.specs.Str.{chars};
ghost use Rattle.rg_base.specs.Listed.{listed};
ghost use Rattle.httparse.specs.Grammar.{RequestHead};
ghost use Rattle.httparse.specs.Spans.{IsRequestAt, IsRequestWithin, IsHeaderWithin, header_bytes};
ghost use Rattle.rg_http.specs.Framing.{message_of};

use crate::fields::{FieldName, first_value};
use crate::message::Message;
use crate::rules::asks_close;
use httparse::spans::{HeaderSpan, RequestSpans};
use rg_base::{NoMemory, Seq, Text};
use std::alloc::Global;
use std::str;

fn text_of(alloc: Global, bytes: &[u8]) -> Result<Text, NoMemory>
    requires { IsUtf8 bytes.now }
    ensures { IfOk result (λ t. t ≡ chars bytes.now) }
{
    match str::from_utf8(bytes) {
        Ok(text) => Text::copy_of(alloc, text),
        Err(_) => unreachable!(),
    }
}

/// A copy of the bytes.
pub fn bytes_of(alloc: Global, bytes: &[u8]) -> Result<Seq<u8>, NoMemory>
    ensures { IfOk result (λ copy. copy ≡ listed bytes.now) }
{
    let copy = Vec::from_slice(alloc, bytes)?;
    Ok(Seq::from_vec(copy))
}

fn value_of(alloc: Global, value: Option<&[u8]>) -> Result<Option<Seq<u8>>, NoMemory>
    ensures { IfOk result (λ copy. copy ≡ option_map listed (option_map (λ s. s.now) value.entry)) }
{
    match value {
        None => Ok(None),
        Some(bytes) => {
            let copy = bytes_of(alloc, bytes)?;
            Ok(Some(copy))
        }
    }
}

/// The message of the head, still without its body.
pub fn begin_message(
    alloc: Global,
    window: &[u8],
    room: &[HeaderSpan],
    head: RequestSpans,
) -> Result<Message, NoMemory>
    requires within { IsRequestWithin window.now room.now head }
    requires head { (h : RequestHead) × IsRequestAt window.now room.now head h }
    ensures { IfOk result (λ m. (h : RequestHead)
        → IsRequestAt window.now room.now head h → m ≡ message_of h []) }
{
    let fields = &room[..head.headers];
    let method = text_of(alloc, head.method.of(window))?;
    let target = text_of(alloc, head.path.of(window))?;
    let user = value_of(alloc, first_value(window, fields, FieldName::User))?;
    let close = head.version == 0 || asks_close(window, fields);
    Ok(Message {
        method,
        target,
        user,
        body: Seq::new(alloc),
        close,
    })
}
