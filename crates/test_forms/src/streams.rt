// The framer over streams of bytes.
//
// `stream|PIECE|CALL|BEGIN|TEXT|TIMES|END`: the bytes of BEGIN, TIMES those of TEXT, and END come in pieces of PIECE bytes, and
// call number CALL on the link fails, none where it is 0. In bytes `~` stands for CR LF, `$` for LF, `^` for CR, `%` for NUL, `!`
// for the byte 255. Printed are the messages (method, target, user, body or its length, whether they ask to close) and how
// they end.
use crate::fields::number;
use rg_base::Seq;
use rg_http::{FrameFault, Framer, Message, Next};
use rg_ports::MemLink;
use std::alloc::{AllocError, Global};
use std::str;

/// Appends the bytes that a letter stands for.
fn spell_one(bytes: &mut Vec<u8>, letter: u8) -> Result<(), AllocError> {
    match letter {
        b'~' => {
            bytes.push(b'\r')?;
            bytes.push(b'\n')?;
        }
        b'$' => bytes.push(b'\n')?,
        b'^' => bytes.push(b'\r')?,
        b'%' => bytes.push(0)?,
        b'!' => bytes.push(255)?,
        other => bytes.push(other)?,
    }
    Ok(())
}

/// Appends the bytes that a text stands for.
fn spell(bytes: &mut Vec<u8>, text: &str) -> Result<(), AllocError> {
    for letter in text.as_bytes() {
        spell_one(bytes, *letter)?;
    }
    Ok(())
}

/// The same, so many times.
fn spell_often(bytes: &mut Vec<u8>, text: &str, times: u32) -> Result<(), AllocError> {
    for _ in 0..times {
        spell(bytes, text)?;
    }
    Ok(())
}

fn text_of(bytes: &[u8]) -> &str {
    str::from_utf8(bytes).unwrap_or("no text")
}

/// The link on which the bytes come in pieces of this size, and on which this call fails.
fn link(alloc: Global, bytes: Vec<u8>, piece: u32, call: u32) -> Result<MemLink, AllocError> {
    let mut pieces = Vec::new(alloc);
    pieces.push(piece.max(1))?;
    let mut fails = Vec::new(alloc);
    fails.push(call as u64)?;
    Ok(MemLink::new(
        Seq::from_vec(bytes),
        Seq::new(alloc),
        Seq::from_vec(pieces),
        Seq::from_vec(fails),
    ))
}

fn user_of(message: &Message) -> &str {
    match &message.user {
        Some(user) => text_of(user.as_slice()),
        None => "-",
    }
}

/// Appends a body, or its length where it is long.
pub(crate) fn tell_body(told: &mut String, body: &[u8]) -> Result<(), AllocError> {
    if body.len() < 100 {
        let text = text_of(body);
        write!(told, "[{text}]")
    } else {
        let len = body.len();
        write!(told, "{len}")
    }
}

fn tell_message(told: &mut String, message: &Message) -> Result<(), AllocError> {
    let method = message.method.as_str();
    let target = message.target.as_str();
    let user = user_of(message);
    let close = if message.close { "close" } else { "open" };
    write!(told, "{method} {target} {user} ")?;
    tell_body(told, message.body.as_slice())?;
    write!(told, " {close}, ")
}

fn tell_fault(told: &mut String, fault: FrameFault) -> Result<(), AllocError> {
    match fault {
        FrameFault::Failed => told.push_str("failed"),
        FrameFault::NoMemory => told.push_str("no memory"),
    }
}

/// Tells the message, which is let go, and whether it asks to close.
fn tell_and_drop(told: &mut String, message: Message) -> Result<bool, AllocError> {
    let close = message.close;
    let written = tell_message(told, &message);
    drop(message);
    written?;
    Ok(close)
}

/// Tells what came next, which is let go, and whether more may come.
fn tell_next(told: &mut String, next: Next) -> Result<bool, AllocError> {
    match next {
        Next::Message(message) => {
            if tell_and_drop(told, message)? {
                told.push_str("ended")?;
                return Ok(false);
            }
            Ok(true)
        }
        Next::Ended => {
            told.push_str("ended")?;
            Ok(false)
        }
        Next::Cut => {
            told.push_str("cut")?;
            Ok(false)
        }
        Next::Bad(status) => {
            write!(told, "bad {status}")?;
            Ok(false)
        }
    }
}

/// Tells the messages of the link and how they end.
fn tell_all(alloc: Global, told: &mut String, link: &mut MemLink) -> Result<(), AllocError> {
    let Ok(mut framer) = Framer::new(alloc) else {
        return told.push_str("no memory");
    };
    for _ in 0..100 {
        let next = match framer.next(alloc, link) {
            Ok(next) => next,
            Err(fault) => return tell_fault(told, fault),
        };
        let is_message = next.is_message();
        let goes_on = tell_next(told, next)?;
        if !is_message || !goes_on {
            return Ok(());
        }
    }
    Ok(())
}

/// The link that the fields of a row describe.
pub(crate) fn link_of(alloc: Global, row: &str) -> Result<MemLink, AllocError> {
    let mut fields = row.split('|');
    let piece = number(fields.next());
    let call = number(fields.next());
    let mut bytes = Vec::new(alloc);
    spell(&mut bytes, fields.next().unwrap_or(""))?;
    let text = fields.next().unwrap_or("");
    let times = number(fields.next());
    spell_often(&mut bytes, text, times)?;
    spell(&mut bytes, fields.next().unwrap_or(""))?;
    link(alloc, bytes, piece, call)
}

/// What the framer answers for the stream of a row.
pub(crate) fn tell(alloc: Global, row: &str) -> Result<String, AllocError> {
    let mut link = link_of(alloc, row)?;
    let mut told = String::new(alloc);
    tell_all(alloc, &mut told, &mut link)?;
    Ok(told)
}
