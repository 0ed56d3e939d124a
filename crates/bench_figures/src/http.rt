// Frames the messages of a stream in memory, and prints responses.
use crate::words::{number, refused};
use anyhow::Result;
use rg_base::{NoMemory, Seq};
use rg_http::{FrameFault, Framer, Next, Response, print_response};
use rg_ports::MemLink;
use std::alloc::{AllocError, Global};

/// A message as a plugin sends it: 408 bytes, of which 52 are its body.
const MESSAGE: &str =
    "POST /service/plugins/policies/download/dev_hive?lastKnownVersion=-1&lastActivationTime=0 HTTP/1.1\r\nHost: ranger.example.org:6080\r\nUser-Agent: Java/1.8.0_292\r\nAccept: application/json\r\nAccept-Encoding: identity\r\nConnection: keep-alive\r\nContent-Type: application/json\r\nx-user: hive\r\nx-request-id: 0b9f3a6e-8a0c-4f0e-9d5f-2f6d1f6f1a77\r\nContent-Length: 52\r\n\r\n{\"resource\":{\"elements\":{\"database\":\"sales\"}},\"n\":1}";

/// How much is done.
#[derive(Clone, Copy)]
struct Load {
    /// How many messages are framed.
    messages: u32,
    /// The most bytes that a read brings.
    piece: u32,
    /// How many responses are printed.
    responses: u32,
}

/// The load that the words name; a small one where there are none.
fn load_of(words: &[String]) -> Result<Load> {
    if words.is_empty() {
        return Ok(Load {
            messages: 20,
            piece: 7,
            responses: 20,
        });
    }
    Ok(Load {
        messages: number(words, 0, "the messages are missing")?,
        piece: number(words, 1, "the size of a piece is missing")?,
        responses: number(words, 2, "the responses are missing")?,
    })
}

fn stream(alloc: Global, load: Load) -> Result<MemLink, AllocError> {
    let mut bytes = Vec::new(alloc);
    for _ in 0..load.messages {
        bytes.extend_from_slice(MESSAGE.as_bytes())?;
    }
    let mut pieces = Vec::new(alloc);
    pieces.push(load.piece.max(1))?;
    Ok(MemLink::new(
        Seq::from_vec(bytes),
        Seq::new(alloc),
        Seq::from_vec(pieces),
        Seq::new(alloc),
    ))
}

/// How many messages the link gives, and how many bytes their bodies have.
fn framed(alloc: Global, link: &mut MemLink) -> Result<(u64, u64), FrameFault> {
    let Ok(mut framer) = Framer::new(alloc) else {
        return Err(FrameFault::NoMemory);
    };
    let mut messages = 0u64;
    let mut bytes = 0u64;
    for _ in 0..u32::MAX {
        match framer.next(alloc, link)? {
            Next::Message(message) => {
                messages = messages.saturating_add(1);
                bytes = bytes.saturating_add(message.body.len() as u64);
            }
            _ => return Ok((messages, bytes)),
        }
    }
    Ok((messages, bytes))
}

/// How many bytes the responses have.
fn printed(alloc: Global, load: Load) -> Result<u64, NoMemory> {
    let Ok(body) = Vec::from_slice(alloc, MESSAGE.as_bytes()) else {
        return Err(NoMemory);
    };
    let response = Response {
        status: 200,
        body: Seq::from_vec(body),
        close: false,
    };
    let mut bytes = 0u64;
    for _ in 0..load.responses {
        bytes = bytes.saturating_add(print_response(alloc, &response)?.len() as u64);
    }
    Ok(bytes)
}

/// `MESSAGES PIECE RESPONSES`: so many messages in pieces of this size, and so many responses.
pub(crate) fn run(rt: &impl Print, alloc: Global, words: &[String]) -> Result<()> {
    let load = load_of(words)?;
    let Ok(mut link) = stream(alloc, load) else {
        return Err(refused());
    };
    let Ok((messages, bytes)) = framed(alloc, &mut link) else {
        return Err(refused());
    };
    let Ok(out) = printed(alloc, load) else {
        return Err(refused());
    };
    println!(rt; "messages={messages} bodies={bytes} printed={out}")?;
    Ok(())
}
