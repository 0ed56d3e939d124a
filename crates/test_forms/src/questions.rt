// The client over streams of bytes.
//
// `question|PIECE|CALL|BEGIN|TEXT|TIMES|END`: the client asks a link whose fields are those of a stream, three times at most. Printed
// are the replies (status, body or its length, whether the link is closed after it), why there is none, and what was written.
use crate::responses::letters;
use crate::streams::{link_of, tell_body};
use rg_client::{Client, Question};
use rg_http::Response;
use rg_ports::MemLink;
use std::alloc::{AllocError, Global};

/// How often it asks.
const TIMES: u32 = 3;

fn tell_reply(told: &mut String, reply: &Response) -> Result<(), AllocError> {
    let status = reply.status;
    let close = if reply.close { "close" } else { "open" };
    write!(told, "{status} ")?;
    tell_body(told, reply.body.as_slice())?;
    write!(told, " {close}, ")
}

/// Tells the replies, and why there are no more.
fn tell_all(alloc: Global, told: &mut String, link: &mut MemLink) -> Result<(), AllocError> {
    let Ok(mut client) = Client::new(alloc) else {
        return told.push_str("no memory");
    };
    let question = Question {
        target: "/a?b=c",
        host: "a:1",
        user: "ann",
    };
    for _ in 0..TIMES {
        let reply = match client.ask(alloc, link, &question) {
            Ok(reply) => reply,
            Err(fault) => return write!(told, "{fault}, "),
        };
        let written = tell_reply(told, &reply);
        drop(reply);
        written?;
    }
    Ok(())
}

/// What the client gets of the link of a row.
pub(crate) fn tell(alloc: Global, row: &str) -> Result<String, AllocError> {
    let mut link = link_of(alloc, row)?;
    let mut told = String::new(alloc);
    tell_all(alloc, &mut told, &mut link)?;
    let written = letters(alloc, link.held())?;
    told.push_str(written.as_str())?;
    Ok(told)
}
