// What a message asks of the service `s`. The cells of a row: method, target, user and body.
use crate::cells::cell;
use crate::commands::{command_text, named};
use rg_base::{Moment, NoMemory, Seq, Text};
use rg_http::{Message, Response};
use rg_rest::{Call, Router};
use std::alloc::Global;

/// A name of so many letters.
fn letters(alloc: Global, count: usize) -> Result<Vec<u8>, NoMemory> {
    let mut name = Vec::new(alloc);
    for _ in 0..count {
        name.push(b'u')?;
    }
    Ok(name)
}

/// The first `x-user`: `-` stands for none, a count for a name of so many letters, and `bytes` for what isn't UTF-8.
fn user_of(alloc: Global, word: &str) -> Result<Option<Seq<u8>>, NoMemory> {
    let name = match word.as_bytes() {
        b"-" => return Ok(None),
        b"256" => letters(alloc, 256)?,
        b"257" => letters(alloc, 257)?,
        b"bytes" => Vec::from_slice(alloc, &[255])?,
        name => Vec::from_slice(alloc, name)?,
    };
    Ok(Some(Seq::from_vec(name)))
}

fn message_of(alloc: Global, row: &str) -> Result<Message, NoMemory> {
    let body = Vec::from_slice(alloc, cell(row, 3).as_bytes())?;
    Ok(Message {
        method: Text::copy_of(alloc, cell(row, 0))?,
        target: Text::copy_of(alloc, cell(row, 1))?,
        user: user_of(alloc, cell(row, 2))?,
        body: Seq::from_vec(body),
        close: false,
    })
}

/// What a row's message asks.
pub(crate) fn call_of(alloc: Global, row: &str) -> Result<Call, NoMemory> {
    let router = Router::new(alloc)?;
    let message = message_of(alloc, row)?;
    let call = router.read_call(alloc, &message, "s", Moment(7));
    drop(message);
    drop(router);
    call
}

/// An answer as its status and its body.
pub(crate) fn shown(alloc: Global, answer: &Response) -> Result<String, NoMemory> {
    let status = answer.status;
    let body = str::from_utf8(answer.body.as_slice()).unwrap_or("?");
    Ok(format!(in alloc; "{status} {body}")?)
}

fn call_text(alloc: Global, call: &Call) -> Result<String, NoMemory> {
    match call {
        Call::Admin(command, part) => command_text(alloc, command, *part),
        Call::Decide(request) => named(alloc, "Decide", &request.user),
        Call::Answer(answer) => shown(alloc, answer),
    }
}

/// What a row's message asks, in a few words, or the answer to one that asks nothing.
pub(crate) fn asked(alloc: Global, row: &str) -> Result<String, NoMemory> {
    match call_of(alloc, row) {
        Ok(call) => {
            let text = call_text(alloc, &call);
            drop(call);
            text
        }
        Err(NoMemory) => Err(NoMemory),
    }
}
