// The bytes of a response.
ghost use Rattle.std.specs.Prelude.{◌≡◌, ◌++◌, IfOk, OnOk, string_bytes, length};
ghost use Rattle.http.specs.StatusCode.{IsStatusCode};
ghost use Rattle.rg_base.specs.Listed.{listed};
ghost use Rattle.rg_http.specs.Print.{status_line, close_line, type_line, length_lines, is_bare, response_text};

use crate::message::Response;
use http::StatusCode;
use rg_base::{NoMemory, Seq};
use std::alloc::{AllocError, Global};

/// No fewer bytes than the longest head has: 46 of the status line, 19, 38 and 32 of the fields, and the empty line.
const HEAD_ROOM: usize = 144;

// Whether a response with this status has no length.
fn is_bare(status: u16) -> bool
    ensures { result ≡ is_bare status }
{
    status == 204 || status == 304
}

// HTTP/1.1, the status and its phrase.
fn status_line(text: &mut String, status: u16) -> Result<(), AllocError>
    requires { IsStatusCode status }
    ensures { OnOk result (string_bytes text.new ≡ string_bytes text.old ++ status_line status) }
{
    match StatusCode::from_u16(status) {
        Ok(code) => write!(text, "HTTP/1.1 {code}\r\n"),
        Err(_) => unreachable!(),
    }
}

// Says that the connection is closed, where it is.
fn close_line(text: &mut String, close: bool) -> Result<(), AllocError>
    ensures { OnOk result (string_bytes text.new ≡ string_bytes text.old ++ close_line close) }
{
    if close {
        text.push_str("Connection: close\r\n")?;
    }
    Ok(())
}

// Says of what type the body is, where it has bytes.
fn type_line(text: &mut String, len: usize) -> Result<(), AllocError>
    ensures { OnOk result (string_bytes text.new ≡ string_bytes text.old ++ type_line len) }
{
    if 0 < len {
        text.push_str("Content-Type: application/json\r\n")?;
    }
    Ok(())
}

// Says how long the body is, and of what type.
fn length_lines(text: &mut String, status: u16, len: usize) -> Result<(), AllocError>
    ensures { OnOk result (string_bytes text.new
        ≡ string_bytes text.old ++ length_lines status len) }
{
    if is_bare(status) {
        return Ok(());
    }
    write!(text, "Content-Length: {len}\r\n")?;
    type_line(text, len)
}

// All before the body, with room for the body behind it.
fn head_text(alloc: Global, response: &Response) -> Result<String, AllocError>
    requires { IsStatusCode response.now.status }
    ensures { IfOk result
        (λ s. string_bytes s ++ response.now.body.items ≡ response_text response.now) }
{
    let room = response.body.len().saturating_add(HEAD_ROOM);
    let mut text = String::with_capacity(alloc, room)?;
    status_line(&mut text, response.status)?;
    close_line(&mut text, response.close)?;
    length_lines(&mut text, response.status, response.body.len())?;
    text.push_str("\r\n")?;
    Ok(text)
}

/// The bytes of a response. Its status is one of 100 to 999, those that `http` knows as numbers of statuses. The bytes are written
/// into one room, taken at once.
pub fn print_response(alloc: Global, response: &Response) -> Result<Seq<u8>, NoMemory>
    requires { IsStatusCode response.now.status }
    ensures { IfOk result (λ bytes. bytes ≡ listed (response_text response.now)) }
{
    let mut all = head_text(alloc, response)?.into_bytes();
    all.extend_from_slice(response.body.as_slice())?;
    Ok(Seq::from_vec(all))
}
