// The bytes of responses.
//
// `response|STATUS|CLOSE|BODY`: printed are the response's bytes, CR as `^` and LF as `$`.
use crate::fields::number;
use rg_base::Seq;
use rg_http::{Response, print_response};
use std::alloc::{AllocError, Global};

/// The bytes in letters.
pub(crate) fn letters(alloc: Global, bytes: &[u8]) -> Result<String, AllocError> {
    let mut text = String::new(alloc);
    for byte in bytes {
        match *byte {
            b'\r' => text.push('^')?,
            b'\n' => text.push('$')?,
            other => text.push(char::from(other))?,
        }
    }
    Ok(text)
}

/// The bytes of the response of a row.
pub(crate) fn tell(alloc: Global, row: &str) -> Result<String, AllocError> {
    let mut fields = row.split('|');
    let status = number(fields.next()).clamp(100, 999) as u16;
    let close = fields.next() == Some("close");
    let body = Vec::from_slice(alloc, fields.next().unwrap_or("").as_bytes())?;
    let response = Response {
        status,
        body: Seq::from_vec(body),
        close,
    };
    match print_response(alloc, &response) {
        Ok(bytes) => letters(alloc, bytes.as_slice()),
        Err(_) => String::from_str(alloc, "no memory"),
    }
}
