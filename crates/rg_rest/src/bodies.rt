// What the router answers by itself.
ghost use Rattle.std.specs.Prelude.{◌≡◌, IfOk};
ghost use Rattle.std.specs.Str.{encode_utf8_all};
ghost use Rattle.rg_rest.specs.Bodies.{answer, no_method, no_path, no_record, no_user};

use crate::fault_text::fault_text;
use http::StatusCode;
use rg_base::{NoMemory, Seq, Text};
use rg_http::Response;
use rg_json::WireKind;
use std::alloc::Global;

/// An answer with this body.
pub fn answer(
    alloc: Global,
    status: StatusCode,
    body: &str,
    close: bool,
) -> Result<Response, NoMemory>
    ensures { IfOk result (λ r. r ≡ answer status body.now close) }
{
    let body = Vec::from_slice(alloc, body.as_bytes())?;
    Ok(Response {
        status: status.as_u16(),
        body: Seq::from_vec(body),
        close,
    })
}

/// The answer where no route has the path.
pub fn no_path(alloc: Global, close: bool) -> Result<Response, NoMemory>
    ensures { IfOk result (λ r. r ≡ no_path close) }
{
    answer(alloc, StatusCode::NOT_FOUND, "{\"error\":\"path\"}", close)
}

/// The answer where no route with the path has the method.
pub(crate) fn no_method(alloc: Global, close: bool) -> Result<Response, NoMemory>
    ensures { IfOk result (λ r. r ≡ no_method close) }
{
    answer(
        alloc,
        StatusCode::METHOD_NOT_ALLOWED,
        "{\"error\":\"method\"}",
        close,
    )
}

/// The answer where nobody asks.
pub(crate) fn no_user(alloc: Global, close: bool) -> Result<Response, NoMemory>
    ensures { IfOk result (λ r. r ≡ no_user close) }
{
    answer(
        alloc,
        StatusCode::UNAUTHORIZED,
        "{\"error\":\"x-user\"}",
        close,
    )
}

/// The answer where the body doesn't read.
pub(crate) fn no_record(
    alloc: Global,
    path: &Text,
    kind: WireKind,
    close: bool,
) -> Result<Response, NoMemory>
    ensures { IfOk result (λ r. r ≡ no_record (record { path = path.now; kind = kind }) close) }
{
    let text = fault_text(alloc, path, kind)?;
    answer(alloc, StatusCode::BAD_REQUEST, text.as_str(), close)
}
