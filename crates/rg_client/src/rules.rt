// The rules on a whole head.
ghost use Rattle.std.specs.Prelude.{◌≡◌, ◌≤◌, length, map, option_map, All, IfSome};
ghost use Rattle.httparse.specs.Spans.{IsHeaderWithin, header_bytes};
ghost use Rattle.rg_http.specs.Print.{is_bare};
ghost use Rattle.rg_client.specs.Replies.{sized, by_length, body_length, body_limit};

use httparse::spans::HeaderSpan;
use rg_http::{FIELD_LIMIT, FieldName, count, first_value, is_coded, is_length, number};

/// The most bytes of a reply's body: 256 MiB.
const BODY_LIMIT: u64 = 268435456;

/// The least status of a reply that is final (RFC 9110, section 15).
const FINAL: u16 = 200;

// Whether a reply with this status has no body (RFC 9112, section 6.3).
fn is_bare(status: u16) -> bool
    ensures { result ≡ is_bare status }
{
    status == 204 || status == 304
}

fn sized(n: u64) -> Option<usize>
    ensures value { result ≡ sized n }
    ensures small { IfSome result (λ size. size ≤ body_limit) }
{
    if BODY_LIMIT < n {
        None
    } else {
        Some(n as usize)
    }
}

#[tactic(auto, unfolding(rg_http::specs::Rules::is_length))]
fn by_length(value: Option<&[u8]>) -> Option<usize>
    ensures value { result ≡ by_length (option_map (λ s. s.now) value.entry) }
    ensures small { IfSome result (λ size. size ≤ body_limit) }
{
    match value {
        Some(value) if is_length(value) => sized(number(value)),
        _ => None,
    }
}

/// How many bytes the body of a reply has (RFC 9112, section 6), by its status and its fields; none where the reply isn't read.
#[tactic(auto, unfolding(crate::specs::Replies::body_length))]
pub(crate) fn body_length(status: u16, window: &[u8], fields: &[HeaderSpan]) -> Option<usize>
    requires { All (IsHeaderWithin (length window.now)) fields.now }
    ensures value { result ≡ body_length status (map (header_bytes window.now) fields.now) }
    ensures small { IfSome result (λ size. size ≤ body_limit) }
    ensures is_final { IfSome result (λ _. 200 ≤ status) }
{
    if FIELD_LIMIT < fields.len() || status < FINAL {
        return None;
    }
    if is_bare(status) {
        return Some(0);
    }
    if is_coded(window, fields) || 1 < count(window, fields, FieldName::ContentLength) {
        return None;
    }
    by_length(first_value(window, fields, FieldName::ContentLength))
}
