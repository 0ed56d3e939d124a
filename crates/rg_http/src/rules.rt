// The rules on a whole head.
ghost use Rattle.std.specs.Prelude.{◌≡◌, ◌≤◌, ◌<◌, ◌||◌, ◌^◌, ℕ, length, map, nat_lt, option_map, All, codes, IfSome, IsSome, true};
ghost use Rattle.std.specs.List.{list_all};
ghost use Rattle.std.specs.Char.{is_ascii_digit};
ghost use Rattle.std.specs.Str.Parse.{digits_value};
ghost use Rattle.httparse.specs.Spans.{IsHeaderWithin, header_bytes};
ghost use Rattle.rg_http.specs.Fields.{values, first};
ghost use Rattle.rg_http.specs.Rules.{ruling, by_length, sized, is_coded, needs_length, is_length, asks_close, body_limit, field_limit, IsSized};

use crate::fields::{FieldName, count, first_value, has_name, is_same_folded};
use httparse::spans::HeaderSpan;

/// The most fields of a head.
pub const FIELD_LIMIT: usize = 64;

/// The most bytes of a body.
pub const BODY_LIMIT: u64 = 1048576;

/// What a whole head asks for: a refusal with this status, or a body of so many bytes.
#[derive(Clone, Copy, Debug, PartialEq, Eq)]
pub enum Ruling {
    Refused(u16),
    Body(u32),
}

/// Whether it is 1 to 19 digits.
#[tactic(auto, unfolding(crate::specs::Rules::is_length))]
pub fn is_length(value: &[u8]) -> bool
    ensures { result ≡ is_length value.now }
{
    !value.is_empty() && (value.len() <= 19 && are_digits(value))
}

fn are_digits(value: &[u8]) -> bool
    ensures { result ≡ list_all is_ascii_digit value.now }
{
    value.iter().all(|b| b.is_ascii_digit())
}

/// The number that these digits write.
pub fn number(digits: &[u8]) -> u64
    requires short { length digits.now ≤ 19 }
    requires digits { list_all is_ascii_digit digits.now ≡ true }
    ensures { result ≡ digits_value 10 digits.now }
{
    let mut n = 0;
    for digit in digits {
        n = n * 10 + u64::from(*digit - b'0');
    }
    n
}

#[tactic(auto, unfolding(crate::specs::Rules::needs_length))]
fn needs_length(method: &[u8]) -> bool
    ensures { result ≡ needs_length method.now }
{
    method == b"POST".as_slice() || method == b"PUT".as_slice()
}

/// Whether the body comes in a coding that isn't read.
#[tactic(auto, unfolding(crate::specs::Rules::is_coded))]
pub fn is_coded(window: &[u8], fields: &[HeaderSpan]) -> bool
    requires { All (IsHeaderWithin (length window.now)) fields.now }
    ensures { result ≡ is_coded (map (header_bytes window.now) fields.now) }
{
    0 < count(window, fields, FieldName::TransferEncoding)
        || 0 < count(window, fields, FieldName::ContentEncoding)
}

fn sized(n: u64) -> Ruling
    ensures value { result ≡ sized n }
    ensures small { IsSized result }
{
    if BODY_LIMIT < n {
        Ruling::Refused(413)
    } else {
        Ruling::Body(n as u32)
    }
}

#[tactic(auto, unfolding(crate::specs::Rules::is_length))]
fn by_length(method: &[u8], value: Option<&[u8]>) -> Ruling
    ensures value { result ≡ by_length method.now (option_map (λ s. s.now) value.entry) }
    ensures small { IsSized result }
{
    match value {
        None if needs_length(method) => Ruling::Refused(411),
        None => Ruling::Body(0),
        Some(value) if is_length(value) => sized(number(value)),
        Some(_) => Ruling::Refused(400),
    }
}

/// What a whole head asks for, by its method and its fields.
#[tactic(auto, unfolding(crate::specs::Rules::ruling))]
pub fn rule_on(method: &[u8], window: &[u8], fields: &[HeaderSpan]) -> Ruling
    requires { All (IsHeaderWithin (length window.now)) fields.now }
    ensures value { result ≡ ruling method.now (map (header_bytes window.now) fields.now) }
    ensures small { IsSized result }
{
    if FIELD_LIMIT < fields.len() {
        return Ruling::Refused(431);
    }
    if is_coded(window, fields) {
        return Ruling::Refused(501);
    }
    if 1 < count(window, fields, FieldName::ContentLength) {
        return Ruling::Refused(400);
    }
    by_length(
        method,
        first_value(window, fields, FieldName::ContentLength),
    )
}

/// Whether a field asks to close.
#[tactic(auto, unfolding(crate::specs::Rules::asks_close))]
pub fn asks_close(window: &[u8], fields: &[HeaderSpan]) -> bool
    requires { All (IsHeaderWithin (length window.now)) fields.now }
    ensures { result ≡ asks_close (map (header_bytes window.now) fields.now) }
{
    for field in fields {
        if has_name(window, field, FieldName::Connection)
            && is_same_folded(b"close".as_slice(), field.value.of(window))
        {
            return true;
        }
    }
    false
}
