// The fields of a head, by name.
ghost use Rattle.std.specs.Prelude.{◌≡◌, ◌≤◌, ◌<◌, ◌&&◌, ◌==◌, length, map, filter, nat_lt, option_map, All, true};
ghost use Rattle.httparse.specs.Spans.{IsHeaderWithin, header_bytes};
ghost use Rattle.rg_http.specs.Names.{name_of};
ghost use Rattle.rg_http.specs.Fields.{values, first, is_named, is_same_folded};

use httparse::spans::HeaderSpan;

/// The fields that framing looks at.
#[derive(Clone, Copy, Debug, PartialEq, Eq)]
pub enum FieldName {
    ContentLength,
    TransferEncoding,
    ContentEncoding,
    Connection,
    User,
}

impl FieldName {
    /// The name in lower case.
    #[tactic(auto, unfolding(crate::specs::Names::name_of))]
    pub fn text(self) -> &'static str
        ensures { result.now ≡ name_of self }
    {
        match self {
            FieldName::ContentLength => "content-length",
            FieldName::TransferEncoding => "transfer-encoding",
            FieldName::ContentEncoding => "content-encoding",
            FieldName::Connection => "connection",
            FieldName::User => "x-user",
        }
    }
}

/// Whether two texts are the same up to the case of ASCII letters.
pub fn is_same_folded(a: &[u8], b: &[u8]) -> bool
    ensures { result ≡ is_same_folded a.now b.now }
{
    a.eq_ignore_ascii_case(b)
}

/// Whether the field has that name.
pub fn has_name(window: &[u8], field: &HeaderSpan, name: FieldName) -> bool
    requires { IsHeaderWithin (length window.now) field.now }
    ensures { result ≡ is_named name (header_bytes window.now field.now) }
{
    is_same_folded(field.name.of(window), name.text().as_bytes())
}

/// How many fields have that name.
pub fn count(window: &[u8], fields: &[HeaderSpan], name: FieldName) -> usize
    requires { All (IsHeaderWithin (length window.now)) fields.now }
    ensures { result ≡ length (values name (map (header_bytes window.now) fields.now)) }
{
    let mut found = 0;
    for field in fields {
        if has_name(window, field, name) {
            found += 1;
        }
    }
    found
}

/// The value of the first field of that name.
pub fn first_value<'b>(window: &'b [u8], fields: &[HeaderSpan], name: FieldName) -> Option<&'b [u8]>
    requires { All (IsHeaderWithin (length window.now)) fields.now }
    ensures { option_map (λ s. s.now) result
        ≡ first (values name (map (header_bytes window.now) fields.now)) }
{
    for field in fields {
        if has_name(window, field, name) {
            return Some(field.value.of(window));
        }
    }
    None
}
