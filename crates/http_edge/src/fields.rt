ghost use Rattle.std.specs.Prelude.{◌≡◌, ℕ, ◌<◌, List, [], ◌∷◌, length, map, codes, IsTrue, IsSome, All, IfSome, IfNone, true, ◌↔◌};
ghost use Rattle.std.specs.Option.{option_copied};
ghost use Rattle.std.specs.List.{list_all};
ghost use Rattle.std.specs.Char.{is_ascii_digit};
ghost use Rattle.std.specs.Str.Parse.{digits_value};
ghost use Rattle.httparse.specs.Spans.{IsHeaderWithin, header_bytes};
ghost use Rattle.http_edge.specs.Fields.{value_if_named, values_at, capped, is_number, number_said, length_in, content_type_in};
ghost use Rattle.http_edge.specs.Outcomes.{framing_by_length, framing_by_encoding, framing_in};

use httparse::spans::HeaderSpan;

/// What the fields of a head say of the length of its body.
#[derive(Clone, Copy, Debug, PartialEq, Eq, Hash)]
pub enum BodyLength {
    Unsaid,
    /// A field that is no decimal number, or more than one field.
    Malformed,
    Said(u64),
}

/// How a head frames its body (RFC 9112, section 6.3).
#[derive(Clone, Copy, Debug, PartialEq, Eq, Hash)]
pub enum Framing {
    ByLength(u64),
    Chunked,
    /// By nothing that is read here.
    Unframed,
}

/// The value of a field, where its name is the given one but for case.
pub(crate) fn value_if_named<'b>(
    buffer: &'b [u8],
    field: &HeaderSpan,
    name: &[u8],
) -> Option<&'b [u8]>
    requires { IsHeaderWithin (length buffer.now) field.now }
    ensures { option_copied result ≡ value_if_named name.now (header_bytes buffer.now field.now) }
{
    if field.name.of(buffer).eq_ignore_ascii_case(name) {
        return Some(field.value.of(buffer));
    }
    None
}

/// The first value under a name.
pub(crate) fn first_value<'b>(
    buffer: &'b [u8],
    fields: &[HeaderSpan],
    name: &[u8],
) -> Option<&'b [u8]>
    requires { All (IsHeaderWithin (length buffer.now)) fields.now }
    ensures first { IfSome result (λ value. (values : List (List ℕ))
        × (values_at buffer.now fields.now name.now ≡ value.now ∷ values)) }
    ensures none { IfNone result (values_at buffer.now fields.now name.now ≡ []) }
{
    for field in fields {
        if let Some(value) = value_if_named(buffer, field, name) {
            return Some(value);
        }
    }
    None
}

/// How many values stand under a name.
pub(crate) fn value_count(buffer: &[u8], fields: &[HeaderSpan], name: &[u8]) -> usize
    requires { All (IsHeaderWithin (length buffer.now)) fields.now }
    ensures { result ≡ length (values_at buffer.now fields.now name.now) }
{
    let mut count = 0;
    for field in fields {
        if value_if_named(buffer, field, name).is_some() {
            count += 1;
        }
    }
    count
}

/// The number that digits write, and of what is past the greatest number this one.
fn number_of(digits: &[u8]) -> u64
    requires { IsTrue (list_all is_ascii_digit digits.now) }
    ensures { result ≡ capped (digits_value 10 digits.now) }
{
    let mut number: u64 = 0;
    for digit in digits {
        number = number
            .saturating_mul(10)
            .saturating_add(u64::from(*digit - b'0'));
    }
    number
}

fn are_digits(value: &[u8]) -> bool
    ensures { result ≡ list_all is_ascii_digit value.now }
{
    value.iter().all(u8::is_ascii_digit)
}

/// What one value of `Content-Length` says.
fn number_said(value: &[u8]) -> BodyLength
    ensures { result ≡ number_said value.now }
{
    if value.is_empty() || !are_digits(value) {
        return BodyLength::Malformed;
    }
    BodyLength::Said(number_of(value))
}

/// What the fields say of the length of the body.
pub(crate) fn length_said(buffer: &[u8], fields: &[HeaderSpan]) -> BodyLength
    requires { All (IsHeaderWithin (length buffer.now)) fields.now }
    ensures { result ≡ length_in (values_at buffer.now fields.now (codes "content-length")) }
{
    let Some(value) = first_value(buffer, fields, b"content-length") else {
        return BodyLength::Unsaid;
    };
    if value_count(buffer, fields, b"content-length") != 1 {
        return BodyLength::Malformed;
    }
    number_said(value)
}

/// The one value of `Content-Type`, and nothing if there is none, or several.
pub(crate) fn content_type_said<'b>(buffer: &'b [u8], fields: &[HeaderSpan]) -> &'b [u8]
    requires { All (IsHeaderWithin (length buffer.now)) fields.now }
    ensures { result.now ≡ content_type_in (values_at buffer.now fields.now (codes "content-type")) }
{
    let Some(value) = first_value(buffer, fields, b"content-type") else {
        return b"";
    };
    if value_count(buffer, fields, b"content-type") != 1 {
        return b"";
    }
    value
}

fn framing_by_length(said: BodyLength) -> Framing
    ensures { result ≡ framing_by_length said }
{
    match said {
        BodyLength::Said(length) => Framing::ByLength(length),
        _ => Framing::Unframed,
    }
}

fn framing_by_encoding(encoding: &[u8], said: BodyLength) -> Framing
    ensures { result ≡ framing_by_encoding encoding.now said }
{
    if said == BodyLength::Unsaid && encoding.eq_ignore_ascii_case(b"chunked") {
        return Framing::Chunked;
    }
    Framing::Unframed
}

/// How the fields frame the body.
pub(crate) fn framing_said(buffer: &[u8], fields: &[HeaderSpan], said: BodyLength) -> Framing
    requires { All (IsHeaderWithin (length buffer.now)) fields.now }
    ensures { result ≡ framing_in (values_at buffer.now fields.now (codes "transfer-encoding")) said }
{
    let Some(encoding) = first_value(buffer, fields, b"transfer-encoding") else {
        return framing_by_length(said);
    };
    if value_count(buffer, fields, b"transfer-encoding") != 1 {
        return Framing::Unframed;
    }
    framing_by_encoding(encoding, said)
}
