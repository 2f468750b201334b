ghost use Rattle.std.specs.Prelude.{◌≡◌, ◌<◌, ◌==◌, ◌∷◌, [], length, is_some, IfOk, MatchOption};
ghost use Rattle.std.specs.List.{after_first, before_first, slice_split};
ghost use Rattle.std.specs.Option.{option_copied};
ghost use Rattle.std.specs.Str.{bytes_eq, str_eq_ignore_ascii_case};
ghost use Rattle.http_serving.specs.Forms.{passes};
ghost use Rattle.http_serving.specs.Queries.{listed_members, percent_decoded, query_in, query_value, raw_value, value_named};

use crate::targets::place_of;
use percent_encoding::percent_decode;
use sb_model::{Bytes, OutOfMemory};
use std::alloc::Global;

/// The query of a target, if it has one.
fn query_in(target: &[u8]) -> Option<&[u8]>
    ensures { option_copied result ≡ query_in target.now }
{
    match place_of(target, b'?') {
        Some(mark) => Some(&target[mark + 1..]),
        None => None,
    }
}

/// The part of a query up to its first `&`, and what follows that, if there is one.
fn first_part(query: &[u8]) -> (&[u8], Option<&[u8]>)
    ensures { MatchOption result.1 (slice_split (λ byte. byte == 38) query.now ≡ result.0.now ∷ [])
        (λ rest. (slice_split (λ byte. byte == 38) query.now ≡ result.0.now ∷ slice_split (λ byte. byte == 38) rest.now)
        × (length rest.now < length query.now)) }
{
    match place_of(query, b'&') {
        Some(at) => (&query[..at], Some(&query[at + 1..])),
        None => (query, None),
    }
}

/// The name that a part of a query writes, as it is written there.
fn name_in(part: &[u8]) -> &[u8]
    ensures { result.now ≡ before_first (λ byte. byte == 61) part.now }
{
    match place_of(part, b'=') {
        Some(at) => &part[..at],
        None => part,
    }
}

/// The value that a part of a query writes, as it is written there.
fn value_in(part: &[u8]) -> &[u8]
    ensures { result.now ≡ after_first (λ byte. byte == 61) part.now }
{
    match place_of(part, b'=') {
        Some(at) => &part[at + 1..],
        None => &part[part.len()..],
    }
}

/// Whether a name or a value is this one, once it is decoded. It takes no memory.
fn decodes_to(raw: &[u8], wanted: &[u8]) -> bool
    ensures { result ≡ bytes_eq (percent_decoded raw.now) wanted.now }
{
    let mut decoded = percent_decode(raw);
    for byte in wanted {
        match decoded.next() {
            Some(own) if own == *byte => {}
            _ => return false,
        }
    }
    decoded.next().is_none()
}

/// The same, where the case of letters of ASCII does not count.
fn decodes_to_any_case(raw: &[u8], wanted: &[u8]) -> bool
    ensures { result ≡ str_eq_ignore_ascii_case (percent_decoded raw.now) wanted.now }
{
    let mut decoded = percent_decode(raw);
    for byte in wanted {
        match decoded.next() {
            Some(own) if own.eq_ignore_ascii_case(byte) => {}
            _ => return false,
        }
    }
    decoded.next().is_none()
}

/// The value of the first member of a query that bears a name, as it is written there.
fn value_named<'q>(query: &'q [u8], name: &[u8]) -> Option<&'q [u8]>
    ensures { option_copied result ≡ value_named name.now (listed_members query.now) }
{
    let mut rest = query;
    'parts: loop {
        let (part, more) = first_part(rest);
        if decodes_to(name_in(part), name) {
            return Some(value_in(part));
        }
        match more {
            Some(more) => rest = more,
            None => return None,
        }
    }
}

/// The same of the query of a target.
fn raw_value<'t>(target: &'t [u8], name: &[u8]) -> Option<&'t [u8]>
    ensures { option_copied result ≡ raw_value name.now target.now }
{
    match query_in(target) {
        Some(query) => value_named(query, name),
        None => None,
    }
}

/// Whether the query of a target has a member of this name. It takes no memory.
pub(crate) fn has_member(target: &[u8], name: &[u8]) -> bool
    ensures { result ≡ is_some (query_value name.now target.now) }
{
    raw_value(target, name).is_some()
}

/// Whether the value of the first member of this name is this one. It takes no memory.
pub(crate) fn has_value(target: &[u8], name: &[u8], wanted: &[u8]) -> bool
    ensures { result ≡ passes (λ value. bytes_eq value wanted.now) (query_value name.now target.now) }
{
    match raw_value(target, name) {
        Some(value) => decodes_to(value, wanted),
        None => false,
    }
}

/// The same, where the case of letters of ASCII does not count.
pub(crate) fn has_value_any_case(target: &[u8], name: &[u8], wanted: &[u8]) -> bool
    ensures { result ≡ passes (λ value. str_eq_ignore_ascii_case value wanted.now) (query_value name.now target.now) }
{
    match raw_value(target, name) {
        Some(value) => decodes_to_any_case(value, wanted),
        None => false,
    }
}

/// A name or a value, decoded.
fn decoded(alloc: Global, raw: &[u8]) -> Result<Bytes, OutOfMemory>
    ensures { IfOk result (λ text. text ≡ percent_decoded raw.now) }
{
    let mut text = Vec::new(alloc);
    percent_decode(raw).append_to(&mut text)?;
    Ok(Bytes::from_vec(text))
}

/// The value of the first member of the query of a target that has this name (RFC 3986, sections 2.1 and 3.4). The query is what
/// follows the first `?`, and `&` parts its members; the first `=` ends the name of a member, and a member without one has an empty
/// value. Names and values are decoded: `%` with two hexadecimal digits is a byte, any other `%` stays, and so does `+`.
pub fn query_value(alloc: Global, target: &[u8], name: &[u8]) -> Result<Option<Bytes>, OutOfMemory>
    ensures { IfOk result (λ value. value ≡ query_value name.now target.now) }
{
    match raw_value(target, name) {
        Some(value) => Ok(Some(decoded(alloc, value)?)),
        None => Ok(None),
    }
}
