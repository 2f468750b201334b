ghost use Rattle.std.specs.Prelude.{◌≡◌, ◌≢◌, ℕ, ◌==◌, ◌<◌, List, [], ◌∷◌, ◌++◌, length, reverse, codes, All, IfOk, IfSome, IfNone, MatchOption};
ghost use Rattle.std.specs.List.{flat_map, slice_split};
ghost use Rattle.base64.specs.Engines.{standard};
ghost use Rattle.base64.specs.GeneralPurpose.{encode_of, IsBytes};
ghost use Rattle.httparse.specs.Grammar.{is_ows, skip_ows, trim_ows};
ghost use Rattle.httparse.specs.Spans.{IsHeaderWithin};
ghost use Rattle.http_edge.specs.Fields.{values_at};
ghost use Rattle.http_edge.specs.Digests.{members_in, members_at, IsMemberDigest, IsDigestIn};

use crate::fields::value_if_named;
use base64::DecodeAllocError;
use base64::engine::general_purpose::STANDARD;
use httparse::spans::HeaderSpan;
use sb_model::OutOfMemory;
use std::alloc::Global;

fn is_ows(byte: u8) -> bool
    ensures { result ≡ is_ows byte }
{
    byte == b' ' || byte == b'\t'
}

/// A text without the spaces and tabs at its front.
fn trim_start(text: &[u8]) -> &[u8]
    ensures { result.now ≡ skip_ows text.now }
{
    let mut start = 0;
    'bytes: while start < text.len() && is_ows(text[start]) {
        start += 1;
    }
    &text[start..]
}

/// A text without the spaces and tabs at its end.
fn trim_end(text: &[u8]) -> &[u8]
    ensures { result.now ≡ reverse (skip_ows (reverse text.now)) }
{
    let mut end = text.len();
    'bytes: while end > 0 && is_ows(text[end - 1]) {
        end -= 1;
    }
    &text[..end]
}

/// A text without the spaces and tabs around.
#[tactic(auto, unfolding(httparse::specs::Grammar::trim_ows))]
pub(crate) fn trim(text: &[u8]) -> &[u8]
    ensures { result.now ≡ trim_ows text.now }
{
    trim_end(trim_start(text))
}

/// The bytes that a text is the standard padded base64 of, if it is.
fn decoded(alloc: Global, text: &[u8]) -> Result<Option<Vec<u8>>, OutOfMemory>
    ensures some { IfOk result (λ found. IfSome found (λ bytes. (text.now ≡ encode_of standard bytes.items) × IsBytes bytes.items)) }
    ensures one { IfOk result (λ found. IfSome found (λ bytes. (other : List ℕ) → IsBytes other → text.now ≡ encode_of standard other → other ≡ bytes.items)) }
    ensures none { IfOk result (λ found. IfNone found ((bytes : List ℕ) → IsBytes bytes → text.now ≢ encode_of standard bytes)) }
{
    match STANDARD.decode(alloc, text) {
        Ok(bytes) => Ok(Some(bytes)),
        Err(DecodeAllocError::DecodeError(_)) => Ok(None),
        Err(DecodeAllocError::OutOfMemory) => Err(OutOfMemory),
    }
}

/// Bytes as a digest, if they are as many.
fn as_digest(bytes: &[u8]) -> Option<[u8; 32]>
    ensures { MatchOption result (length bytes.now ≢ 32) (λ digest. (digest ≡ bytes.now) × (length bytes.now ≡ 32)) }
{
    match <[u8; 32]>::try_from(bytes) {
        Ok(digest) => Some(digest),
        Err(_) => None,
    }
}

/// What stands between the opening and the closing of a digest.
fn between(member: &[u8]) -> Option<&[u8]>
    ensures { MatchOption result ((text : List ℕ) → member.now ≢ codes "sha-256=:" ++ (text ++ codes ":"))
        (λ text. member.now ≡ codes "sha-256=:" ++ (text.now ++ codes ":")) }
{
    match member.strip_prefix(b"sha-256=:") {
        Some(rest) => match rest.strip_suffix(b":") {
            Some(text) => Some(text),
            None => None,
        },
        None => None,
    }
}

/// The digest that a member is the text of, if it is.
fn digest_of(alloc: Global, member: &[u8]) -> Result<Option<[u8; 32]>, OutOfMemory>
    ensures { IfOk result (λ digest. IsMemberDigest member.now digest) }
{
    let Some(text) = between(member) else {
        return Ok(None);
    };
    match decoded(alloc, text)? {
        Some(bytes) => Ok(as_digest(bytes.as_slice())),
        None => Ok(None),
    }
}

/// The part of a value up to its first comma, and what follows that, if there is one.
fn first_part(value: &[u8]) -> (&[u8], Option<&[u8]>)
    ensures { MatchOption result.1 (slice_split (λ byte. byte == 44) value.now ≡ result.0.now ∷ [])
        (λ rest. (slice_split (λ byte. byte == 44) value.now ≡ result.0.now ∷ slice_split (λ byte. byte == 44) rest.now)
        × (length rest.now < length value.now)) }
{
    for (at, byte) in value.iter().enumerate() {
        if *byte == b',' {
            return (&value[..at], Some(&value[at + 1..]));
        }
    }
    (value, None)
}

/// The first digest among the members of a value.
fn first_digest(alloc: Global, value: &[u8]) -> Result<Option<[u8; 32]>, OutOfMemory>
    ensures { IfOk result (λ digest. IsDigestIn (members_in value.now) digest) }
{
    let mut rest = value;
    'members: loop {
        let (part, more) = first_part(rest);
        if let Some(digest) = digest_of(alloc, trim(part))? {
            return Ok(Some(digest));
        }
        match more {
            Some(more) => rest = more,
            None => return Ok(None),
        }
    }
}

/// The first digest in a field, where that is a `Content-Digest`.
fn digest_in_field(
    alloc: Global,
    buffer: &[u8],
    field: &HeaderSpan,
) -> Result<Option<[u8; 32]>, OutOfMemory>
    requires { IsHeaderWithin (length buffer.now) field.now }
    ensures { IfOk result (λ digest. IsDigestIn (members_at buffer.now field.now) digest) }
{
    match value_if_named(buffer, field, b"content-digest") {
        Some(value) => first_digest(alloc, value),
        None => Ok(None),
    }
}

/// The first digest in the values under `Content-Digest`.
pub(crate) fn digest_given(
    alloc: Global,
    buffer: &[u8],
    fields: &[HeaderSpan],
) -> Result<Option<[u8; 32]>, OutOfMemory>
    requires { All (IsHeaderWithin (length buffer.now)) fields.now }
    ensures { IfOk result (λ digest. IsDigestIn (flat_map members_in (values_at buffer.now fields.now (codes "content-digest"))) digest) }
{
    for field in fields {
        if let Some(digest) = digest_in_field(alloc, buffer, field)? {
            return Ok(Some(digest));
        }
    }
    Ok(None)
}
