ghost use Rattle.std.specs.Prelude.{◌≡◌, ◌+◌, ◌*◌, ◌≤◌, length, take, drop, vec_len, IfOk};

use httparse::spans::{EMPTY_HEADER_SPAN, HeaderSpan};
use sb_model::OutOfMemory;
use std::alloc::Global;

/// How many bytes a head has at most, and a trailer.
pub(crate) const HEAD_LIMIT: usize = 16_384;

/// How many fields a head has at most, and a trailer.
pub(crate) const FIELD_LIMIT: usize = 64;

/// How many bytes a read gives at most.
pub(crate) const PIECE: usize = 65_536;

/// Room for the fields of every head and trailer of 16,384 bytes, since a field has three bytes at least. So the
/// parser never refuses one for the number of its fields.
pub(crate) const ROOM: usize = 5_461;

/// How many bytes most heads have at most.
pub(crate) const SHORT_HEAD: usize = 1_024;

/// Room for the fields of every head of so many bytes.
pub(crate) const SHORT_ROOM: usize = 341;

pub(crate) fn room_for_fields(alloc: Global) -> Result<Vec<HeaderSpan>, OutOfMemory>
    ensures { IfOk result (λ room. vec_len room ≡ ROOM) }
{
    Ok(vec![in alloc; EMPTY_HEADER_SPAN; ROOM]?)
}

/// Room for the fields of a head of so many bytes at most, since a field has three bytes at least.
pub(crate) fn room_for_head(alloc: Global, len: usize) -> Result<Vec<HeaderSpan>, OutOfMemory>
    ensures { IfOk result (λ room. len ≤ 3 * vec_len room + 2) }
{
    Ok(vec![in alloc; EMPTY_HEADER_SPAN; len / 3 + 1]?)
}

pub(crate) fn buffer_of(alloc: Global) -> Result<Vec<u8>, OutOfMemory>
    ensures { IfOk result (λ buffer. vec_len buffer ≡ PIECE) }
{
    Ok(vec![in alloc; 0; PIECE]?)
}

/// The first bytes of a text, so many at most.
pub(crate) fn front_of(text: &[u8], limit: usize) -> &[u8]
    ensures { result.now ≡ take limit text.now }
{
    &text[..text.len().min(limit)]
}

/// The bytes of a text from a place on.
pub(crate) fn rest_from(text: &[u8], at: usize) -> &[u8]
    requires { at ≤ length text.now }
    ensures { result.now ≡ drop at text.now }
{
    &text[at..]
}
