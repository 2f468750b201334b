ghost use Rattle.std.specs.Prelude.{◌≡◌, map, IfOk, IfSome, OnOk};
ghost use Rattle.base64.specs.Engines.{standard};
ghost use Rattle.base64.specs.GeneralPurpose.{decoded_of, encode_of};
ghost use Rattle.sb_json.specs.Values as spec;

use base64::DecodeAllocError;
use base64::engine::general_purpose::STANDARD;
use sb_model::{Bytes, OutOfMemory};
use std::alloc::Global;

/// The bytes that a text is the standard padded base64 of.
#[tactic(auto, unfolding(base64::specs::GeneralPurpose::decoded_of))]
fn decoded(alloc: Global, text: &[u8]) -> Result<Option<Bytes>, OutOfMemory>
    ensures bytes { IfOk result (λ bytes. bytes ≡ decoded_of standard text.now) }
    ensures exact { IfOk result (λ bytes. IfSome bytes (λ b. text.now ≡ encode_of standard b)) }
{
    match STANDARD.decode(alloc, text) {
        Ok(bytes) => Ok(Some(Bytes::from_vec(bytes))),
        Err(DecodeAllocError::OutOfMemory) => Err(OutOfMemory),
        Err(DecodeAllocError::DecodeError(_)) => Ok(None),
    }
}

/// A letter of either alphabet in the standard one.
fn in_standard_alphabet(byte: u8) -> u8
    ensures { result ≡ spec.in_standard_alphabet byte }
{
    match byte {
        b'-' => b'+',
        b'_' => b'/',
        _ => byte,
    }
}

/// A copy of a text in the standard alphabet.
fn standard_copy(alloc: Global, text: &[u8]) -> Result<Bytes, OutOfMemory>
    ensures { IfOk result (λ copy. copy ≡ map spec.in_standard_alphabet text.now) }
{
    let mut copy = Bytes::with_capacity(alloc, text.len())?;
    for byte in text {
        copy.push(in_standard_alphabet(*byte))?;
    }
    Ok(copy)
}

/// Adds the missing `=` to a text that has none and whose length leaves 2 or 3 by four.
fn pad(text: &mut Bytes) -> Result<(), OutOfMemory>
    ensures { OnOk result (text.new ≡ spec.with_padding text.old) }
{
    if text.as_slice().contains(&b'=') {
        return Ok(());
    }
    match text.len() % 4 {
        2 => text.append(b"=="),
        3 => text.append(b"="),
        _ => Ok(()),
    }
}

/// The bytes that a text is the base64 of, in either alphabet and with or without padding. Standard padded
/// base64 is read as it stands, and only another text is copied.
pub(crate) fn base64_bytes(alloc: Global, text: &[u8]) -> Result<Option<Bytes>, OutOfMemory>
    ensures { IfOk result (λ bytes. bytes ≡ spec.base64_of text.now) }
{
    if let Some(bytes) = decoded(alloc, text)? {
        return Ok(Some(bytes));
    }
    let mut copy = standard_copy(alloc, text)?;
    pad(&mut copy)?;
    decoded(alloc, copy.as_slice())
}
