ghost use Rattle.std.specs.Prelude.{◌≡◌, ◌⊎◌, ℕ, List, map, IfOk, IfErr, IfSome, IfNone};
ghost use Rattle.base64.specs.Engines.{standard, standard_no_pad};
ghost use Rattle.base64.specs.GeneralPurpose.{IsBytes, encode_of};
ghost use Rattle.sb_json.specs.Values as json;
ghost use Rattle.proto_messages.specs.Query.{IsBase64Of, IsNoBase64};

use crate::ProtoFault;
use base64::DecodeAllocError;
use base64::engine::general_purpose::{STANDARD, STANDARD_NO_PAD};
use sb_model::{Bytes, OutOfMemory};
use std::alloc::Global;

/// A letter of either alphabet in the standard one.
fn in_standard_alphabet(byte: u8) -> u8
    ensures { result ≡ json.in_standard_alphabet byte }
{
    match byte {
        b'-' => b'+',
        b'_' => b'/',
        _ => byte,
    }
}

/// A copy of a text in the standard alphabet.
fn standard_copy(alloc: Global, text: &[u8]) -> Result<Bytes, OutOfMemory>
    ensures { IfOk result (λ copy. copy ≡ map json.in_standard_alphabet text.now) }
{
    let mut copy = Bytes::with_capacity(alloc, text.len())?;
    for byte in text {
        copy.push(in_standard_alphabet(*byte))?;
    }
    Ok(copy)
}

/// The bytes whose standard base64 with padding a text is.
fn padded_bytes(alloc: Global, text: &[u8]) -> Result<Option<Bytes>, OutOfMemory>
    ensures bytes { IfOk result (λ found. IfSome found (λ bytes. IsBytes bytes)) }
    ensures text { IfOk result (λ found. IfSome found (λ bytes. text.now ≡ encode_of standard bytes)) }
    ensures none { IfOk result (λ found. IfNone found
        ((bytes : List ℕ) → IsBytes bytes → text.now ≡ encode_of standard bytes → ⊥)) }
{
    match STANDARD.decode(alloc, text) {
        Ok(bytes) => Ok(Some(Bytes::from_vec(bytes))),
        Err(DecodeAllocError::OutOfMemory) => Err(OutOfMemory),
        Err(DecodeAllocError::DecodeError(_)) => Ok(None),
    }
}

/// The bytes whose standard base64 without padding a text is.
fn unpadded_bytes(alloc: Global, text: &[u8]) -> Result<Option<Bytes>, OutOfMemory>
    ensures bytes { IfOk result (λ found. IfSome found (λ bytes. IsBytes bytes)) }
    ensures text { IfOk result (λ found. IfSome found (λ bytes. text.now ≡ encode_of standard_no_pad bytes)) }
    ensures none { IfOk result (λ found. IfNone found
        ((bytes : List ℕ) → IsBytes bytes → text.now ≡ encode_of standard_no_pad bytes → ⊥)) }
{
    match STANDARD_NO_PAD.decode(alloc, text) {
        Ok(bytes) => Ok(Some(Bytes::from_vec(bytes))),
        Err(DecodeAllocError::OutOfMemory) => Err(OutOfMemory),
        Err(DecodeAllocError::DecodeError(_)) => Ok(None),
    }
}

/// The bytes whose standard base64 a text is, with its padding or without.
fn standard_bytes(alloc: Global, text: &[u8]) -> Result<Option<Bytes>, OutOfMemory>
    ensures bytes { IfOk result (λ found. IfSome found (λ bytes. IsBytes bytes)) }
    ensures text { IfOk result (λ found. IfSome found (λ bytes.
        (text.now ≡ encode_of standard bytes) ⊎ (text.now ≡ encode_of standard_no_pad bytes))) }
    ensures none { IfOk result (λ found. IfNone found ((bytes : List ℕ) → IsBytes bytes
        → (text.now ≡ encode_of standard bytes) ⊎ (text.now ≡ encode_of standard_no_pad bytes) → ⊥)) }
{
    if let Some(bytes) = unpadded_bytes(alloc, text)? {
        return Ok(Some(bytes));
    }
    padded_bytes(alloc, text)
}

/// The message that stands as base64 in the query of a GET (RFC 4648): of the standard alphabet or of that for URLs, also mixed, with all of
/// its padding or with none, and with zeros as the bits past its last byte. An empty text is the empty message.
///
/// Another text is refused as `NotBase64`; `OutOfMemory` may come at any time.
pub fn message_of_query(alloc: Global, text: &[u8]) -> Result<Bytes, ProtoFault>
    ensures message { IfOk result (λ bytes. IsBase64Of text.now bytes) }
    ensures err { IfErr result (λ fault. (fault ≡ ProtoFault.OutOfMemory)
        ⊎ ((fault ≡ ProtoFault.NotBase64) × IsNoBase64 text.now)) }
{
    let copy = standard_copy(alloc, text)?;
    match standard_bytes(alloc, copy.as_slice())? {
        Some(bytes) => Ok(bytes),
        None => Err(ProtoFault::NotBase64),
    }
}
