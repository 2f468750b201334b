ghost use Rattle.std.specs.Prelude.{◌≡◌, ◌≢◌, ◌≤◌, ◌*◌, ℕ, ◌↔◌, ◌++◌, length, position, not, Ok, Some, IsOk, IfOk, OnOk, OnErr, IsErrOf};
ghost use Rattle.std.specs.List.{AllPass};
ghost use Rattle.hex.specs.Hex.{decode_of, encode_lower, is_hex_digit};
ghost use Rattle.hash_prefixes.specs.declared.hashes.FullHash.{FullHash as Hash};

use crate::FullHash;
use hex::FromHexError;
use sb_model::{Bytes, OutOfMemory};
use std::alloc::Global;
use std::error::Error;
use std::fmt;

/// Why a text is not the hexadecimal text of a full hash.
#[derive(Clone, Copy, Debug, PartialEq, Eq)]
pub enum HexFault {
    /// The text has this many bytes, and not 64.
    Length(usize),
    /// The first byte that is no hexadecimal digit stands at this place, counted from 0.
    Digit(usize),
}

impl fmt::Display for HexFault {
    fn fmt<W: fmt::Write>(&self, f: &mut fmt::Formatter<W>) -> fmt::Result {
        match self {
            HexFault::Length(n) => write!(f, "{n} bytes in place of 64"),
            HexFault::Digit(at) => write!(f, "no hexadecimal digit at {at}"),
        }
    }
}

impl Error for HexFault {}

/// Reads the 64 hexadecimal digits of a full hash. Letters of both cases are read.
///
/// The length is looked at first. A text of another length, or with a byte that is no digit, is
/// refused.
pub fn read_hex(text: &[u8]) -> Result<FullHash, HexFault>
    ensures value { (hash : Hash) → (result ≡ Ok hash)
        ↔ ((length text.now ≡ 64) × (decode_of text.now ≡ Ok hash.bytes)) }
    ensures succeeds { IsOk result ↔ ((length text.now ≡ 64) × AllPass is_hex_digit text.now) }
    ensures length { (n : ℕ) → IsErrOf result (HexFault.Length n)
        ↔ ((length text.now ≡ n) × (n ≢ 64)) }
    ensures digit { (at : ℕ) → IsErrOf result (HexFault.Digit at)
        ↔ ((length text.now ≡ 64) × (position (λ c. not (is_hex_digit c)) text.now ≡ Some at)) }
{
    if text.len() != 64 {
        return Err(HexFault::Length(text.len()));
    }
    let mut bytes = [0; 32];
    let Err(fault) = hex::decode_to_slice(text, &mut bytes) else {
        return Ok(FullHash { bytes });
    };
    match fault {
        FromHexError::InvalidHexCharacter { index, .. } => Err(HexFault::Digit(index)),
        _ => unreachable!(),
    }
}

/// The hexadecimal text of some bytes, two digits for each, in lower case.
pub fn write_hex(alloc: Global, bytes: &[u8]) -> Result<Bytes, OutOfMemory>
    ensures value { IfOk result (λ text. text ≡ encode_lower bytes.now) }
    ensures read_again { IfOk result (λ text. decode_of text ≡ Ok bytes.now) }
    ensures length { IfOk result (λ text. length text ≡ 2 * length bytes.now) }
{
    Ok(Bytes::from_vec(hex::encode(alloc, bytes)?.into_bytes()))
}

// How many bytes are written at a time.
const PIECE: usize = 32;

// Appends the text of at most 32 bytes.
fn append_piece(out: &mut Bytes, bytes: &[u8]) -> Result<(), OutOfMemory>
    requires { length bytes.now ≤ PIECE }
    ensures ok { OnOk result (out.new ≡ out.old ++ encode_lower bytes.now) }
    ensures err { OnErr result (out.new ≡ out.old) }
{
    let mut buffer = [0; 2 * PIECE];
    let digits = &mut buffer[..2 * bytes.len()];
    hex::encode_to_slice(bytes, digits).unwrap();
    out.append(digits)
}

/// Appends the hexadecimal text of some bytes, in lower case. An `Err` changes nothing.
pub fn append_hex(out: &mut Bytes, bytes: &[u8]) -> Result<(), OutOfMemory>
    ensures ok { OnOk result (out.new ≡ out.old ++ encode_lower bytes.now) }
    ensures read_again { OnOk result (decode_of (encode_lower bytes.now) ≡ Ok bytes.now) }
    ensures err { OnErr result (out.new ≡ out.old) }
{
    let before = out.len();
    let mut rest = bytes;
    while !rest.is_empty() {
        let (piece, tail) = rest.split_at(rest.len().min(PIECE));
        if append_piece(out, piece).is_err() {
            out.truncate(before);
            return Err(OutOfMemory);
        }
        rest = tail;
    }
    Ok(())
}
