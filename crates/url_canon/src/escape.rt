ghost use Rattle.std.specs.Prelude.{◌≡◌, ◌+◌, ◌^◌, ◌<◌, ◌++◌, true, length, position, IfSome, OnOk};
ghost use Rattle.url_canon.specs.Escaping.{hex_digit, is_unsafe, escape_of, escaped};

use sb_model::{Bytes, OutOfMemory};

/// The upper-case hexadecimal digit of a value.
fn hex_digit(value: u8) -> u8
    requires { value < 16 }
    ensures { result ≡ hex_digit value }
{
    if value < 10 {
        b'0' + value
    } else {
        b'A' + (value - 10)
    }
}

/// Whether a byte is no printable ASCII character, a `#` or a `%`.
fn is_unsafe(byte: u8) -> bool
    ensures { result ≡ is_unsafe byte }
{
    byte <= 32 || byte >= 127 || byte == b'#' || byte == b'%'
}

/// Where the first byte stands that is escaped.
fn first_unsafe(text: &[u8]) -> Option<usize>
    ensures value { result ≡ position is_unsafe text.now }
    ensures within { IfSome result (λ place. (place < length text.now) × (place + 1 < 2 ^ 64)) }
{
    text.iter().position(|byte| is_unsafe(*byte))
}

/// Appends one byte that is escaped, as `%` and two digits.
fn push_escape(out: &mut Bytes, byte: u8) -> Result<(), OutOfMemory>
    requires { is_unsafe byte ≡ true }
    ensures { OnOk result (out.new ≡ out.old ++ escape_of byte) }
{
    out.append(&[b'%', hex_digit(byte / 16), hex_digit(byte % 16)])
}

/// Appends the bytes of a text, escaped. Those between two that are escaped go together.
pub fn append_escaped(out: &mut Bytes, text: &[u8]) -> Result<(), OutOfMemory>
    ensures { OnOk result (out.new ≡ out.old ++ escaped text.now) }
{
    let mut rest = text;
    while let Some(place) = first_unsafe(rest) {
        out.append(&rest[..place])?;
        push_escape(out, rest[place])?;
        rest = &rest[place + 1..];
    }
    out.append(rest)?;
    Ok(())
}
