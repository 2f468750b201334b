ghost use Rattle.std.specs.Prelude.{◌≡◌, ℕ, ◌<◌, ◌≤◌, List, ◌∷◌, ◌++◌, true, false, length, take, drop, vec_len, IfOk, MatchOption};
ghost use Rattle.std.specs.Char.{digit_value};
ghost use Rattle.url_canon.specs.Unescaping.{is_hex, with_byte, unescaped, IsUnescapedOf};

use memchr::{memchr, memrchr};
use sb_model::OutOfMemory;
use std::alloc::Global;

/// The value of a hexadecimal digit; `None` for any other byte.
pub fn hex_value(byte: u8) -> Option<u8>
    ensures { MatchOption result (is_hex byte ≡ false)
        (λ value. (is_hex byte ≡ true) × (value ≡ digit_value byte) × (value < 16)) }
{
    match byte {
        b'0'..=b'9' => Some(byte - b'0'),
        b'A'..=b'F' => Some(byte - b'A' + 10),
        b'a'..=b'f' => Some(byte - b'a' + 10),
        _ => None,
    }
}

/// The byte that the two digits at the front of a text spell after a `%`.
fn spelled(text: &[u8]) -> Option<u8>
    ensures { MatchOption result (with_byte 37 text.now ≡ 37 ∷ text.now)
        (λ byte. (2 ≤ length text.now)
        × (with_byte 37 text.now ≡ with_byte byte (drop 2 text.now))) }
{
    let [high, low, ..] = text else {
        return None;
    };
    let high = hex_value(*high)?;
    let low = hex_value(*low)?;
    Some(16 * high + low)
}

/// The byte that a byte becomes in front of an unescaped text, and how many bytes of the text go
/// into it: an escape that the byte begins becomes its byte, which may begin another.
fn byte_before(byte: u8, text: &[u8]) -> (u8, usize)
    ensures within { result.1 ≤ length text.now }
    ensures value { with_byte byte text.now ≡ result.0 ∷ drop result.1 text.now }
{
    let mut front = byte;
    let mut taken = 0;
    while front == b'%' {
        let Some(value) = spelled(&text[taken..]) else {
            return (front, taken);
        };
        front = value;
        taken += 2;
    }
    (front, taken)
}

/// Unescapes the bytes from `first` on. What stands from `end` on is unescaped already, and the
/// answer is where the unescaped text begins in the end. It goes from the end to the front, so that
/// it takes time in the length alone.
fn unescape_part(bytes: &mut [u8], first: usize, end: usize) -> usize
    requires order { first ≤ end }
    requires within { end ≤ length bytes.old }
    requires ended { unescaped (drop end bytes.old) ≡ drop end bytes.old }
    ensures order { (first ≤ result) × (result ≤ length bytes.new) }
    ensures front { take first bytes.new ≡ take first bytes.old }
    ensures value { drop result bytes.new ≡ unescaped (drop first bytes.old) }
{
    let mut top = end;
    for place in (first..end).rev() {
        let (front, taken) = byte_before(bytes[place], &bytes[top..]);
        top = top + taken - 1;
        bytes[top] = front;
    }
    top
}

/// Takes the bytes at the places from `first` up to `end` out.
fn remove_places(bytes: &mut Vec<u8>, first: usize, end: usize)
    requires { (first ≤ end) × (end ≤ vec_len bytes.old) }
    ensures { bytes.new.items ≡ take first bytes.old.items ++ drop end bytes.old.items }
{
    let len = bytes.len();
    bytes.copy_within(end..len, first);
    bytes.truncate(first + (len - end));
}

/// The unescaped text. What stands before the first `%` and after the last one is copied as it is.
pub fn unescaped(alloc: Global, text: &[u8]) -> Result<Vec<u8>, OutOfMemory>
    ensures value { IfOk result (λ plain. plain.items ≡ unescaped text.now) }
    ensures unescaped { IfOk result (λ plain. IsUnescapedOf text.now plain.items) }
{
    let mut bytes = Vec::from_slice(alloc, text)?;
    let Some(first) = memchr(b'%', text) else {
        return Ok(bytes);
    };
    let Some(last) = memrchr(b'%', text) else {
        return Ok(bytes);
    };
    let top = unescape_part(bytes.as_mut_slice(), first, last + 1);
    remove_places(&mut bytes, first, top);
    Ok(bytes)
}

/// Each text has one unescaped text, whichever steps lead there.
pub fn unescaping_has_one_end()
    ensures there { (text : List ℕ) → IsUnescapedOf text (unescaped text) }
    ensures only { (text result : List ℕ) → IsUnescapedOf text result → result ≡ unescaped text }
{}
