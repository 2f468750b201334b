ghost use Rattle.std.specs.Prelude.{◌≡◌, ◌<◌, ◌≤◌, ◌⊎◌, IsTrue, [], filter, length, slice_index, take};
ghost use Rattle.sb_json.specs.Density as spec;

use memchr::memchr2;

/// How many bytes of a text that begins in a string stand before its first quote or backslash.
fn plain_bytes(text: &[u8]) -> usize
    ensures within { result ≤ length text.now }
    ensures inside { spec.outside_from spec.Inside (take result text.now) ≡ [] }
    ensures stays { spec.place_behind spec.Inside (take result text.now) ≡ spec.Inside }
    ensures sign { result < length text.now
        → (slice_index text.now result ≡ 34) ⊎ (slice_index text.now result ≡ 92) }
{
    match memchr2(b'"', b'\\', text) {
        None => text.len(),
        Some(place) => place,
    }
}

/// How many bytes the rest of a string takes, with its last quote, of a text that begins in it. Where no quote ends it, it
/// takes the whole text.
fn string_bytes(text: &[u8]) -> usize
    ensures within { result ≤ length text.now }
    ensures inside { spec.outside_from spec.Inside (take result text.now) ≡ [] }
    ensures ended { result < length text.now
        → spec.place_behind spec.Inside (take result text.now) ≡ spec.Outside }
{
    let mut at = 0;
    'signs: while at < text.len() {
        let sign = at + plain_bytes(&text[at..]);
        if sign == text.len() {
            return sign;
        }
        if text[sign] == b'"' {
            return sign + 1;
        }
        at = sign + 2;
    }
    text.len()
}

/// Whether a byte opens a list or an object.
fn is_opening(byte: u8) -> bool
    ensures { result ≡ spec.is_opening byte }
{
    byte == b'[' || byte == b'{'
}

/// Whether a value stands behind a byte, or it opens one.
fn is_value_sign(byte: u8) -> bool
    ensures { result ≡ spec.is_value_sign byte }
{
    byte == b',' || byte == b':' || is_opening(byte)
}

/// How many lists and objects a text of so many bytes may open.
fn most_openings(size: usize) -> usize
    ensures { result ≡ spec.most_openings size }
{
    8192 + size / 48
}

/// How many values a text of so many bytes may have.
fn most_values(size: usize) -> usize
    ensures { result ≡ spec.most_values size }
{
    65536 + size / 6
}

/// The place of the first byte, from 0, at which a text has more openings or values than a text of its length may have.
fn first_past(text: &[u8]) -> Option<u64>
    ensures { result ≡ spec.too_dense text.now }
{
    let most_openings = most_openings(text.len());
    let most_values = most_values(text.len());
    let mut openings = 0;
    let mut values = 0;
    let mut at = 0;
    'bytes: while at < text.len() {
        let byte = text[at];
        if byte == b'"' {
            at += 1 + string_bytes(&text[at + 1..]);
            continue;
        }
        openings += usize::from(is_opening(byte));
        values += usize::from(is_value_sign(byte));
        if openings > most_openings || values > most_values {
            return Some(at as u64);
        }
        at += 1;
    }
    None
}

/// How many bytes of a text open a list or an object, and how many are signs of values, in strings and outside of them.
#[derive(Clone, Copy)]
struct Signs {
    openings: usize,
    values: usize,
}

/// How many bytes of a text are counted at once.
const PART: usize = 240;

/// The signs of a part of a text. Each count is a byte, so that one instruction of the processor adds to many of them.
fn signs_of_part(part: &[u8]) -> Signs
    requires { length part.now ≤ 240 }
    ensures openings { result.openings ≡ length (filter spec.is_opening part.now) }
    ensures values { result.values ≡ length (filter spec.is_value_sign part.now) }
{
    let mut openings = 0_u8;
    let mut values = 0_u8;
    for byte in part {
        openings += u8::from(is_opening(*byte));
        values += u8::from(is_value_sign(*byte));
    }
    Signs {
        openings: usize::from(openings),
        values: usize::from(values),
    }
}

/// The signs of a text.
fn all_signs(text: &[u8]) -> Signs
    ensures openings { result.openings ≡ length (filter spec.is_opening text.now) }
    ensures values { result.values ≡ length (filter spec.is_value_sign text.now) }
{
    let mut openings = 0;
    let mut values = 0;
    let mut rest = text;
    'parts: while !rest.is_empty() {
        let (part, more) = rest.split_at(rest.len().min(PART));
        let signs = signs_of_part(part);
        openings += signs.openings;
        values += signs.values;
        rest = more;
    }
    Signs { openings, values }
}

/// The place of the first byte, from 0, at which a text has more openings or values than a text of its length may have.
///
/// A text with few signs, in strings or outside of them, is not too dense. That is seen in much less time than where its
/// strings stand, and most texts are such, since base64 has no signs.
pub(crate) fn too_dense(text: &[u8]) -> Option<u64>
    ensures { result ≡ spec.too_dense text.now }
{
    let signs = all_signs(text);
    if signs.openings <= most_openings(text.len()) && signs.values <= most_values(text.len()) {
        return None;
    }
    first_past(text)
}
