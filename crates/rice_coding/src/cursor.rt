ghost use Rattle.std.specs.Prelude.{◌≡◌, ℕ, ◌+◌, ◌-◌, ◌*◌, ◌^◌, ◌<◌, ◌≤◌, ◌↔◌, ◌==◌, Bool, true, false, List, length, drop, min, slice_index_or, IsTrue, OnSome, IfSome, IfNone, Some, None, take};
ghost use Rattle.std.specs.Int.{bit_at};
ghost use Rattle.rice_coding.specs.Bits.{bits_of, bits_from, number_of_bits};
ghost use Rattle.rice_coding.specs.Reading.{unary, delta_at};

/// A place among the bits of a byte string.
#[derive(Clone, Copy)]
pub struct Cursor<'a> {
    /// The bytes from the one on in which the place lies.
    pub bytes: &'a [u8],
    /// How many bits of the first byte lie before the place.
    pub offset: u32,
    ghost in_byte: { offset < 8 },
}

/// The first eight bytes as a number, the lowest first. Where there are fewer, the others are zeros.
#[inline]
fn word_of(bytes: &[u8]) -> u64
    ensures { (i : ℕ) → i < 64 → slice_index_or (bits_of bytes.now) i false ≡ (bit_at result i == 1) }
{
    if let Some((chunk, _)) = bytes.split_first_chunk::<8>() {
        return u64::from_le_bytes(*chunk);
    }
    let mut chunk = [0u8; 8];
    for (i, byte) in bytes.iter().enumerate() {
        chunk[i] = *byte;
    }
    u64::from_le_bytes(chunk)
}

/// A number whose low 57 bits are the next ones, with zeros past the end.
#[inline]
pub fn window(at: Cursor) -> u64
    ensures { (i : ℕ) → i < 57
        → slice_index_or (bits_from at.entry.bytes.now at.entry.offset) i false ≡ (bit_at result i == 1) }
{
    word_of(at.bytes) >> at.offset
}

/// Whether there are this many bits more.
#[tactic(auto, using(crate::proofs::BitFacts::bit_lengths))]
fn has(at: Cursor, count: u32) -> bool
    requires some { 0 < count }
    requires few { count ≤ 64 }
    ensures { IsTrue result ↔ (count ≤ length (bits_from at.entry.bytes.now at.entry.offset)) }
{
    (at.offset + count).div_ceil(8) as usize <= at.bytes.len()
}

/// The place this many bits on.
#[inline]
fn skip(at: Cursor, count: u32) -> Cursor
    requires few { count ≤ 64 }
    requires there { count ≤ length (bits_from at.bytes.now at.offset) }
    ensures { bits_from result.bytes.now result.offset
        ≡ drop count (bits_from at.entry.bytes.now at.entry.offset) }
{
    let bit = at.offset + count;
    let whole = (bit / 8) as usize;
    Cursor {
        bytes: &at.bytes[whole..],
        offset: bit % 8,
    }
}

/// How many bits there are from here on. At 2 ^ 64 and more it is `u64::MAX`.
#[tactic(auto, using(crate::proofs::BitFacts::bit_lengths))]
pub fn remaining(at: Cursor) -> u64
    ensures { result ≡ min (length (bits_from at.entry.bytes.now at.entry.offset)) (2 ^ 64 - 1) }
{
    if at.bytes.is_empty() {
        return 0;
    }
    (at.bytes.len() as u64 - 1)
        .saturating_mul(8)
        .saturating_add(u64::from(8 - at.offset))
}

/// How many ones there are before the next zero, at most `u64::MAX`, and the place after the zero.
fn take_ones(at: Cursor) -> Option<(u64, Cursor)>
    ensures none { IfNone result (unary (bits_from at.entry.bytes.now at.entry.offset) ≡ None) }
    ensures some { IfSome result (λ found. (ones : ℕ)
        × (unary (bits_from at.entry.bytes.now at.entry.offset)
        ≡ Some (ones, bits_from found.1.bytes.now found.1.offset))
        × (found.0 ≡ min ones (2 ^ 64 - 1))) }
{
    let mut place = at;
    let mut total = 0u64;
    loop {
        let run = window(place).trailing_ones();
        if run < 57 {
            if !has(place, run + 1) {
                return None;
            }
            return Some((total.saturating_add(u64::from(run)), skip(place, run + 1)));
        }
        place = skip(place, 57);
        total = total.saturating_add(57);
    }
}

/// The number of this many bits, the lowest first, and the place after them.
fn take_number(at: Cursor, count: u32) -> Option<(u64, Cursor)>
    requires some { 0 < count }
    requires few { count ≤ 32 }
    ensures none { IfNone result (length (bits_from at.entry.bytes.now at.entry.offset) < count) }
    ensures long { OnSome result (count ≤ length (bits_from at.entry.bytes.now at.entry.offset)) }
    ensures number { IfSome result (λ found.
        found.0 ≡ number_of_bits (take count (bits_from at.entry.bytes.now at.entry.offset))) }
    ensures after { IfSome result (λ found. bits_from found.1.bytes.now found.1.offset
        ≡ drop count (bits_from at.entry.bytes.now at.entry.offset)) }
{
    if !has(at, count) {
        return None;
    }
    Some((window(at) & ((1 << count) - 1), skip(at, count)))
}

/// The delta whose code is next, at most 2 ^ 34, and the place after the code.
#[cold]
#[inline(never)]
pub fn take_code(at: Cursor, parameter: u32) -> Option<(u64, Cursor)>
    requires some { 0 < parameter }
    requires few { parameter ≤ 28 }
    ensures none { IfNone result
        (delta_at parameter (bits_from at.entry.bytes.now at.entry.offset) ≡ None) }
    ensures some { IfSome result (λ found. (delta : ℕ)
        × (delta_at parameter (bits_from at.entry.bytes.now at.entry.offset)
        ≡ Some (delta, bits_from found.1.bytes.now found.1.offset))
        × (found.0 ≡ min delta (2 ^ 34))) }
{
    let (quotient, at) = take_ones(at)?;
    let (low, at) = take_number(at, parameter)?;
    if quotient >> 34 != 0 {
        return Some((1 << 34, at));
    }
    Some((((quotient << parameter) + low).min(1 << 34), at))
}
