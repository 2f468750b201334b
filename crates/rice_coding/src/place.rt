ghost use Rattle.std.specs.Prelude.{◌≡◌, ℕ, ◌-◌, ◌^◌, ◌/◌, ◌<◌, ◌≤◌, Bool, List, length, min, IfSome, IfNone, Some, None};
ghost use Rattle.rice_coding.specs.Bits.{bits_from};
ghost use Rattle.rice_coding.specs.Reading.{delta_at};

use crate::cursor::{Cursor, remaining, take_code, window};
use crate::window::code_in;

/// The number of a bit of a byte string. It costs less to move on than a cursor does.
#[derive(Clone, Copy)]
pub struct Place<'a> {
    pub bytes: &'a [u8],
    pub bit: usize,
    ghost within: { bit / 8 ≤ length bytes.now },
}

/// The same place as a cursor.
#[inline]
pub fn cursor_at(at: Place) -> Cursor
    ensures { bits_from result.bytes.now result.offset ≡ bits_from at.entry.bytes.now at.entry.bit }
{
    Cursor {
        bytes: &at.bytes[at.bit / 8..],
        offset: (at.bit % 8) as u32,
    }
}

/// How many bits there are from here on. At 2 ^ 64 and more it is `u64::MAX`.
pub fn bits_left(at: Place) -> u64
    ensures { result ≡ min (length (bits_from at.entry.bytes.now at.entry.bit)) (2 ^ 64 - 1) }
{
    remaining(cursor_at(at))
}

/// The delta whose code is next, and the place after the code, where the code stands whole in one
/// window.
#[inline]
fn take_short_code(at: Place, parameter: u32) -> Option<(u64, Place)>
    requires few { parameter ≤ 28 }
    ensures read { IfSome result (λ found. delta_at parameter (bits_from at.entry.bytes.now at.entry.bit)
        ≡ Some (found.0, bits_from found.1.bytes.now found.1.bit)) }
    ensures small { IfSome result (λ found. found.0 < 2 ^ 34) }
{
    let near = cursor_at(at);
    if near.bytes.len() < 8 {
        return None;
    }
    let code = code_in(window(near), 57, parameter)?;
    let bit = at.bit.checked_add(code.length as usize)?;
    Some((
        code.delta,
        Place {
            bytes: at.bytes,
            bit,
        },
    ))
}

/// Two deltas, one after the other.
#[derive(Clone, Copy)]
pub struct Pair<'a> {
    pub first: u64,
    pub second: u64,
    /// The place after their codes.
    pub after: Place<'a>,
}

/// The two deltas whose codes are next, where both codes stand whole in one window.
#[inline]
pub fn take_pair(at: Place, parameter: u32) -> Option<Pair>
    requires few { parameter ≤ 28 }
    ensures read { IfSome result (λ pair. (between : List Bool)
        × (delta_at parameter (bits_from at.entry.bytes.now at.entry.bit) ≡ Some (pair.first, between))
        × (delta_at parameter between ≡ Some (pair.second, bits_from pair.after.bytes.now pair.after.bit))) }
    ensures small { IfSome result (λ pair. (pair.first < 2 ^ 34) × (pair.second < 2 ^ 34)) }
{
    let near = cursor_at(at);
    if near.bytes.len() < 8 {
        return None;
    }
    let word = window(near);
    let first = code_in(word, 57, parameter)?;
    let second = code_in(word >> first.length, 57 - first.length, parameter)?;
    let bit = at.bit.checked_add((first.length + second.length) as usize)?;
    Some(Pair {
        first: first.delta,
        second: second.delta,
        after: Place {
            bytes: at.bytes,
            bit,
        },
    })
}

/// The delta whose code is next, at most 2 ^ 34, and the place after the code.
#[inline]
pub fn take_delta(at: Place, parameter: u32) -> Option<(u64, Place)>
    requires some { 0 < parameter }
    requires few { parameter ≤ 28 }
    ensures none { IfNone result
        (delta_at parameter (bits_from at.entry.bytes.now at.entry.bit) ≡ None) }
    ensures some { IfSome result (λ found. (delta : ℕ)
        × (delta_at parameter (bits_from at.entry.bytes.now at.entry.bit)
        ≡ Some (delta, bits_from found.1.bytes.now found.1.bit))
        × (found.0 ≡ min delta (2 ^ 34))) }
{
    if let Some(found) = take_short_code(at, parameter) {
        return Some(found);
    }
    let (delta, after) = take_code(cursor_at(at), parameter)?;
    Some((
        delta,
        Place {
            bytes: after.bytes,
            bit: after.offset as usize,
        },
    ))
}
