//! Prefixes of four bytes in rising order, by their big-endian numbers.
ghost use Rattle.std.specs.Prelude.{◌≡◌, ◌*◌, ◌%◌, ◌≤◌, ◌↔◌, ◌<◌, length, take, map, All, IsTrue, IfOk, OnOk, OnErr};
ghost use Rattle.std.specs.Vec.{vec_len};
ghost use Rattle.std.specs.Int.{w32, from_be_bytes, to_be_bytes};
ghost use Rattle.std.specs.declared.cmp.Ordering.TheVariants.{Less};
ghost use Rattle.sb_model.specs.Prefixes.{bytes_cmp, IsRising, set_of, concatenation};
ghost use Rattle.prefix_set.specs.Pieces.{pieces_of};

use sb_model::OutOfMemory;
use std::alloc::Global;
use std::cmp::Ordering;

/// Whether a byte string comes before another.
#[inline]
pub(crate) fn precedes(first: &[u8], second: &[u8]) -> bool
    ensures { IsTrue result ↔ (bytes_cmp first.now second.now ≡ Less) }
{
    first.cmp(second) == Ordering::Less
}

// Whether one comes before the other: big-endian numbers have the order of their bytes.
#[inline(always)]
fn comes_before(first: &[u8; 4], second: &[u8; 4]) -> bool
    ensures { IsTrue result ↔ (bytes_cmp first.now second.now ≡ Less) }
{
    u32::from_be_bytes(*first) < u32::from_be_bytes(*second)
}

/// The order of two strings of four bytes: big-endian numbers have the order of their bytes.
#[inline(always)]
pub(crate) fn compare_quad(first: &[u8; 4], second: &[u8; 4]) -> Ordering
    ensures { result ≡ bytes_cmp first.now second.now }
{
    u32::from_be_bytes(*first).cmp(&u32::from_be_bytes(*second))
}

/// Whether these prefixes rise already.
pub(crate) fn quads_rise(quads: &[[u8; 4]]) -> bool
    ensures { IsTrue result ↔ IsRising quads.now }
{
    for i in 1..quads.len() {
        if !comes_before(&quads[i - 1], &quads[i]) {
            return false;
        }
    }
    true
}

// The big-endian numbers of these prefixes.
fn numbers_of(alloc: Global, quads: &[[u8; 4]]) -> Result<Vec<u32>, OutOfMemory>
    ensures { IfOk result (λ numbers. numbers.items ≡ map (from_be_bytes w32) quads.now) }
{
    let mut numbers = Vec::with_capacity(alloc, quads.len())?;
    for quad in quads {
        numbers.push(u32::from_be_bytes(*quad))?;
    }
    Ok(numbers)
}

// Writes the bytes of the numbers to the front of a block.
fn put_numbers(block: &mut [u8], numbers: &[u32])
    requires { 4 * length numbers.now ≤ length block.old }
    ensures { take (4 * length numbers.now) block.new
        ≡ concatenation (map (to_be_bytes w32) numbers.now) }
{
    let mut used = 0;
    for number in numbers {
        block[used..used + 4].copy_from_slice(&number.to_be_bytes());
        used += 4;
    }
}

// Has the bytes of the numbers stand where longer ones stood.
fn rewrite(bytes: &mut Vec<u8>, numbers: &[u32])
    requires { 4 * length numbers.now ≤ vec_len bytes.old }
    ensures { bytes.new.items ≡ concatenation (map (to_be_bytes w32) numbers.now) }
{
    put_numbers(bytes.as_mut_slice(), numbers);
    bytes.truncate(4 * numbers.len());
}

/// The prefixes of four bytes that stand one after the other in a string.
pub(crate) fn quads_of(bytes: &[u8]) -> &[[u8; 4]]
    ensures value { result.now ≡ pieces_of 4 bytes.now }
    ensures bytes { All (λ byte. byte < 256) bytes.now }
{
    bytes.as_chunks::<4>().0
}

/// Puts prefixes of four bytes, one after the other, into rising order without repeats. After an
/// `Err` they stand as they were.
pub(crate) fn sort_quads(alloc: Global, bytes: &mut Vec<u8>) -> Result<(), OutOfMemory>
    ensures ok { OnOk result
        (bytes.new.items ≡ concatenation (set_of (pieces_of 4 bytes.old.items))) }
    ensures err { OnErr result (bytes.new.items ≡ bytes.old.items) }
{
    let mut numbers = numbers_of(alloc, quads_of(bytes))?;
    numbers.sort_unstable();
    numbers.dedup();
    rewrite(bytes, &numbers);
    Ok(())
}
