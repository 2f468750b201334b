ghost use Rattle.std.specs.Prelude.{◌≡◌, ℕ, ◌*◌, ◌+◌, ◌-◌, ◌^◌, ◌<◌, ◌≤◌, ◌/◌, ◌%◌, List, ◌++◌, ◌∷◌, [], length, min, position, true, Some, IfSome, IsErrOf, IfOk, IfErr, OnOk, OnErr, Ok, decimal};
ghost use Rattle.std.specs.Option.{option_map};
ghost use Rattle.std.specs.Char.{is_ascii_digit};
ghost use Rattle.std.specs.List.{list_all};
ghost use Rattle.std.specs.Str.Parse.{digits_value};
ghost use Rattle.sb_model.specs.Time.{is_point, at_point, before_unit, number_in, seconds_in, fraction_in, duration_within, nanos_of_parts, nanos_in, duration_of, duration_text, nanos_text, padded, wait_of, cache_of, later_than, WritesNanos};

use crate::{Bytes, Duration, DurationFault, Moment, OutOfMemory};
use itoa::Buffer;
use std::alloc::Global;

/// What stands before a last `s`.
fn without_unit(text: &[u8]) -> Option<&[u8]>
    ensures { option_map (λ body. body.now) result ≡ before_unit text.now }
{
    let (last, body) = text.split_last()?;
    if *last == b's' { Some(body) } else { None }
}

/// The place of the first point.
fn point_in(body: &[u8]) -> Option<usize>
    ensures { result ≡ position is_point body.now }
{
    body.iter().position(|byte| *byte == b'.')
}

/// What stands before the first point, and after it, if there is one.
fn split_at_point(body: &[u8]) -> (&[u8], Option<&[u8]>)
    ensures before { result.0.now ≡ (at_point body.now).0 }
    ensures after { option_map (λ rest. rest.now) result.1 ≡ (at_point body.now).1 }
{
    match point_in(body) {
        Some(place) => (&body[..place], Some(&body[place + 1..])),
        None => (body, None),
    }
}

/// Whether all bytes are decimal digits.
fn are_digits(bytes: &[u8]) -> bool
    ensures { result ≡ list_all is_ascii_digit bytes.now }
{
    bytes.iter().all(u8::is_ascii_digit)
}

/// The number that digits write, or the greatest u64 where it is greater.
#[tactic(auto, using(crate::proofs::Numerals::value_more))]
fn value_of(digits: &[u8]) -> u64
    requires { list_all is_ascii_digit digits.now ≡ true }
    ensures value { result ≡ min (digits_value 10 digits.now) (2 ^ 64 - 1) }
    ensures below { result < 10 ^ length digits.now }
{
    let mut number = 0u64;
    for digit in digits {
        number = number
            .saturating_mul(10)
            .saturating_add(u64::from(digit.saturating_sub(b'0')));
    }
    number
}

/// The number that digits write, or the greatest u64 where it is greater.
fn read_number(digits: &[u8]) -> Option<u64>
    ensures value { result ≡ option_map (λ number. min number (2 ^ 64 - 1)) (number_in digits.now) }
    ensures below { IfSome result (λ number. number < 10 ^ length digits.now) }
{
    if are_digits(digits) {
        return Some(value_of(digits));
    }
    None
}

/// The seconds of at least one digit.
fn read_seconds(digits: &[u8]) -> Option<u64>
    ensures { result ≡ option_map (λ number. min number (2 ^ 64 - 1)) (seconds_in digits.now) }
{
    if digits.is_empty() {
        return None;
    }
    read_number(digits)
}

/// A fraction of so many digits in nanoseconds.
fn scaled(number: u64, digits: usize) -> u32
    requires few { digits ≤ 9 }
    requires below { number < 10 ^ digits }
    ensures value { result ≡ number * 10 ^ (9 - digits) }
    ensures below { result < 1_000_000_000 }
{
    let mut nanos = number;
    for _place in digits..9 {
        nanos *= 10;
    }
    nanos as u32
}

/// The nanoseconds of a fraction of one to nine digits, and none where there is no point.
fn read_fraction(fraction: Option<&[u8]>) -> Option<u32>
    ensures value { result ≡ fraction_in (option_map (λ digits. digits.now) fraction.entry) }
    ensures below { IfSome result (λ nanos. nanos < 1_000_000_000) }
{
    let Some(digits) = fraction else {
        return Some(0);
    };
    if digits.is_empty() || digits.len() > 9 {
        return None;
    }
    let number = read_number(digits)?;
    Some(scaled(number, digits.len()))
}

/// The duration of these seconds, which stand still at the greatest u64, and nanoseconds.
fn within_range(seconds: u64, nanos: u32) -> Result<Duration, DurationFault>
    requires { nanos < 1_000_000_000 }
    ensures { (number : ℕ) → seconds ≡ min number (2 ^ 64 - 1)
        → result ≡ duration_within (Some (number * 1_000_000_000 + nanos)) }
{
    const MOST: u64 = 315_576_000_000;
    if seconds > MOST || (seconds == MOST && nanos > 0) {
        return Err(DurationFault::Range);
    }
    Ok(Duration::new(seconds, nanos))
}

/// Reads a duration: one or more digits, then optionally a point and one to nine digits, then `s`.
/// `Shape` comes exactly where the text is not of this form, and `Range` where it is and stands for
/// more than 315,576,000,000 seconds.
pub fn read_duration(text: &[u8]) -> Result<Duration, DurationFault>
    ensures { result ≡ duration_of text.now }
{
    let Some(body) = without_unit(text) else {
        return Err(DurationFault::Shape);
    };
    let (whole, fraction) = split_at_point(body);
    let Some(seconds) = read_seconds(whole) else {
        return Err(DurationFault::Shape);
    };
    let Some(nanos) = read_fraction(fraction) else {
        return Err(DurationFault::Shape);
    };
    within_range(seconds, nanos)
}

/// Appends a number of at most so many digits in so many, with zeros in front.
fn push_padded(text: &mut Bytes, size: usize, number: u32) -> Result<(), OutOfMemory>
    requires some { 0 < size }
    requires fits { number < 10 ^ size }
    ensures { OnOk result (text.new ≡ text.old ++ padded size number) }
{
    let mut buffer = Buffer::new();
    let digits = buffer.format(number).as_bytes();
    for _place in digits.len()..size {
        text.push(b'0')?;
    }
    text.append(digits)
}

/// Appends a point and 3, 6 or 9 digits, the least that show the nanoseconds, or nothing for none.
fn push_nanos(text: &mut Bytes, nanos: u32) -> Result<(), OutOfMemory>
    requires { nanos < 1_000_000_000 }
    ensures { OnOk result (text.new ≡ text.old ++ nanos_text nanos) }
{
    if nanos == 0 {
        return Ok(());
    }
    text.push(b'.')?;
    if nanos % 1_000_000 == 0 {
        push_padded(text, 3, nanos / 1_000_000)
    } else if nanos % 1000 == 0 {
        push_padded(text, 6, nanos / 1000)
    } else {
        push_padded(text, 9, nanos)
    }
}

/// Writes a duration: the seconds without leading zeros, then nothing or a point and 3, 6 or 9
/// digits, the least that show the nanoseconds, then `s`. `read_duration` reads it again.
pub fn write_duration(alloc: Global, duration: Duration) -> Result<Bytes, OutOfMemory>
    ensures value { IfOk result (λ text. text ≡ duration_text duration) }
    ensures read_again { IfOk result (λ text. duration_of text ≡ Ok duration) }
{
    let mut text = Bytes::new(alloc);
    text.append_decimal(duration.seconds())?;
    push_nanos(&mut text, duration.nanos())?;
    text.push(b's')?;
    Ok(text)
}

/// A duration in milliseconds, rounded up.
pub fn wait_ms(duration: Duration) -> u64
    ensures { result ≡ wait_of duration }
{
    duration.seconds() * 1000 + u64::from(duration.nanos().div_ceil(1_000_000))
}

/// A duration in milliseconds, rounded down.
pub fn cache_ms(duration: Duration) -> u64
    ensures { result ≡ cache_of duration }
{
    duration.seconds() * 1000 + u64::from(duration.nanos() / 1_000_000)
}

/// The moment so many milliseconds later, at most the greatest one.
pub fn later(at: Moment, ms: u64) -> Moment
    ensures { result ≡ later_than at ms }
{
    Moment(at.0.saturating_add(ms))
}
