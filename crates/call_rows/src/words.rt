//! Words and numbers of a line.

/// The bytes from one place to another, as far as there are such.
fn between(bytes: &[u8], from: usize, to: usize) -> &[u8] {
    let end = to.min(bytes.len());
    let start = from.min(end);
    &bytes[start..end]
}

/// How many bytes stand before the first such byte.
fn len_before(text: &[u8], at: u8) -> usize {
    match text.iter().position(|byte| *byte == at) {
        Some(place) => place,
        None => text.len(),
    }
}

/// What stands before the first such byte, and what stands after it. Without one, all stands before it.
pub fn cut(text: &[u8], at: u8) -> (&[u8], &[u8]) {
    let place = len_before(text, at);
    let after = between(text, place.saturating_add(1), text.len());
    (between(text, 0, place), after)
}

/// A number in decimal digits. It is the greatest where it is too great.
pub fn number(text: &[u8]) -> u64 {
    let mut number: u64 = 0;
    for byte in text {
        let digit = u64::from(byte.saturating_sub(b'0'));
        number = number.saturating_mul(10).saturating_add(digit);
    }
    number
}

/// The lowest 32 bits of a number.
pub fn low_word(text: &[u8]) -> u32 {
    (number(text) & 0xffff_ffff) as u32
}

/// The lowest eight bits of a number.
pub fn low_byte(text: &[u8]) -> u8 {
    (number(text) & 0xff) as u8
}
