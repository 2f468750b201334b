//! The words of a step, and the texts that they stand for.
use sb_model::{Bytes, OutOfMemory};
use std::alloc::Global;

/// The first word of a line, and what stands after the space behind it.
pub(crate) fn cut(line: &str) -> (&str, &str) {
    match line.split_once(' ') {
        Some((word, rest)) => (word, rest),
        None => (line, ""),
    }
}

/// A number in decimal, 0 where there is none.
pub(crate) fn number_of(text: &str) -> u64 {
    text.parse::<u64>().unwrap_or(0)
}

/// A number as a size, the greatest where it is none.
pub(crate) fn size_of(text: &str) -> usize {
    usize::try_from(number_of(text)).unwrap_or(usize::MAX)
}

/// The bytes that a text of a step stands for.
pub(crate) fn text_of(alloc: Global, text: &str) -> Result<Bytes, OutOfMemory> {
    let (word, rest) = cut(text);
    match word.as_bytes() {
        b"many" => many(alloc, rest),
        b"numbered" => numbered(alloc, number_of(rest)),
        _ => Bytes::from_slice(alloc, text.as_bytes()),
    }
}

/// So many times one character.
fn many(alloc: Global, text: &str) -> Result<Bytes, OutOfMemory> {
    let (count, which) = cut(text);
    let byte = which.as_bytes().first().copied().unwrap_or(b'x');
    Ok(Bytes::from_vec(Vec::from_elem(alloc, byte, size_of(count))?))
}

/// The numbers from 0 on, so many of them, each in four bytes.
fn numbered(alloc: Global, count: u64) -> Result<Bytes, OutOfMemory> {
    let mut bytes = Bytes::new(alloc);
    for number in 0..count {
        let low = (number & 0xffff_ffff) as u32;
        bytes.append(&low.to_be_bytes())?;
    }
    Ok(bytes)
}
