//! The words of a step.
use sb_model::{Bytes, OutOfMemory};
use std::alloc::Global;

/// The first word of a line, and what stands after the space behind it.
pub(crate) fn cut(line: &str) -> (&str, &str) {
    match line.split_once(' ') {
        Some((word, rest)) => (word, rest),
        None => (line, ""),
    }
}

/// A number in decimal, 0 where there is none.
pub(crate) fn number_of(text: &str) -> u64 {
    text.parse::<u64>().unwrap_or(0)
}

/// The byte that a letter behind a backslash stands for.
fn escaped(letter: u8) -> u8 {
    match letter {
        b'r' => b'\r',
        b'n' => b'\n',
        b's' => b' ',
        other => other,
    }
}

/// The bytes that a text stands for: `\r`, `\n`, `\s` for a blank, and others as they are.
pub(crate) fn bytes_of(alloc: Global, text: &str) -> Result<Bytes, OutOfMemory> {
    let mut bytes = Bytes::new(alloc);
    let mut is_escaped = false;
    for byte in text.as_bytes() {
        if is_escaped {
            bytes.push(escaped(*byte))?;
            is_escaped = false;
        } else if *byte == b'\\' {
            is_escaped = true;
        } else {
            bytes.push(*byte)?;
        }
    }
    Ok(bytes)
}
