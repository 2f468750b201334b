//! Numbers and words of a line.
use crate::book::Reader;
use crate::sheet::{between, parts_of};
use sb_model::{Bytes, OutOfMemory, Row};
use std::alloc::Global;

/// What a table has for a word.
pub fn found_in<T: Copy>(table: &[(&[u8], T)], word: &[u8]) -> Option<T> {
    for (name, item) in table {
        if word == *name {
            return Some(*item);
        }
    }
    None
}

/// A number in decimal digits.
pub fn number_of(text: &[u8]) -> Option<u64> {
    if text.is_empty() {
        return None;
    }
    let mut number = Some(0);
    for byte in text {
        number = with_digit(number, *byte);
    }
    number
}

/// The number with one more digit.
fn with_digit(number: Option<u64>, byte: u8) -> Option<u64> {
    if !byte.is_ascii_digit() {
        return None;
    }
    let digit = u64::from(byte).saturating_sub(48);
    number?.checked_mul(10)?.checked_add(digit)
}

/// The numbers of a line, which single spaces part.
pub fn numbers_of(reader: &mut Reader, text: &[u8], line: usize) -> Row<u64> {
    let mut numbers = Row::new(reader.alloc);
    for part in parts_of(reader, text, b' ').iter() {
        match number_of(between(text, part.from, part.to)) {
            Some(number) => push_number(reader, &mut numbers, number),
            None => reader.faults.line(line),
        }
    }
    numbers
}

fn push_number(reader: &mut Reader, numbers: &mut Row<u64>, number: u64) {
    let done = numbers.push(number);
    reader.faults.note(done);
}

/// The words of a line, which single spaces part. The empty text has none.
pub fn words_of(reader: &mut Reader, text: &[u8], line: usize) -> Row<String> {
    let mut words = Row::new(reader.alloc);
    if text.is_empty() {
        return words;
    }
    for part in parts_of(reader, text, b' ').iter() {
        push_word(reader, &mut words, between(text, part.from, part.to), line);
    }
    words
}

/// Appends a word of a command line.
fn push_word(reader: &mut Reader, words: &mut Row<String>, text: &[u8], line: usize) {
    match word(reader.alloc, text) {
        Ok(Some(word)) => {
            let done = words.push(word);
            reader.faults.note(done);
        }
        Ok(None) => reader.faults.line(line),
        Err(OutOfMemory) => reader.faults.refused(),
    }
}

/// A word of a command line, if it is UTF-8. Two quotation marks stand for an empty one.
fn word(alloc: Global, text: &[u8]) -> Result<Option<String>, OutOfMemory> {
    if text == b"\"\"".as_slice() {
        return Ok(Some(String::new(alloc)));
    }
    let bytes = Bytes::from_slice(alloc, text)?;
    Ok(String::from_utf8(bytes.into_vec()).ok())
}

/// The number as a size, or the greatest one.
pub fn size_of_number(number: u64) -> usize {
    match usize::try_from(number) {
        Ok(size) => size,
        Err(_) => usize::MAX,
    }
}

/// The lowest 32 bits of a number.
pub fn low_word(number: u64) -> u32 {
    (number & 0xffff_ffff) as u32
}
