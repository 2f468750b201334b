use sb_model::{Bytes, OutOfMemory};
use std::alloc::Global;

/// A step: its name, what follows that, and the words that stand before what it comes to.
#[derive(Clone, Copy)]
pub(crate) struct Step<'a> {
    pub(crate) name: &'a str,
    args: &'a str,
    pub(crate) words: &'a str,
}

/// A text before the first blank, and behind it.
fn parted(text: &str) -> (&str, &str) {
    match text.split_once(' ') {
        Some(parts) => parts,
        None => (text, ""),
    }
}

impl<'a> Step<'a> {
    pub(crate) fn of(line: &'a str) -> Step<'a> {
        let (order, words) = match line.split_once(" : ") {
            Some(parts) => parts,
            None => (line, ""),
        };
        let (name, args) = parted(order);
        Step { name, args, words }
    }

    /// What stands behind its name and so many words.
    pub(crate) fn text(&self, place: usize) -> &'a str {
        let mut text = self.args;
        for _ in 0..place {
            text = parted(text).1;
        }
        text
    }

    /// The word at a place behind its name.
    pub(crate) fn word(&self, place: usize) -> &'a str {
        parted(self.text(place)).0
    }

    /// The number at a place behind its name, or 0.
    pub(crate) fn number(&self, place: usize) -> u64 {
        self.word(place).parse::<u64>().unwrap_or(0)
    }

    /// The number of a peer at a place behind its name. A peer that cannot be has the highest.
    pub(crate) fn peer(&self, place: usize) -> u8 {
        self.word(place).parse::<u8>().unwrap_or(u8::MAX)
    }
}

/// The byte that a letter behind a backslash stands for.
fn escaped(letter: u8) -> u8 {
    match letter {
        b'r' => b'\r',
        b'n' => b'\n',
        b's' => b' ',
        other => other,
    }
}

/// The bytes that a text stands for: `\r`, `\n`, `\s` for a blank, and others as they are.
pub(crate) fn bytes_of(alloc: Global, text: &str) -> Result<Bytes, OutOfMemory> {
    let mut bytes = Bytes::new(alloc);
    let mut is_escaped = false;
    for byte in text.as_bytes() {
        if is_escaped {
            bytes.push(escaped(*byte))?;
            is_escaped = false;
        } else if *byte == b'\\' {
            is_escaped = true;
        } else {
            bytes.push(*byte)?;
        }
    }
    Ok(bytes)
}
