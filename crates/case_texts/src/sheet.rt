//! The text of all cases, and which of its lines belong together.
use crate::book::Reader;
use sb_model::{Bytes, Row};

/// Where a line or a word begins, and where it ends.
#[derive(Clone, Copy)]
pub struct Part {
    pub from: usize,
    pub to: usize,
}

/// A text, cut into lines. Lines are counted from 0.
#[derive(Drop)]
pub struct Sheet {
    text: Bytes,
    lines: Row<Part>,
}

/// Lines that stand together: from the first on, up to the one that is none of them.
#[derive(Clone, Copy)]
pub struct Span {
    pub from: usize,
    pub to: usize,
}

/// The lines in which the fields of a run stand: its own, those of the runs before it in its case, and those under
/// the heading of its group.
#[derive(Clone, Copy)]
pub struct Scope {
    pub own: Span,
    pub before: Span,
    pub group: Span,
}

impl Sheet {
    pub fn new(reader: &mut Reader, text: Bytes) -> Self {
        let lines = parts_of(reader, text.as_slice(), b'\n');
        Sheet { text, lines }
    }

    /// How many lines there are.
    pub fn len(&self) -> usize {
        self.lines.len()
    }

    /// The line with this number, without its newline. It is empty where there is none.
    pub fn line(&self, number: usize) -> &[u8] {
        match self.lines.as_slice().get(number) {
            Some(part) => between(self.text.as_slice(), part.from, part.to),
            None => &[],
        }
    }

    /// What stands after the first space of a line.
    pub fn rest(&self, number: usize) -> &[u8] {
        rest_of(self.line(number))
    }
}

/// The parts of a text, which are parted by single bytes of this kind.
pub fn parts_of(reader: &mut Reader, text: &[u8], mark: u8) -> Row<Part> {
    let mut parts = Row::new(reader.alloc);
    let mut from = 0;
    for (at, byte) in text.iter().enumerate() {
        if *byte == mark {
            push_part(reader, &mut parts, from, at);
            from = at.saturating_add(1);
        }
    }
    push_part(reader, &mut parts, from, text.len());
    parts
}

fn push_part(reader: &mut Reader, parts: &mut Row<Part>, from: usize, to: usize) {
    let done = parts.push(Part { from, to });
    reader.faults.note(done);
}

/// The bytes from one place to another, as far as there are such.
pub fn between(bytes: &[u8], from: usize, to: usize) -> &[u8] {
    let end = to.min(bytes.len());
    let start = from.min(end);
    &bytes[start..end]
}

/// How many bytes stand before the first space.
fn word_len(line: &[u8]) -> usize {
    for (at, byte) in line.iter().enumerate() {
        if *byte == b' ' {
            return at;
        }
    }
    line.len()
}

/// The first word of a line.
pub fn word_of(line: &[u8]) -> &[u8] {
    between(line, 0, word_len(line))
}

/// What stands after the first space.
pub fn rest_of(line: &[u8]) -> &[u8] {
    between(line, word_len(line).saturating_add(1), line.len())
}
