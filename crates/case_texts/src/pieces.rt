//! The bytes that the lines of a text stand for.
use crate::fault::CaseFault;
use crate::frames::{Work, put_work, work_of};
use crate::names::Names;
use crate::page::Page;
use crate::sheet::{Sheet, between, rest_of, word_of};
use crate::words::{found_in, low_word, number_of};
use sb_model::{Bytes, Row};
use sha2::{Digest, Sha256};
use std::alloc::Global;

/// A bracket that is open, and where its bytes begin.
#[derive(Clone, Copy)]
struct Frame {
    work: Work,
    mark: usize,
    // how many numbers were counted before it
    counted: u64,
}

/// A text that is being put together.
#[derive(Drop)]
pub struct Writer {
    alloc: Global,
    page: Page,
    frames: Row<Frame>,
    // the running number, and how many were counted
    number: u64,
    counted: u64,
    // the number of the round
    cut: usize,
    fronts: usize,
}

/// What a piece does with the running number.
#[derive(Clone, Copy)]
enum Counting {
    From,
    Decimal,
    Hex,
    Bytes,
}

const COUNTINGS: [(&[u8], Counting); 4] = [
    (b"from", Counting::From),
    (b"decimal", Counting::Decimal),
    (b"hex", Counting::Hex),
    (b"bytes", Counting::Bytes),
];

/// The bytes with which pieces begin.
const PIECES: [u8; 9] = *b"|:~=@%&()";

/// Whether a line is a piece of a text.
pub fn is_piece(line: &[u8]) -> bool {
    match line.first() {
        Some(first) => PIECES.contains(first),
        None => false,
    }
}

/// Whether a line says nothing: it is empty, or a comment.
pub fn is_blank(line: &[u8]) -> bool {
    line.is_empty() || line.starts_with(b"--")
}

impl Writer {
    pub fn new(alloc: Global, cut: usize) -> Self {
        Writer {
            alloc,
            page: Page::new(alloc),
            frames: Row::new(alloc),
            number: 0,
            counted: 0,
            cut,
            fronts: 0,
        }
    }

    /// Writes the text of a field: its first piece, which may be empty and stands in the field's line, and the pieces below.
    pub fn write(&mut self, sheet: &Sheet, names: &Names, first: &[u8], line: usize) {
        let mut at = line.saturating_add(1);
        if !first.is_empty() {
            at = self.take(names, first, line);
        }
        for _ in 0..u64::MAX {
            if self.ends_at(sheet, at) {
                break;
            }
            at = self.take(names, sheet.line(at), at);
        }
        if !self.frames.is_empty() {
            self.page.faults.line(line);
        }
    }

    /// Whether a line is no further piece of the text.
    fn ends_at(&self, sheet: &Sheet, at: usize) -> bool {
        let piece = sheet.line(at);
        at >= sheet.len() || !self.page.faults.is_none() || !(is_piece(piece) || is_blank(piece))
    }

    /// How many bytes the longest text has whose each byte has a round.
    pub fn fronts(&self) -> usize {
        self.fronts
    }

    /// The bytes, if each piece was of one of the forms.
    pub fn into_bytes(self) -> Result<Bytes, CaseFault> {
        let Self { page, .. } = self;
        page.into_bytes()
    }

    /// Takes the piece in a line, and says which line comes next.
    fn take(&mut self, names: &Names, piece: &[u8], line: usize) -> usize {
        let rest = between(piece, 1, piece.len());
        match piece.first() {
            Some(b'(') => self.open(rest, line),
            Some(b')') => return self.close(line),
            Some(b'%') => self.count(rest, line),
            Some(b'=') => self.put_hex(rest, line),
            Some(b'@') => self.put_named(names, rest, line),
            Some(b'&') => self.put_expression(rest),
            Some(first) if !is_blank(piece) => self.put_line(*first, rest, line),
            _ => {}
        }
        line.saturating_add(1)
    }

    /// Appends a piece that is a text.
    fn put_line(&mut self, first: u8, rest: &[u8], line: usize) {
        let end: &[u8] = match first {
            b':' => b"",
            b'|' => b"\n",
            b'~' => b"\r\n",
            _ => return self.page.faults.line(line),
        };
        self.page.put(rest);
        self.page.put(end);
    }

    /// Appends the text of a name.
    fn put_named(&mut self, names: &Names, name: &[u8], line: usize) {
        match names.find(name) {
            Some(text) => self.page.put(text),
            None => self.page.faults.line(line),
        }
    }

    /// Appends the line that is shown of an expression.
    fn put_expression(&mut self, expression: &[u8]) {
        self.page.put(b"  ");
        self.page
            .put_text(hex::encode(self.alloc, &Sha256::digest(expression)));
        self.page.put(b" ");
        self.page.put(expression);
        self.page.put(b"\n");
    }

    /// Appends the bytes of a text in hexadecimal, which single spaces may part.
    fn put_hex(&mut self, text: &[u8], line: usize) {
        let mut rest = text;
        for _ in 0..text.len() {
            if rest.is_empty() {
                break;
            }
            self.put_hex_word(word_of(rest), line);
            rest = rest_of(rest);
        }
    }

    fn put_hex_word(&mut self, word: &[u8], line: usize) {
        match hex::decode(self.alloc, word) {
            Ok(bytes) => self.page.put(bytes.as_slice()),
            Err(_) => self.page.faults.line(line),
        }
    }

    fn push(&mut self, frame: Frame) {
        let done = self.frames.push(frame);
        self.page.faults.note(done);
    }

    fn open(&mut self, text: &[u8], line: usize) {
        let mark = self.page.bytes.len();
        let counted = self.counted;
        match work_of(text, line) {
            Some(work) => self.push(Frame {
                work,
                mark,
                counted,
            }),
            None => self.page.faults.line(line),
        }
    }

    /// Closes the last bracket, and says which line comes next.
    fn close(&mut self, line: usize) -> usize {
        let next = line.saturating_add(1);
        match self.frames.pop() {
            Some(frame) => self.end_frame(frame, next),
            None => {
                self.page.faults.line(line);
                next
            }
        }
    }

    /// Ends what stands in a bracket, and says which line comes next, if it is not to stand once more.
    fn end_frame(&mut self, frame: Frame, next: usize) -> usize {
        match frame.work {
            Work::Repeat { more, line } => self.end_round(frame, more, line, next),
            _ => {
                self.finish(frame);
                next
            }
        }
    }

    /// Ends what is to stand so many times more, from a line on. It is copied if it counts no numbers.
    fn end_round(&mut self, frame: Frame, more: u64, line: usize, next: usize) -> usize {
        if self.counted == frame.counted {
            self.repeat(frame.mark, more);
            return next;
        }
        if more == 0 {
            return next;
        }
        self.push(Frame {
            work: Work::Repeat {
                more: more.saturating_sub(1),
                line,
            },
            mark: frame.mark,
            counted: frame.counted,
        });
        line
    }

    /// The bytes from a place on.
    fn inner(&mut self, mark: usize) -> Bytes {
        let all = self.page.bytes.as_slice();
        match Bytes::from_slice(self.alloc, between(all, mark, all.len())) {
            Ok(inner) => inner,
            Err(_) => {
                self.page.faults.refused();
                Bytes::new(self.alloc)
            }
        }
    }

    /// Appends the bytes from a place on so many times more.
    fn repeat(&mut self, mark: usize, more: u64) {
        let inner = self.inner(mark);
        for _ in 0..more {
            self.page.put(inner.as_slice());
        }
    }

    /// Puts what a bracket makes in the place of its bytes.
    fn finish(&mut self, frame: Frame) {
        let inner = self.inner(frame.mark);
        if matches!(frame.work, Work::EachFront | Work::EachBit) {
            self.fronts = self.fronts.max(inner.len());
        }
        self.page.bytes.truncate(frame.mark);
        put_work(
            self.alloc,
            &mut self.page,
            frame.work,
            inner.as_slice(),
            self.cut,
        );
    }

    /// Appends running numbers in one of their forms, or sets the number.
    fn count(&mut self, text: &[u8], line: usize) {
        let counting = found_in(&COUNTINGS, word_of(text));
        match (counting, number_of(rest_of(text))) {
            (Some(Counting::From), Some(number)) => self.number = number,
            (Some(Counting::Bytes), Some(count)) => self.put_numbers(count),
            (Some(Counting::Decimal), None) => self.put_decimal(),
            (Some(Counting::Hex), None) => self.put_number_in_hex(),
            _ => self.page.faults.line(line),
        }
    }

    fn put_decimal(&mut self) {
        self.page.put_number(self.number);
        self.step();
    }

    fn put_number_in_hex(&mut self) {
        let bytes = low_bytes(self.number);
        self.page.put_text(hex::encode(self.alloc, &bytes));
        self.step();
    }

    /// Appends so many running numbers, each in four bytes.
    fn put_numbers(&mut self, count: u64) {
        for _ in 0..count {
            self.page.put(&low_bytes(self.number));
            self.step();
        }
    }

    fn step(&mut self) {
        self.number = self.number.saturating_add(1);
        self.counted = self.counted.saturating_add(1);
    }
}

/// The lowest 32 bits of a number, the highest byte first.
fn low_bytes(number: u64) -> [u8; 4] {
    low_word(number).to_be_bytes()
}
