//! The cases of a text, with its named texts.
use crate::fault::FirstFault;
use crate::names::Names;
use crate::pieces::Writer;
use crate::sheet::Sheet;
use sb_model::Bytes;
use std::alloc::Global;

/// The lines of all cases, and the texts that have a name.
#[derive(Drop)]
pub struct Book {
    pub sheet: Sheet,
    pub names: Names,
}

/// Reads what a case says, in the round that has this number, counted from 0.
#[derive(Drop)]
pub struct Reader {
    pub alloc: Global,
    pub cut: usize,
    // how many rounds the longest text needs whose each byte has one
    fronts: usize,
    // whether a call was made that an `each` lets fail in this round, and whether one was not
    is_struck: bool,
    is_missed: bool,
    /// What was at fault. After a fault what is read lacks something.
    pub faults: FirstFault,
}

impl Reader {
    pub fn new(alloc: Global, cut: usize) -> Self {
        Reader {
            alloc,
            cut,
            fronts: 0,
            is_struck: false,
            is_missed: false,
            faults: FirstFault::none(),
        }
    }

    /// Notes that each of so many bytes has a round.
    pub fn note_length(&mut self, length: usize) {
        self.fronts = self.fronts.max(length);
    }

    /// Notes whether the call was made that an `each` lets fail in this round.
    pub fn note_call(&mut self, is_made: bool) {
        self.is_struck = self.is_struck || is_made;
        self.is_missed = self.is_missed || !is_made;
    }

    /// Whether what comes of this round is compared.
    pub fn is_compared(&self) -> bool {
        !self.is_missed
    }

    /// Whether there is a further round.
    pub fn goes_on(&self) -> bool {
        self.is_struck || self.cut.saturating_add(1) < self.fronts
    }

    /// The text of the field in a line.
    pub fn text(&mut self, book: &Book, line: usize) -> Bytes {
        self.text_at(&book.sheet, &book.names, book.sheet.rest(line), line)
    }

    /// The text of the pieces below a line.
    pub fn text_below(&mut self, book: &Book, line: usize) -> Bytes {
        self.text_at(&book.sheet, &book.names, &[], line)
    }

    /// The text of a field, or nothing where it is not given.
    pub fn text_or_nothing(&mut self, book: &Book, line: Option<usize>) -> Bytes {
        match line {
            Some(line) => self.text(book, line),
            None => Bytes::new(self.alloc),
        }
    }

    /// A text: its first piece, which may be empty and stands in a line, and the pieces below it.
    fn text_at(&mut self, sheet: &Sheet, names: &Names, first: &[u8], line: usize) -> Bytes {
        let mut writer = Writer::new(self.alloc, self.cut);
        writer.write(sheet, names, first, line);
        self.note_length(writer.fronts());
        match writer.into_bytes() {
            Ok(bytes) => bytes,
            Err(fault) => {
                self.faults.add(fault);
                Bytes::new(self.alloc)
            }
        }
    }

    /// The same bytes.
    pub fn copy_of(&mut self, bytes: &[u8]) -> Bytes {
        let mut copy = Bytes::new(self.alloc);
        let done = copy.append(bytes);
        self.faults.note(done);
        copy
    }
}

impl Book {
    /// A book of these lines. Texts are read in their order, so one may use those above it.
    pub fn new(reader: &mut Reader, sheet: Sheet) -> Self {
        let mut names = Names::new(reader.alloc);
        for line in 0..sheet.len() {
            if sheet.line(line).starts_with(b"text ") {
                name_text(reader, &sheet, &mut names, line);
            }
        }
        Book { sheet, names }
    }
}

/// Reads a text that has a name: the name stands in its line, and its pieces below.
fn name_text(reader: &mut Reader, sheet: &Sheet, names: &mut Names, line: usize) {
    let text = reader.text_at(sheet, names, &[], line);
    let name = reader.copy_of(sheet.rest(line));
    names.put(reader, name, text);
}
