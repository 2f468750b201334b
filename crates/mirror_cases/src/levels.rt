//! The input of a case, which is a text of fields of its own. Its lines are parted in levels, each but the first by a heading.
use case_texts::{Book, Place, Reader, Scope, Sheet, Span};
use memory_objects::MemorySource;
use sb_model::Bytes;
use sb_outside::read_to_end;

/// How many bytes an input has at most.
const LIMIT: usize = 1_048_576;

/// Reads an input.
pub fn book_of(reader: &mut Reader, input: &mut MemorySource) -> Book {
    let text = match read_to_end(reader.alloc, input, LIMIT) {
        Ok(text) => text,
        Err(_) => {
            reader.faults.refused();
            Bytes::new(reader.alloc)
        }
    };
    let sheet = Sheet::new(reader, text);
    Book::new(reader, sheet)
}

/// The first line of a level, or the number of all lines if there is no such level.
fn level_start(sheet: &Sheet, level: usize) -> usize {
    let mut headings = 0_usize;
    for line in 0..sheet.len() {
        if sheet.line(line).starts_with(b"# ") {
            headings = headings.saturating_add(1);
        }
        if headings >= level {
            return line;
        }
    }
    sheet.len()
}

/// Whether no level follows one.
pub fn is_last(book: &Book, level: usize) -> bool {
    level_start(&book.sheet, level.saturating_add(1)) >= book.sheet.len()
}

/// Where the fields of a level stand.
pub fn place_of(book: &Book, level: usize) -> Place<'_> {
    let nowhere = Span { from: 0, to: 0 };
    let own = Span {
        from: level_start(&book.sheet, level),
        to: level_start(&book.sheet, level.saturating_add(1)),
    };
    Place {
        book,
        scope: Scope {
            own,
            before: nowhere,
            group: nowhere,
        },
        step: usize::MAX,
    }
}
