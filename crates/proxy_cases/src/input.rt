//! The input of a case, which is a text of fields of its own.
use case_texts::{Book, Place, Reader, Scope, Sheet, Span};
use memory_objects::MemorySource;
use sb_model::Bytes;
use sb_outside::read_to_end;

/// How many bytes an input has at most.
const LIMIT: usize = 1_048_576;

/// Reads an input.
pub fn book_of(reader: &mut Reader, input: &mut MemorySource) -> Book {
    let text = match read_to_end(reader.alloc, input, LIMIT) {
        Ok(text) => text,
        Err(_) => {
            reader.faults.refused();
            Bytes::new(reader.alloc)
        }
    };
    let sheet = Sheet::new(reader, text);
    Book::new(reader, sheet)
}

/// Where the fields of an input stand.
pub fn place_of(book: &Book) -> Place<'_> {
    let nowhere = Span { from: 0, to: 0 };
    let own = Span {
        from: 0,
        to: book.sheet.len(),
    };
    Place {
        book,
        scope: Scope {
            own,
            before: nowhere,
            group: nowhere,
        },
        step: usize::MAX,
    }
}
