//! Where the fields of a case stand.
use crate::book::Reader;
use crate::pieces::{is_blank, is_piece};
use crate::sheet::{Scope, Sheet, Span, word_of};
use crate::words::numbers_of;
use sb_model::Row;

/// The names of all fields.
const FIELDS: [&[u8]; 32] = [
    b"text",
    b"client",
    b"server",
    b"maker",
    b"input",
    b"input-fails",
    b"journal",
    b"journal-fails",
    b"append",
    b"store",
    b"keeper-fails",
    b"session",
    b"serve",
    b"session-fails",
    b"session-asks",
    b"session-line",
    b"connection",
    b"read-fails",
    b"write-fails",
    b"door-fails",
    b"out-fails",
    b"clock",
    b"dice",
    b"settings",
    b"steps",
    b"status",
    b"out",
    b"kept",
    b"handed",
    b"sent",
    b"written",
    b"moments",
];

/// The last line of a span that begins with this word.
fn last_in(sheet: &Sheet, span: Span, name: &[u8]) -> Option<usize> {
    let mut found = None;
    for line in span.from..span.to {
        if word_of(sheet.line(line)) == name {
            found = Some(line);
        }
    }
    found
}

/// The line of a field of the run's own.
pub fn own_field(sheet: &Sheet, scope: &Scope, name: &[u8]) -> Option<usize> {
    last_in(sheet, scope.own, name)
}

/// The line of a field: the run's own, or that of its group.
pub fn field(sheet: &Sheet, scope: &Scope, name: &[u8]) -> Option<usize> {
    match last_in(sheet, scope.own, name) {
        Some(line) => Some(line),
        None => last_in(sheet, scope.group, name),
    }
}

/// The line of a field that a run has from the run before it where it has none of its own.
pub fn lasting_field(sheet: &Sheet, scope: &Scope, name: &[u8]) -> Option<usize> {
    if let Some(line) = last_in(sheet, scope.own, name) {
        return Some(line);
    }
    if let Some(line) = last_in(sheet, scope.before, name) {
        return Some(line);
    }
    last_in(sheet, scope.group, name)
}

/// The lines of a span that begin with one of these words, in order.
fn all_in(reader: &mut Reader, sheet: &Sheet, span: Span, names: &[&[u8]]) -> Row<usize> {
    let mut lines = Row::new(reader.alloc);
    for line in span.from..span.to {
        if is_one_of(word_of(sheet.line(line)), names) {
            let done = lines.push(line);
            reader.faults.note(done);
        }
    }
    lines
}

fn is_one_of(word: &[u8], names: &[&[u8]]) -> bool {
    for name in names {
        if word == *name {
            return true;
        }
    }
    false
}

/// The lines of fields that may stand several times, in order: the run's own, or those of its group if it has none.
pub fn fields(reader: &mut Reader, sheet: &Sheet, scope: &Scope, names: &[&[u8]]) -> Row<usize> {
    let own = all_in(reader, sheet, scope.own, names);
    if own.is_empty() {
        return all_in(reader, sheet, scope.group, names);
    }
    own
}

/// The numbers of a field, or none where it is not given.
pub fn numbers(reader: &mut Reader, sheet: &Sheet, line: Option<usize>) -> Row<u64> {
    match line {
        Some(line) => numbers_of(reader, sheet.rest(line), line),
        None => Row::new(reader.alloc),
    }
}

/// Whether a field of failing calls lets each in turn fail.
pub fn is_each(text: &[u8]) -> bool {
    word_of(text) == b"each".as_slice()
}

/// The numbers of a field of failing calls, or none where it is not given. Of `each` alone it is the one of the round.
pub fn calls(reader: &mut Reader, sheet: &Sheet, line: Option<usize>) -> Row<u64> {
    match line {
        Some(line) if sheet.rest(line) == b"each".as_slice() => one_call(reader),
        line => numbers(reader, sheet, line),
    }
}

/// The number of the call that fails in the round.
pub fn call_of_round(reader: &Reader) -> u64 {
    (reader.cut as u64).saturating_add(1)
}

fn one_call(reader: &mut Reader) -> Row<u64> {
    let mut calls = Row::new(reader.alloc);
    let done = calls.push(call_of_round(reader));
    reader.faults.note(done);
    calls
}

/// Sees that each line of a span is a field, a piece, or blank.
pub fn check(reader: &mut Reader, sheet: &Sheet, span: Span) {
    for number in span.from..span.to {
        if !has_form(sheet.line(number)) {
            reader.faults.line(number);
        }
    }
}

/// Whether a line parts what is to come.
pub fn is_or(line: &[u8]) -> bool {
    line == b"or".as_slice()
}

/// Whether a line is a field, a piece, blank, or parts what is to come.
fn has_form(line: &[u8]) -> bool {
    is_piece(line) || is_blank(line) || is_or(line) || is_one_of(word_of(line), &FIELDS)
}
