//! What is to come of a run, beside what came.
use crate::book::Reader;
use crate::objects::{Objects, Place, push_text};
use crate::report::Differences;
use memory_objects::{MemoryDoor, ScriptClock};
use sb_model::{Bytes, Moment, Row};
use sb_outside::Connection;

/// What a run left.
#[derive(Drop)]
pub struct Left {
    pub status: u8,
    pub objects: Objects,
    /// What each session of the link sent.
    pub sent: Row<Bytes>,
    /// Whether a call of a session was made that an `each` lets fail.
    pub is_struck: bool,
}

/// What was to come of texts: so many with these bytes, or nothing is said of them.
fn wanted_texts(reader: &mut Reader, place: &Place<'_>, name: &[u8]) -> Option<Row<Bytes>> {
    let lines = place.fields(reader, &[name]);
    if lines.is_empty() {
        return None;
    }
    Some(texts_in(reader, place, lines.as_slice()))
}

/// The texts of fields that do not say `none`.
fn texts_in(reader: &mut Reader, place: &Place<'_>, lines: &[usize]) -> Row<Bytes> {
    let mut texts = Row::new(reader.alloc);
    for line in lines {
        if place.book.sheet.rest(*line) != b"none".as_slice() {
            let text = reader.text(place.book, *line);
            push_text(reader, &mut texts, text);
        }
    }
    texts
}

/// Compares all that a run left with what its fields say.
pub fn compare(reader: &mut Reader, place: &Place<'_>, left: &Left, differences: &mut Differences) {
    let status = wanted_status(reader, place);
    differences.number(b"status", u64::from(left.status), status);
    let text = reader.text_or_nothing(place.book, place.field(b"out"));
    differences.bytes(b"out", left.objects.out.bytes(), text.as_slice());
    compare_kept(reader, place, left.objects.keep.kept(), differences);
    let handed = left.objects.keep.handed();
    compare_texts(reader, place, b"handed", handed, differences);
    compare_texts(reader, place, b"sent", left.sent.as_slice(), differences);
    compare_written(reader, place, &left.objects.scripts.door, differences);
    compare_moments(reader, place, &left.objects.scripts.clock, differences);
}

fn wanted_status(reader: &mut Reader, place: &Place<'_>) -> u64 {
    match place.numbers(reader, b"status").as_slice().first() {
        Some(number) => *number,
        None => 0,
    }
}

/// Compares the text that is kept.
fn compare_kept(
    reader: &mut Reader,
    place: &Place<'_>,
    kept: Option<&Bytes>,
    differences: &mut Differences,
) {
    let Some(wanted) = wanted_texts(reader, place, b"kept") else {
        return;
    };
    let count = if kept.is_some() { 1 } else { 0 };
    differences.number(b"kept texts", count, wanted.len() as u64);
    if let (Some(text), Some(other)) = (kept, wanted.as_slice().first()) {
        differences.bytes(b"kept", text.as_slice(), other.as_slice());
    }
}

/// Compares texts of which there may be several.
fn compare_texts(
    reader: &mut Reader,
    place: &Place<'_>,
    name: &[u8],
    came: &[Bytes],
    differences: &mut Differences,
) {
    if let Some(wanted) = wanted_texts(reader, place, name) {
        compare_all(name, came, wanted.as_slice(), differences);
    }
}

fn compare_all(name: &[u8], came: &[Bytes], wanted: &[Bytes], differences: &mut Differences) {
    differences.number(name, came.len() as u64, wanted.len() as u64);
    for (text, other) in came.iter().zip(wanted) {
        differences.bytes(name, text.as_slice(), other.as_slice());
    }
}

/// Compares what was written to each connection that was taken.
fn compare_written(
    reader: &mut Reader,
    place: &Place<'_>,
    door: &MemoryDoor,
    differences: &mut Differences,
) {
    if let Some(wanted) = wanted_texts(reader, place, b"written") {
        compare_connections(taken(door), wanted.as_slice(), differences);
    }
}

/// The connections that were taken.
fn taken(door: &MemoryDoor) -> &[Connection] {
    match door.log() {
        Some(log) => log,
        None => &[],
    }
}

fn compare_connections(taken: &[Connection], wanted: &[Bytes], differences: &mut Differences) {
    differences.number(b"written", taken.len() as u64, wanted.len() as u64);
    for (connection, other) in taken.iter().zip(wanted) {
        differences.bytes(b"written", connection.written.as_slice(), other.as_slice());
    }
}

/// Compares the answers of the clock.
fn compare_moments(
    reader: &mut Reader,
    place: &Place<'_>,
    clock: &ScriptClock,
    differences: &mut Differences,
) {
    if let Some(line) = place.field(b"moments") {
        let wanted = wanted_moments(reader, place, line);
        compare_answers(answers(clock), wanted.as_slice(), differences);
    }
}

fn answers(clock: &ScriptClock) -> &[Moment] {
    match clock.answers() {
        Some(answers) => answers,
        None => &[],
    }
}

fn compare_answers(answers: &[Moment], wanted: &[u64], differences: &mut Differences) {
    differences.number(b"moments", answers.len() as u64, wanted.len() as u64);
    for (moment, other) in answers.iter().zip(wanted) {
        differences.number(b"moment", moment.0, *other);
    }
}

/// The moments of a line, or none if it says so.
fn wanted_moments(reader: &mut Reader, place: &Place<'_>, line: usize) -> Row<u64> {
    if place.book.sheet.rest(line) == b"none".as_slice() {
        return Row::new(reader.alloc);
    }
    place.numbers(reader, b"moments")
}
