//! The objects of a run.
use crate::book::{Book, Reader};
use crate::fields::{
    call_of_round, calls, field, fields, is_each, lasting_field, numbers, own_field,
};
use crate::sheet::{Scope, Span, rest_of, word_of};
use crate::words::{found_in, low_word, number_of, size_of_number};
use memory_objects::{
    KeepFailure, MemoryDoor, MemoryKeeper, MemorySink, MemorySource, MemoryWire, Remains,
    ScriptClock, ScriptDice,
};
use sb_model::{Bytes, Moment, OutOfMemory, Row};
use std::mem;

/// How many bytes an output or a connection takes.
const ROOM: usize = 4_194_304;

/// How many answers a clock and how many words dice list.
const ENTRIES: usize = 4_096;

/// What a failing call of a keeper leaves, but for a front of the new text.
const REMAINS: [(&[u8], Remains); 2] = [(b"old", Remains::Old), (b"new", Remains::New)];

/// What a run is given.
#[derive(Drop)]
pub struct Objects {
    pub input: MemorySource,
    pub journal: MemorySource,
    pub out: MemorySink,
    pub keep: MemoryKeeper,
    pub scripts: Scripts,
}

/// Those of its objects that answer from a list.
#[derive(Drop)]
pub struct Scripts {
    pub clock: ScriptClock,
    pub dice: ScriptDice,
    pub door: MemoryDoor,
}

/// Where the fields of a run stand, and how many bytes its objects give or take at once.
#[derive(Clone, Copy)]
pub struct Place<'a> {
    pub book: &'a Book,
    pub scope: Scope,
    pub step: usize,
}

impl<'a> Place<'a> {
    /// The line of a field.
    pub fn field(&self, name: &[u8]) -> Option<usize> {
        field(&self.book.sheet, &self.scope, name)
    }

    /// The line that says what the keeper keeps at first: of a further run, its own alone.
    fn store_field(&self) -> Option<usize> {
        let is_first = self.scope.before.from >= self.scope.before.to;
        if is_first {
            return self.field(b"store");
        }
        own_field(&self.book.sheet, &self.scope, b"store")
    }

    /// The lines of fields that may stand several times.
    pub fn fields(&self, reader: &mut Reader, names: &[&[u8]]) -> Row<usize> {
        fields(reader, &self.book.sheet, &self.scope, names)
    }

    /// The numbers of a field.
    pub fn numbers(&self, reader: &mut Reader, name: &[u8]) -> Row<u64> {
        numbers(reader, &self.book.sheet, self.field(name))
    }

    /// The calls that a field lets fail.
    pub fn calls(&self, reader: &mut Reader, name: &[u8]) -> Row<u64> {
        calls(reader, &self.book.sheet, self.field(name))
    }

    /// Whether a field of one of these names lets each call in turn fail.
    pub fn has_each(&self, reader: &mut Reader, names: &[&[u8]]) -> bool {
        let mut has_each = false;
        for line in self.fields(reader, names).iter() {
            has_each = has_each || is_each(self.book.sheet.rest(*line));
        }
        has_each
    }

    /// The same place, with these lines as the run's own.
    pub fn with_own(&self, from: usize, to: usize) -> Self {
        Place {
            book: self.book,
            scope: Scope {
                own: Span { from, to },
                before: self.scope.before,
                group: self.scope.group,
            },
            step: self.step,
        }
    }

    /// The numbers of a field that lasts from run to run.
    pub fn lasting_numbers(&self, reader: &mut Reader, name: &[u8]) -> Row<u64> {
        let line = lasting_field(&self.book.sheet, &self.scope, name);
        numbers(reader, &self.book.sheet, line)
    }
}

/// The objects of a run, if memory lasts for them. After a fault of a field they lack something. The store is what the keeper
/// kept at the end of the run before, if it kept anything.
pub fn objects_of(
    reader: &mut Reader,
    place: &Place<'_>,
    store: Option<Bytes>,
) -> Result<Objects, OutOfMemory> {
    let out = out_of(reader, place)?;
    let scripts = scripts_of(reader, place)?;
    Ok(Objects {
        input: input_of(reader, place),
        journal: journal_of(reader, place),
        out,
        keep: keeper_of(reader, place, store),
        scripts,
    })
}

fn scripts_of(reader: &mut Reader, place: &Place<'_>) -> Result<Scripts, OutOfMemory> {
    let clock = clock_of(reader, place)?;
    let dice = dice_of(reader, place)?;
    let door = door_of(reader, place)?;
    Ok(Scripts { clock, dice, door })
}

fn input_of(reader: &mut Reader, place: &Place<'_>) -> MemorySource {
    let mut pieces = Row::new(reader.alloc);
    let text = reader.text_or_nothing(place.book, place.field(b"input"));
    push_text(reader, &mut pieces, text);
    let failing = place.calls(reader, b"input-fails");
    MemorySource::new(pieces, failing).with_step(place.step.max(1))
}

/// Appends a text to others.
pub fn push_text(reader: &mut Reader, texts: &mut Row<Bytes>, text: Bytes) {
    let done = texts.push(text);
    reader.faults.note(done);
}

/// What a journal has at first and gains before each connection, and what it gains before the next.
#[derive(Drop)]
struct Growth {
    pieces: Row<Bytes>,
    gains: Bytes,
}

/// The journal of a server: what it has at first, and what it gains before each connection.
fn journal_of(reader: &mut Reader, place: &Place<'_>) -> MemorySource {
    let pieces = journal_pieces(reader, place);
    let failing = place.calls(reader, b"journal-fails");
    MemorySource::new(pieces, failing).with_step(place.step.max(1))
}

fn journal_pieces(reader: &mut Reader, place: &Place<'_>) -> Row<Bytes> {
    let mut growth = Growth {
        pieces: Row::new(reader.alloc),
        gains: reader.text_or_nothing(place.book, place.field(b"journal")),
    };
    growth.end_piece(reader);
    for line in place.fields(reader, &[b"connection", b"append"]).iter() {
        growth.take(reader, place, *line);
    }
    growth.end_piece(reader);
    growth.into_pieces()
}

impl Growth {
    /// Takes a line, of a connection or of what is gained.
    fn take(&mut self, reader: &mut Reader, place: &Place<'_>, line: usize) {
        if word_of(place.book.sheet.line(line)) == b"append".as_slice() {
            append_text(reader, place, &mut self.gains, line);
        } else {
            self.end_piece(reader);
        }
    }

    fn end_piece(&mut self, reader: &mut Reader) {
        let ended = mem::replace(&mut self.gains, Bytes::new(reader.alloc));
        push_text(reader, &mut self.pieces, ended);
    }

    fn into_pieces(self) -> Row<Bytes> {
        let Self { pieces, .. } = self;
        pieces
    }
}

/// Appends the text of the field in a line.
pub fn append_text(reader: &mut Reader, place: &Place<'_>, text: &mut Bytes, line: usize) {
    let more = reader.text(place.book, line);
    let done = text.append(more.as_slice());
    reader.faults.note(done);
}

fn out_of(reader: &mut Reader, place: &Place<'_>) -> Result<MemorySink, OutOfMemory> {
    let failing = place.calls(reader, b"out-fails");
    let sink = MemorySink::new(reader.alloc, ROOM, failing)?;
    Ok(sink.with_step(place.step.max(1)))
}

fn keeper_of(reader: &mut Reader, place: &Place<'_>, store: Option<Bytes>) -> MemoryKeeper {
    let failing = keeper_failures(reader, place);
    let kept = match place.store_field() {
        Some(line) => Some(reader.text(place.book, line)),
        None => store,
    };
    MemoryKeeper::new(reader.alloc, kept, failing)
}

fn keeper_failures(reader: &mut Reader, place: &Place<'_>) -> Row<KeepFailure> {
    let mut failing = Row::new(reader.alloc);
    for line in place.fields(reader, &[b"keeper-fails"]).iter() {
        push_failure(reader, &mut failing, place.book.sheet.rest(*line), *line);
    }
    failing
}

fn push_failure(reader: &mut Reader, failing: &mut Row<KeepFailure>, text: &[u8], line: usize) {
    match failure_of(text, call_of_round(reader)) {
        Some(failure) => {
            let done = failing.push(failure);
            reader.faults.note(done);
        }
        None => reader.faults.line(line),
    }
}

/// A failing call of a keeper, if there is one: its number, or that of the round, and what is kept afterwards.
fn failure_of(text: &[u8], round: u64) -> Option<KeepFailure> {
    let remains = remains_of(rest_of(text))?;
    let call = if is_each(text) {
        round
    } else {
        number_of(word_of(text))?
    };
    Some(KeepFailure { call, remains })
}

/// What a failing call leaves.
fn remains_of(text: &[u8]) -> Option<Remains> {
    match number_of(rest_of(text)) {
        Some(count) if word_of(text) == b"front".as_slice() => {
            Some(Remains::Front(size_of_number(count)))
        }
        Some(_) => None,
        None => found_in(&REMAINS, word_of(text)),
    }
}

fn clock_of(reader: &mut Reader, place: &Place<'_>) -> Result<ScriptClock, OutOfMemory> {
    let mut readings = Row::new(reader.alloc);
    for number in place.lasting_numbers(reader, b"clock").iter() {
        let done = readings.push(Moment(*number));
        reader.faults.note(done);
    }
    ScriptClock::new(reader.alloc, readings, ENTRIES)
}

fn dice_of(reader: &mut Reader, place: &Place<'_>) -> Result<ScriptDice, OutOfMemory> {
    let mut words = Row::new(reader.alloc);
    for number in place.lasting_numbers(reader, b"dice").iter() {
        let done = words.push(low_word(*number));
        reader.faults.note(done);
    }
    ScriptDice::new(reader.alloc, words, ENTRIES)
}

/// The connections of a door, each with the calls that fail.
fn door_of(reader: &mut Reader, place: &Place<'_>) -> Result<MemoryDoor, OutOfMemory> {
    let wires = wires_of(reader, place);
    let count = wires.len();
    let failing = place.calls(reader, b"door-fails");
    MemoryDoor::new(reader.alloc, wires, count, failing)
}

fn wires_of(reader: &mut Reader, place: &Place<'_>) -> Row<MemoryWire> {
    let mut wires = Row::new(reader.alloc);
    let lines = place.fields(reader, &[b"connection", b"read-fails", b"write-fails"]);
    for at in 0..lines.len() {
        take_wire(reader, place, lines.as_slice(), at, &mut wires);
    }
    wires
}

/// Takes a line of a list: a connection, or failing calls of the one above.
fn take_wire(
    reader: &mut Reader,
    place: &Place<'_>,
    lines: &[usize],
    at: usize,
    wires: &mut Row<MemoryWire>,
) {
    if word_of(place.book.sheet.line(line_at(lines, at))) != b"connection".as_slice() {
        return;
    }
    let done = match wire_of(reader, place, lines, at) {
        Ok(wire) => wires.push(wire),
        Err(OutOfMemory) => Err(OutOfMemory),
    };
    reader.faults.note(done);
}

/// The line at a place of a list, or the first line of all if the list has no such place.
pub fn line_at(lines: &[usize], at: usize) -> usize {
    match lines.get(at) {
        Some(line) => *line,
        None => 0,
    }
}

/// The connection of a line of a list, and the failing calls that the lines after it name.
fn wire_of(
    reader: &mut Reader,
    place: &Place<'_>,
    lines: &[usize],
    at: usize,
) -> Result<MemoryWire, OutOfMemory> {
    let sends = reader.text(place.book, line_at(lines, at));
    let reads = calls_after(reader, place, lines, at, b"read-fails");
    let writes = calls_after(reader, place, lines, at, b"write-fails");
    let wire = MemoryWire::new(reader.alloc, sends, ROOM, reads, writes)?;
    Ok(wire.with_step(place.step.max(1)))
}

/// The number that the field of this name says that stands after a line of a list, before the next session or connection, or this
/// one where none says it.
pub fn number_after(
    reader: &mut Reader,
    place: &Place<'_>,
    lines: &[usize],
    at: usize,
    name: &[u8],
    default: u64,
) -> u64 {
    let line = line_after(place, lines, at, name);
    match numbers(reader, &place.book.sheet, line).as_slice().first() {
        Some(number) => *number,
        None => default,
    }
}

/// The calls that the field of this name lets fail that stands after a line of a list, before the next session or connection.
pub fn calls_after(
    reader: &mut Reader,
    place: &Place<'_>,
    lines: &[usize],
    at: usize,
    name: &[u8],
) -> Row<u64> {
    let line = line_after(place, lines, at, name);
    calls(reader, &place.book.sheet, line)
}

/// Whether this field lets each call in turn fail.
pub fn is_each_after(place: &Place<'_>, lines: &[usize], at: usize, name: &[u8]) -> bool {
    match line_after(place, lines, at, name) {
        Some(line) => is_each(place.book.sheet.rest(line)),
        None => false,
    }
}

fn line_after(place: &Place<'_>, lines: &[usize], at: usize, name: &[u8]) -> Option<usize> {
    for line in rest_after(lines, at) {
        let word = word_of(place.book.sheet.line(*line));
        if word == name {
            return Some(*line);
        }
        if !is_of_the_line_above(word) {
            return None;
        }
    }
    None
}

/// Whether a field says something of the session or of the connection above.
fn is_of_the_line_above(word: &[u8]) -> bool {
    word.ends_with(b"-fails") || word.starts_with(b"session-")
}

/// What stands after a place of a list.
fn rest_after(lines: &[usize], at: usize) -> &[usize] {
    &lines[at.saturating_add(1).min(lines.len())..]
}
