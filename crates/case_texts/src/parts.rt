//! What is to come of a run, parted by `or`.
use crate::book::Reader;
use crate::comparing::{Left, compare};
use crate::fields::{is_each, is_or};
use crate::objects::Place;
use crate::report::Differences;
use crate::sheet::{Sheet, Span};
use sb_model::Row;
use sb_outside::Connection;
use std::alloc::Global;

/// The first lines of the parts to which some run of a case came.
#[derive(Drop)]
pub struct Met {
    lines: Row<usize>,
}

impl Met {
    pub fn new(alloc: Global) -> Self {
        Met {
            lines: Row::new(alloc),
        }
    }

    fn has(&self, line: usize) -> bool {
        self.lines.as_slice().contains(&line)
    }

    /// Adds a line.
    fn add(&mut self, reader: &mut Reader, line: usize) {
        if !self.has(line) {
            let done = self.lines.push(line);
            reader.faults.note(done);
        }
    }

    /// Tells of each part of a case to which none of its runs came.
    pub fn tell(&self, sheet: &Sheet, case: Span, differences: &mut Differences) {
        self.tell_at(case.from, differences);
        for line in case.from..case.to {
            if is_or(sheet.line(line)) || sheet.line(line) == b"again".as_slice() {
                self.tell_at(line.saturating_add(1), differences);
            }
        }
    }

    /// Tells of the part that begins in a line, if no run came to it.
    fn tell_at(&self, line: usize, differences: &mut Differences) {
        if !self.has(line) {
            differences.not_met(line);
        }
    }
}

/// Where the part of what is to come ends that begins in a line.
fn part_end(sheet: &Sheet, from: usize, end: usize) -> usize {
    for line in from..end {
        if is_or(sheet.line(line)) {
            return line;
        }
    }
    end
}

/// The place of a run without the further parts of what is to come.
pub fn given<'a>(place: &Place<'a>) -> Place<'a> {
    let own = place.scope.own;
    place.with_own(own.from, part_end(&place.book.sheet, own.from, own.to))
}

/// Compares all that a run left with what is to come of it, if its round is compared. It tells where the rounds would not end.
pub fn compare_parts(
    reader: &mut Reader,
    place: &Place<'_>,
    left: &Left,
    met: &mut Met,
    differences: &mut Differences,
) {
    let mut endless = Differences::new(reader.alloc);
    note_calls(reader, place, left, &mut endless);
    if endless.is_decided() {
        differences.append(&endless);
    } else if reader.is_compared() {
        compare_all(reader, place, left, met, differences);
    }
}

/// Compares all that a run left with what is to come of it. It has to come to one of the parts.
fn compare_all(
    reader: &mut Reader,
    place: &Place<'_>,
    left: &Left,
    met: &mut Met,
    differences: &mut Differences,
) {
    let mut told = Differences::new(reader.alloc);
    let own = place.scope.own;
    let mut from = own.from;
    let mut is_met = false;
    for _ in 0..u64::MAX {
        let to = part_end(&place.book.sheet, from, own.to);
        let part = place.with_own(from, to);
        is_met = comes_to(reader, &part, left, met, &mut told) || is_met;
        from = to.saturating_add(1);
        if to >= own.to {
            break;
        }
    }
    if !is_met {
        differences.append(&told);
    }
}

/// Whether a run came to a part. It tells how it differs if it did not.
fn comes_to(
    reader: &mut Reader,
    part: &Place<'_>,
    left: &Left,
    met: &mut Met,
    told: &mut Differences,
) -> bool {
    let from = part.scope.own.from;
    let mut differences = Differences::new(reader.alloc);
    differences.line = (from as u64).saturating_add(1);
    compare(reader, part, left, &mut differences);
    if differences.is_decided() {
        told.append(&differences);
        return false;
    }
    met.add(reader, from);
    true
}

/// Notes of each object of which each call is to fail in turn whether it was called so often.
fn note_calls(reader: &mut Reader, place: &Place<'_>, left: &Left, endless: &mut Differences) {
    let objects = &left.objects;
    let place = &given(place);
    note_faults(
        reader,
        place,
        b"input-fails",
        objects.input.faults(),
        endless,
    );
    note_faults(
        reader,
        place,
        b"journal-fails",
        objects.journal.faults(),
        endless,
    );
    note_faults(reader, place, b"out-fails", objects.out.faults(), endless);
    note_faults(
        reader,
        place,
        b"keeper-fails",
        objects.keep.faults(),
        endless,
    );
    note(reader, place, b"session-fails", left.is_struck);
    note_door(reader, place, left, endless);
}

/// The same of a door, and of its connections.
fn note_door(reader: &mut Reader, place: &Place<'_>, left: &Left, endless: &mut Differences) {
    let door = &left.objects.scripts.door;
    note_faults(reader, place, b"door-fails", door.faults(), endless);
    let taken = match door.log() {
        Some(log) => log,
        None => &[],
    };
    let reads = u64::from(has_read_fault(taken));
    note_faults(reader, place, b"read-fails", reads, endless);
    let writes = u64::from(has_write_fault(taken));
    note_faults(reader, place, b"write-fails", writes, endless);
}

fn has_read_fault(taken: &[Connection]) -> bool {
    let mut has_fault = false;
    for connection in taken {
        has_fault = has_fault || connection.read_fault;
    }
    has_fault
}

fn has_write_fault(taken: &[Connection]) -> bool {
    let mut has_fault = false;
    for connection in taken {
        has_fault = has_fault || connection.write_fault;
    }
    has_fault
}

/// Notes whether the call was made that an `each` of this name lets fail, if there is one.
fn note(reader: &mut Reader, place: &Place<'_>, name: &[u8], is_made: bool) {
    if place.has_each(reader, &[name]) {
        reader.note_call(is_made);
    }
}

/// The same by a count of all faults. It tells of each other field of this name, since by that one a call fails in each round.
fn note_faults(
    reader: &mut Reader,
    place: &Place<'_>,
    name: &[u8],
    faults: u64,
    endless: &mut Differences,
) {
    if !place.has_each(reader, &[name]) {
        return;
    }
    reader.note_call(faults > 0);
    for line in place.fields(reader, &[name]).iter() {
        if !is_each(place.book.sheet.rest(*line)) {
            endless.beside_each(*line);
        }
    }
}
