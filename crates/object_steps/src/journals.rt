//! Steps with a journal.
use crate::outcome::{Outcome, text};
use crate::things::Journal;
use crate::words::{cut, size_of};
use real_objects::JournalFile;
use sb_model::{Bytes, OutOfMemory};
use sb_outside::{Failed, ReadFault, Source, read_piece};
use std::alloc::Global;

/// How many bytes a read to the next end asks for.
const PIECE: usize = 3_000;

pub(crate) fn step<'a>(rt: &'a HostRuntime, journal: &mut Journal<'a>, line: &str) -> Outcome {
    let (word, rest) = cut(line);
    match word.as_bytes() {
        b"open" => open(rt, journal, rest),
        b"read" => read(rt.alloc(), journal, size_of(rest)),
        b"rest" => read_rest(rt.alloc(), journal),
        b"faults" => Outcome::Number(journal.faults()),
        _ => Outcome::NoStep,
    }
}

fn open<'a>(rt: &'a HostRuntime, journal: &mut Journal<'a>, path: &str) -> Outcome {
    match JournalFile::open(rt, rt.alloc(), path) {
        Ok(made) => *journal = made,
        Err(OutOfMemory) => return Outcome::OutOfMemory,
    }
    match journal.why() {
        Some(why) => Outcome::Cannot(Some(why)),
        None => Outcome::Done,
    }
}

/// One read of at most so many bytes, or of a piece.
fn read(alloc: Global, journal: &mut Journal<'_>, count: usize) -> Outcome {
    let mut buffer = [0; PIECE];
    match journal.read(&mut buffer[..count.min(PIECE)]) {
        Ok(given) => text(Bytes::from_slice(alloc, &buffer[..given])),
        Err(Failed) => Outcome::Cannot(journal.why()),
    }
}

/// What comes before the next end.
fn read_rest(alloc: Global, journal: &mut Journal<'_>) -> Outcome {
    let mut all = Bytes::new(alloc);
    let mut buffer = [0; PIECE];
    for _ in 0..u64::MAX {
        match read_piece(journal, &mut buffer, &mut all) {
            Ok(0) => break,
            Ok(_) => {}
            Err(ReadFault::Failed) => return Outcome::Cannot(journal.why()),
            Err(ReadFault::OutOfMemory) => return Outcome::OutOfMemory,
        }
    }
    Outcome::Text(all)
}
