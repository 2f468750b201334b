//! A client, and the mirrors before it up to a list server. What a mirror answers in a session of the program behind it is found by making
//! its whole run anew, with one connection more.
use crate::levels::{book_of, is_last, place_of};
use crate::mirror::run_words;
use case_runs::CaseLink;
use case_texts::{
    Book, Coming, Harm, Objects, Place, Play, Reader, between, objects_of, push_text, sessions,
    words_of,
};
use delta_server::Settings;
use list_versions::History;
use memory_objects::{MemoryDoor, MemorySource, MemoryWire};
use sb_client::run_client;
use sb_model::{Bytes, OutOfMemory, Row};
use sb_outside::{Connection, OpenGate};
use std::alloc::Global;
use std::sync::Wait;
use std::thread::Threads;

/// The times of the list server at the end of a row.
const SETTINGS: Settings = Settings {
    wait: 1_800,
    find_wait: 1_800,
    cache: 300,
    negative: 300,
};

/// How many bytes a mirror may write to a connection.
const ROOM: usize = 1_048_576;

/// How many programs a row has at most, and how many sessions they have together.
const MOST_LEVELS: usize = 8;

const MOST_SESSIONS: usize = 1_024;

/// A row: a client with these words, mirrors as the further levels say, and what the sessions of each were given so far.
#[derive(Drop)]
struct ProgramRow<'a> {
    book: &'a Book,
    words: &'a [String],
    given: Row<Row<Bytes>>,
}

/// Runs a client and the mirrors before it, as the levels of the input say, and gives the client's status. What it left stands in the
/// place of the objects.
pub fn run_row<R: Threads + Wait + Sync>(
    rt: &R,
    reader: &mut Reader,
    words: &[String],
    objects: &mut Objects,
) -> Result<u8, OutOfMemory> {
    let book = book_of(reader, &mut objects.input);
    let mut given = Row::new(reader.alloc);
    for _ in 0..MOST_LEVELS {
        given.push(Row::new(reader.alloc))?;
    }
    let mut row = ProgramRow {
        book: &book,
        words,
        given,
    };
    for _ in 0..MOST_SESSIONS {
        let (level, status) = row.climb(rt, reader, objects)?;
        if level == 0 {
            return Ok(status);
        }
        row.give(reader, level.saturating_sub(1), objects);
    }
    Err(OutOfMemory)
}

impl<'a> ProgramRow<'a> {
    /// The first level which asks nothing further of the one before it, and its status, if each is asked by the one behind it. What it
    /// left stands in the place of the objects.
    fn climb<R: Threads + Wait + Sync>(
        &self,
        rt: &R,
        reader: &mut Reader,
        objects: &mut Objects,
    ) -> Result<(usize, u8), OutOfMemory> {
        let mut asked = Row::new(reader.alloc);
        for level in 0..MOST_LEVELS {
            let mut link = self.link(reader, level);
            *objects = objects_of(reader, &place_of(self.book, level), None)?;
            let status = if level == 0 {
                run_first(rt, reader.alloc, self.words, objects, &mut link)
            } else {
                run_further(
                    reader,
                    &place_of(self.book, level),
                    asked,
                    objects,
                    &mut link,
                )?
            };
            asked = link.take_sent(reader);
            if is_last(self.book, level) || asked.len() <= self.given(level).len() {
                return Ok((level, status));
            }
        }
        Err(OutOfMemory)
    }

    /// What the sessions of a level were given so far.
    fn given(&self, level: usize) -> &[Bytes] {
        match self.given.as_slice().get(level) {
            Some(given) => given.as_slice(),
            None => &[],
        }
    }

    /// The link of a level: its sessions are answered by a list server, or given what is known of the answers of the level before it.
    fn link(&self, reader: &mut Reader, level: usize) -> CaseLink {
        let place = place_of(self.book, level);
        let coming = sessions(reader, &place, 1);
        if is_last(self.book, level) {
            let history = history_of(reader, &place);
            return CaseLink::new(reader.alloc, history, SETTINGS, coming, usize::MAX);
        }
        let plays = plays_of(reader, coming, self.given(level));
        CaseLink::new(reader.alloc, None, SETTINGS, plays, usize::MAX)
    }

    /// Gives the next session of a level what the mirror before it wrote last, by what becomes of it on its way.
    fn give(&mut self, reader: &mut Reader, level: usize, left: &Objects) {
        let coming = sessions(reader, &place_of(self.book, level), 1);
        let Some(given) = self.given.as_mut_slice().get_mut(level) else {
            return;
        };
        let Some(next) = coming.as_slice().get(given.len()) else {
            return;
        };
        let whole = last_written(left.scripts.door.log());
        let text = harmed(reader, &next.play, whole, given.as_slice());
        push_text(reader, given, text);
    }
}

/// What was written to the last of these connections.
fn last_written(log: Option<&[Connection]>) -> &[u8] {
    match log {
        Some([.., last]) => last.written.as_slice(),
        _ => &[],
    }
}

/// The sessions of a level as they are played: those that were given something, and a further one, which is given nothing.
fn plays_of(reader: &mut Reader, coming: Row<Coming>, given: &[Bytes]) -> Row<Coming> {
    let mut plays = Row::new(reader.alloc);
    for (at, mut next) in coming.into_vec().into_iter().enumerate() {
        if at <= given.len() {
            next.play = Play::Gives(text_at(reader, given, at));
            let done = plays.push(next);
            reader.faults.note(done);
        }
    }
    plays
}

/// The text at a place, or nothing.
fn text_at(reader: &mut Reader, texts: &[Bytes], at: usize) -> Bytes {
    match texts.get(at) {
        Some(text) => reader.copy_of(text.as_slice()),
        None => Bytes::new(reader.alloc),
    }
}

/// What comes of a response on its way to a session, before which these were given.
fn harmed(reader: &mut Reader, play: &Play, whole: &[u8], earlier: &[Bytes]) -> Bytes {
    match play {
        Play::Gives(text) => reader.copy_of(text.as_slice()),
        Play::Serves(Harm::Front(count)) => reader.copy_of(between(whole, 0, *count)),
        Play::Serves(Harm::Again(back)) => match earlier.len().checked_sub(*back) {
            Some(at) => text_at(reader, earlier, at),
            None => Bytes::new(reader.alloc),
        },
        _ => reader.copy_of(whole),
    }
}

/// Runs the client of a row.
fn run_first<R: Threads + Wait + Sync>(
    rt: &R,
    alloc: Global,
    words: &[String],
    objects: &mut Objects,
    link: &mut CaseLink,
) -> u8 {
    run_client(
        rt,
        alloc,
        words,
        &mut objects.input,
        &mut objects.out,
        &mut objects.keep,
        link,
        &mut objects.scripts.clock,
        &mut objects.scripts.dice,
        &OpenGate,
    )
}

/// Runs a mirror of a row, which is asked this, and no find.
fn run_further(
    reader: &mut Reader,
    place: &Place<'_>,
    asked: Row<Bytes>,
    objects: &mut Objects,
    link: &mut CaseLink,
) -> Result<u8, OutOfMemory> {
    let line = match place.field(b"server") {
        Some(line) => line,
        None => place.scope.own.from,
    };
    let words = words_of(reader, place.book.sheet.rest(line), line);
    objects.scripts.door = door_of(reader.alloc, asked)?;
    let nobody = Row::new(reader.alloc);
    let mut finds = CaseLink::new(reader.alloc, None, SETTINGS, nobody, usize::MAX);
    run_words(reader, words.as_slice(), objects, link, &mut finds)
}

/// A door at which these texts come, each in a connection.
fn door_of(alloc: Global, asked: Row<Bytes>) -> Result<MemoryDoor, OutOfMemory> {
    let count = asked.len();
    let mut wires = Row::new(alloc);
    for text in asked.into_vec() {
        let wire = MemoryWire::new(alloc, text, ROOM, Row::new(alloc), Row::new(alloc))?;
        wires.push(wire)?;
    }
    MemoryDoor::new(alloc, wires, count, Row::new(alloc))
}

/// The history of the list server at the end of a row, if its journal has no bad line.
fn history_of(reader: &mut Reader, place: &Place<'_>) -> Option<History> {
    let text = reader.text_or_nothing(place.book, place.field(b"journal"));
    let mut pieces = Row::new(reader.alloc);
    push_text(reader, &mut pieces, text);
    let mut source = MemorySource::new(pieces, Row::new(reader.alloc));
    History::load(reader.alloc, &mut source).ok()
}
