//! The sessions of a link.
use crate::book::Reader;
use crate::fields::is_each;
use crate::objects::{Place, append_text, calls_after, is_each_after, line_at, number_after};
use crate::sheet::{rest_of, word_of};
use crate::words::{found_in, number_of, size_of_number};
use sb_model::{Bytes, Row};
use std::mem;

/// What becomes of a response on its way.
#[derive(Clone, Copy)]
pub enum Harm {
    Nothing,
    /// Only its first so many bytes come.
    Front(usize),
    /// Its last so many bytes do not come.
    Without(usize),
    /// This byte stands in the place of its last but so many.
    Byte(usize, u8),
    /// What the session so many before was given comes again.
    Again(usize),
    /// Only its first so many bytes come, in the round with this number.
    EachFront(usize),
    /// One bit of the byte at this place is turned, in the round with this number.
    EachBit(usize),
}

/// What the other side does in a session.
#[derive(Drop)]
pub enum Play {
    /// It gives these bytes.
    Gives(Bytes),
    /// The list server answers.
    Serves(Harm),
    /// The list server answers these bytes in place of what was sent.
    ServesInstead(Bytes),
}

/// A session that is to come.
#[derive(Drop)]
pub struct Coming {
    pub play: Play,
    /// The numbers of the calls that fail: `begin` is call 1, and `close` is none.
    pub failing: Row<u64>,
    /// Whether these are each in turn.
    pub has_each: bool,
    /// After how many asks it is answered.
    pub asks: u64,
    /// What the server's journal gains before it.
    pub gains: Bytes,
}

/// What a `serve` says of its response.
#[derive(Clone, Copy)]
enum HarmWord {
    Nothing,
    Lost,
    Front,
    Without,
    Byte,
    Bit,
    Again,
}

const HARMS: [(&[u8], HarmWord); 7] = [
    (b"", HarmWord::Nothing),
    (b"lost", HarmWord::Lost),
    (b"front", HarmWord::Front),
    (b"without", HarmWord::Without),
    (b"byte", HarmWord::Byte),
    (b"bit", HarmWord::Bit),
    (b"again", HarmWord::Again),
];

/// Whether the list server answers a session.
pub fn has_server(reader: &mut Reader, place: &Place<'_>) -> bool {
    let mut is_served = false;
    for line in place.fields(reader, &[b"session", b"serve"]).iter() {
        is_served = is_served || is_serve(place.book.sheet.line(*line));
    }
    is_served
}

fn is_serve(line: &[u8]) -> bool {
    word_of(line) == b"serve".as_slice()
}

/// The sessions of a line, and what the journal gains before the next one.
#[derive(Drop)]
struct Gathered {
    line: u64,
    coming: Row<Coming>,
    gains: Bytes,
}

impl Gathered {
    /// Takes a line of a list, of a session or of what the journal gains.
    fn take(&mut self, reader: &mut Reader, place: &Place<'_>, lines: &[usize], at: usize) {
        let line = line_at(lines, at);
        let word = word_of(place.book.sheet.line(line));
        if word == b"append".as_slice() {
            append_text(reader, place, &mut self.gains, line);
        } else if is_session(word) && self.has(reader, place, lines, at) {
            self.push(reader, place, lines, at);
        }
    }

    /// Whether the session of a line of a list is one of these.
    fn has(&self, reader: &mut Reader, place: &Place<'_>, lines: &[usize], at: usize) -> bool {
        number_after(reader, place, lines, at, b"session-line", 1) == self.line
    }

    /// Appends the session of a line of a list.
    fn push(&mut self, reader: &mut Reader, place: &Place<'_>, lines: &[usize], at: usize) {
        let play = play_of(reader, place, line_at(lines, at));
        let failing = calls_after(reader, place, lines, at, b"session-fails");
        let has_each = is_each_after(place, lines, at, b"session-fails");
        let asks = number_after(reader, place, lines, at, b"session-asks", 0);
        let gains = mem::replace(&mut self.gains, Bytes::new(reader.alloc));
        let done = self.coming.push(Coming {
            play,
            failing,
            has_each,
            asks,
            gains,
        });
        reader.faults.note(done);
    }

    fn into_coming(self) -> Row<Coming> {
        let Self { coming, .. } = self;
        coming
    }
}

/// The names of what is said of sessions.
const OF_SESSIONS: [&[u8]; 6] = [
    b"session",
    b"serve",
    b"append",
    b"session-fails",
    b"session-asks",
    b"session-line",
];

/// Whether a word begins a session.
fn is_session(word: &[u8]) -> bool {
    word == b"session".as_slice() || word == b"serve".as_slice()
}

/// The sessions of the line with this number, counted from 1, each with its failing calls and with what the journal gains before it.
/// A line's server gains what stands before its next session, also where it stands before one of another line.
pub fn sessions(reader: &mut Reader, place: &Place<'_>, line: u64) -> Row<Coming> {
    let mut gathered = Gathered {
        line,
        coming: Row::new(reader.alloc),
        gains: Bytes::new(reader.alloc),
    };
    let lines = place.fields(reader, &OF_SESSIONS);
    for at in 0..lines.len() {
        gathered.take(reader, place, lines.as_slice(), at);
    }
    gathered.into_coming()
}

/// What the other side does in the session of a line.
fn play_of(reader: &mut Reader, place: &Place<'_>, line: usize) -> Play {
    let text = place.book.sheet.line(line);
    if !is_serve(text) {
        return Play::Gives(reader.text(place.book, line));
    }
    let harm = rest_of(text);
    if harm == b"instead".as_slice() {
        return Play::ServesInstead(reader.text_below(place.book, line));
    }
    match harm_of(harm, reader.cut) {
        Some(harm) => Play::Serves(harm),
        None => {
            reader.faults.line(line);
            Play::Serves(Harm::Nothing)
        }
    }
}

/// What becomes of a served response in the round with this number.
fn harm_of(text: &[u8], cut: usize) -> Option<Harm> {
    let numbers = rest_of(text);
    let number = match number_of(word_of(numbers)) {
        Some(number) => size_of_number(number),
        None => 0,
    };
    match found_in(&HARMS, word_of(text))? {
        HarmWord::Nothing => Some(Harm::Nothing),
        HarmWord::Lost => Some(Harm::Front(0)),
        HarmWord::Front if is_each(numbers) => Some(Harm::EachFront(cut)),
        HarmWord::Front => Some(Harm::Front(number)),
        HarmWord::Without => Some(Harm::Without(number)),
        HarmWord::Byte => other_byte(number, rest_of(numbers)),
        HarmWord::Bit if is_each(numbers) => Some(Harm::EachBit(cut)),
        HarmWord::Bit => None,
        HarmWord::Again => Some(Harm::Again(number.max(1))),
    }
}

/// That the last byte but so many is another one.
fn other_byte(number: usize, text: &[u8]) -> Option<Harm> {
    let byte = number_of(text)?;
    Some(Harm::Byte(number.saturating_sub(1), (byte & 0xff) as u8))
}
