//! The list server that answers the sessions of a link.
use case_texts::{Harm, between, turned};
use delta_server::Settings;
use http_serving::ConnectionEnd;
use list_versions::History;
use memory_objects::{MemorySource, MemoryWire};
use sb_model::{Bytes, OutOfMemory, Row};
use sb_service::serve_connection;
use std::alloc::Global;

/// How many bytes the server may write to a session.
const ROOM: usize = 1_048_576;

/// A list server. Without a history it answers nothing.
#[derive(Drop)]
pub struct Server {
    pub alloc: Global,
    pub history: Option<History>,
    pub settings: Settings,
    /// How many bytes the longest response had of which each byte has a round.
    pub longest: usize,
}

impl Server {
    /// Reads what the journal gained into the history, and says whether it could. A line that is bad leaves it as it was.
    pub fn grow(&mut self, gains: &Bytes) -> bool {
        match &mut self.history {
            Some(history) => grow(self.alloc, history, gains),
            None => true,
        }
    }

    /// Puts what comes of the answer to these bytes in the place of a response, and says whether there is one.
    pub fn answer(&mut self, sent: &Bytes, harm: Harm, response: &mut Bytes) -> bool {
        let mut whole = Bytes::new(self.alloc);
        let is_answered = self.answer_whole(sent, &mut whole);
        if matches!(harm, Harm::EachFront(_) | Harm::EachBit(_)) {
            self.longest = self.longest.max(whole.len());
        }
        is_answered && give_harmed(whole.as_slice(), harm, response)
    }

    /// Puts the whole answer to these bytes in the place of a response, and says whether there is one.
    fn answer_whole(&self, sent: &Bytes, response: &mut Bytes) -> bool {
        match &self.history {
            Some(history) => answer(self.alloc, history, &self.settings, sent, response),
            None => false,
        }
    }

    /// Puts these bytes in the place of a response, and says whether memory lasted.
    pub fn give(bytes: &[u8], response: &mut Bytes) -> bool {
        response.clear();
        response.append(bytes).is_ok()
    }
}

fn grow(alloc: Global, history: &mut History, gains: &Bytes) -> bool {
    match source_of(alloc, gains) {
        Ok(mut source) => grow_by(alloc, history, &mut source),
        Err(OutOfMemory) => false,
    }
}

fn source_of(alloc: Global, text: &Bytes) -> Result<MemorySource, OutOfMemory> {
    let text = text.copy()?;
    let mut pieces = Row::new(alloc);
    pieces.push(text)?;
    Ok(MemorySource::new(pieces, Row::new(alloc)))
}

fn grow_by(alloc: Global, history: &mut History, source: &mut MemorySource) -> bool {
    history.grow(alloc, source).is_ok()
}

fn answer(
    alloc: Global,
    history: &History,
    settings: &Settings,
    sent: &Bytes,
    response: &mut Bytes,
) -> bool {
    match wire_of(alloc, sent) {
        Ok(mut wire) => {
            serve(alloc, history, settings, &mut wire) && Server::give(wire.written(), response)
        }
        Err(OutOfMemory) => false,
    }
}

/// The connection of a client that sent these bytes.
fn wire_of(alloc: Global, sent: &Bytes) -> Result<MemoryWire, OutOfMemory> {
    let sends = sent.copy()?;
    MemoryWire::new(alloc, sends, ROOM, Row::new(alloc), Row::new(alloc))
}

/// Answers a connection, and says whether memory lasted.
fn serve(alloc: Global, history: &History, settings: &Settings, wire: &mut MemoryWire) -> bool {
    !matches!(
        serve_connection(alloc, history, settings, wire),
        ConnectionEnd::OutOfMemory
    )
}

/// Puts what comes of a whole response in the place of a response, and says whether memory lasted.
fn give_harmed(whole: &[u8], harm: Harm, response: &mut Bytes) -> bool {
    match harm {
        Harm::Nothing | Harm::Again(_) => Server::give(whole, response),
        Harm::EachBit(place) => give_turned(whole, place, response),
        Harm::Front(count) | Harm::EachFront(count) => Server::give(
            between(whole, 0, count),
            response,
        ),
        Harm::Without(count) => {
            let end = whole.len().saturating_sub(count);
            Server::give(between(whole, 0, end), response)
        }
        Harm::Byte(place, byte) => give_with_byte(whole, place, byte, response),
    }
}

/// Gives the bytes, with one bit of the byte at this place turned if there is such a byte.
fn give_turned(whole: &[u8], place: usize, response: &mut Bytes) -> bool {
    let Some(byte) = whole.get(place) else {
        return Server::give(whole, response);
    };
    Server::give(between(whole, 0, place), response)
        && response.push(turned(*byte, place)).is_ok()
        && response
            .append(between(whole, place.saturating_add(1), whole.len()))
            .is_ok()
}

/// Gives the bytes with this one in the place of the last but so many.
fn give_with_byte(whole: &[u8], place: usize, byte: u8, response: &mut Bytes) -> bool {
    if place >= whole.len() {
        return Server::give(whole, response);
    }
    let end = whole.len().saturating_sub(place);
    Server::give(between(whole, 0, end.saturating_sub(1)), response)
        && response.push(byte).is_ok()
        && response.append(between(whole, end, whole.len())).is_ok()
}
