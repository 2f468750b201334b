//! The links of a run.
use crate::case_link::CaseLink;
use case_texts::{Coming, Place, Reader, has_server, low_word, push_text, sessions};
use delta_server::Settings;
use list_versions::History;
use memory_objects::MemorySource;
use sb_model::{Bytes, Row};
use std::alloc::Global;

const SETTINGS: Settings = Settings {
    wait: 1_800,
    find_wait: 1_800,
    cache: 300,
    negative: 300,
};

/// The times of the list server of a link: its wait, and how long a match and its absence may be kept.
fn settings_of(reader: &mut Reader, place: &Place<'_>) -> Settings {
    match place.lasting_numbers(reader, b"settings").as_slice() {
        [wait, cache, negative] => Settings {
            wait: low_word(*wait),
            find_wait: low_word(*wait),
            cache: low_word(*cache),
            negative: low_word(*negative),
        },
        _ => SETTINGS,
    }
}

/// The links of the lines of a run: the one that most runs have, and that of a second line.
#[derive(Drop)]
pub struct Links {
    pub first: CaseLink,
    pub second: CaseLink,
}

impl Links {
    /// Whether a call was made that an `each` lets fail.
    pub fn is_struck(&self) -> bool {
        self.first.is_struck() || self.second.is_struck()
    }

    /// How many bytes the longest response had of which each byte has a round.
    pub fn longest(&self) -> usize {
        self.first.longest().max(self.second.longest())
    }

    /// Takes what each session sent: those of the first line in order, and then those of the second.
    pub fn take_sent(&mut self, reader: &mut Reader) -> Row<Bytes> {
        let mut sent = self.first.take_sent(reader);
        for text in self.second.take_sent(reader).into_vec() {
            push_text(reader, &mut sent, text);
        }
        sent
    }
}

/// The links of a run.
pub fn links_of(reader: &mut Reader, place: &Place<'_>) -> Links {
    Links {
        first: link_of(reader, place, 1),
        second: link_of(reader, place, 2),
    }
}

/// The link of the line with this number.
fn link_of(reader: &mut Reader, place: &Place<'_>, line: u64) -> CaseLink {
    let settings = settings_of(reader, place);
    let coming = sessions(reader, place, line);
    let history = history_of(reader, place, &coming);
    CaseLink::new(reader.alloc, history, settings, coming, place.step)
}

/// The history of the link's server, if a session is answered by one and the journal has no bad line.
fn history_of(reader: &mut Reader, place: &Place<'_>, coming: &Row<Coming>) -> Option<History> {
    if coming.is_empty() || !has_server(reader, place) {
        return None;
    }
    let text = reader.text_or_nothing(place.book, place.field(b"journal"));
    let mut pieces = Row::new(reader.alloc);
    push_text(reader, &mut pieces, text);
    loaded(reader.alloc, pieces)
}

fn loaded(alloc: Global, pieces: Row<Bytes>) -> Option<History> {
    let mut source = MemorySource::new(pieces, Row::new(alloc));
    History::load(alloc, &mut source).ok()
}
