//! The values of the steps of a row of kept answers.
use crate::words::{cut, low_byte, low_word};
use hash_messages::{FindRequest, FindResponse, Match};
use hash_prefixes::{FullHash, Prefix};
use sb_model::{
    Duration, EntryType, ListName, OutOfMemory, PlatformType, Row, Text, ThreatType, read_duration,
};
use std::alloc::Global;
use update_messages::ClientInfo;

/// The list of malware for the platform of this word, or for Windows where it is none.
pub fn list_of(word: &[u8]) -> ListName {
    ListName {
        threat: ThreatType::Malware,
        platform: PlatformType::from_word(word).unwrap_or(PlatformType::Windows),
        entry: EntryType::Url,
    }
}

/// The hash that begins with a number in four bytes, has zeros after them, and ends in a byte. A point parts the two.
pub fn hash_of(word: &[u8]) -> FullHash {
    let (number, last) = cut(word, b'.');
    hash_with(low_word(number), low_byte(last))
}

pub fn hash_with(number: u32, last: u8) -> FullHash {
    let [a, b, c, d] = number.to_be_bytes();
    let mut bytes = [0; 32];
    bytes[0] = a;
    bytes[1] = b;
    bytes[2] = c;
    bytes[3] = d;
    bytes[31] = last;
    FullHash { bytes }
}

/// The first four bytes of a hash, or all of them where a plus stands before it.
pub fn prefix_of(word: &[u8]) -> Prefix {
    match word {
        [b'+', rest @ ..] => hash_of(rest).prefix(32),
        _ => hash_of(word).prefix(4),
    }
}

/// The duration of a word, or none at all where it is no duration.
pub fn duration_of(word: &[u8]) -> Duration {
    read_duration(word).unwrap_or(Duration::ZERO)
}

/// A request for prefixes, at most 1,024, of the lists of malware for Windows and Linux.
pub fn request_for(alloc: Global, prefixes: &[Prefix]) -> Result<FindRequest, OutOfMemory> {
    let prefixes = &prefixes[..prefixes.len().min(1_024)];
    Ok(FindRequest {
        client: ClientInfo {
            id: Text::new(alloc),
            version: Text::new(alloc),
        },
        states: Row::new(alloc),
        threats: Row::from_slice(alloc, &[ThreatType::Malware])?,
        platforms: Row::from_slice(alloc, &[PlatformType::Windows, PlatformType::Linux])?,
        entries: Row::from_slice(alloc, &[EntryType::Url])?,
        prefixes: Row::from_slice(alloc, prefixes)?,
    })
}

/// An answer whose other hashes are kept out for 600 seconds.
pub fn response_with(matches: Row<Match>) -> FindResponse {
    FindResponse {
        matches,
        wait: Duration::ZERO,
        negative: Duration::from_seconds(600),
    }
}
