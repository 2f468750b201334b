//! A history is written as the journal that it was read from, in both forms.
use list_versions::{Header, History, JournalFault, push_change, push_header, push_list};
use memory_objects::MemorySource;
use sb_model::{Bytes, EntryType, ListName, OutOfMemory, PlatformType, Row, ThreatType};
use std::alloc::Global;

/// Two lists and a change of each, and prefixes of three sizes. Each line that adds names a size.
const BOTH: &[u8] =
    b"sblist 2 00000000000000a7\nlist MALWARE/ANY_PLATFORM/URL 4\nlist SOCIAL_ENGINEERING/WINDOWS/EXECUTABLE 32\nchange MALWARE/ANY_PLATFORM/URL 2 0\n+6161616162626262000000000000000000000000000000000000000000000000 8\n+6363636300000000000000000000000000000000000000000000000000000000 4\nchange SOCIAL_ENGINEERING/WINDOWS/EXECUTABLE 1 1\n+00ff10a000000000000000000000000000000000000000000000000000000000 32\n-6363636300000000000000000000000000000000000000000000000000000000\n";

/// A list and a change of it, in the first form.
const PLAIN: &[u8] =
    b"sblist 1 00000000000000a7\nlist MALWARE/ANY_PLATFORM/URL 5\nlist SOCIAL_ENGINEERING/WINDOWS/EXECUTABLE 32\nchange MALWARE/ANY_PLATFORM/URL 1 1\n+6161616162626262000000000000000000000000000000000000000000000000\n-6363636300000000000000000000000000000000000000000000000000000000\n";

const LISTS: [ListName; 2] = [
    ListName {
        threat: ThreatType::Malware,
        platform: PlatformType::AnyPlatform,
        entry: EntryType::Url,
    },
    ListName {
        threat: ThreatType::SocialEngineering,
        platform: PlatformType::Windows,
        entry: EntryType::Executable,
    },
];

// Appends the first line, and those that declare the lists.
fn push_lists(page: &mut Bytes, sized: bool, history: &History) -> Result<(), OutOfMemory> {
    let epoch = history.epoch();
    push_header(page, Header { sized, epoch })?;
    for list in LISTS {
        push_list(page, list, history.declared(list).unwrap_or(0))?;
    }
    Ok(())
}

fn push_changes(page: &mut Bytes, sized: bool, history: &History) -> Result<(), OutOfMemory> {
    for change in history.changes() {
        push_change(page, sized, change)?;
    }
    Ok(())
}

fn loaded(alloc: Global, journal: &[u8]) -> Result<History, JournalFault> {
    let mut pieces = Row::new(alloc);
    let _ = match Bytes::from_slice(alloc, journal) {
        Ok(piece) => pieces.push(piece),
        Err(refused) => Err(refused),
    };
    History::load(alloc, &mut MemorySource::new(pieces, Row::new(alloc)))
}

// Whether the history of a journal is written as this journal.
fn is_written_again(alloc: Global, sized: bool, journal: &[u8]) -> bool {
    let Ok(history) = loaded(alloc, journal) else {
        return false;
    };
    let mut page = Bytes::new(alloc);
    push_lists(&mut page, sized, &history).is_ok()
        && push_changes(&mut page, sized, &history).is_ok()
        && page.as_slice() == journal
}

#[test]
fn a_history_is_written_as_its_journal(rt: HostRuntime) {
    assert!(rt; is_written_again(rt.alloc(), true, BOTH));
    assert!(rt; is_written_again(rt.alloc(), false, PLAIN));
}
