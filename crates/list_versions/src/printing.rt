ghost use Rattle.std.specs.Prelude.{◌≡◌, ◌++◌, length, take, decimal, OnOk, OnErr};
ghost use Rattle.list_versions.specs.Printed.{journal_cause_text};

use crate::JournalFault;
use sb_model::{Bytes, OutOfMemory};

// Appends a word and a number.
fn push_counted(page: &mut Bytes, word: &str, number: u64) -> Result<(), OutOfMemory>
    ensures ok { OnOk result (page.new ≡ page.old ++ (word.now ++ decimal number)) }
    ensures front { OnErr result (take (length page.old) page.new ≡ page.old) }
{
    page.append(word.as_bytes())?;
    page.append_decimal(number)
}

/// Appends the cause of a journal that is not read, as it is printed. After an `Err` the page begins as it was.
pub fn push_journal_cause(page: &mut Bytes, fault: JournalFault) -> Result<(), OutOfMemory>
    ensures ok { OnOk result (page.new ≡ page.old ++ journal_cause_text fault) }
    ensures front { OnErr result (take (length page.old) page.new ≡ page.old) }
{
    match fault {
        JournalFault::ReadFault => page.append(b"read-fault"),
        JournalFault::Header => page.append(b"header"),
        JournalFault::Line(line) => push_counted(page, "line ", line),
        JournalFault::UnknownList(line) => push_counted(page, "unknown-list ", line),
        JournalFault::ListTwice(line) => push_counted(page, "list-twice ", line),
        JournalFault::TooMany(line) => push_counted(page, "too-many ", line),
        JournalFault::TooLarge(line) => push_counted(page, "too-large ", line),
        JournalFault::OutOfMemory => page.append(b"out-of-memory"),
    }
}
