ghost use Rattle.std.specs.Prelude.{◌≡◌, ◌∷◌, [], ◌++◌, length, map, take, true, IfOk, OnErr, OnOk};
ghost use Rattle.std.specs.List.{IsDistinct};
ghost use Rattle.std.specs.Str.{bytes_eq};
ghost use Rattle.sb_journal.specs.declared.hash_line.HashLine.TheVariants.{Add};
ghost use Rattle.sb_journal.specs.Compacted.{by_hash, puts_of};
ghost use Rattle.sb_journal.specs.Texts.{records_text};

use crate::HashLine;
use crate::records::push_records;
use prefix_set::sets_go_by_members;
use sb_model::{Added, Bytes, ListName, OutOfMemory};
use std::alloc::Global;

/// Puts full hashes with their sizes, of which each stands once, into the rising order of the hashes.
pub fn put_entries_in_order(entries: &mut Vec<Added>)
    requires { IsDistinct bytes_eq (map (λ entry. entry.hash) entries.old.items) }
    ensures { entries.new.items ≡ by_hash entries.old.items }
{
    sets_go_by_members();
    entries.sort_unstable_by_key(
        |entry: &Added| -> [u8; 32]
            ensures { result ≡ entry.now.hash }
        { entry.hash },
    );
}

/// The hash lines that put full hashes in, each with its size.
fn put_lines(alloc: Global, entries: &[Added]) -> Result<Vec<HashLine>, OutOfMemory>
    ensures { IfOk result (λ lines. lines.items ≡ map Add entries.now) }
{
    let mut lines = Vec::with_capacity(alloc, entries.len())?;
    for entry in entries {
        lines.push(HashLine::Add(*entry))?;
    }
    Ok(lines)
}

/// Appends the text of the records that put full hashes into a list, each with its size.
pub fn push_puts(
    alloc: Global,
    page: &mut Bytes,
    list: ListName,
    entries: &[Added],
) -> Result<(), OutOfMemory>
    ensures ok { OnOk result (page.new ≡ page.old ++ records_text true (puts_of list entries.now)) }
    ensures front { OnErr result (take (length page.old) page.new ≡ page.old) }
{
    let lines = put_lines(alloc, entries)?;
    push_records(alloc, page, true, list, lines.as_slice())
}
