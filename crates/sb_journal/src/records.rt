ghost use Rattle.std.specs.Prelude.{◌≡◌, ℕ, ◌*◌, ◌<◌, ◌≤◌, [], ◌∷◌, ◌++◌, length, take, IfOk, OnErr, OnOk};
ghost use Rattle.list_versions.specs.Written.{change_text};
ghost use Rattle.sb_journal.specs.Records.{adds_in, change_with, lines_at, record_count, record_size, records_of, removes_in};
ghost use Rattle.sb_journal.specs.Texts.{records_text};

use crate::HashLine;
use list_versions::push_change;
use sb_model::{Bytes, Change, ListName, OutOfMemory, Row};
use std::alloc::Global;

/// How many hash lines a record has.
const RECORD_SIZE: usize = 1024;

/// Adds a hash line to a change.
fn push_line(change: &mut Change, line: &HashLine) -> Result<(), OutOfMemory>
    ensures list { change.new.list ≡ change.old.list }
    ensures adds { OnOk result (change.new.adds ≡ change.old.adds ++ adds_in (line.now ∷ [])) }
    ensures removes { OnOk result (change.new.removes ≡ change.old.removes ++ removes_in (line.now ∷ [])) }
{
    match line {
        HashLine::Add(added) => change.adds.push(*added),
        HashLine::Remove(hash) => change.removes.push(*hash),
    }
}

/// The change of a list that has these hash lines.
fn change_with(alloc: Global, list: ListName, lines: &[HashLine]) -> Result<Change, OutOfMemory>
    ensures { IfOk result (λ change. change ≡ change_with list lines.now) }
{
    let mut change = Change {
        list,
        adds: Row::new(alloc),
        removes: Row::new(alloc),
    };
    for line in lines {
        push_line(&mut change, line)?;
    }
    Ok(change)
}

/// Appends the text of a record with these hash lines.
fn push_record(
    alloc: Global,
    page: &mut Bytes,
    sized: bool,
    list: ListName,
    lines: &[HashLine],
) -> Result<(), OutOfMemory>
    ensures ok { OnOk result (page.new ≡ page.old ++ change_text sized (change_with list lines.now)) }
    ensures front { OnErr result (take (length page.old) page.new ≡ page.old) }
{
    let change = change_with(alloc, list, lines)?;
    push_change(page, sized, &change)
}

/// The front that one record has of some hash lines.
fn front(lines: &[HashLine]) -> &[HashLine]
    ensures { result.now ≡ take record_size lines.now }
{
    if lines.len() <= RECORD_SIZE {
        return lines;
    }
    &lines[..RECORD_SIZE]
}

/// The hash lines of the record at a place.
fn lines_at(lines: &[HashLine], place: usize) -> &[HashLine]
    requires { place * 1024 ≤ length lines.now }
    ensures { result.now ≡ lines_at lines.now place }
{
    front(&lines[place * RECORD_SIZE..])
}

/// How many records so many hash lines have.
fn record_count(lines: &[HashLine]) -> usize
    ensures count { result ≡ record_count (length lines.now) }
    ensures room { (place : ℕ) → place < result → place * 1024 ≤ length lines.now }
{
    let mut count = lines.len() / RECORD_SIZE;
    if lines.len() % RECORD_SIZE != 0 {
        count += 1;
    }
    count
}

/// Appends the text of the records that have these hash lines.
#[tactic(auto, unfolding(crate::specs::Records::records_of))]
pub fn push_records(
    alloc: Global,
    page: &mut Bytes,
    sized: bool,
    list: ListName,
    lines: &[HashLine],
) -> Result<(), OutOfMemory>
    ensures ok { OnOk result (page.new ≡ page.old ++ records_text sized (records_of list lines.now)) }
    ensures front { OnErr result (take (length page.old) page.new ≡ page.old) }
{
    for place in 0..record_count(lines) {
        push_record(alloc, page, sized, list, lines_at(lines, place))?;
    }
    Ok(())
}
