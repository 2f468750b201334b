ghost use Rattle.std.specs.Prelude.{◌≡◌, ◌++◌, ◌≤◌, true, length, decimal, IfOk, OnOk};
ghost use Rattle.std.specs.List.{flat_map};
ghost use Rattle.sb_model.specs.History.{declares, prefixes_at, version_count};
ghost use Rattle.journal_run.specs.Checked.{check_reply, list_status, rest_of, room_status, used_of};

use crate::held::newest_hashes;
use crate::reply::Reply;
use list_versions::History;
use sb_model::{Bytes, ListName, OutOfMemory, write_list_name};
use std::alloc::Global;

/// The most changes that a journal has, and the most hash lines.
const MOST_CHANGES: u64 = 65_536;

const MOST_HASH_LINES: u64 = 2_097_152;

/// Appends a number and what it counts.
fn push_count(page: &mut Bytes, count: u64, name: &[u8]) -> Result<(), OutOfMemory>
    ensures { OnOk result (page.new ≡ page.old ++ (decimal count ++ name.now)) }
{
    page.append_decimal(count)?;
    page.append(name)
}

/// How many prefixes a declared list has now.
fn prefix_count(history: &History, list: ListName) -> u32
    requires { declares history.now.versions list ≡ true }
    ensures { result ≡ length (prefixes_at history.now.versions list (version_count history.now.versions)) }
{
    match history.newest(list) {
        Some(newest) => newest.set.len(),
        None => 0,
    }
}

/// Appends the line of a list with its declared size.
#[tactic(auto, unfolding(crate::specs::Checked::list_status))]
fn push_list_status(
    alloc: Global,
    page: &mut Bytes,
    history: &History,
    list: ListName,
    size: u8,
) -> Result<(), OutOfMemory>
    requires { declares history.now.versions list ≡ true }
    ensures { OnOk result (page.new ≡ page.old ++ list_status history.now.versions (list, size)) }
{
    let name = write_list_name(alloc, list)?;
    let hashes = newest_hashes(alloc, history, list)?;
    page.append(name.as_slice())?;
    page.push(b' ')?;
    push_count(page, u64::from(size), b", ")?;
    push_count(page, hashes.len() as u64, b" hashes, ")?;
    push_count(page, u64::from(prefix_count(history, list)), b" prefixes\n")
}

/// Appends how many of something there are, and how many more there may be.
#[tactic(auto, unfolding(crate::specs::Checked::used_of))]
fn push_used(page: &mut Bytes, count: u64, most: u64, name: &[u8]) -> Result<(), OutOfMemory>
    requires { count ≤ most }
    ensures { OnOk result (page.new ≡ page.old ++ used_of count most name.now) }
{
    page.append_decimal(count)?;
    page.push(b' ')?;
    page.append(name)?;
    page.append(b", ")?;
    push_count(page, most - count, b" left; ")
}

/// Appends how many bytes the record has that has not ended.
#[tactic(auto, unfolding(crate::specs::Checked::rest_of))]
fn push_rest(page: &mut Bytes, count: u32) -> Result<(), OutOfMemory>
    ensures { OnOk result (page.new ≡ page.old ++ rest_of count) }
{
    page.append_decimal(u64::from(count))?;
    page.append(b" bytes of a record that has not ended")?;
    page.push(b'\n')
}

/// Appends the line of what is left.
#[tactic(auto, unfolding(crate::specs::Checked::room_status))]
fn push_room_status(page: &mut Bytes, history: &History) -> Result<(), OutOfMemory>
    ensures { OnOk result (page.new ≡ page.old ++ room_status history.now) }
{
    push_used(page, history.len(), MOST_CHANGES, b"changes")?;
    push_used(page, history.hash_lines(), MOST_HASH_LINES, b"hash lines")?;
    push_rest(page, history.rest_len())
}

/// Appends the lines of the declared lists.
fn push_each_status(
    alloc: Global,
    page: &mut Bytes,
    history: &History,
    lists: &[(ListName, u8)],
) -> Result<(), OutOfMemory>
    requires { lists.now ≡ history.now.versions.declared }
    ensures { OnOk result (page.new ≡ page.old ++ flat_map (list_status history.now.versions) lists.now) }
{
    for list in lists {
        push_list_status(alloc, page, history, list.0, list.1)?;
    }
    Ok(())
}

/// What is said of a journal.
pub(crate) fn check_reply(alloc: Global, history: &History) -> Result<Reply, OutOfMemory>
    ensures { IfOk result (λ reply. reply ≡ check_reply history.now) }
{
    let mut page = Bytes::new(alloc);
    let lists = history.lists(alloc)?;
    push_each_status(alloc, &mut page, history, lists.as_slice())?;
    push_room_status(&mut page, history)?;
    Ok(Reply::done(page))
}
