ghost use Rattle.std.specs.Prelude.{◌≡◌, ◌<◌, ◌^◌, ℕ, List, length, map, All, Some, IfOk, OnOk};
ghost use Rattle.sb_model.specs.declared.history.Change.{Change};
ghost use Rattle.sb_model.specs.Prefixes.{set_of};
ghost use Rattle.list_versions.specs.Journal.{declared_size_of};
ghost use Rattle.sb_journal.specs.Changes.{sync_changes};
ghost use Rattle.sb_journal.specs.Feed.{hashes_in};
ghost use Rattle.sb_journal.specs.Refusals.{has_refused, refusals, refused_in};
ghost use Rattle.sb_journal.specs.Texts.{records_text};
ghost use Rattle.list_versions.specs.Written.{HaveDeclaredSizes, MayFollow};
ghost use Rattle.journal_run.specs.Synced.{IsSyncReply, feed_reply};
ghost use Rattle.journal_run.specs.Taken.{AreTaken, records_reply};

use crate::command::SyncLine;
use crate::held::newest_hashes;
use crate::lent::read_on;
use crate::reply::Reply;
use crate::unended::records_wait_for_their_turn;
use hash_prefixes::FullHash;
use list_versions::{History, JournalFault, records_are_read_as_their_changes};
use prefix_set::sets_go_by_members;
use sb_journal::{
    Feed, leading_lines, lines_have_hashes, push_records, put_in_order, read_feed,
    synced_records_may_follow,
};
use sb_model::{Bytes, ListName, OutOfMemory};
use std::alloc::Global;

/// The bytes of full hashes.
fn bytes_of(alloc: Global, hashes: &[FullHash]) -> Result<Vec<[u8; 32]>, OutOfMemory>
    ensures { IfOk result (λ all. all.items ≡ map (λ hash. hash.bytes) hashes.now) }
{
    let mut all = Vec::with_capacity(alloc, hashes.len())?;
    for hash in hashes {
        all.push(hash.bytes)?;
    }
    Ok(all)
}

/// The text of the records that lead a list with this declared size to these hashes.
fn sync_text(
    alloc: Global,
    history: &History,
    list: ListName,
    size: u8,
    mut wanted: Vec<[u8; 32]>,
) -> Result<Bytes, OutOfMemory>
    requires { declared_size_of history.now.versions list ≡ Some size }
    ensures text { IfOk result (λ text. text
        ≡ records_text history.now.sized (sync_changes history.now.versions list size (set_of wanted.items))) }
    ensures follow { OnOk result (All (MayFollow history.now.versions)
        (sync_changes history.now.versions list size (set_of wanted.items))) }
{
    sets_go_by_members();
    synced_records_may_follow();
    // looked at for the prover: a history is well-formed
    let _ = history.len();
    put_in_order(&mut wanted);
    let newest = newest_hashes(alloc, history, list)?;
    let held = bytes_of(alloc, newest.as_slice())?;
    let lines = leading_lines(alloc, size, held.as_slice(), wanted.as_slice())?;
    lines_have_hashes(lines.as_slice());
    let mut page = Bytes::new(alloc);
    push_records(alloc, &mut page, history.is_sized(), list, lines.as_slice())?;
    Ok(page)
}

/// The records of a text if the journal takes them, and else why it does not.
fn taken_reply(alloc: Global, mut history: History, text: Bytes) -> Result<Reply, OutOfMemory>
    ensures is { IfOk result (λ reply. reply ≡ records_reply text history) }
    ensures taken { IfOk result (λ reply. reply.status ≡ 0 → (changes : List Change) → text ≡ records_text history.sized changes
        → All (MayFollow history.versions) changes → HaveDeclaredSizes history.versions changes → AreTaken changes history) }
{
    records_are_read_as_their_changes();
    records_wait_for_their_turn();
    // looked at for the prover: what stands behind the last record is the front of one
    let _ = history.rest_len();
    match read_on(alloc, &mut history, text.as_slice()) {
        Ok(()) => Ok(Reply::done(text)),
        Err(JournalFault::OutOfMemory) => Err(OutOfMemory),
        Err(fault) => Reply::of_fault(alloc, fault),
    }
}

/// What the lines of an input come to, for a list with this declared size.
fn feed_reply(
    alloc: Global,
    line: &SyncLine,
    feed: Feed,
    history: History,
    size: u8,
) -> Result<Reply, OutOfMemory>
    requires { declared_size_of history.versions line.now.list ≡ Some size }
    ensures is { (input : List ℕ) → feed.hashes.items ≡ hashes_in input → feed.refusals ≡ refusals (refused_in input)
        → feed.has_refused ≡ has_refused (refused_in input)
        → IfOk result (λ reply. reply ≡ feed_reply line.now input history size) }
    ensures taken { IfOk result (λ reply. reply.status ≡ 0
        → AreTaken (sync_changes history.versions line.now.list size (set_of feed.hashes.items)) history) }
{
    synced_records_may_follow();
    let Feed {
        hashes,
        refusals,
        has_refused,
    } = feed;
    if has_refused && !line.skip {
        return Ok(Reply::refused(refusals));
    }
    if hashes.is_empty() && !line.empty {
        return Ok(Reply::refused(Bytes::from_slice(alloc, b"empty\n")?));
    }
    let text = sync_text(alloc, &history, line.list, size, hashes)?;
    taken_reply(alloc, history, text)
}

/// What an input comes to after a journal.
pub(crate) fn sync_reply(
    alloc: Global,
    line: &SyncLine,
    input: &[u8],
    history: History,
) -> Result<Reply, OutOfMemory>
    requires { length input.now < 2 ^ 32 }
    ensures { IfOk result (IsSyncReply line.now input.now history) }
{
    let Some(size) = history.declared(line.list) else {
        return Reply::of_unknown_list(alloc);
    };
    let feed = read_feed(alloc, input)?;
    feed_reply(alloc, line, feed, history, size)
}
