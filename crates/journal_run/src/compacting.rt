ghost use Rattle.std.specs.Prelude.{◌≡◌, ◌≢◌, ◌⊎◌, ◌++◌, ◌<◌, ◌^◌, true, Ok, All, IfOk, OnOk, OnErr};
ghost use Rattle.std.specs.List.{flat_map};
ghost use Rattle.hex.specs.Hex.{IsBytes};
ghost use Rattle.sb_outside.specs.Outside.{Rose};
ghost use Rattle.list_versions.specs.Written.{HasText, journal_text, declaration_line};
ghost use Rattle.sb_journal.specs.Compacted.{all_puts, compacted, newest_entries, puts_of};
ghost use Rattle.sb_journal.specs.Texts.{records_text};
ghost use Rattle.journal_run.specs.Compacting.{IsCompactReply};

use crate::lent::read_whole;
use crate::reply::Reply;
use list_versions::{
    Header, History, JournalFault, full_hashes_stand_once, push_header, push_list,
    texts_are_read_as_their_histories,
};
use sb_journal::{
    compacted_histories_have_texts, entries_have_bytes, push_puts, put_entries_in_order,
};
use sb_model::{Bytes, ListName, OutOfMemory};
use std::alloc::Global;

/// Appends the records that put in what a list has now.
fn push_newest(
    alloc: Global,
    page: &mut Bytes,
    history: &History,
    list: ListName,
) -> Result<(), OutOfMemory>
    ensures records { OnOk result (page.new
        ≡ page.old ++ records_text true (puts_of list (newest_entries history.now.versions list))) }
    ensures bytes { OnOk result (All (λ entry. IsBytes entry.hash) (newest_entries history.now.versions list)) }
{
    full_hashes_stand_once();
    let mut entries = history.newest_entries(alloc, list)?;
    put_entries_in_order(&mut entries);
    entries_have_bytes(entries.as_slice());
    push_puts(alloc, page, list, entries.as_slice())
}

/// Appends the records that put in what each of these lists has now.
fn push_each_newest(
    alloc: Global,
    page: &mut Bytes,
    history: &History,
    lists: &[(ListName, u8)],
) -> Result<(), OutOfMemory>
    ensures records { OnOk result (page.new ≡ page.old ++ records_text true (all_puts history.now.versions lists.now)) }
    ensures bytes { OnOk result (All (λ list. All (λ entry. IsBytes entry.hash) (newest_entries history.now.versions list.0))
        lists.now) }
{
    for list in lists {
        push_newest(alloc, page, history, list.0)?;
    }
    Ok(())
}

/// Appends the lines that declare lists.
fn push_lists(page: &mut Bytes, lists: &[(ListName, u8)]) -> Result<(), OutOfMemory>
    ensures { OnOk result (page.new ≡ page.old ++ flat_map declaration_line lists.now) }
{
    for list in lists {
        push_list(page, list.0, list.1)?;
    }
    Ok(())
}

/// The text of a journal 2 that tells a history anew.
#[tactic(auto, unfolding(list_versions::specs::Written::journal_text))]
fn compacted_text(alloc: Global, epoch: u64, history: &History) -> Result<Bytes, OutOfMemory>
    ensures text { IfOk result (λ text. text ≡ journal_text true (compacted epoch history.now.versions)) }
    ensures has { OnOk result (HasText (compacted epoch history.now.versions)) }
{
    compacted_histories_have_texts();
    // looked at for the prover: a history is well-formed
    let _ = history.len();
    let lists = history.lists(alloc)?;
    let mut page = Bytes::new(alloc);
    push_header(&mut page, Header { sized: true, epoch })?;
    push_lists(&mut page, lists.as_slice())?;
    push_each_newest(alloc, &mut page, history, lists.as_slice())?;
    Ok(page)
}

/// What a journal comes to with this epoch.
pub(crate) fn compact_reply(
    alloc: Global,
    epoch: u64,
    history: History,
) -> Result<Reply, OutOfMemory>
    ensures { IfOk result (IsCompactReply epoch history) }
{
    texts_are_read_as_their_histories();
    let text = compacted_text(alloc, epoch, &history)?;
    drop(history);
    match read_whole(alloc, text.as_slice()) {
        Ok(_) => Ok(Reply::done(text)),
        Err(JournalFault::OutOfMemory) => Err(OutOfMemory),
        Err(fault) => Reply::of_fault(alloc, fault),
    }
}
