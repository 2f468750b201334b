ghost use Rattle.std.specs.Prelude.{◌≡◌, ◌++◌, [], false, Ok, IfOk, OnOk, map};
ghost use Rattle.std.specs.List.{flat_map, range_with_len};
ghost use Rattle.list_versions.specs.Journal.{kept_of};
ghost use Rattle.list_versions.specs.Written.{change_text, journal_text, wholly};
ghost use Rattle.generated_load.specs.Exercise.{HasRoom};
ghost use Rattle.generated_load.specs.Generated.{change_at, generated};

use crate::changes::{LIST, SIZE, push_change_lines};
use crate::hosts::{host_of, number_after};
use list_versions::{Header, journals_read_as_written, push_header, push_list};
use sb_model::{Bytes, OutOfMemory};
use std::alloc::Global;

// Room for the lines of a change, four of which have one hash line each but the last.
const CHANGE_ROOM: usize = 120;

// Appends the changes of a seed.
fn push_changes(alloc: Global, page: &mut Bytes, count: u32, seed: u64) -> Result<(), OutOfMemory>
    ensures { OnOk result (page.new ≡ page.old ++ flat_map (change_text false) (map (change_at seed) (range_with_len 1 count))) }
{
    let mut text = Bytes::new(alloc);
    let mut host = host_of(seed, &mut text)?;
    for place in 0..count {
        let next = host_of(number_after(host.number), &mut text)?;
        push_change_lines(page, place + 1, &host.hash, &next.hash)?;
        host = next;
    }
    Ok(())
}

// An empty page, with room for so many changes.
fn page_for(alloc: Global, count: u32) -> Result<Bytes, OutOfMemory>
    ensures { IfOk result (λ page. page ≡ []) }
{
    Bytes::with_capacity(alloc, CHANGE_ROOM * (count as usize + 1))
}

// The text of the journal.
#[tactic(auto, unfolding(crate::specs::Generated::generated, list_versions::specs::Written::journal_text))]
fn journal_page(alloc: Global, count: u32, seed: u64) -> Result<Bytes, OutOfMemory>
    ensures { IfOk result (λ text. text ≡ journal_text false (generated count seed)) }
{
    let mut page = page_for(alloc, count)?;
    let first = Header {
        sized: false,
        epoch: seed,
    };
    push_header(&mut page, first)?;
    push_list(&mut page, LIST, SIZE)?;
    push_changes(alloc, &mut page, count, seed)?;
    Ok(page)
}

/// The journal of so many changes of a seed, in the first form. It has about 120 bytes for each change, and is read as their
/// history, where there are no more than a journal may have and each version is within the limits.
pub fn generated_journal(alloc: Global, count: u32, seed: u64) -> Result<Bytes, OutOfMemory>
    ensures text { IfOk result (λ text. text ≡ journal_text false (generated count seed)) }
    ensures reads { IfOk result (λ text. HasRoom count seed → kept_of text ≡ Ok (wholly false (generated count seed))) }
{
    journals_read_as_written();
    journal_page(alloc, count, seed)
}
