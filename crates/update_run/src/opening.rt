ghost use Rattle.std.specs.Prelude.{◌≡◌, ◌≢◌, ◌≤◌, ◌++◌, ℕ, List, [], None, Some, IfOk, OnOk, OnErr, IsErrOf, Err, length};
ghost use Rattle.client_store.specs.Reading.{store_reading};
ghost use Rattle.sb_outside.specs.Outside.{Rose};
ghost use Rattle.update_client.specs.Held.{most_lists};
ghost use Rattle.update_run.specs.Opening.{first_lists, HasLoaded, HasOpened};
ghost use Rattle.update_run.specs.Printed.{ignored_text};

use crate::printing::push_ignored_line;
use crate::{Client, RunStop};
use client_line::Line;
use client_store::{StoreFault, read_store, select};
use sb_model::{Bytes, ListName, OutOfMemory};
use sb_outside::Keeper;
use std::alloc::Global;
use update_client::ClientLists;
use wait_rules::WaitState;

/// Tells why a text that was kept is no store, and gives lists of which nothing was installed.
fn ignore_store(
    alloc: Global,
    names: &[ListName],
    fault: &StoreFault,
    page: &mut Bytes,
) -> Result<ClientLists, OutOfMemory>
    requires { length names.now ≤ most_lists }
    ensures lists { (text : List ℕ) → store_reading text ≡ Err fault.now
        → IfOk result (λ lists. lists ≡ first_lists names.now (Some text)) }
    ensures told { (text : List ℕ) → store_reading text ≡ Err fault.now
        → OnOk result (page.new ≡ page.old ++ ignored_text (Some text)) }
{
    push_ignored_line(page, fault)?;
    ClientLists::new(alloc, names)
}

/// The lists of a text that was kept.
fn stored_lists(
    alloc: Global,
    names: &[ListName],
    text: &[u8],
    page: &mut Bytes,
) -> Result<ClientLists, OutOfMemory>
    requires { length names.now ≤ most_lists }
    ensures lists { IfOk result (λ lists. lists ≡ first_lists names.now (Some text.now)) }
    ensures told { OnOk result (page.new ≡ page.old ++ ignored_text (Some text.now)) }
{
    match read_store(alloc, text) {
        Ok(store) => select(alloc, store, names),
        Err(StoreFault::OutOfMemory) => Err(OutOfMemory),
        Err(fault) => ignore_store(alloc, names, &fault, page),
    }
}

/// The lists that a run begins with, where this text was kept, or none.
fn lists_of(
    alloc: Global,
    names: &[ListName],
    kept: Option<Bytes>,
    page: &mut Bytes,
) -> Result<ClientLists, OutOfMemory>
    requires { length names.now ≤ most_lists }
    ensures lists { IfOk result (λ lists. lists ≡ first_lists names.now kept) }
    ensures told { OnOk result (page.new ≡ page.old ++ ignored_text kept) }
{
    match kept {
        Some(text) => stored_lists(alloc, names, text.as_slice(), page),
        None => ClientLists::new(alloc, names),
    }
}

/// Loads the lists that a run begins with: those of these names that the keeper keeps, and nothing of the others. If the text that is
/// kept is no store, all are empty, and the line that tells so waits in the page.
pub fn load_lists<K: Keeper>(
    alloc: Global,
    names: &[ListName],
    keep: &mut K,
    page: &mut Bytes,
) -> Result<ClientLists, RunStop>
    requires { length names.now ≤ most_lists }
    ensures loaded { IfOk result (λ lists. HasLoaded names.now (K.kept keep.old) lists page.old page.new) }
    ensures kept { K.kept keep.new ≡ K.kept keep.old }
    ensures handed { K.handed keep.new ≡ K.handed keep.old }
    ensures no_output { result ≢ Err RunStop.WriteFault }
    ensures failed { IsErrOf result RunStop.KeepFault → Rose (K.faults keep.old) (K.faults keep.new) }
    ensures counted { result ≢ Err RunStop.KeepFault → K.faults keep.new ≡ K.faults keep.old }
{
    let kept = keep.load(alloc)?;
    Ok(lists_of(alloc, names, kept, page)?)
}

// Reads the clock and draws a word, which say when the first request may be sent.
fn first_wait<N: Line>(line: &mut N) -> WaitState
    ensures opened { HasOpened result (N.view line.old).told (N.view line.new).told }
    ensures no_wait { (N.view line.new).told.waits ≡ (N.view line.old).told.waits }
    ensures unasked { (N.view line.new).told.log ≡ (N.view line.old).told.log }
    ensures faults { (N.view line.new).told.faults ≡ (N.view line.old).told.faults }
    ensures same { (N.view line.new).objects ≡ (N.view line.old).objects }
{
    let start = line.now();
    WaitState::first(start, line.word())
}

/// Begins a client of these lists: loads what the keeper keeps, and then reads the clock and draws a word, which say when the
/// first request may be sent ("Request Frequency" of the Safe Browsing Update API, version 4).
///
/// Where the text that is kept is no store, the client begins with empty lists, and the line that tells so waits in its page.
/// After an `Err` the clock was not read and no word was drawn. The output is no cause of one.
pub fn open_store<K: Keeper, N: Line>(
    alloc: Global,
    names: &[ListName],
    keep: &mut K,
    line: &mut N,
) -> Result<Client, RunStop>
    requires { length names.now ≤ most_lists }
    ensures loaded { IfOk result (λ client. HasLoaded names.now (K.kept keep.old) client.lists [] client.page) }

    ensures opened { IfOk result (λ client. HasOpened client.waits (N.view line.old).told (N.view line.new).told) }
    ensures untouched { OnErr result (N.view line.new ≡ N.view line.old) }
    ensures no_wait { (N.view line.new).told.waits ≡ (N.view line.old).told.waits }

    // No link is asked.
    ensures unasked { (N.view line.new).told.log ≡ (N.view line.old).told.log }
    ensures faults { (N.view line.new).told.faults ≡ (N.view line.old).told.faults }
    ensures same { (N.view line.new).objects ≡ (N.view line.old).objects }
    ensures kept { K.kept keep.new ≡ K.kept keep.old }
    ensures handed { K.handed keep.new ≡ K.handed keep.old }
    ensures no_output { result ≢ Err RunStop.WriteFault }

    // A fault of the keeper is counted, and nothing else is.
    ensures failed { IsErrOf result RunStop.KeepFault → Rose (K.faults keep.old) (K.faults keep.new) }
    ensures counted { result ≢ Err RunStop.KeepFault → K.faults keep.new ≡ K.faults keep.old }
{
    let mut page = Bytes::new(alloc);
    let lists = match load_lists(alloc, names, keep, &mut page) {
        Ok(lists) => lists,
        Err(stop) => return Err(stop),
    };
    let waits = first_wait(line);
    Ok(Client { lists, waits, page })
}
