ghost use Rattle.std.specs.Prelude.{◌≡◌, ◌≢◌, ◌⊎◌, true, false, ℕ, ◌<◌, ◌≤◌, List, [], ◌++◌, length, map, All, Ok, Err, IfOk, OnOk, IfErr, IsErrOf, slice_index_or};
ghost use Rattle.sb_outside.specs.Outside.{Rose};
ghost use Rattle.list_versions.specs.Draft.{history_of, kept_of_draft, IsDraft, before_record, KeepsFront};
ghost use Rattle.list_versions.specs.Loaded.{IsStem, IsNewest};
ghost use Rattle.list_versions.specs.Pieces.{ReadsAll, StopsAt};
ghost use Rattle.list_versions.specs.Renewing.{stays};
ghost use Rattle.list_versions.specs.declared.newest.Newest.{Newest as Ready};

use crate::JournalFault;
use crate::draft::Draft;
use crate::newest::Newest;
use crate::pieces::{read_further, take_records};
use crate::refreshing::freshen;
use crate::renewing::{Before, renew};
use sb_model::Bytes;
use sb_outside::Source;
use std::alloc::Global;

/// What a history has after it grew: the bytes of a record that has not ended, and the newest sets.
/// Those sets that stay are empty here.
#[derive(Debug, Drop)]
pub(crate) struct More {
    pub rest: Bytes,
    pub newest: Vec<Newest>,
}

/// Reads the records of a text, and then further records to the end of the input. The newest sets
/// are those of the history before.
pub(crate) fn read_more<S: Source>(
    alloc: Global,
    source: &mut S,
    buffer: &mut [u8],
    draft: &mut Draft,
    newest: &[Newest],
    stale: bool,
    text: Bytes,
) -> Result<More, JournalFault>
    requires buffer { 0 < length buffer.old }
    requires stem { IsStem draft.old }
    requires fresh { (stale ≡ true) ⊎ IsDraft draft.old }
    requires each { All (IsNewest (history_of draft.old)) newest.now }
    requires known { map (λ newest. newest.name) newest.now ≡ map (λ listed. listed.name) draft.old.lists.items }
    ensures draft { OnOk result (IsDraft draft.new) }
    ensures ok { IfOk result (λ more. ReadsAll (λ bytes. before_record draft.old [] (text ++ bytes))
        (kept_of_draft draft.new more.rest) (S.left source.old) (S.left source.new)) }
    ensures waits { IfOk result (λ more. before_record draft.new [] more.rest ≡ Ok (kept_of_draft draft.new more.rest)) }
    ensures few { IfOk result (λ more. length more.rest ≤ 132608) }
    ensures names { IfOk result (λ more. map (λ newest. newest.name) more.newest.items ≡ map (λ listed. listed.name) draft.new.lists.items) }
    ensures newest { IfOk result (λ more. (k : ℕ) (d : Ready) → k < length more.newest.items
        → stays draft.new.changes.items (record { lists = length draft.old.lists.items; changes = length draft.old.changes.items }) k (slice_index_or more.newest.items k d).name ≡ false
        → IsNewest (history_of draft.new) (slice_index_or more.newest.items k d)) }
    ensures fault { IfErr result (λ fault. StopsAt (λ bytes. before_record draft.old [] (text ++ bytes)) fault
        (S.left source.old) (S.left source.new)) }
    ensures front { KeepsFront draft.old draft.new }
    ensures failed { IsErrOf result JournalFault.ReadFault → Rose (S.faults source.old) (S.faults source.new) }
    ensures kept { result ≢ Err JournalFault.ReadFault → S.faults source.new ≡ S.faults source.old }
    ensures counted { S.faults source.old ≤ S.faults source.new }
    ensures other { S.back source.new ≡ S.back source.old }
{
    let before = Before {
        lists: draft.lists.len(),
        changes: draft.changes.len(),
    };
    let Ok(()) = freshen(alloc, draft, stale) else {
        return Err(JournalFault::OutOfMemory);
    };
    let text = match take_records(alloc, draft, text) {
        Ok(text) => text,
        Err(fault) => return Err(fault),
    };
    let rest = match read_further(alloc, source, buffer, draft, text) {
        Ok(rest) => rest,
        Err(fault) => return Err(fault),
    };
    match renew(alloc, draft, before, newest) {
        Ok(newest) => Ok(More { rest, newest }),
        Err(_) => Err(JournalFault::OutOfMemory),
    }
}
