ghost use Rattle.std.specs.Prelude.{◌≡◌, ◌≢◌, ◌⊎◌, ℕ, ◌-◌, ◌^◌, ◌<◌, ◌≤◌, Bool, List, [], ◌++◌, length, drop, vec_len, Ok, Err, IfOk, OnOk, OnErr, IfErr, IfSome, IfNone, IsErrOf};
ghost use Rattle.sb_outside.specs.Outside.{Rose, GivesFront};
ghost use Rattle.list_versions.specs.Draft.{kept_of_draft, IsDraft, before_record, KeepsFront};
ghost use Rattle.list_versions.specs.Journal.{kept_of, after_bytes};
ghost use Rattle.list_versions.specs.Loaded.{Gives, JournalOutcome};
ghost use Rattle.list_versions.specs.Pieces.{reading_after_header, IsBegun, ReadsAll, StopsAt};
ghost use Rattle.list_versions.specs.Split.{IsFront, EndsWith};

use crate::JournalFault;
use crate::draft::Draft;
use crate::heads::Header;
use crate::lines::read_header;
use crate::split::next_line;
use sb_model::{Bytes, OutOfMemory};
use sb_outside::{ReadFault, Source, read_piece};
use std::alloc::Global;

/// How many bytes a read asks for.
pub(crate) const PIECE: usize = 262_144;

/// How many bytes the first read of further ones asks for. Mostly there is none, and a buffer is filled with zeros first.
pub(crate) const FIRST_PIECE: usize = 4_096;

/// The first line is not that of a journal.
#[derive(Clone, Copy, Debug)]
pub(crate) struct BadHeader;

pub(crate) fn buffer_of(alloc: Global, size: usize) -> Result<Vec<u8>, OutOfMemory>
    ensures { IfOk result (λ buffer. vec_len buffer ≡ size) }
{
    Ok(vec![in alloc; 0; size]?)
}

// The last `count` bytes, moved to the front.
fn last_bytes(text: Bytes, count: usize) -> Bytes
    requires { count ≤ length text }
    ensures { result ≡ drop (length text - count) text }
{
    let mut items = text.into_vec();
    let from = items.len() - count;
    items.copy_within(from.., 0);
    items.truncate(count);
    Bytes::from_vec(items)
}

// The first line of a journal, and what stands after it; `None` where it has not ended.
fn first_of(text: &[u8]) -> Result<Option<(Header, &[u8])>, BadHeader>
    ensures back { IfOk result (λ found. IfSome found (λ first. EndsWith text.now first.1.now)) }
    ensures begun { IfOk result (λ found. IfSome found (λ first. (more : List ℕ)
        → kept_of (text.now ++ more) ≡ after_bytes (reading_after_header first.0) (first.1.now ++ more))) }
    ensures front { IfOk result (λ found. IfNone found (IsFront text.now)) }
    ensures bad { OnErr result ((more : List ℕ) → kept_of (text.now ++ more) ≡ Err JournalFault.Header) }
{
    let (line, rest) = match next_line(text) {
        Ok(Some(halves)) => halves,
        Ok(None) => return Ok(None),
        Err(_) => return Err(BadHeader),
    };
    let Some(header) = read_header(line) else {
        return Err(BadHeader);
    };
    Ok(Some((header, rest)))
}

/// Reads up to the end of the first line of a journal, in large pieces. What came after it is the
/// text.
pub(crate) fn read_first<S: Source>(
    alloc: Global,
    source: &mut S,
    buffer: &mut [u8],
) -> Result<(Header, Bytes), JournalFault>
    requires { 0 < length buffer.old }
    ensures ok { IfOk result (λ first. IsBegun first.0 first.1 (S.left source.old) (S.left source.new)) }
    ensures fault { IfErr result (λ fault. (bytes : List ℕ) × (ended : Bool)
        × Gives bytes ended (S.left source.old) (S.left source.new) × JournalOutcome bytes ended (Err fault)) }
    ensures failed { IsErrOf result JournalFault.ReadFault → Rose (S.faults source.old) (S.faults source.new) }
    ensures kept { result ≢ Err JournalFault.ReadFault → S.faults source.new ≡ S.faults source.old }
    ensures counted { S.faults source.old ≤ S.faults source.new }
    ensures other { S.back source.new ≡ S.back source.old }
{
    let mut text = Bytes::new(alloc);
    'first: loop {
        match first_of(text.as_slice()) {
            Ok(Some((header, rest))) => {
                let count = rest.len();
                return Ok((header, last_bytes(text, count)));
            }
            Ok(None) => {}
            Err(_) => return Err(JournalFault::Header),
        }
        match read_piece(source, buffer, &mut text) {
            Ok(0) => return Err(JournalFault::Header),
            Ok(_) => {}
            Err(ReadFault::Failed) => return Err(JournalFault::ReadFault),
            Err(ReadFault::OutOfMemory) => return Err(JournalFault::OutOfMemory),
        }
    }
}

/// Reads the records of a text, and keeps what stands after them.
pub(crate) fn take_records(
    alloc: Global,
    draft: &mut Draft,
    text: Bytes,
) -> Result<Bytes, JournalFault>
    requires { IsDraft draft.old }
    ensures draft { OnOk result (IsDraft draft.new) }
    ensures moves { IfOk result (λ rest. (more : List ℕ)
        → before_record draft.old [] (text ++ more) ≡ before_record draft.new [] (rest ++ more)) }
    ensures waits { IfOk result (λ rest. before_record draft.new [] rest ≡ Ok (kept_of_draft draft.new rest)) }
    ensures few { IfOk result (λ rest. length rest ≤ 132608) }
    ensures fault { IfErr result (λ fault. (fault ≡ JournalFault.OutOfMemory)
        ⊎ ((more : List ℕ) → before_record draft.old [] (text ++ more) ≡ Err fault)) }
    ensures line { IfErr result (λ fault. fault ≢ JournalFault.ReadFault) }
    ensures front { KeepsFront draft.old draft.new }
{
    let count = match draft.read_records(alloc, text.as_slice()) {
        Ok(rest) => rest.len(),
        Err(fault) => return Err(fault),
    };
    Ok(last_bytes(text, count))
}

/// Reads further records to the end of the input, in large pieces. The text is the front of a record
/// that has not ended.
pub(crate) fn read_further<S: Source>(
    alloc: Global,
    source: &mut S,
    buffer: &mut [u8],
    draft: &mut Draft,
    text: Bytes,
) -> Result<Bytes, JournalFault>
    requires buffer { 0 < length buffer.old }
    requires draft { IsDraft draft.old }
    requires waits { before_record draft.old [] text ≡ Ok (kept_of_draft draft.old text) }
    requires few { length text ≤ 132608 }
    ensures draft { OnOk result (IsDraft draft.new) }
    ensures ok { IfOk result (λ rest. ReadsAll (λ bytes. before_record draft.old [] (text ++ bytes))
        (kept_of_draft draft.new rest) (S.left source.old) (S.left source.new)) }
    ensures waits { IfOk result (λ rest. before_record draft.new [] rest ≡ Ok (kept_of_draft draft.new rest)) }
    ensures few { IfOk result (λ rest. length rest ≤ 132608) }
    ensures fault { IfErr result (λ fault. StopsAt (λ bytes. before_record draft.old [] (text ++ bytes)) fault
        (S.left source.old) (S.left source.new)) }
    ensures front { KeepsFront draft.old draft.new }
    ensures failed { IsErrOf result JournalFault.ReadFault → Rose (S.faults source.old) (S.faults source.new) }
    ensures kept { result ≢ Err JournalFault.ReadFault → S.faults source.new ≡ S.faults source.old }
    ensures counted { S.faults source.old ≤ S.faults source.new }
    ensures other { S.back source.new ≡ S.back source.old }
{
    let mut text = text;
    'pieces: for _ in 0..u64::MAX {
        match read_piece(source, buffer, &mut text) {
            Ok(0) => return Ok(text),
            Ok(_) => {}
            Err(ReadFault::Failed) => return Err(JournalFault::ReadFault),
            Err(ReadFault::OutOfMemory) => return Err(JournalFault::OutOfMemory),
        }
        text = match take_records(alloc, draft, text) {
            Ok(rest) => rest,
            Err(fault) => return Err(fault),
        };
    }
    Err(JournalFault::OutOfMemory)
}
