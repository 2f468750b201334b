ghost use Rattle.std.specs.Prelude.{◌≡◌, ◌<◌, ◌≤◌, ◌^◌, ◌++◌, [], ◌∷◌, length, map, IfOk, OnOk};
ghost use Rattle.proto_wire.specs.Spelling.{written_field, written_fields};
ghost use Rattle.update_messages.specs.declared.sets.Additions.TheVariants as added;
ghost use Rattle.proto_messages.specs.Writing as spec;

use crate::sizes::{
    addition_size, additions_size, field_size, indices_size, packed_size, raw_size, removal_size,
    removals_size, rice_size, sum,
};
use crate::writing::{push_duration, push_wrapped};
use proto_wire::{bytes_len, number_len, push_bytes, push_number, push_open, push_varint};
use rice_coding::RiceRecord;
use sb_model::{Bytes, OutOfMemory};
use std::alloc::Global;
use update_messages::{Additions, FetchResponse, ListUpdate, Removals};

/// Appends a Rice record.
#[tactic(auto, using(crate::proofs::WritingFacts::rice_written))]
fn push_rice(out: &mut Bytes, field: u32, rice: &RiceRecord) -> Result<(), OutOfMemory>
    ensures { OnOk result (out.new ≡ out.old ++ written_field (spec.message_field field (spec.rice_fields rice.now))) }
{
    push_open(out, field, rice_size(rice)?)?;
    push_number(out, 1, rice.first)?;
    push_number(out, 2, u64::from(rice.parameter))?;
    push_number(out, 3, u64::from(rice.count))?;
    push_bytes(out, 4, rice.coded.as_slice())
}

/// Appends prefixes of one size.
#[tactic(auto, using(crate::proofs::WritingFacts::raw_written, crate::proofs::WritingFacts::raw_alone))]
fn push_raw(out: &mut Bytes, field: u32, size: u8, bytes: &[u8]) -> Result<(), OutOfMemory>
    ensures { OnOk result (out.new ≡ out.old ++ written_field (spec.message_field field (spec.raw_fields size bytes.now))) }
{
    push_open(out, field, raw_size(size, bytes)?)?;
    push_number(out, 1, u64::from(size))?;
    if bytes.is_empty() {
        return Ok(());
    }
    push_bytes(out, 2, bytes)
}

/// Appends packed numbers.
#[tactic(auto, using(crate::proofs::WritingFacts::matches_more, crate::proofs::WritingFacts::with_nothing))]
fn push_packed(out: &mut Bytes, numbers: &[u32]) -> Result<(), OutOfMemory>
    ensures { OnOk result (out.new ≡ out.old ++ spec.packed_varint_bytes numbers.now) }
{
    let mut rest = numbers;
    while let Some((number, more)) = rest.split_first() {
        push_varint(out, u64::from(*number))?;
        rest = more;
    }
    Ok(())
}

/// Appends places.
#[tactic(auto, using(crate::proofs::WritingFacts::indices_written))]
fn push_indices(out: &mut Bytes, field: u32, indices: &[u32]) -> Result<(), OutOfMemory>
    ensures { OnOk result (out.new ≡ out.old ++ written_field (spec.message_field field (spec.indices_fields indices.now))) }
{
    push_open(out, field, indices_size(indices)?)?;
    push_open(out, 1, packed_size(indices)?)?;
    push_packed(out, indices)
}

/// Appends a set of additions.
#[tactic(auto, using(crate::proofs::WritingFacts::set_written))]
fn push_addition(out: &mut Bytes, set: &Additions) -> Result<(), OutOfMemory>
    ensures { OnOk result (out.new ≡ out.old ++ written_field (spec.addition_field set.now)) }
{
    push_open(out, 5, addition_size(set)?)?;
    match set {
        Additions::Raw { size, bytes } => {
            push_number(out, 1, 1)?;
            push_raw(out, 2, *size, bytes.as_slice())
        }
        Additions::Rice(rice) => {
            push_number(out, 1, 2)?;
            push_rice(out, 4, rice)
        }
    }
}

/// Appends sets of additions.
#[tactic(auto, using(crate::proofs::WritingFacts::matches_more, crate::proofs::WritingFacts::with_nothing))]
fn push_additions(out: &mut Bytes, sets: &[Additions]) -> Result<(), OutOfMemory>
    ensures { OnOk result (out.new ≡ out.old ++ written_fields (map spec.addition_field sets.now)) }
{
    let mut rest = sets;
    while let Some((set, more)) = rest.split_first() {
        push_addition(out, set)?;
        rest = more;
    }
    Ok(())
}

/// Appends a set of removals.
#[tactic(auto, using(crate::proofs::WritingFacts::set_written))]
fn push_removal(out: &mut Bytes, set: &Removals) -> Result<(), OutOfMemory>
    ensures { OnOk result (out.new ≡ out.old ++ written_field (spec.removal_field set.now)) }
{
    push_open(out, 6, removal_size(set)?)?;
    match set {
        Removals::Raw(indices) => {
            push_number(out, 1, 1)?;
            push_indices(out, 3, indices.as_slice())
        }
        Removals::Rice(rice) => {
            push_number(out, 1, 2)?;
            push_rice(out, 5, rice)
        }
    }
}

/// Appends sets of removals.
#[tactic(auto, using(crate::proofs::WritingFacts::matches_more, crate::proofs::WritingFacts::with_nothing))]
fn push_removals(out: &mut Bytes, sets: &[Removals]) -> Result<(), OutOfMemory>
    ensures { OnOk result (out.new ≡ out.old ++ written_fields (map spec.removal_field sets.now)) }
{
    let mut rest = sets;
    while let Some((set, more)) = rest.split_first() {
        push_removal(out, set)?;
        rest = more;
    }
    Ok(())
}

/// The sets of additions that are sent. `none` is one raw set without hashes.
fn sent<'a>(update: &'a ListUpdate, none: &'a [Additions]) -> &'a [Additions]
    requires { none.now ≡ added.Raw 4 [] ∷ [] }
    ensures { result.now ≡ spec.sent_additions update.now.full update.now.additions }
{
    if update.full && update.additions.is_empty() {
        return none;
    }
    update.additions.as_slice()
}

/// How many bytes the fields before the sets of an update take.
#[tactic(auto, using(crate::proofs::WritingFacts::length_of_more))]
fn kinds_len(threat: u64, update: &ListUpdate) -> usize
    ensures len { result ≡ length (written_fields (spec.kind_fields threat update.now)) }
    ensures few { result ≤ 80 }
{
    number_len(1, threat)
        + number_len(2, u64::from(update.name.entry.code()))
        + number_len(3, u64::from(update.name.platform.code()))
        + number_len(4, response_number(update.full))
}

fn response_number(full: bool) -> u64
    ensures { result ≡ spec.response_number full }
{
    if full { 2 } else { 1 }
}

/// How many bytes the fields behind the sets of an update take.
#[tactic(auto, using(crate::proofs::WritingFacts::end_length))]
fn end_size(update: &ListUpdate) -> Result<usize, OutOfMemory>
    ensures value { IfOk result (λ size. size ≡ length (written_fields (spec.end_fields update.now))) }
    ensures limit { IfOk result (λ size. size < 2 ^ 63) }
{
    let state = field_size(7, update.new_state.as_slice().len())?;
    let digest = bytes_len(1, update.checksum.len());
    let checksum = field_size(8, digest)?;
    let size = sum(state, checksum)?;
    Ok(size)
}

/// How many bytes the fields of an update take, of which these sets of additions are sent.
#[tactic(auto, using(crate::proofs::WritingFacts::length_of_both))]
fn update_size(threat: u64, update: &ListUpdate, sets: &[Additions]) -> Result<usize, OutOfMemory>
    requires { sets.now ≡ spec.sent_additions update.now.full update.now.additions }
    ensures value { IfOk result (λ size. size ≡ length (written_fields (spec.update_fields threat update.now))) }
    ensures limit { IfOk result (λ size. size < 2 ^ 63) }
{
    let additions = additions_size(sets)?;
    let removals = removals_size(update.removals.as_slice())?;
    let sets = sum(additions, removals)?;
    let end = end_size(update)?;
    let rest = sum(sets, end)?;
    let size = sum(kinds_len(threat, update), rest)?;
    Ok(size)
}

/// Appends the fields before the sets of an update.
#[tactic(auto, using(crate::proofs::WritingFacts::four_fields))]
fn push_kinds(out: &mut Bytes, threat: u64, update: &ListUpdate) -> Result<(), OutOfMemory>
    ensures { OnOk result (out.new ≡ out.old ++ written_fields (spec.kind_fields threat update.now)) }
{
    push_number(out, 1, threat)?;
    push_number(out, 2, u64::from(update.name.entry.code()))?;
    push_number(out, 3, u64::from(update.name.platform.code()))?;
    push_number(out, 4, response_number(update.full))
}

/// Appends the fields behind the sets of an update.
#[tactic(auto, using(crate::proofs::WritingFacts::two_fields))]
fn push_end(out: &mut Bytes, update: &ListUpdate) -> Result<(), OutOfMemory>
    ensures { OnOk result (out.new ≡ out.old ++ written_fields (spec.end_fields update.now)) }
{
    push_bytes(out, 7, update.new_state.as_slice())?;
    push_wrapped(out, 8, 1, &update.checksum)
}

/// Appends an update, of which these sets of additions are sent.
#[tactic(auto, using(crate::proofs::WritingFacts::update_written))]
fn push_sent(
    out: &mut Bytes,
    threat: u64,
    update: &ListUpdate,
    sets: &[Additions],
) -> Result<(), OutOfMemory>
    requires { sets.now ≡ spec.sent_additions update.now.full update.now.additions }
    ensures { OnOk result (out.new ≡ out.old ++ written_field (spec.update_field threat update.now)) }
{
    push_open(out, 1, update_size(threat, update, sets)?)?;
    push_kinds(out, threat, update)?;
    push_additions(out, sets)?;
    push_removals(out, update.removals.as_slice())?;
    push_end(out, update)
}

/// Appends an update.
fn push_update(
    alloc: Global,
    out: &mut Bytes,
    threat: u64,
    update: &ListUpdate,
) -> Result<(), OutOfMemory>
    ensures { OnOk result (out.new ≡ out.old ++ written_field (spec.update_field threat update.now)) }
{
    let none = [Additions::Raw {
        size: 4,
        bytes: Bytes::new(alloc),
    }];
    push_sent(out, threat, update, sent(update, &none))
}

/// The first of some numbers, and the code of an update's threat if there is none.
fn first_number(numbers: &[u64], update: &ListUpdate) -> u64
    ensures { result ≡ spec.first_number numbers.now update.now }
{
    match numbers.split_first() {
        Some((number, _)) => *number,
        None => u64::from(update.name.threat.code()),
    }
}

/// The numbers after the first.
fn after_first(numbers: &[u64]) -> &[u64]
    ensures { result.now ≡ spec.numbers_after_first numbers.now }
{
    match numbers.split_first() {
        Some((_, later)) => later,
        None => numbers,
    }
}

/// Appends updates.
#[tactic(auto, using(crate::proofs::WritingFacts::matches_more, crate::proofs::WritingFacts::with_nothing))]
fn push_updates(
    alloc: Global,
    out: &mut Bytes,
    threats: &[u64],
    updates: &[ListUpdate],
) -> Result<(), OutOfMemory>
    ensures { OnOk result (out.new ≡ out.old ++ written_fields (spec.updates_written threats.now updates.now)) }
{
    let mut numbers = threats;
    let mut rest = updates;
    while let Some((update, more)) = rest.split_first() {
        push_update(alloc, out, first_number(numbers, update), update)?;
        numbers = after_first(numbers);
        rest = more;
    }
    Ok(())
}

/// Writes the answer to a fetch request (`FetchThreatListUpdatesResponse`). The numbers are those by which the threats of its updates
/// were asked, one for each update, in their order: the caller leaves out those of lists that it does not answer. An update beyond
/// them has its threat's own code. A full update without additions is written with one raw set of the size 4 without hashes, and the
/// state that an update was made for is not written.
///
/// Its one fault is `OutOfMemory`: memory was refused, or the bytes would be 2 ^ 63 or more, which no memory holds.
#[tactic(auto, using(crate::proofs::WritingFacts::written_both), unfolding(crate::specs::Writing::fetch_answer_bytes))]
pub fn write_fetch(
    alloc: Global,
    message: &FetchResponse,
    threats: &[u64],
) -> Result<Bytes, OutOfMemory>
    ensures { IfOk result (λ bytes. bytes ≡ spec.fetch_answer_bytes threats.now message.now) }
{
    let mut out = Bytes::new(alloc);
    push_updates(alloc, &mut out, threats, message.items.as_slice())?;
    push_duration(&mut out, 2, message.wait)?;
    Ok(out)
}
