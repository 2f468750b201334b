ghost use Rattle.std.specs.Prelude.{◌≡◌, ◌+◌, ◌<◌, ◌≤◌, ◌^◌, [], ◌∷◌, ◌++◌, length, IfOk, OnOk};
ghost use Rattle.proto_wire.specs.Wire.{bytes_field};
ghost use Rattle.proto_wire.specs.Spelling.{written_field, written_fields};
ghost use Rattle.proto_messages.specs.Writing as spec;

use proto_wire::{bytes_len, number_len, push_bytes, push_number, push_open};
use sb_model::{Bytes, Duration, OutOfMemory};

/// Appends a number, unless it is 0.
#[tactic(auto, using(crate::proofs::WritingFacts::with_nothing, crate::proofs::WritingFacts::with_one))]
pub(crate) fn push_unless_zero(out: &mut Bytes, field: u32, number: u64) -> Result<(), OutOfMemory>
    ensures { OnOk result (out.new ≡ out.old ++ written_fields (spec.number_unless_zero field number)) }
{
    if number == 0 {
        return Ok(());
    }
    push_number(out, field, number)
}

/// How many bytes that takes.
#[tactic(auto, using(crate::proofs::WritingFacts::length_of_one))]
fn unless_zero_len(field: u32, number: u64) -> usize
    ensures len { result ≡ length (written_fields (spec.number_unless_zero field number)) }
    ensures few { result ≤ 20 }
{
    if number == 0 {
        return 0;
    }
    number_len(field, number)
}

/// How many bytes the fields of a duration take.
#[tactic(auto, using(crate::proofs::WritingFacts::length_of_both))]
fn duration_len(duration: Duration) -> usize
    ensures len { result ≡ length (written_fields (spec.duration_fields duration)) }
    ensures few { result ≤ 40 }
{
    unless_zero_len(1, duration.seconds()) + unless_zero_len(2, u64::from(duration.nanos()))
}

/// Appends a duration, unless it is zero.
#[tactic(auto, using(crate::proofs::WritingFacts::nothing_if_zero, crate::proofs::WritingFacts::duration_written))]
pub(crate) fn push_duration(
    out: &mut Bytes,
    field: u32,
    duration: Duration,
) -> Result<(), OutOfMemory>
    ensures { OnOk result (out.new ≡ out.old ++ written_fields (spec.duration_field field duration)) }
{
    if duration.seconds() == 0 && duration.nanos() == 0 {
        return Ok(());
    }
    push_open(out, field, duration_len(duration))?;
    push_unless_zero(out, 1, duration.seconds())?;
    push_unless_zero(out, 2, u64::from(duration.nanos()))
}

/// Appends a message whose only field is bytes.
#[tactic(auto, using(crate::proofs::WritingFacts::wrapped))]
pub(crate) fn push_wrapped(
    out: &mut Bytes,
    outer: u32,
    inner: u32,
    bytes: &[u8],
) -> Result<(), OutOfMemory>
    ensures { OnOk result (out.new
        ≡ out.old ++ written_field (spec.message_field outer (bytes_field inner bytes.now ∷ []))) }
{
    push_open(out, outer, bytes_len(inner, bytes.len()))?;
    push_bytes(out, inner, bytes)
}
