ghost use Rattle.std.specs.Prelude.{◌≡◌, ◌+◌, ◌<◌, ◌≤◌, ◌^◌, length, map, IfOk};
ghost use Rattle.proto_wire.specs.Wire.{number_field};
ghost use Rattle.proto_wire.specs.Spelling.{written_opening, written_field, written_fields};
ghost use Rattle.proto_messages.specs.Writing as spec;

use proto_wire::{bytes_len, number_len, varint_len};
use rice_coding::RiceRecord;
use sb_model::OutOfMemory;
use update_messages::{Additions, Removals};

/// Bytes in memory are fewer.
const MOST_SIZE: usize = 1 << 63;

/// The sum of two sizes. A sum that no memory holds is refused.
pub(crate) fn sum(a: usize, b: usize) -> Result<usize, OutOfMemory>
    requires a { a < 2 ^ 63 }
    requires b { b < 2 ^ 63 }
    ensures value { IfOk result (λ sum. sum ≡ a + b) }
    ensures limit { IfOk result (λ sum. sum < 2 ^ 63) }
{
    if a + b >= MOST_SIZE {
        return Err(OutOfMemory);
    }
    Ok(a + b)
}

/// How many bytes a field of so many bytes takes.
pub(crate) fn field_size(field: u32, count: usize) -> Result<usize, OutOfMemory>
    requires { count < 2 ^ 63 }
    ensures value { IfOk result (λ size. size ≡ length (written_opening field count) + count) }
    ensures limit { IfOk result (λ size. size < 2 ^ 63) }
{
    let size = bytes_len(field, count);
    if size >= MOST_SIZE {
        return Err(OutOfMemory);
    }
    Ok(size)
}

/// How many bytes the fields of a Rice record take.
#[tactic(auto, using(crate::proofs::WritingFacts::rice_length))]
pub(crate) fn rice_size(rice: &RiceRecord) -> Result<usize, OutOfMemory>
    ensures value { IfOk result (λ size. size ≡ length (written_fields (spec.rice_fields rice.now))) }
    ensures limit { IfOk result (λ size. size < 2 ^ 63) }
{
    let numbers = number_len(1, rice.first)
        + number_len(2, u64::from(rice.parameter))
        + number_len(3, u64::from(rice.count));
    let coded = field_size(4, rice.coded.as_slice().len())?;
    let size = sum(numbers, coded)?;
    Ok(size)
}

/// How many bytes the fields of prefixes of one size take.
#[tactic(auto, using(crate::proofs::WritingFacts::raw_length_none, crate::proofs::WritingFacts::raw_length_some))]
pub(crate) fn raw_size(size: u8, bytes: &[u8]) -> Result<usize, OutOfMemory>
    ensures value { IfOk result (λ all. all ≡ length (written_fields (spec.raw_fields size bytes.now))) }
    ensures limit { IfOk result (λ all. all < 2 ^ 63) }
{
    let head = number_len(1, u64::from(size));
    if bytes.is_empty() {
        return Ok(head);
    }
    let hashes = field_size(2, bytes.len())?;
    let all = sum(head, hashes)?;
    Ok(all)
}

/// How many bytes packed numbers take.
#[tactic(auto, using(crate::proofs::WritingFacts::length_of_packed))]
pub(crate) fn packed_size(numbers: &[u32]) -> Result<usize, OutOfMemory>
    ensures value { IfOk result (λ size. size ≡ length (spec.packed_varint_bytes numbers.now)) }
    ensures limit { IfOk result (λ size. size < 2 ^ 63) }
{
    let mut size = 0;
    let mut rest = numbers;
    while let Some((number, more)) = rest.split_first() {
        size = sum(size, varint_len(u64::from(*number)))?;
        rest = more;
    }
    Ok(size)
}

/// How many bytes the fields of places take.
#[tactic(auto, using(crate::proofs::WritingFacts::alone_length))]
pub(crate) fn indices_size(indices: &[u32]) -> Result<usize, OutOfMemory>
    ensures value { IfOk result (λ size. size ≡ length (written_fields (spec.indices_fields indices.now))) }
    ensures limit { IfOk result (λ size. size < 2 ^ 63) }
{
    let packed = packed_size(indices)?;
    let size = field_size(1, packed)?;
    Ok(size)
}

/// How many bytes the number of a compression and a message of so many bytes take.
fn set_size(compression: u64, field: u32, count: usize) -> Result<usize, OutOfMemory>
    requires { count < 2 ^ 63 }
    ensures value { IfOk result (λ size. size
        ≡ length (written_field (number_field 1 compression)) + (length (written_opening field count) + count)) }
    ensures limit { IfOk result (λ size. size < 2 ^ 63) }
{
    let message = field_size(field, count)?;
    let size = sum(number_one_len(compression), message)?;
    Ok(size)
}

/// How many bytes a number in field 1 takes.
#[tactic(auto, using(crate::proofs::WritingFacts::length_of_one))]
fn number_one_len(number: u64) -> usize
    ensures value { result ≡ length (written_field (number_field 1 number)) }
    ensures few { result ≤ 20 }
{
    number_len(1, number)
}

/// How many bytes the fields of a set of additions take.
#[tactic(auto, using(crate::proofs::WritingFacts::one_length))]
pub(crate) fn addition_size(set: &Additions) -> Result<usize, OutOfMemory>
    ensures value { IfOk result (λ size. size ≡ length (written_fields (spec.addition_fields set.now))) }
    ensures limit { IfOk result (λ size. size < 2 ^ 63) }
{
    match set {
        Additions::Raw { size, bytes } => {
            let raw = raw_size(*size, bytes.as_slice())?;
            set_size(1, 2, raw)
        }
        Additions::Rice(rice) => {
            let coded = rice_size(rice)?;
            set_size(2, 4, coded)
        }
    }
}

/// How many bytes the fields of a set of removals take.
#[tactic(auto, using(crate::proofs::WritingFacts::one_length))]
pub(crate) fn removal_size(set: &Removals) -> Result<usize, OutOfMemory>
    ensures value { IfOk result (λ size. size ≡ length (written_fields (spec.removal_fields set.now))) }
    ensures limit { IfOk result (λ size. size < 2 ^ 63) }
{
    match set {
        Removals::Raw(indices) => {
            let places = indices_size(indices.as_slice())?;
            set_size(1, 3, places)
        }
        Removals::Rice(rice) => {
            let coded = rice_size(rice)?;
            set_size(2, 5, coded)
        }
    }
}

/// How many bytes sets of additions take.
#[tactic(auto, using(crate::proofs::WritingFacts::length_of_more, crate::proofs::WritingFacts::length_of_field))]
pub(crate) fn additions_size(sets: &[Additions]) -> Result<usize, OutOfMemory>
    ensures value { IfOk result (λ size. size ≡ length (written_fields (map spec.addition_field sets.now))) }
    ensures limit { IfOk result (λ size. size < 2 ^ 63) }
{
    let mut size = 0;
    let mut rest = sets;
    while let Some((set, more)) = rest.split_first() {
        size = sum(size, field_size(5, addition_size(set)?)?)?;
        rest = more;
    }
    Ok(size)
}

/// How many bytes sets of removals take.
#[tactic(auto, using(crate::proofs::WritingFacts::length_of_more, crate::proofs::WritingFacts::length_of_field))]
pub(crate) fn removals_size(sets: &[Removals]) -> Result<usize, OutOfMemory>
    ensures value { IfOk result (λ size. size ≡ length (written_fields (map spec.removal_field sets.now))) }
    ensures limit { IfOk result (λ size. size < 2 ^ 63) }
{
    let mut size = 0;
    let mut rest = sets;
    while let Some((set, more)) = rest.split_first() {
        size = sum(size, field_size(6, removal_size(set)?)?)?;
        rest = more;
    }
    Ok(size)
}
