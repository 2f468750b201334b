ghost use Rattle.std.specs.Prelude.{◌≡◌, ℕ, ◌^◌, ◌<◌, ◌≤◌, [], ◌∷◌, length, IfOk};
ghost use Rattle.std.specs.List.Sorted.{IsStrictlyIncreasing};
ghost use Rattle.rice_coding.specs.Bits.{packed};
ghost use Rattle.rice_coding.specs.Codes.{codes, differences};
ghost use Rattle.rice_coding.specs.Encoding.{encoding_of, StandsForOnly, HasBestParameter, HasZerosAfter};
ghost use Rattle.rice_coding.specs.Rice.{IsRiceRecordOf};

use crate::RiceRecord;
use crate::parameter::{Choice, best_parameter};
use crate::writer::{BitWriter, Pending};
use sb_model::{Bytes, OutOfMemory};
use std::alloc::Global;

/// The record of 1 to 1,048,576 rising numbers. It errs only where memory is refused.
///
/// The parameter is the one of 2 to 28 that takes the fewest bits in all, of equals the least. Of a
/// single number it is 0, and nothing is coded. The free bits of the last byte are zeros.
pub fn encode(alloc: Global, values: &[u32]) -> Result<RiceRecord, OutOfMemory>
    requires some { 0 < length values.now }
    requires few { length values.now ≤ 1_048_576 }
    requires rising { IsStrictlyIncreasing values.now }
    ensures exact { IfOk result (λ coding. coding ≡ encoding_of values.now) }
    ensures stands { IfOk result (λ coding. IsRiceRecordOf coding values.now) }
    ensures alone { IfOk result (λ coding. StandsForOnly coding values.now) }
    ensures parameter { IfOk result (λ coding. HasBestParameter coding values.now) }
    ensures single { IfOk result (λ coding. length values.now ≡ 1
        → (coding.parameter ≡ 0) × (coding.coded ≡ [])) }
    ensures free { IfOk result (λ coding. HasZerosAfter coding values.now) }
{
    encode_rest(alloc, values[0], &values[1..])
}

/// The record of a number and those after it.
fn encode_rest(alloc: Global, first: u32, rest: &[u32]) -> Result<RiceRecord, OutOfMemory>
    requires few { length rest.now < 2 ^ 20 }
    requires rising { IsStrictlyIncreasing (first ∷ rest.now) }
    ensures { IfOk result (λ coding. coding ≡ encoding_of (first ∷ rest.now)) }
{
    if rest.is_empty() {
        return Ok(RiceRecord {
            first: u64::from(first),
            parameter: 0,
            count: 0,
            coded: Bytes::new(alloc),
        });
    }
    let best = best_parameter(first, rest);
    Ok(RiceRecord {
        first: u64::from(first),
        parameter: best.parameter,
        count: rest.len() as u32,
        coded: write_codes(alloc, first, rest, best)?,
    })
}

/// The codes of the differences with a chosen parameter.
#[inline(never)]
fn write_codes(
    alloc: Global,
    first: u32,
    rest: &[u32],
    choice: Choice,
) -> Result<Bytes, OutOfMemory>
    requires rising { IsStrictlyIncreasing (first ∷ rest.now) }
    requires parameter { choice.parameter ≤ 28 }
    ensures { IfOk result (λ bytes. bytes
        ≡ packed (codes choice.parameter (differences first rest.now))) }
{
    let mut writer = BitWriter::with_room(alloc, choice.bits)?;
    let mut pending = Pending::none();
    let mut previous = first;
    for value in rest {
        pending = pending.put_code(&mut writer, *value - previous, choice.parameter)?;
        previous = *value;
    }
    writer.finish(pending)
}
