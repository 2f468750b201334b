ghost use Rattle.std.specs.Prelude.{◌≡◌, ℕ, ◌<◌, ◌≤◌, ◌⊎◌, List, ◌++◌, length, None, Some, Ok, Err, IfOk, IfErr, OnOk, IsErrAnd, MatchResult};
ghost use Rattle.rice_coding.specs.Decoding.{decoding_of};
ghost use Rattle.rice_coding.specs.Rice.{IsRiceRecordOf, IsFaultOf};

use crate::{RiceFault, RiceReader, RiceRecord};
use sb_model::Row;
use std::alloc::Global;

/// The numbers that a record stands for, at most `limit` of them.
///
/// A record that stands for none is answered with the first of these faults: `Parameter`,
/// `CountLimit`, `Range(0)`, then for each entry from 1 on `Ended` or else `Range`, and `LeftOver`.
/// It reserves memory for no more numbers than the bytes of the record can code.
pub fn decode(alloc: Global, coding: &RiceRecord, limit: u32) -> Result<Row<u32>, RiceFault>
    ensures exact { IfOk result (λ values. decoding_of coding.now limit ≡ Ok values) }
    ensures exact_fault { IfErr result (λ fault.
        (fault ≡ RiceFault.OutOfMemory) ⊎ (decoding_of coding.now limit ≡ Err fault)) }
    ensures found { IfOk result (λ values. IsRiceRecordOf coding.now values) }
    ensures within { IfOk result (λ values. length values ≤ limit) }
    // A record that stands for values within the limit is decoded to these, unless memory is refused.
    ensures only { (values : List ℕ) → IsRiceRecordOf coding.now values → length values ≤ limit
        → MatchResult result (λ given. given ≡ values) (λ fault. fault ≡ RiceFault.OutOfMemory) }

    // Each other record has one fault, which is answered, unless memory is refused.
    ensures fault { IfErr result (λ fault.
        (fault ≡ RiceFault.OutOfMemory) ⊎ IsFaultOf coding.now limit fault) }
    ensures only_fault { (fault : RiceFault) → IsFaultOf coding.now limit fault
        → IsErrAnd result (λ given. (given ≡ RiceFault.OutOfMemory) ⊎ (given ≡ fault)) }
{
    let reader = RiceReader::start(coding, limit)?;
    let values = Row::with_capacity(alloc, room(coding))?;
    read_all(reader, values)
}

/// The values, and after them all that the reader gives.
fn read_all(reader: RiceReader, values: Row<u32>) -> Result<Row<u32>, RiceFault>
    ensures values { IfOk result (λ all. all ≡ values ++ reader.entry.values) }
    ensures whole { OnOk result (reader.entry.fault ≡ None) }
    ensures fault { IfErr result (λ fault.
        (fault ≡ RiceFault.OutOfMemory) ⊎ (reader.entry.fault ≡ Some fault)) }
{
    let mut reader = reader;
    let mut values = values;
    while let Some(value) = reader.next()? {
        values.push(value)?;
        reader.read_on(&mut values)?;
    }
    Ok(values)
}

/// How many numbers the record can hold at most: as many as it counts, and as its bits have codes.
fn room(coding: &RiceRecord) -> usize {
    let codes = coding.coded.len().saturating_mul(8) / (coding.parameter as usize + 1);
    codes.min(coding.count as usize) + 1
}
