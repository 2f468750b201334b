ghost use Rattle.std.specs.Prelude.{◌≡◌, ◌≢◌, ℕ, ◌≤◌, ◌↔◌, List, [], ◌∷◌, ◌++◌, length, None, Some, IsOk, IfOk, IfErr, IfSome, IfNone, OnOk, IsErrOf, Option};

use crate::place::{Place, bits_left, take_delta};
use crate::run::read_run;
use crate::{RiceFault, RiceRecord};
use sb_model::{OutOfMemory, Row};
use std::marker::Model;

/// Gives the numbers of a record one at a time, and takes no memory.
///
/// Contracts see it as the numbers that are still to come, and the fault after them, if one comes.
#[derive(Drop)]
pub struct RiceReader<'a> {
    /// Where the next code stands.
    at: Place<'a>,
    parameter: u32,
    /// How many codes are still to be read.
    left: u32,
    /// How many numbers were given.
    given: u64,
    /// The last number that was given, and before that the first one.
    value: u32,
}

impl<'a> Model for RiceReader<'a> {
    ghost use Rattle.rice_coding.specs.Bits.{bits_from};
    ghost use Rattle.rice_coding.specs.Reading.{Reading, IsReady, reading_after};

    ghost Value = { Reading };

    ghost view = { λ r. reading_after r.parameter r.left r.given r.value (bits_from r.at.bytes.now r.at.bit) };

    ghost invariant = { λ r. IsReady r.parameter r.left r.given };
}

impl<'a> RiceReader<'a> {
    ghost use Rattle.rice_coding.specs.Decoding.{decoding_of, outcome_of};
    ghost use Rattle.rice_coding.specs.Rice.{IsRiceRecordOf, IsReadingOf, IsFirstFault, CanBegin};

    /// A reader of at most `limit` numbers, before the first one. It errs with `Parameter`,
    /// `CountLimit` or `Range(0)`, and looks for them in this order.
    pub fn start(coding: &RiceRecord, limit: u32) -> Result<RiceReader<'_>, RiceFault>
        ensures begins { IsOk result ↔ CanBegin coding.now limit }
        ensures fault { (fault : RiceFault) → IsErrOf result fault ↔ IsFirstFault coding.now limit fault }
        // What it gives is a reading of the record, and there is no other one.
        ensures reading { IfOk result (λ reader. IsReadingOf coding.now reader.values reader.fault) }
        ensures only { IfOk result (λ reader. (values : List ℕ) (fault : Option RiceFault)
            → IsReadingOf coding.now values fault → (values ≡ reader.values) × (fault ≡ reader.fault)) }
        // All that it gives is what the record is decoded to.
        ensures decoding { IfOk result (λ reader.
            decoding_of coding.now limit ≡ outcome_of reader.values reader.fault) }
        ensures refused { IfErr result (λ fault. decoding_of coding.now limit ≡ Err fault) }
    {
        if coding.count > 0 && (coding.parameter < 2 || coding.parameter > 28) {
            return Err(RiceFault::Parameter(coding.parameter));
        }
        if coding.count >= limit {
            return Err(RiceFault::CountLimit(u64::from(coding.count) + 1));
        }
        if coding.first > u64::from(u32::MAX) {
            return Err(RiceFault::Range(0));
        }
        Ok(RiceReader {
            at: Place {
                bytes: coding.coded.as_slice(),
                bit: 0,
            },
            parameter: coding.parameter,
            left: coding.count,
            given: 0,
            value: coding.first as u32,
        })
    }

    /// The next number, and after the last one `None`, then and ever after. It errs with `Ended` or
    /// `Range` at an entry, and after the last number with `LeftOver`. After a fault, each further
    /// call answers it again.
    #[inline]
    pub fn next(&mut self) -> Result<Option<u32>, RiceFault>
        ensures value { IfOk result (λ next. IfSome next (λ value. self.old.values ≡ value ∷ self.new.values)) }
        ensures value_fault { IfOk result (λ next. IfSome next (λ _. self.new.fault ≡ self.old.fault)) }
        ensures end { IfOk result (λ next. IfNone next
            ((self.old.values ≡ []) × (self.old.fault ≡ None) × (self.new ≡ self.old))) }
        ensures fault { IfErr result (λ fault.
            (self.old.values ≡ []) × (self.old.fault ≡ Some fault) × (self.new ≡ self.old)) }
        ensures no_memory { result ≢ Err RiceFault.OutOfMemory }
    {
        if self.given == 0 {
            self.given = 1;
            return Ok(Some(self.value));
        }
        if self.left == 0 {
            let bits = bits_left(self.at);
            if bits >= 8 {
                return Err(RiceFault::LeftOver(bits));
            }
            return Ok(None);
        }
        let Some((delta, at)) = take_delta(self.at, self.parameter) else {
            return Err(RiceFault::Ended(self.given));
        };
        let value = u64::from(self.value) + delta;
        if value > u64::from(u32::MAX) {
            return Err(RiceFault::Range(self.given));
        }
        self.at = at;
        self.left -= 1;
        self.given += 1;
        self.value = value as u32;
        Ok(Some(self.value))
    }

    /// Appends numbers as long as two codes at a time stand whole in one window. It is faster than
    /// `next`, which goes on after it. After an `Err` the reader is not used again.
    pub(crate) fn read_on(&mut self, values: &mut Row<u32>) -> Result<(), OutOfMemory>
        ensures values { OnOk result (values.new ++ self.new.values ≡ values.old ++ self.old.values) }
        ensures fault { OnOk result (self.new.fault ≡ self.old.fault) }
        ensures longer { OnOk result (length values.old ≤ length values.new) }
    {
        if self.given == 0 || self.left == 0 {
            return Ok(());
        }
        let run = read_run(self.at, self.left, self.value, self.parameter, values)?;
        self.given += u64::from(self.left - run.left);
        self.at = run.at;
        self.left = run.left;
        self.value = run.value;
        Ok(())
    }
}
