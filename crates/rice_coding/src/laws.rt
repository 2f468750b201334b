ghost use Rattle.std.specs.Prelude.{◌≡◌, ◌≢◌, ℕ, ◌<◌, ◌≤◌, ◌↔◌, List, length, Ok, Err};
ghost use Rattle.std.specs.List.Sorted.{IsStrictlyIncreasing};
ghost use Rattle.rice_coding.specs.declared.record.RiceRecord.{RiceRecord};
ghost use Rattle.rice_coding.specs.declared.fault.RiceFault.{RiceFault};
ghost use Rattle.rice_coding.specs.declared.fault.RiceFault.TheVariants.{OutOfMemory};
ghost use Rattle.rice_coding.specs.Decoding.{decoding_of};
ghost use Rattle.rice_coding.specs.Encoding.{encoding_of};
ghost use Rattle.rice_coding.specs.Rice.{AreInRange, IsRiceRecordOf, IsFaultOf};

/// What a record is decoded to: exactly the values that it stands for, where they are within the
/// limit, and otherwise exactly its fault, which is never want of memory.
pub fn decoding_goes_by_the_record()
    ensures values { (coding : RiceRecord) (limit : ℕ) (values : List ℕ)
        → (decoding_of coding limit ≡ Ok values) ↔ (IsRiceRecordOf coding values × (length values ≤ limit)) }
    ensures fault { (coding : RiceRecord) (limit : ℕ) (fault : RiceFault)
        → (decoding_of coding limit ≡ Err fault) ↔ IsFaultOf coding limit fault }
    ensures no_memory { (coding : RiceRecord) (limit : ℕ)
        → decoding_of coding limit ≢ Err OutOfMemory }
{}

/// The record of rising numbers of 32 bits is decoded to these, with each limit that admits them.
pub fn encoding_is_decoded()
    ensures { (values : List ℕ) (limit : ℕ) → IsStrictlyIncreasing values → AreInRange values
        → 0 < length values → length values ≤ limit
        → decoding_of (encoding_of values) limit ≡ Ok values }
{}
