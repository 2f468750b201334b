ghost use Rattle.std.specs.Prelude.{◌≡◌, [], ◌∷◌, Some, None, IfOk, IfErr, IfSome, IfNone};

use crate::WireFault;
use crate::varints::take_varint;
use std::marker::Model;

/// Gives the numbers of a packed field one at a time, in order, and takes no memory. The place of a
/// fault is that of the varint in the bytes of the field.
///
/// Contracts see it as the numbers that are still to come, and the fault after them, if one comes.
#[derive(Drop)]
pub struct PackedVarints<'a> {
    rest: &'a [u8],
    /// How many bytes stand before these.
    place: usize,
}

impl<'a> Model for PackedVarints<'a> {
    ghost use Rattle.std.specs.Prelude.{ℕ, ◌+◌, ◌<◌, ◌^◌, length};
    ghost use Rattle.proto_wire.specs.Reading.{WireReading, varint_at, items_from};

    ghost Value = { WireReading ℕ };

    ghost view = { λ r. items_from varint_at r.place r.rest.now };

    ghost invariant = { λ r. r.place + length r.rest.now < 2 ^ 64 };
}

impl<'a> PackedVarints<'a> {
    ghost use Rattle.proto_wire.specs.declared.fault.WireFault.{WireFault};
    ghost use Rattle.proto_wire.specs.Wire.{ReadsVarints, IsFaultAfterVarints};
    ghost use Rattle.proto_wire.specs.Reading.{packed_varints};

    /// The numbers of a packed field with these bytes, before the first one.
    pub fn new(bytes: &'a [u8]) -> Self
        ensures all { result ≡ packed_varints bytes.now }
        // What it gives is what the bytes are. `bytes_read_one_way` says that they are nothing else.
        ensures numbers { result.fault ≡ None → ReadsVarints bytes.now result.items }
        ensures fault { (fault : WireFault) → result.fault ≡ Some fault
            → IsFaultAfterVarints bytes.now result.items fault }
    {
        PackedVarints {
            rest: bytes,
            place: 0,
        }
    }

    /// The next number, and after the last one `None`, then and ever after. After a fault, each further
    /// call answers it again.
    pub fn next(&mut self) -> Result<Option<u64>, WireFault>
        ensures number { IfOk result (λ next. IfSome next (λ number.
            self.old.items ≡ number ∷ self.new.items)) }
        ensures number_fault { IfOk result (λ next. IfSome next (λ _.
            self.new.fault ≡ self.old.fault)) }
        ensures end { IfOk result (λ next. IfNone next
            ((self.old.items ≡ []) × (self.old.fault ≡ None) × (self.new ≡ self.old))) }
        ensures fault { IfErr result (λ fault.
            (self.old.items ≡ []) × (self.old.fault ≡ Some fault) × (self.new ≡ self.old)) }
    {
        if self.rest.is_empty() {
            return Ok(None);
        }
        let taken = take_varint(self.rest, self.place)?;
        self.place += self.rest.len() - taken.rest.len();
        self.rest = taken.rest;
        Ok(Some(taken.number))
    }
}
