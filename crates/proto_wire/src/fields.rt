ghost use Rattle.std.specs.Prelude.{◌≡◌, ◌↔◌, [], ◌∷◌, Ok, Err, Some, None, IfOk, IfErr, IfSome, IfNone, IsTrue};
ghost use Rattle.proto_wire.specs.Wire.{IsFieldNumber};
ghost use Rattle.proto_wire.specs.Reading.{field_at};
ghost use Rattle.proto_wire.specs.Given.{given_field};

use crate::WireFault;
use crate::values::take_value;
use crate::varints::take_varint;
use std::marker::Model;

/// The greatest field number.
const MOST_NUMBER: u64 = 536_870_911;

/// The value of a field.
#[derive(Clone, Copy, Debug)]
pub enum FieldValue<'a> {
    /// Wire type 0.
    Varint(u64),
    /// Wire type 1: eight bytes, the lowest first.
    Fixed64(u64),
    /// Wire type 2: bytes, a text, a message or a packed field.
    Bytes(&'a [u8]),
    /// Wire type 5: four bytes, the lowest first.
    Fixed32(u32),
}

/// A field of a message.
#[derive(Clone, Copy, Debug)]
pub struct Field<'a> {
    /// From 1 to 536,870,911.
    pub number: u32,
    pub value: FieldValue<'a>,
}

/// A field and the bytes after it.
#[derive(Clone, Copy)]
struct TakenField<'a> {
    field: Field<'a>,
    rest: &'a [u8],
}

fn is_field_number(number: u64) -> bool
    ensures { IsTrue result ↔ IsFieldNumber number }
{
    number >= 1 && number <= MOST_NUMBER
}

/// The field with which bytes begin. The place is for a fault.
fn take_field(bytes: &[u8], place: usize) -> Result<TakenField<'_>, WireFault>
    ensures read { IfOk result (λ taken. field_at place bytes.now
        ≡ Ok (given_field taken.field, taken.rest.now)) }
    ensures fault { IfErr result (λ fault. field_at place bytes.now ≡ Err fault) }
{
    let key = take_varint(bytes, place)?;
    let number = key.number / 8;
    if !is_field_number(number) {
        return Err(WireFault::FieldNumber(place));
    }
    let taken = take_value(key.number % 8, key.rest, place)?;
    Ok(TakenField {
        field: Field {
            number: number as u32,
            value: taken.value,
        },
        rest: taken.rest,
    })
}

/// Gives the fields of a message one at a time, in order, and takes no memory.
///
/// Contracts see it as the fields that are still to come, and the fault after them, if one comes.
#[derive(Drop)]
pub struct Fields<'a> {
    rest: &'a [u8],
    /// How many bytes stand before these.
    place: usize,
}

impl<'a> Model for Fields<'a> {
    ghost use Rattle.std.specs.Prelude.{◌+◌, ◌<◌, ◌^◌, length};
    ghost use Rattle.proto_wire.specs.Wire.{WireField};
    ghost use Rattle.proto_wire.specs.Reading.{WireReading, field_at, items_from};

    ghost Value = { WireReading WireField };

    ghost view = { λ r. items_from field_at r.place r.rest.now };

    ghost invariant = { λ r. r.place + length r.rest.now < 2 ^ 64 };
}

impl<'a> Fields<'a> {
    ghost use Rattle.proto_wire.specs.declared.fault.WireFault.{WireFault};
    ghost use Rattle.proto_wire.specs.Wire.{ReadsFields, IsFaultAfterFields};
    ghost use Rattle.proto_wire.specs.Reading.{wire_fields};

    /// The fields of a message, before the first one.
    pub fn new(bytes: &'a [u8]) -> Self
        ensures all { result ≡ wire_fields bytes.now }
        // What it gives is what the bytes are. `bytes_read_one_way` says that they are nothing else.
        ensures fields { result.fault ≡ None → ReadsFields bytes.now result.items }
        ensures fault { (fault : WireFault) → result.fault ≡ Some fault
            → IsFaultAfterFields bytes.now result.items fault }
    {
        Fields {
            rest: bytes,
            place: 0,
        }
    }

    /// The next field, and after the last one `None`, then and ever after. After a fault, each further call
    /// answers it again.
    pub fn next(&mut self) -> Result<Option<Field<'a>>, WireFault>
        ensures field { IfOk result (λ next. IfSome next (λ field.
            self.old.items ≡ given_field field ∷ self.new.items)) }
        ensures field_fault { IfOk result (λ next. IfSome next (λ _.
            self.new.fault ≡ self.old.fault)) }
        ensures end { IfOk result (λ next. IfNone next
            ((self.old.items ≡ []) × (self.old.fault ≡ None) × (self.new ≡ self.old))) }
        ensures fault { IfErr result (λ fault.
            (self.old.items ≡ []) × (self.old.fault ≡ Some fault) × (self.new ≡ self.old)) }
    {
        if self.rest.is_empty() {
            return Ok(None);
        }
        let taken = take_field(self.rest, self.place)?;
        self.place += self.rest.len() - taken.rest.len();
        self.rest = taken.rest;
        Ok(Some(taken.field))
    }
}
