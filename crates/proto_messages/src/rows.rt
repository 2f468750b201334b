ghost use Rattle.std.specs.Prelude.{◌≡◌, ◌⊎◌, ◌≤◌, length, Ok, Err, IfOk, IfErr, OnOk};
ghost use Rattle.proto_wire.specs.Given.{given_value};
ghost use Rattle.proto_wire.specs.Reading.{wire_fields};
ghost use Rattle.proto_messages.specs.Fields as spec;
ghost use Rattle.proto_messages.specs.Parts.{fields_of_part};

use crate::PartFault;
use crate::part::Part;
use proto_wire::{FieldValue, Fields, PackedVarints, bytes_read_one_way};
use sb_json::{Field, FieldFault};
use sb_model::Row;
use std::alloc::Global;

/// A value that is a number.
fn number_of(field: Field, value: FieldValue<'_>) -> Result<u64, PartFault>
    ensures { result ≡ spec.number_in_field field (given_value value.entry) }
{
    match value {
        FieldValue::Varint(number) => Ok(number),
        _ => Err(PartFault::Field(FieldFault::WrongKind(field))),
    }
}

/// A value that is bytes.
pub(crate) fn bytes_of(field: Field, value: FieldValue<'_>) -> Result<&[u8], PartFault>
    ensures ok { IfOk result (λ bytes. spec.bytes_in_field field (given_value value.entry) ≡ Ok bytes.now) }
    ensures err { IfErr result (λ fault. spec.bytes_in_field field (given_value value.entry) ≡ Err fault) }
{
    match value {
        FieldValue::Bytes(bytes) => Ok(bytes),
        _ => Err(PartFault::Field(FieldFault::WrongKind(field))),
    }
}

/// A field that is a number, 0 if it is absent.
#[tactic(auto, unfolding(crate::specs::Fields::number_row))]
pub(crate) fn number_row(part: &Part<'_>, field: Field, number: u32) -> Result<u64, PartFault>
    ensures { result ≡ spec.number_row field number (fields_of_part part.now) }
{
    let mut values = part.values(number);
    let mut last = 0;
    while let Some(value) = values.next() {
        last = number_of(field, value)?;
    }
    Ok(last)
}

/// A field that is bytes, none if it is absent.
#[tactic(auto, unfolding(crate::specs::Fields::bytes_row))]
pub(crate) fn bytes_row<'a>(
    part: &Part<'a>,
    field: Field,
    number: u32,
) -> Result<&'a [u8], PartFault>
    ensures ok { IfOk result (λ bytes. spec.bytes_row field number (fields_of_part part.now) ≡ Ok bytes.now) }
    ensures err { IfErr result (λ fault. spec.bytes_row field number (fields_of_part part.now) ≡ Err fault) }
{
    let mut values = part.values(number);
    let mut last: &[u8] = &[];
    while let Some(value) = values.next() {
        last = bytes_of(field, value)?;
    }
    Ok(last)
}

/// Appends the numbers of a packed field.
#[tactic(auto, using(crate::proofs::RowFacts::after_more))]
fn push_packed(numbers: &mut Row<u64>, field: Field, bytes: &[u8]) -> Result<(), PartFault>
    ensures ok { OnOk result (spec.after numbers.old (spec.packed_of field bytes.now) ≡ Ok numbers.new) }
    ensures err { IfErr result (λ fault. (fault ≡ PartFault.OutOfMemory)
        ⊎ (spec.packed_of field bytes.now ≡ Err fault)) }
{
    let mut packed = PackedVarints::new(bytes);
    loop {
        match packed.next() {
            Ok(Some(number)) => numbers.push(number)?,
            Ok(None) => return Ok(()),
            Err(fault) => return Err(PartFault::Wire(field, fault)),
        }
    }
}

/// Appends the numbers of a value, which is one number, or several that are packed.
fn push_numbers(
    numbers: &mut Row<u64>,
    field: Field,
    value: FieldValue<'_>,
) -> Result<(), PartFault>
    ensures ok { OnOk result (spec.after numbers.old (spec.numbers_in_field field (given_value value.entry)) ≡ Ok numbers.new) }
    ensures err { IfErr result (λ fault. (fault ≡ PartFault.OutOfMemory)
        ⊎ (spec.numbers_in_field field (given_value value.entry) ≡ Err fault)) }
{
    match value {
        FieldValue::Varint(number) => Ok(numbers.push(number)?),
        FieldValue::Bytes(bytes) => push_packed(numbers, field, bytes),
        _ => Err(PartFault::Field(FieldFault::WrongKind(field))),
    }
}

/// A repeated field of numbers.
#[tactic(auto, unfolding(crate::specs::Fields::numbers_row))]
pub(crate) fn numbers_row(
    alloc: Global,
    part: &Part<'_>,
    field: Field,
    number: u32,
) -> Result<Row<u64>, PartFault>
    ensures ok { IfOk result (λ numbers. spec.numbers_row field number (fields_of_part part.now) ≡ Ok numbers) }
    ensures err { IfErr result (λ fault. (fault ≡ PartFault.OutOfMemory)
        ⊎ (spec.numbers_row field number (fields_of_part part.now) ≡ Err fault)) }
{
    let mut values = part.values(number);
    let mut numbers = Row::new(alloc);
    while let Some(value) = values.next() {
        push_numbers(&mut numbers, field, value)?;
    }
    Ok(numbers)
}

/// Refuses the bytes of a field that are no message.
pub(crate) fn check_message(field: Field, bytes: &[u8]) -> Result<(), PartFault>
    ensures ok { OnOk result (spec.fields_of field bytes.now ≡ Ok (wire_fields bytes.now).items) }
    ensures err { IfErr result (λ fault. spec.fields_of field bytes.now ≡ Err fault) }
{
    let mut fields = Fields::new(bytes);
    loop {
        match fields.next() {
            Ok(Some(_)) => {}
            Ok(None) => return Ok(()),
            Err(fault) => return Err(PartFault::Wire(field, fault)),
        }
    }
}

/// The bytes of the message that a value is.
pub(crate) fn message_of<'a>(field: Field, value: FieldValue<'a>) -> Result<&'a [u8], PartFault>
    ensures ok { IfOk result (λ bytes. spec.message_of field (given_value value.entry) ≡ Ok (wire_fields bytes.now).items) }
    ensures err { IfErr result (λ fault. spec.message_of field (given_value value.entry) ≡ Err fault) }
{
    let bytes = bytes_of(field, value)?;
    check_message(field, bytes)?;
    Ok(bytes)
}

/// The message that stands in the message of these bytes, each time that it stands there.
#[tactic(auto, unfolding(crate::specs::Fields::message_row, crate::specs::Parts::fields_of_part))]
pub(crate) fn message_row<'a>(
    bytes: &'a [u8],
    field: Field,
    number: u32,
) -> Result<Part<'a>, PartFault>
    ensures ok { IfOk result (λ part. spec.message_row field number (wire_fields bytes.now).items ≡ Ok (fields_of_part part)) }
    ensures few { IfOk result (λ part. length (fields_of_part part) ≤ length bytes.now) }
    ensures err { IfErr result (λ fault. spec.message_row field number (wire_fields bytes.now).items ≡ Err fault) }
{
    bytes_read_one_way();
    let mut values = Part::of(bytes).values(number);
    while let Some(value) = values.next() {
        message_of(field, value)?;
    }
    Ok(Part {
        bytes,
        under: Some(number),
    })
}
