ghost use Rattle.std.specs.Prelude.{◌≡◌, ◌<◌, Ok, Err, IfOk, IfErr};
ghost use Rattle.proto_wire.specs.Reading.{first_bytes_at, value_at};
ghost use Rattle.proto_wire.specs.Given.{given_value};

use crate::varints::take_varint;
use crate::{FieldValue, WireFault};

/// A value and the bytes after it.
#[derive(Clone, Copy)]
pub struct TakenValue<'a> {
    pub value: FieldValue<'a>,
    pub rest: &'a [u8],
}

/// Bytes, and those after them.
#[derive(Clone, Copy)]
struct TakenBytes<'a> {
    bytes: &'a [u8],
    rest: &'a [u8],
}

/// The first bytes, so many. The place is for a fault.
fn take_bytes(bytes: &[u8], count: u64, place: usize) -> Result<TakenBytes<'_>, WireFault>
    ensures read { IfOk result (λ taken. first_bytes_at place count bytes.now
        ≡ Ok (taken.bytes.now, taken.rest.now)) }
    ensures fault { IfErr result (λ fault. first_bytes_at place count bytes.now ≡ Err fault) }
{
    if count > bytes.len() as u64 {
        return Err(WireFault::Cut(place));
    }
    let count = count as usize;
    Ok(TakenBytes {
        bytes: &bytes[..count],
        rest: &bytes[count..],
    })
}

fn take_number(bytes: &[u8], place: usize) -> Result<TakenValue<'_>, WireFault>
    ensures read { IfOk result (λ taken. value_at place 0 bytes.now
        ≡ Ok (given_value taken.value, taken.rest.now)) }
    ensures fault { IfErr result (λ fault. value_at place 0 bytes.now ≡ Err fault) }
{
    let taken = take_varint(bytes, place)?;
    Ok(TakenValue {
        value: FieldValue::Varint(taken.number),
        rest: taken.rest,
    })
}

fn take_fixed64(bytes: &[u8], place: usize) -> Result<TakenValue<'_>, WireFault>
    ensures read { IfOk result (λ taken. value_at place 1 bytes.now
        ≡ Ok (given_value taken.value, taken.rest.now)) }
    ensures fault { IfErr result (λ fault. value_at place 1 bytes.now ≡ Err fault) }
{
    let taken = take_bytes(bytes, 8, place)?;
    let b = taken.bytes;
    Ok(TakenValue {
        value: FieldValue::Fixed64(u64::from_le_bytes([
            b[0], b[1], b[2], b[3], b[4], b[5], b[6], b[7],
        ])),
        rest: taken.rest,
    })
}

fn take_lengthed(bytes: &[u8], place: usize) -> Result<TakenValue<'_>, WireFault>
    ensures read { IfOk result (λ taken. value_at place 2 bytes.now
        ≡ Ok (given_value taken.value, taken.rest.now)) }
    ensures fault { IfErr result (λ fault. value_at place 2 bytes.now ≡ Err fault) }
{
    let count = take_varint(bytes, place)?;
    let taken = take_bytes(count.rest, count.number, place)?;
    Ok(TakenValue {
        value: FieldValue::Bytes(taken.bytes),
        rest: taken.rest,
    })
}

fn take_fixed32(bytes: &[u8], place: usize) -> Result<TakenValue<'_>, WireFault>
    ensures read { IfOk result (λ taken. value_at place 5 bytes.now
        ≡ Ok (given_value taken.value, taken.rest.now)) }
    ensures fault { IfErr result (λ fault. value_at place 5 bytes.now ≡ Err fault) }
{
    let taken = take_bytes(bytes, 4, place)?;
    let b = taken.bytes;
    Ok(TakenValue {
        value: FieldValue::Fixed32(u32::from_le_bytes([b[0], b[1], b[2], b[3]])),
        rest: taken.rest,
    })
}

/// The value of a wire type with which bytes begin. The place is for a fault.
pub fn take_value(wire_type: u64, bytes: &[u8], place: usize) -> Result<TakenValue<'_>, WireFault>
    ensures read { IfOk result (λ taken. value_at place wire_type bytes.now
        ≡ Ok (given_value taken.value, taken.rest.now)) }
    ensures fault { IfErr result (λ fault. value_at place wire_type bytes.now ≡ Err fault) }
{
    match wire_type {
        0 => take_number(bytes, place),
        1 => take_fixed64(bytes, place),
        2 => take_lengthed(bytes, place),
        5 => take_fixed32(bytes, place),
        _ => Err(WireFault::WireType(place)),
    }
}
