//! What bytes are read as in the wire form of Protocol Buffers, and what is written. The requests are those of Firefox 153.
use proto_wire::{
    Field, FieldValue, Fields, PackedVarints, WireFault, bytes_len, number_len, push_bytes,
    push_number, push_open, push_varint, varint_len,
};
use sb_model::{Bytes, OutOfMemory};
use std::alloc::Global;
use std::process::Abort;
use std::test::Fail;

/// The client of each of its requests, and a list that it asks for: threat 5 on platform 2, by Rice records, with URLs.
const REQUEST: &[u8; 35] =
    b"\x0a\x15\x0a\x13navclient-auto-ffox\x1a\x0a\x08\x05\x10\x02\x22\x02\x20\x02\x28\x01";

fn tell_value(told: &mut Bytes, value: FieldValue<'_>) -> Result<(), OutOfMemory> {
    match value {
        FieldValue::Varint(number) => told.append_decimal(number),
        FieldValue::Fixed64(number) => {
            told.append(b"eight ")?;
            told.append_decimal(number)
        }
        FieldValue::Bytes(bytes) => {
            told.append(b"bytes ")?;
            told.append(bytes)
        }
        FieldValue::Fixed32(number) => {
            told.append(b"four ")?;
            told.append_decimal(u64::from(number))
        }
    }
}

fn tell_field(told: &mut Bytes, field: Field<'_>) -> Result<(), OutOfMemory> {
    told.append_decimal(u64::from(field.number))?;
    told.append(b" is ")?;
    tell_value(told, field.value)?;
    told.append(b". ")
}

/// The fault as a word and its place.
fn tell_fault(told: &mut Bytes, fault: WireFault) -> Result<(), OutOfMemory> {
    let (word, place) = match fault {
        WireFault::Cut(place) => ("cut ", place),
        WireFault::LongVarint(place) => ("long ", place),
        WireFault::WireType(place) => ("type ", place),
        WireFault::FieldNumber(place) => ("number ", place),
    };
    told.append(word.as_bytes())?;
    told.append_decimal(place as u64)
}

/// The fields of bytes, and the fault after them.
fn told_fields(alloc: Global, bytes: &[u8]) -> Result<Bytes, OutOfMemory> {
    let mut told = Bytes::new(alloc);
    let mut fields = Fields::new(bytes);
    for _ in 0..=bytes.len() {
        match fields.next() {
            Ok(Some(field)) => tell_field(&mut told, field)?,
            Ok(None) => break,
            Err(fault) => {
                tell_fault(&mut told, fault)?;
                break;
            }
        }
    }
    Ok(told)
}

fn told_numbers(alloc: Global, bytes: &[u8]) -> Result<Bytes, OutOfMemory> {
    let mut told = Bytes::new(alloc);
    let mut numbers = PackedVarints::new(bytes);
    for _ in 0..=bytes.len() {
        match numbers.next() {
            Ok(Some(number)) => {
                told.append_decimal(number)?;
                told.append(b". ")?;
            }
            Ok(None) => break,
            Err(fault) => {
                tell_fault(&mut told, fault)?;
                break;
            }
        }
    }
    Ok(told)
}

fn expect_fields(rt: &impl Abort, alloc: Global, bytes: &[u8], fields: &str) {
    let told = told_fields(alloc, bytes).expect(rt, "out of memory");
    assert!(rt; told.as_slice() == fields.as_bytes(), "not {fields}");
}

fn expect_numbers(rt: &impl Abort, alloc: Global, bytes: &[u8], numbers: &str) {
    let told = told_numbers(alloc, bytes).expect(rt, "out of memory");
    assert!(rt; told.as_slice() == numbers.as_bytes(), "not {numbers}");
}

#[test]
fn a_request_of_firefox_is_read(rt: HostRuntime) {
    expect_fields(
        &rt,
        rt.alloc(),
        REQUEST,
        "1 is bytes \x0a\x13navclient-auto-ffox. 3 is bytes \x08\x05\x10\x02\x22\x02\x20\x02\x28\x01. ",
    );
    expect_fields(
        &rt,
        rt.alloc(),
        b"\x0a\x13navclient-auto-ffox",
        "1 is bytes navclient-auto-ffox. ",
    );
    expect_fields(
        &rt,
        rt.alloc(),
        b"\x08\x05\x10\x02\x22\x02\x20\x02\x28\x01",
        "1 is 5. 2 is 2. 4 is bytes \x20\x02. 5 is 1. ",
    );
    expect_fields(&rt, rt.alloc(), b"\x20\x02", "4 is 2. ");
}

#[test]
fn values_of_each_type_are_read(rt: HostRuntime) {
    expect_fields(&rt, rt.alloc(), b"", "");
    expect_fields(
        &rt,
        rt.alloc(),
        b"\x08\x96\x01\x08\x00",
        "1 is 150. 1 is 0. ",
    );
    expect_fields(
        &rt,
        rt.alloc(),
        b"\x09\x01\x02\0\0\0\0\0\x80\x15\xff\0\0\x01",
        "1 is eight 9223372036854776321. 2 is four 16777471. ",
    );
    expect_fields(
        &rt,
        rt.alloc(),
        b"\x12\x00\x12\x02hi",
        "2 is bytes . 2 is bytes hi. ",
    );
    expect_fields(&rt, rt.alloc(), b"\x88\x80\x00\x85\x80\x00", "1 is 5. ");
    expect_fields(
        &rt,
        rt.alloc(),
        b"\xf8\xff\xff\xff\x0f\x01",
        "536870911 is 1. ",
    );
    expect_fields(
        &rt,
        rt.alloc(),
        b"\x08\xff\xff\xff\xff\xff\xff\xff\xff\xff\x01",
        "1 is 18446744073709551615. ",
    );
}

#[test]
fn each_fault_is_told(rt: HostRuntime) {
    expect_fields(&rt, rt.alloc(), b"\x08\x01\x88", "1 is 1. cut 2");
    expect_fields(&rt, rt.alloc(), b"\x08\x01\x08", "1 is 1. cut 2");
    expect_fields(&rt, rt.alloc(), b"\x08\x01\x12\x03hi", "1 is 1. cut 2");
    expect_fields(
        &rt,
        rt.alloc(),
        b"\x12\xff\xff\xff\xff\xff\xff\xff\xff\xff\x01",
        "cut 0",
    );
    expect_fields(&rt, rt.alloc(), b"\x09\0\0\0\0\0\0\0", "cut 0");
    expect_fields(&rt, rt.alloc(), b"\x0d\0\0\0", "cut 0");
    expect_fields(
        &rt,
        rt.alloc(),
        b"\x08\xff\xff\xff\xff\xff\xff\xff\xff\xff\x02",
        "long 0",
    );
    expect_fields(
        &rt,
        rt.alloc(),
        b"\x08\x80\x80\x80\x80\x80\x80\x80\x80\x80\x80\x00",
        "long 0",
    );
    expect_fields(
        &rt,
        rt.alloc(),
        b"\x08\x01\x80\x80\x80\x80\x80\x80\x80\x80\x80\x80\x00",
        "1 is 1. long 2",
    );
    expect_fields(&rt, rt.alloc(), b"\x00\x01", "number 0");
    expect_fields(&rt, rt.alloc(), b"\x03", "number 0");
    expect_fields(&rt, rt.alloc(), b"\x80\x80\x80\x80\x10\x01", "number 0");
    expect_fields(&rt, rt.alloc(), b"\x08\x01\x0b", "1 is 1. type 2");
    expect_fields(&rt, rt.alloc(), b"\x0c", "type 0");
    expect_fields(&rt, rt.alloc(), b"\x0e", "type 0");
    expect_fields(&rt, rt.alloc(), b"\x0f", "type 0");
}

#[test]
fn packed_numbers_are_read(rt: HostRuntime) {
    expect_numbers(&rt, rt.alloc(), b"", "");
    expect_numbers(
        &rt,
        rt.alloc(),
        b"\x03\x8e\x02\x9e\xa7\x05",
        "3. 270. 86942. ",
    );
    expect_numbers(&rt, rt.alloc(), b"\x03\x8e", "3. cut 1");
    expect_numbers(
        &rt,
        rt.alloc(),
        b"\x80\x80\x80\x80\x80\x80\x80\x80\x80\x02",
        "long 0",
    );
}

#[test]
fn a_fault_and_an_end_are_answered_again(rt: HostRuntime) {
    let mut cut = Fields::new(b"\x08");
    assert!(rt; matches!(cut.next(), Err(WireFault::Cut(0))));
    assert!(rt; matches!(cut.next(), Err(WireFault::Cut(0))));
    let mut none = Fields::new(b"");
    assert!(rt; matches!(none.next(), Ok(None)));
    assert!(rt; matches!(none.next(), Ok(None)));
}

#[test]
fn a_request_is_written(rt: HostRuntime) -> Result<(), Fail> {
    let mut request = Bytes::new(rt.alloc());
    let name = b"navclient-auto-ffox";
    push_open(&mut request, 1, bytes_len(1, name.len()))?;
    push_bytes(&mut request, 1, name)?;
    push_open(
        &mut request,
        3,
        number_len(1, 5) + number_len(2, 2) + bytes_len(4, number_len(4, 2)) + number_len(5, 1),
    )?;
    push_number(&mut request, 1, 5)?;
    push_number(&mut request, 2, 2)?;
    push_open(&mut request, 4, number_len(4, 2))?;
    push_number(&mut request, 4, 2)?;
    push_number(&mut request, 5, 1)?;
    assert!(rt; request.as_slice() == REQUEST.as_slice());
    Ok(())
}

#[test]
fn varints_are_written(rt: HostRuntime) -> Result<(), Fail> {
    let mut written = Bytes::new(rt.alloc());
    push_varint(&mut written, 0)?;
    push_varint(&mut written, 127)?;
    push_varint(&mut written, 128)?;
    push_varint(&mut written, 86942)?;
    push_varint(&mut written, u64::MAX)?;
    assert!(rt;
        written.as_slice()
            == b"\x00\x7f\x80\x01\x9e\xa7\x05\xff\xff\xff\xff\xff\xff\xff\xff\xff\x01".as_slice()
    );
    assert_eq!(rt; varint_len(16383), 2);
    assert_eq!(rt; varint_len(16384), 3);
    Ok(())
}
