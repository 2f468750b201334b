//! The readers of a field, and of a value by itself.
use crate::printing::{fault_word, push_duration, push_fault, push_hex};
use sb_json::{
    Field, FieldFault, bytes, bytes_item, duration, duration_item, field, items, items_item,
    object, object_item, read_json, string, string_item, text, whole, whole_item,
};
use sb_model::{Bytes, Duration, OutOfMemory, Text};
use serde_json::Value;
use std::alloc::Global;

/// The greatest number that the readers of numbers take.
const MOST: u64 = 9;

/// Prints what each reader of a field or of a value says, or reads a number up to another.
pub fn call(alloc: Global, name: &[u8], json: &[u8], out: &mut Bytes) -> Result<bool, OutOfMemory> {
    match name {
        b"field" | b"item" | b"whole" => {}
        _ => return Ok(false),
    }
    match read_json(alloc, json) {
        Ok(value) => push_value(alloc, out, name, &value)?,
        Err(fault) => push_fault(alloc, out, &fault)?,
    }
    Ok(true)
}

fn push_value(
    alloc: Global,
    out: &mut Bytes,
    name: &[u8],
    value: &Value,
) -> Result<(), OutOfMemory> {
    match name {
        b"field" => push_field(alloc, out, value),
        b"item" => push_item(alloc, out, value),
        _ => push_whole(out, value),
    }
}

/// Prints what each reader says of the field `state`.
fn push_field(alloc: Global, out: &mut Bytes, value: &Value) -> Result<(), OutOfMemory> {
    let found = field(value, Field::State);
    out.append(if found.is_some() { b"found" } else { b"none" })?;
    push_number(out, b" whole=", whole(value, Field::State, MOST))?;
    push_string(alloc, out, string(value, Field::State))?;
    push_text(alloc, out, text(alloc, value, Field::State))?;
    push_items(out, items(value, Field::State))?;
    push_object(out, object(value, Field::State))?;
    push_bytes(alloc, out, bytes(alloc, value, Field::State))?;
    push_time(alloc, out, duration(value, Field::State))
}

/// Prints what each reader says of a value by itself.
fn push_item(alloc: Global, out: &mut Bytes, value: &Value) -> Result<(), OutOfMemory> {
    push_number(out, b"whole=", whole_item(value, Field::State, MOST))?;
    push_string(alloc, out, string_item(value, Field::State))?;
    push_items(out, items_item(value, Field::State))?;
    push_object(out, object_item(value, Field::State))?;
    push_bytes(alloc, out, bytes_item(alloc, value, Field::State))?;
    push_time(alloc, out, duration_item(value, Field::State))
}

/// Prints the second number of a list, which is read up to the first.
fn push_whole(out: &mut Bytes, value: &Value) -> Result<(), OutOfMemory> {
    let Ok([most, value]) = items_item(value, Field::State) else {
        return out.append(b"no two values");
    };
    let most = whole_item(most, Field::State, u64::MAX).unwrap_or(0);
    push_number(out, b"whole=", whole_item(value, Field::State, most))
}

fn push_number(
    out: &mut Bytes,
    label: &[u8],
    number: Result<u64, FieldFault>,
) -> Result<(), OutOfMemory> {
    out.append(label)?;
    match number {
        Ok(number) => out.append_decimal(number),
        Err(fault) => out.append(fault_word(fault)),
    }
}

fn push_string(
    alloc: Global,
    out: &mut Bytes,
    string: Result<&str, FieldFault>,
) -> Result<(), OutOfMemory> {
    out.append(b" string=")?;
    match string {
        Ok(string) => push_hex(alloc, out, string.as_bytes()),
        Err(fault) => out.append(fault_word(fault)),
    }
}

fn push_text(
    alloc: Global,
    out: &mut Bytes,
    text: Result<Text, FieldFault>,
) -> Result<(), OutOfMemory> {
    out.append(b" text=")?;
    match text {
        Ok(text) => push_hex(alloc, out, text.as_str().as_bytes()),
        Err(fault) => out.append(fault_word(fault)),
    }
}

fn push_items(out: &mut Bytes, items: Result<&[Value], FieldFault>) -> Result<(), OutOfMemory> {
    out.append(b" items=")?;
    match items {
        Ok(items) => out.append_decimal(items.len() as u64),
        Err(fault) => out.append(fault_word(fault)),
    }
}

fn push_object(out: &mut Bytes, object: Result<&Value, FieldFault>) -> Result<(), OutOfMemory> {
    out.append(b" object=")?;
    match object {
        Ok(_) => out.append(b"object"),
        Err(fault) => out.append(fault_word(fault)),
    }
}

fn push_bytes(
    alloc: Global,
    out: &mut Bytes,
    bytes: Result<Bytes, FieldFault>,
) -> Result<(), OutOfMemory> {
    out.append(b" bytes=")?;
    match bytes {
        Ok(bytes) => push_hex(alloc, out, bytes.as_slice()),
        Err(fault) => out.append(fault_word(fault)),
    }
}

fn push_time(
    alloc: Global,
    out: &mut Bytes,
    time: Result<Duration, FieldFault>,
) -> Result<(), OutOfMemory> {
    out.append(b" duration=")?;
    match time {
        Ok(time) => push_duration(alloc, out, time),
        Err(fault) => out.append(fault_word(fault)),
    }
}
