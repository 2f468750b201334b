//! Calls about names of lists, durations, moments and Rice records.
use rice_coding::{RiceFault, RiceRecord, decode};
use sb_model::{
    Bytes, Duration, ListName, Moment, OutOfMemory, cache_ms, later, read_duration, read_list_name,
    wait_ms, write_duration, write_list_name,
};
use std::alloc::Global;

/// Appends what a call of this name comes to, and says whether there is such a call.
pub fn call(alloc: Global, name: &[u8], text: &[u8], out: &mut Bytes) -> Result<bool, OutOfMemory> {
    match name {
        b"list-name" => put_name(alloc, text, out)?,
        b"duration" => put_duration(alloc, text, out)?,
        b"later" => put_later(text, out)?,
        b"rice" => put_rice(alloc, text, out)?,
        _ => return Ok(false),
    }
    Ok(true)
}

/// Appends a space and a number.
fn put_number(out: &mut Bytes, number: u64) -> Result<(), OutOfMemory> {
    out.push(b' ')?;
    out.append_decimal(number)
}

/// Appends the name that a text is, as it is written, with its three codes, or what is wrong with the text.
fn put_name(alloc: Global, text: &[u8], out: &mut Bytes) -> Result<(), OutOfMemory> {
    match read_list_name(text) {
        Ok(name) => put_name_parts(alloc, name, out),
        Err(fault) => out.append(format!(in alloc; "{fault}")?.as_bytes()),
    }
}

fn put_name_parts(alloc: Global, name: ListName, out: &mut Bytes) -> Result<(), OutOfMemory> {
    out.append(write_list_name(alloc, name)?.as_slice())?;
    put_number(out, u64::from(name.threat.code()))?;
    put_number(out, u64::from(name.platform.code()))?;
    put_number(out, u64::from(name.entry.code()))
}

/// Appends the duration that a text is: as it is written, its seconds and nanoseconds, and for how many milliseconds
/// an answer is kept and is waited. Or it says what is wrong with the text.
fn put_duration(alloc: Global, text: &[u8], out: &mut Bytes) -> Result<(), OutOfMemory> {
    match read_duration(text) {
        Ok(duration) => put_duration_parts(alloc, duration, out),
        Err(fault) => out.append(format!(in alloc; "{fault}")?.as_bytes()),
    }
}

fn put_duration_parts(
    alloc: Global,
    duration: Duration,
    out: &mut Bytes,
) -> Result<(), OutOfMemory> {
    out.append(write_duration(alloc, duration)?.as_slice())?;
    put_number(out, duration.seconds())?;
    put_number(out, u64::from(duration.nanos()))?;
    put_number(out, cache_ms(duration))?;
    put_number(out, wait_ms(duration))
}

/// Appends the moment that is so many milliseconds after another.
fn put_later(text: &[u8], out: &mut Bytes) -> Result<(), OutOfMemory> {
    let moment = later(Moment(number_at(text, 0)), number_at(text, 1));
    out.append_decimal(moment.0)
}

/// The word of a text at a place, counted from 0. It is empty where there is none.
fn word_at(text: &[u8], place: usize) -> &[u8] {
    match text.split(|byte| *byte == b' ').nth(place) {
        Some(word) => word,
        None => &[],
    }
}

/// The number at a place.
fn number_at(text: &[u8], place: usize) -> u64 {
    let mut number: u64 = 0;
    for byte in word_at(text, place) {
        let digit = u64::from(byte.saturating_sub(b'0'));
        number = number.saturating_mul(10).saturating_add(digit);
    }
    number
}

/// The lowest 32 bits of the number at a place.
fn short_number_at(text: &[u8], place: usize) -> u32 {
    (number_at(text, place) & 0xffff_ffff) as u32
}

/// The record of a text: its first number, its parameter, its count, and last, after the limit, its bytes.
fn record_of(alloc: Global, text: &[u8]) -> Result<RiceRecord, OutOfMemory> {
    let coded = match hex::decode(alloc, word_at(text, 4)) {
        Ok(bytes) => Bytes::from_vec(bytes),
        Err(_) => Bytes::new(alloc),
    };
    Ok(RiceRecord {
        first: number_at(text, 0),
        parameter: short_number_at(text, 1),
        count: short_number_at(text, 2),
        coded,
    })
}

/// Appends the numbers that a record stands for within a limit, or why it stands for none.
fn put_rice(alloc: Global, text: &[u8], out: &mut Bytes) -> Result<(), OutOfMemory> {
    let record = record_of(alloc, text)?;
    match decode(alloc, &record, short_number_at(text, 3)) {
        Ok(values) => put_values(values.as_slice(), out),
        Err(RiceFault::OutOfMemory) => Err(OutOfMemory),
        Err(fault) => out.append(format!(in alloc; "{fault}")?.as_bytes()),
    }
}

fn put_values(values: &[u32], out: &mut Bytes) -> Result<(), OutOfMemory> {
    for (place, value) in values.iter().enumerate() {
        if place > 0 {
            out.push(b' ')?;
        }
        out.append_decimal(u64::from(*value))?;
    }
    Ok(())
}
