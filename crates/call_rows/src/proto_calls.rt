//! Requests in the wire form of Protocol Buffers that are read, and answers that are written in it.
use crate::finds::push_find;
use crate::printing::{push_client, push_fault, push_hex, push_name};
use hash_messages::read_matches;
use proto_messages::{
    NumberedFetch, NumberedFind, ProtoFault, message_of_query, push_cause, read_fetch, read_find,
    write_fetch, write_matches,
};
use sb_model::{Bytes, OutOfMemory};
use std::alloc::Global;
use update_messages::read_response;

/// Prints what the bytes are read as that a text spells in hexadecimal, or writes an answer that a text is.
pub fn call(alloc: Global, name: &[u8], text: &[u8], out: &mut Bytes) -> Result<bool, OutOfMemory> {
    match name {
        b"read-proto-fetch" => read_fetch_row(alloc, text, out)?,
        b"read-proto-find" => read_find_row(alloc, text, out)?,
        b"query-message" => query_row(alloc, text, out)?,
        b"write-proto-matches" => write_matches_row(alloc, text, out)?,
        b"write-proto-response" => write_response_row(alloc, text, out)?,
        _ => return Ok(false),
    }
    Ok(true)
}

/// The bytes that a text spells; none where it spells none.
fn bytes_of(alloc: Global, text: &[u8]) -> Bytes {
    match hex::decode(alloc, text) {
        Ok(bytes) => Bytes::from_vec(bytes),
        Err(_) => Bytes::new(alloc),
    }
}

/// Prints the cause of a message's fault, and what is told of it.
fn push_proto_fault(alloc: Global, out: &mut Bytes, fault: ProtoFault) -> Result<(), OutOfMemory> {
    push_cause(out, &fault)?;
    let told = format!(in alloc; ": {fault}")?;
    out.append(told.as_bytes())
}

fn read_fetch_row(alloc: Global, text: &[u8], out: &mut Bytes) -> Result<(), OutOfMemory> {
    match read_fetch(alloc, bytes_of(alloc, text).as_slice()) {
        Ok(found) => push_fetch(alloc, out, &found),
        Err(fault) => push_proto_fault(alloc, out, fault),
    }
}

/// Prints the client of a request, and of each of its lists the number of its threat, its name, its state, its limits and what sets
/// are taken.
fn push_fetch(alloc: Global, out: &mut Bytes, found: &NumberedFetch) -> Result<(), OutOfMemory> {
    push_client(out, &found.request.client)?;
    out.append(b" numbers=")?;
    for threat in found.threats.iter() {
        out.append_decimal(*threat)?;
        out.push(b',')?;
    }
    for item in found.request.items.iter() {
        out.append(b" list=")?;
        push_name(alloc, out, item.name)?;
        out.push(b',')?;
        push_hex(alloc, out, item.state.as_slice())?;
        out.push(b',')?;
        out.append_decimal(u64::from(item.max_update))?;
        out.push(b',')?;
        out.append_decimal(u64::from(item.max_database))?;
        out.append(if item.raw { b",raw" } else { b",-" })?;
        out.append(if item.rice { b",rice" } else { b",-" })?;
    }
    Ok(())
}

fn read_find_row(alloc: Global, text: &[u8], out: &mut Bytes) -> Result<(), OutOfMemory> {
    match read_find(alloc, bytes_of(alloc, text).as_slice()) {
        Ok(found) => push_found(alloc, out, &found),
        Err(fault) => push_proto_fault(alloc, out, fault),
    }
}

fn push_found(alloc: Global, out: &mut Bytes, found: &NumberedFind) -> Result<(), OutOfMemory> {
    push_find(alloc, out, &found.request)?;
    out.append(b" social=")?;
    out.append_decimal(found.social)
}

/// Prints the message that a text is the base64 text of, as hexadecimal.
fn query_row(alloc: Global, text: &[u8], out: &mut Bytes) -> Result<(), OutOfMemory> {
    match message_of_query(alloc, text) {
        Ok(message) => push_hex(alloc, out, message.as_slice()),
        Err(fault) => push_proto_fault(alloc, out, fault),
    }
}

/// Writes a response that is read from JSON, as hexadecimal, where SOCIAL_ENGINEERING was asked by 5.
fn write_matches_row(alloc: Global, text: &[u8], out: &mut Bytes) -> Result<(), OutOfMemory> {
    match read_matches(alloc, text) {
        Ok(response) => {
            let bytes = write_matches(alloc, &response, 5)?;
            push_hex(alloc, out, bytes.as_slice())
        }
        Err(fault) => push_fault(alloc, out, &fault),
    }
}

/// Writes a response that is read from JSON, as hexadecimal, where the threats of its first two updates were asked by 5 and by 1.
fn write_response_row(alloc: Global, text: &[u8], out: &mut Bytes) -> Result<(), OutOfMemory> {
    match read_response(alloc, text) {
        Ok(response) => {
            let bytes = write_fetch(alloc, &response, &[5, 1])?;
            push_hex(alloc, out, bytes.as_slice())
        }
        Err(fault) => push_fault(alloc, out, &fault),
    }
}
