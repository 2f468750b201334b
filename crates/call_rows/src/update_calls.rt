//! Fetch messages that are read, and written again.
use crate::printing::{push_client, push_fault, push_hex, push_name};
use sb_model::{Bytes, OutOfMemory};
use std::alloc::Global;
use update_messages::{
    FetchRequest, FetchResponse, read_request, read_response, write_request, write_response,
};

/// Prints what a fetch request or a response to one names, or writes it again.
pub fn call(alloc: Global, name: &[u8], text: &[u8], out: &mut Bytes) -> Result<bool, OutOfMemory> {
    match name {
        b"read-request" => read_one(alloc, text, out)?,
        b"write-request" => write_one(alloc, text, out)?,
        b"read-response" => read_answer(alloc, text, out)?,
        b"write-response" => write_answer(alloc, text, out)?,
        _ => return Ok(false),
    }
    Ok(true)
}

fn read_one(alloc: Global, text: &[u8], out: &mut Bytes) -> Result<(), OutOfMemory> {
    match read_request(alloc, text) {
        Ok(request) => push_request(alloc, out, &request),
        Err(fault) => push_fault(alloc, out, &fault),
    }
}

fn write_one(alloc: Global, text: &[u8], out: &mut Bytes) -> Result<(), OutOfMemory> {
    match read_request(alloc, text) {
        Ok(request) => out.append(write_request(alloc, &request)?.as_slice()),
        Err(fault) => push_fault(alloc, out, &fault),
    }
}

fn read_answer(alloc: Global, text: &[u8], out: &mut Bytes) -> Result<(), OutOfMemory> {
    match read_response(alloc, text) {
        Ok(response) => push_response(alloc, out, &response),
        Err(fault) => push_fault(alloc, out, &fault),
    }
}

fn write_answer(alloc: Global, text: &[u8], out: &mut Bytes) -> Result<(), OutOfMemory> {
    match read_response(alloc, text) {
        Ok(response) => out.append(write_response(alloc, &response)?.as_slice()),
        Err(fault) => push_fault(alloc, out, &fault),
    }
}

/// Prints the client of a request, and the names of its lists.
fn push_request(alloc: Global, out: &mut Bytes, request: &FetchRequest) -> Result<(), OutOfMemory> {
    push_client(out, &request.client)?;
    for item in request.items.iter() {
        out.append(b" list=")?;
        push_name(alloc, out, item.name)?;
    }
    Ok(())
}

/// Prints of each update of a response its list, whether it is full, and its checksum.
fn push_response(
    alloc: Global,
    out: &mut Bytes,
    response: &FetchResponse,
) -> Result<(), OutOfMemory> {
    out.append(b"updates")?;
    for item in response.items.iter() {
        out.append(b" list=")?;
        push_name(alloc, out, item.name)?;
        out.append(if item.full { b",full," } else { b",partial," })?;
        push_hex(alloc, out, &item.checksum)?;
    }
    Ok(())
}
