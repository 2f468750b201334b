//! Find messages that are read, and written again.
use crate::finds::{push_find, push_matches};
use crate::printing::push_fault;
use hash_messages::{read_find, read_matches, write_find, write_matches};
use sb_model::{Bytes, OutOfMemory};
use std::alloc::Global;

/// Prints the fields of a find request or of a response to one, or writes it again.
pub fn call(alloc: Global, name: &[u8], text: &[u8], out: &mut Bytes) -> Result<bool, OutOfMemory> {
    match name {
        b"read-find" => read_one(alloc, text, out)?,
        b"write-find" => write_one(alloc, text, out)?,
        b"read-matches" => read_answer(alloc, text, out)?,
        b"write-matches" => write_answer(alloc, text, out)?,
        _ => return Ok(false),
    }
    Ok(true)
}

fn read_one(alloc: Global, text: &[u8], out: &mut Bytes) -> Result<(), OutOfMemory> {
    match read_find(alloc, text) {
        Ok(request) => push_find(alloc, out, &request),
        Err(fault) => push_fault(alloc, out, &fault),
    }
}

fn write_one(alloc: Global, text: &[u8], out: &mut Bytes) -> Result<(), OutOfMemory> {
    match read_find(alloc, text) {
        Ok(request) => out.append(write_find(alloc, &request)?.as_slice()),
        Err(fault) => push_fault(alloc, out, &fault),
    }
}

fn read_answer(alloc: Global, text: &[u8], out: &mut Bytes) -> Result<(), OutOfMemory> {
    match read_matches(alloc, text) {
        Ok(response) => push_matches(alloc, out, &response),
        Err(fault) => push_fault(alloc, out, &fault),
    }
}

fn write_answer(alloc: Global, text: &[u8], out: &mut Bytes) -> Result<(), OutOfMemory> {
    match read_matches(alloc, text) {
        Ok(response) => out.append(write_matches(alloc, &response)?.as_slice()),
        Err(fault) => push_fault(alloc, out, &fault),
    }
}
