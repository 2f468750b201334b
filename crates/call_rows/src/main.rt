//! Makes the calls that the lines of its input name, and prints for each what it comes to.
#![tactic(auto)]

use real_objects::{StdSink, StdSource};
use sb_model::{Bytes, OutOfMemory};
use sb_outside::{read_to_end, write_all};
use std::alloc::Global;
use std::process::ExitCode;
use words::cut;

mod field_calls;
mod find_calls;
mod finds;
mod kept_calls;
mod lists;
mod low_calls;
mod mirror_calls;
mod printing;
mod proto_calls;
mod steps;
mod update_calls;
mod words;

/// How many bytes all lines may have.
const LIMIT: usize = 1_048_576;

/// Makes a call that one of the modules knows. Whether one does is told.
fn call(alloc: Global, name: &[u8], text: &[u8], out: &mut Bytes) -> Result<bool, OutOfMemory> {
    Ok(
        field_calls::call(alloc, name, text, out)?
            || find_calls::call(alloc, name, text, out)?
            || update_calls::call(alloc, name, text, out)?
            || kept_calls::call(alloc, name, text, out)?
            || low_calls::call(alloc, name, text, out)?
            || proto_calls::call(alloc, name, text, out)?
            || mirror_calls::call(alloc, name, text, out)?,
    )
}

/// Prints what the call of a line comes to, and nothing for an empty line or one that begins with two dashes.
fn push_line(alloc: Global, line: &[u8], out: &mut Bytes) -> Result<(), OutOfMemory> {
    if line.is_empty() || line.starts_with(b"--") {
        return Ok(());
    }
    let (name, text) = cut(line, b' ');
    if !call(alloc, name, text, out)? {
        out.append(b"unknown call")?;
    }
    out.push(b'\n')
}

/// What is printed of all lines.
fn page_of(alloc: Global, text: &[u8]) -> Result<Bytes, OutOfMemory> {
    let mut page = Bytes::new(alloc);
    for line in text.split(|byte| *byte == b'\n') {
        push_line(alloc, line, &mut page)?;
    }
    Ok(page)
}

fn main(rt: HostRuntime) -> ExitCode {
    let alloc = rt.alloc();
    let Ok(text) = read_to_end(alloc, &mut StdSource::new(rt.stdin()), LIMIT) else {
        return ExitCode::from(2);
    };
    let Ok(page) = page_of(alloc, text.as_slice()) else {
        return ExitCode::from(8);
    };
    match write_all(&mut StdSink::new(rt.stdout()), page.as_slice()) {
        Ok(()) => ExitCode::from(0),
        Err(_) => ExitCode::from(3),
    }
}
