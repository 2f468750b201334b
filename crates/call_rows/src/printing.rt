//! What is printed of values and of faults.
use hash_prefixes::write_hex;
use sb_json::{FieldFault, MessageFault, push_message_cause};
use sb_model::{Bytes, Duration, ListName, OutOfMemory, write_duration, write_list_name};
use std::alloc::Global;
use update_messages::ClientInfo;

/// Prints bytes in hexadecimal.
pub fn push_hex(alloc: Global, out: &mut Bytes, bytes: &[u8]) -> Result<(), OutOfMemory> {
    let text = write_hex(alloc, bytes)?;
    out.append(text.as_slice())
}

pub fn push_name(alloc: Global, out: &mut Bytes, name: ListName) -> Result<(), OutOfMemory> {
    let text = write_list_name(alloc, name)?;
    out.append(text.as_slice())
}

pub fn push_duration(
    alloc: Global,
    out: &mut Bytes,
    duration: Duration,
) -> Result<(), OutOfMemory> {
    let text = write_duration(alloc, duration)?;
    out.append(text.as_slice())
}

/// Prints the cause of a message's fault, and what is told of it.
pub fn push_fault(alloc: Global, out: &mut Bytes, fault: &MessageFault) -> Result<(), OutOfMemory> {
    push_message_cause(out, fault)?;
    let told = format!(in alloc; ": {fault}")?;
    out.append(told.as_bytes())
}

/// The word for a field's fault.
pub fn fault_word(fault: FieldFault) -> &'static [u8] {
    match fault {
        FieldFault::Missing(_) => b"missing",
        FieldFault::WrongKind(_) => b"wrong-kind",
        FieldFault::Number(_) => b"number",
        FieldFault::Base64(_) => b"base64",
        FieldFault::Name(_) => b"name",
        FieldFault::Size(_, _) => b"size",
        FieldFault::Duration(_) => b"duration",
        FieldFault::OutOfMemory => b"out-of-memory",
    }
}

/// Prints the two texts of a client.
pub fn push_client(out: &mut Bytes, client: &ClientInfo) -> Result<(), OutOfMemory> {
    out.append(b"client=")?;
    out.append(client.id.as_str().as_bytes())?;
    out.append(b" version=")?;
    out.append(client.version.as_str().as_bytes())
}
