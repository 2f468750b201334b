//! What is printed of find messages.
use crate::lists::{push_entries, push_platforms, push_prefixes, push_states, push_threats};
use crate::printing::{push_client, push_duration, push_hex, push_name};
use hash_messages::{FindRequest, FindResponse, Match};
use sb_model::{Bytes, OutOfMemory};
use std::alloc::Global;

/// Prints the fields of a request.
pub fn push_find(alloc: Global, out: &mut Bytes, request: &FindRequest) -> Result<(), OutOfMemory> {
    push_client(out, &request.client)?;
    push_states(alloc, out, request.states.as_slice())?;
    push_threats(out, request.threats.as_slice())?;
    push_platforms(out, request.platforms.as_slice())?;
    push_entries(out, request.entries.as_slice())?;
    push_prefixes(alloc, out, request.prefixes.as_slice())
}

/// Prints the fields of a response.
pub fn push_matches(
    alloc: Global,
    out: &mut Bytes,
    response: &FindResponse,
) -> Result<(), OutOfMemory> {
    out.append(b"wait=")?;
    push_duration(alloc, out, response.wait)?;
    out.append(b" negative=")?;
    push_duration(alloc, out, response.negative)?;
    for found in response.matches.iter() {
        push_match(alloc, out, found)?;
    }
    Ok(())
}

fn push_match(alloc: Global, out: &mut Bytes, found: &Match) -> Result<(), OutOfMemory> {
    out.append(b" match=")?;
    push_name(alloc, out, found.name)?;
    out.append(b",")?;
    push_hex(alloc, out, &found.hash.bytes)?;
    out.append(b",")?;
    push_duration(alloc, out, found.cache)
}
