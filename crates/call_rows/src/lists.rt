//! What is printed of the lists of a find request, with commas between their items.
use crate::printing::push_hex;
use hash_prefixes::Prefix;
use sb_model::{Bytes, EntryType, OutOfMemory, PlatformType, ThreatType};
use std::alloc::Global;

/// Prints a comma before each item but the first.
fn push_comma(out: &mut Bytes, place: usize) -> Result<(), OutOfMemory> {
    if place == 0 {
        return Ok(());
    }
    out.push(b',')
}

pub fn push_states(alloc: Global, out: &mut Bytes, states: &[Bytes]) -> Result<(), OutOfMemory> {
    out.append(b" states=")?;
    for (place, state) in states.iter().enumerate() {
        push_comma(out, place)?;
        push_hex(alloc, out, state.as_slice())?;
    }
    Ok(())
}

pub fn push_threats(out: &mut Bytes, threats: &[ThreatType]) -> Result<(), OutOfMemory> {
    out.append(b" threats=")?;
    for (place, threat) in threats.iter().enumerate() {
        push_comma(out, place)?;
        out.append(threat.word().as_bytes())?;
    }
    Ok(())
}

pub fn push_platforms(out: &mut Bytes, platforms: &[PlatformType]) -> Result<(), OutOfMemory> {
    out.append(b" platforms=")?;
    for (place, platform) in platforms.iter().enumerate() {
        push_comma(out, place)?;
        out.append(platform.word().as_bytes())?;
    }
    Ok(())
}

pub fn push_entries(out: &mut Bytes, entries: &[EntryType]) -> Result<(), OutOfMemory> {
    out.append(b" entries=")?;
    for (place, entry) in entries.iter().enumerate() {
        push_comma(out, place)?;
        out.append(entry.word().as_bytes())?;
    }
    Ok(())
}

pub fn push_prefixes(
    alloc: Global,
    out: &mut Bytes,
    prefixes: &[Prefix],
) -> Result<(), OutOfMemory> {
    out.append(b" prefixes=")?;
    for (place, prefix) in prefixes.iter().enumerate() {
        push_comma(out, place)?;
        push_hex(alloc, out, prefix.as_bytes())?;
    }
    Ok(())
}
