ghost use Rattle.std.specs.Prelude.{◌≡◌, All, map, IfOk};
ghost use Rattle.serde_json.specs.View.{view};
ghost use Rattle.base64.specs.GeneralPurpose.{IsBytes};
ghost use Rattle.hash_messages.specs.Ranges.{IsPrefix};
ghost use Rattle.hash_messages.specs.Writing as spec;

use hash_prefixes::Prefix;
use sb_json::Field;
use sb_members::{bytes_value, encoded_value, put_member, string_value};
use sb_model::{Bytes, EntryType, OutOfMemory, PlatformType, ThreatType};
use serde_json::{Map, Value};
use std::alloc::Global;

fn state_value(alloc: Global, state: &Bytes) -> Result<Value, OutOfMemory>
    ensures value { IfOk result (λ value. view value ≡ spec.state_written state.now) }
    ensures range { IfOk result (λ _. IsBytes state.now) }
{
    encoded_value(alloc, state.as_slice())
}

pub(crate) fn state_values(alloc: Global, states: &[Bytes]) -> Result<Vec<Value>, OutOfMemory>
    ensures value { IfOk result (λ values.
        map view values.items ≡ map spec.state_written states.now) }
    ensures range { IfOk result (λ _. All IsBytes states.now) }
{
    let mut values = Vec::with_capacity(alloc, states.len())?;
    for state in states {
        values.push(state_value(alloc, state)?)?;
    }
    Ok(values)
}

/// The words of threat types, each as a string.
pub fn threat_values(alloc: Global, threats: &[ThreatType]) -> Result<Vec<Value>, OutOfMemory>
    ensures { IfOk result (λ values. map view values.items ≡ map spec.threat_written threats.now) }
{
    let mut values = Vec::with_capacity(alloc, threats.len())?;
    for threat in threats {
        values.push(string_value(alloc, threat.word())?)?;
    }
    Ok(values)
}

/// The words of platform types, each as a string.
pub fn platform_values(alloc: Global, platforms: &[PlatformType]) -> Result<Vec<Value>, OutOfMemory>
    ensures { IfOk result (λ values.
        map view values.items ≡ map spec.platform_written platforms.now) }
{
    let mut values = Vec::with_capacity(alloc, platforms.len())?;
    for platform in platforms {
        values.push(string_value(alloc, platform.word())?)?;
    }
    Ok(values)
}

/// The words of threat entry types, each as a string.
pub fn entry_values(alloc: Global, entries: &[EntryType]) -> Result<Vec<Value>, OutOfMemory>
    ensures { IfOk result (λ values. map view values.items ≡ map spec.entry_written entries.now) }
{
    let mut values = Vec::with_capacity(alloc, entries.len())?;
    for entry in entries {
        values.push(string_value(alloc, entry.word())?)?;
    }
    Ok(values)
}

fn prefix_value(alloc: Global, prefix: &Prefix) -> Result<Value, OutOfMemory>
    ensures value { IfOk result (λ value. view value ≡ spec.prefix_written prefix.now) }
    ensures range { IfOk result (λ _. IsPrefix prefix.now) }
{
    prove!(prefix.size() >= 4 && prefix.size() <= 32);
    let mut members = Map::new(alloc);
    let hash = bytes_value(alloc, prefix.as_bytes())?;
    put_member(alloc, &mut members, Field::Hash, hash)?;
    Ok(Value::Object(members))
}

pub(crate) fn prefix_values(alloc: Global, prefixes: &[Prefix]) -> Result<Vec<Value>, OutOfMemory>
    ensures value { IfOk result (λ values.
        map view values.items ≡ map spec.prefix_written prefixes.now) }
    ensures range { IfOk result (λ _. All IsPrefix prefixes.now) }
{
    let mut values = Vec::with_capacity(alloc, prefixes.len())?;
    for prefix in prefixes {
        values.push(prefix_value(alloc, prefix)?)?;
    }
    Ok(values)
}
