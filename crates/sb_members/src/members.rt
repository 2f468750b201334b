ghost use Rattle.std.specs.Prelude.{◌≡◌, map, Some, option_map, IfOk, OnOk};
ghost use Rattle.serde_json.specs.Data.{string};
ghost use Rattle.serde_json.specs.View.{view, members_view};
ghost use Rattle.base64.specs.Engines.{standard};
ghost use Rattle.base64.specs.GeneralPurpose.{IsBytes, encode_of};
ghost use Rattle.sb_members.specs.Ranges.{IsText, IsDuration};
ghost use Rattle.sb_members.specs.Writing as spec;

use base64::engine::general_purpose::STANDARD;
use sb_json::Field;
use sb_model::{Duration, OutOfMemory, Text, durations_are_their_digits, write_duration};
use serde_json::{Map, Value};
use std::alloc::Global;

/// Puts a member at its place, where there is something to write.
pub fn put_member(
    alloc: Global,
    members: &mut Map<String, Value>,
    name: Field,
    value: Option<Value>,
) -> Result<(), OutOfMemory>
    ensures { OnOk result (members_view members.new.entries
        ≡ spec.with_member_if_any name (option_map view value) (members_view members.old.entries)) }
{
    match value {
        Some(value) => Ok(serde_json::put(members, alloc, name.key(), value)?),
        None => Ok(()),
    }
}

/// A string.
pub fn string_value(alloc: Global, text: &str) -> Result<Value, OutOfMemory>
    ensures { IfOk result (λ value. view value ≡ string text.now) }
{
    Ok(Value::try_from_str(alloc, text)?)
}

/// A text, unless it is empty.
pub fn text_value(alloc: Global, text: &Text) -> Result<Option<Value>, OutOfMemory>
    ensures value { IfOk result (λ value. option_map view value ≡ spec.text_written text.now) }
    ensures range { IfOk result (λ _. IsText text.now) }
{
    if text.is_empty() {
        return Ok(None);
    }
    Ok(Some(string_value(alloc, text.as_str())?))
}

/// Bytes in standard padded base64 (RFC 4648, section 4).
pub fn encoded_value(alloc: Global, bytes: &[u8]) -> Result<Value, OutOfMemory>
    ensures value { IfOk result (λ value. view value ≡ string (encode_of standard bytes.now)) }
    ensures range { IsBytes bytes.now }
{
    Ok(Value::String(STANDARD.encode(alloc, bytes)?))
}

/// The same, unless there are none.
pub fn bytes_value(alloc: Global, bytes: &[u8]) -> Result<Option<Value>, OutOfMemory>
    ensures value { IfOk result (λ value. option_map view value ≡ spec.bytes_written bytes.now) }
    ensures range { IsBytes bytes.now }
{
    if bytes.is_empty() {
        return Ok(None);
    }
    Ok(Some(encoded_value(alloc, bytes)?))
}

/// A number, unless it is zero.
pub fn number_value(number: u32) -> Option<Value>
    ensures { option_map view result ≡ spec.number_written number }
{
    if number == 0 {
        None
    } else {
        Some(Value::from(number))
    }
}

/// A number of 64 bits as a string, unless it is zero.
pub fn long_value(alloc: Global, number: u64) -> Result<Option<Value>, OutOfMemory>
    ensures { IfOk result (λ value. option_map view value ≡ spec.long_written number) }
{
    if number == 0 {
        return Ok(None);
    }
    let text = format!(in alloc; "{number}")?;
    Ok(Some(Value::String(text)))
}

/// A duration, unless it is zero.
pub fn duration_value(alloc: Global, duration: Duration) -> Result<Option<Value>, OutOfMemory>
    ensures value { IfOk result (λ value. option_map view value ≡ spec.duration_written duration) }
    ensures range { IfOk result (λ _. IsDuration duration) }
{
    if duration.seconds() == 0 && duration.nanos() == 0 {
        return Ok(None);
    }
    durations_are_their_digits();
    let bytes = write_duration(alloc, duration)?;
    let text = String::from_utf8(bytes.into_vec()).unwrap();
    Ok(Some(Value::String(text)))
}

/// A list, unless it is empty.
pub fn list_value(items: Vec<Value>) -> Option<Value>
    ensures { option_map view result ≡ spec.values_written (map view items.items) }
{
    if items.is_empty() {
        None
    } else {
        Some(Value::Array(items))
    }
}

/// An object, unless it is bare.
pub fn object_value(members: Map<String, Value>) -> Option<Value>
    ensures { option_map view result ≡ spec.unless_bare (members_view members.entries) }
{
    if members.is_empty() {
        None
    } else {
        Some(Value::Object(members))
    }
}
