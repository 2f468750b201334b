ghost use Rattle.std.specs.Prelude.{◌≡◌, ◌⊎◌, ◌≤◌, Ok, Err, IfOk, IfErr, OnOk};
ghost use Rattle.serde_json.specs.Data.{null};
ghost use Rattle.serde_json.specs.View.{view, items_view};
ghost use Rattle.sb_json.specs.Values.{object_in};
ghost use Rattle.sb_members.specs.Rows as spec;

use sb_json::{
    Field, FieldFault, bytes_item, duration_item, field, items_item, object_item, string,
    string_item, whole_item,
};
use sb_model::{Bytes, Duration, EntryType, PlatformType, Text, ThreatType};
use serde_json::Value;
use std::alloc::Global;

/// Refuses a value that is no object. The fault names the field that the value is of.
pub fn check_object(value: &Value, name: Field) -> Result<(), FieldFault>
    ensures ok { OnOk result (object_in name (view value.now) ≡ Ok (view value.now)) }
    ensures err { IfErr result (λ fault. object_in name (view value.now) ≡ Err fault) }
{
    object_item(value, name)?;
    Ok(())
}

/// An object; where it is absent, a value without fields.
pub fn object_or_null<'v>(
    holder: &'v Value,
    name: Field,
    absent: &'v Value,
) -> Result<&'v Value, FieldFault>
    requires { view absent.now ≡ null }
    ensures ok { IfOk result (λ found.
        spec.object_or_null name (view holder.now) ≡ Ok (view found.now)) }
    ensures err { IfErr result (λ fault. spec.object_or_null name (view holder.now) ≡ Err fault) }
{
    match field(holder, name) {
        Some(value) => object_item(value, name),
        None => Ok(absent),
    }
}

/// The items of a list, of which there are none where it is absent.
pub fn items_or_none<'v>(holder: &'v Value, name: Field) -> Result<&'v [Value], FieldFault>
    ensures ok { IfOk result (λ items.
        spec.items_or_none name (view holder.now) ≡ Ok (items_view items.now)) }
    ensures err { IfErr result (λ fault. spec.items_or_none name (view holder.now) ≡ Err fault) }
{
    match field(holder, name) {
        Some(value) => items_item(value, name),
        None => Ok(&[]),
    }
}

/// Bytes, of which there are none where the field is absent.
pub fn bytes_or_empty(alloc: Global, holder: &Value, name: Field) -> Result<Bytes, FieldFault>
    ensures ok { IfOk result (λ bytes. spec.bytes_or_empty name (view holder.now) ≡ Ok bytes) }
    ensures err { IfErr result (λ fault. (fault ≡ FieldFault.OutOfMemory)
        ⊎ (spec.bytes_or_empty name (view holder.now) ≡ Err fault)) }
{
    match field(holder, name) {
        Some(value) => bytes_item(alloc, value, name),
        None => Ok(Bytes::new(alloc)),
    }
}

/// A text, empty where the field is absent.
pub fn text_or_empty(alloc: Global, holder: &Value, name: Field) -> Result<Text, FieldFault>
    ensures ok { IfOk result (λ text. spec.text_or_empty name (view holder.now) ≡ Ok text) }
    ensures err { IfErr result (λ fault. (fault ≡ FieldFault.OutOfMemory)
        ⊎ (spec.text_or_empty name (view holder.now) ≡ Err fault)) }
{
    match field(holder, name) {
        Some(value) => Ok(Text::from_str(alloc, string_item(value, name)?)?),
        None => Ok(Text::new(alloc)),
    }
}

/// A whole number up to `most`, which is 0 where it is absent.
pub fn whole_or_zero(holder: &Value, name: Field, most: u64) -> Result<u64, FieldFault>
    ensures value { result ≡ spec.whole_or_zero name most (view holder.now) }
    ensures limit { IfOk result (λ n. n ≤ most) }
{
    match field(holder, name) {
        Some(value) => whole_item(value, name, most),
        None => Ok(0),
    }
}

/// A duration, which is zero where it is absent.
pub fn duration_or_zero(holder: &Value, name: Field) -> Result<Duration, FieldFault>
    ensures { result ≡ spec.duration_or_zero name (view holder.now) }
{
    match field(holder, name) {
        Some(value) => duration_item(value, name),
        None => Ok(Duration::ZERO),
    }
}

/// The threat type that an item names.
pub fn threat_type(holder: &Value) -> Result<ThreatType, FieldFault>
    ensures { result ≡ spec.threat_row (view holder.now) }
{
    let word = string(holder, Field::ThreatType)?;
    ThreatType::from_word(word.as_bytes()).ok_or(FieldFault::Name(Field::ThreatType))
}

/// The platform type that an item names.
pub fn platform_type(holder: &Value) -> Result<PlatformType, FieldFault>
    ensures { result ≡ spec.platform_row (view holder.now) }
{
    let word = string(holder, Field::PlatformType)?;
    PlatformType::from_word(word.as_bytes()).ok_or(FieldFault::Name(Field::PlatformType))
}

/// The threat entry type that an item names.
pub fn entry_type(holder: &Value) -> Result<EntryType, FieldFault>
    ensures { result ≡ spec.entry_row (view holder.now) }
{
    let word = string(holder, Field::ThreatEntryType)?;
    EntryType::from_word(word.as_bytes()).ok_or(FieldFault::Name(Field::ThreatEntryType))
}
