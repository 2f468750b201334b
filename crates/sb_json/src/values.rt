ghost use Rattle.std.specs.Prelude.{◌≡◌, ◌⊎◌, Some, None, Ok, Err, IfOk, IfErr, option_map};
ghost use Rattle.serde_json.specs.View.{view, items_view};
ghost use Rattle.sb_json.specs.Values as spec;

use crate::density::too_dense;
use crate::kinds::{bytes_item, duration_item, items_item, object_item, string_item, whole_item};
use crate::{Field, FieldFault, MessageFault};
use sb_model::{Bytes, Duration, Text};
use serde_json::Value;
use std::alloc::Global;

/// Reads a text as a JSON value. `TooDense` comes exactly where the text, whatever its bytes are, opens more than 8,192 lists
/// and objects and one for each 48 bytes, or has more than 65,536 values and one for each 6 bytes: a tree of it would take
/// many times its bytes. `NotJson` comes exactly where it is not too dense, and `serde_json` refuses the bytes for another
/// cause than memory.
pub fn read_json(alloc: Global, text: &[u8]) -> Result<Value, MessageFault>
    ensures ok { IfOk result (λ value. spec.value_of text.now ≡ Ok (view value)) }
    ensures err { IfErr result (λ fault. (fault ≡ MessageFault.OutOfMemory)
        ⊎ (spec.value_of text.now ≡ Err fault)) }
{
    if let Some(place) = too_dense(text) {
        return Err(MessageFault::TooDense(place));
    }
    match Value::from_slice(alloc, text) {
        Ok(value) => Ok(value),
        Err(e) if e.is_memory() => Err(MessageFault::OutOfMemory),
        Err(_) => Err(MessageFault::NotJson),
    }
}

/// A field of an object. `None` comes exactly where it is absent or null; a value that is no object has
/// no field.
pub fn field<'v>(value: &'v Value, field: Field) -> Option<&'v Value>
    ensures { option_map (λ v. view v.now) result ≡ spec.field_of field (view value.now) }
{
    let found = value.get(field.key())?;
    if found.is_null() { None } else { Some(found) }
}

/// A field that has to be there.
fn needed<'v>(value: &'v Value, name: Field) -> Result<&'v Value, FieldFault>
    ensures ok { IfOk result (λ found. spec.needed_of name (view value.now) ≡ Ok (view found.now)) }
    ensures err { IfErr result (λ fault. spec.needed_of name (view value.now) ≡ Err fault) }
{
    match field(value, name) {
        Some(found) => Ok(found),
        None => Err(FieldFault::Missing(name)),
    }
}

/// A whole number from 0 to `most`: a JSON number without fraction and exponent, or a string of `0` or of
/// digits that do not begin with 0.
pub fn whole(value: &Value, field: Field, most: u64) -> Result<u64, FieldFault>
    ensures { result ≡ spec.whole_of field most (view value.now) }
{
    whole_item(needed(value, field)?, field, most)
}

/// A string, as it stands.
pub fn string<'v>(value: &'v Value, field: Field) -> Result<&'v str, FieldFault>
    ensures ok { IfOk result (λ text. spec.string_of field (view value.now) ≡ Ok text.now) }
    ensures err { IfErr result (λ fault. spec.string_of field (view value.now) ≡ Err fault) }
{
    string_item(needed(value, field)?, field)
}

/// A copy of a string.
pub fn text(alloc: Global, value: &Value, field: Field) -> Result<Text, FieldFault>
    ensures ok { IfOk result (λ text. spec.text_chars_of field (view value.now) ≡ Ok text) }
    ensures err { IfErr result (λ fault. (fault ≡ FieldFault.OutOfMemory)
        ⊎ (spec.text_chars_of field (view value.now) ≡ Err fault)) }
{
    Ok(Text::from_str(alloc, string(value, field)?)?)
}

/// The items of a list.
pub fn items<'v>(value: &'v Value, field: Field) -> Result<&'v [Value], FieldFault>
    ensures ok { IfOk result (λ items. spec.items_of field (view value.now) ≡ Ok (items_view items.now)) }
    ensures err { IfErr result (λ fault. spec.items_of field (view value.now) ≡ Err fault) }
{
    items_item(needed(value, field)?, field)
}

/// An object, whose own fields are read from it.
pub fn object<'v>(value: &'v Value, field: Field) -> Result<&'v Value, FieldFault>
    ensures ok { IfOk result (λ object. spec.object_of field (view value.now) ≡ Ok (view object.now)) }
    ensures err { IfErr result (λ fault. spec.object_of field (view value.now) ≡ Err fault) }
{
    object_item(needed(value, field)?, field)
}

/// The bytes of a string in base64, of either alphabet, with or without padding, and strict on the bits past
/// the last byte (RFC 4648, sections 4 and 5).
pub fn bytes(alloc: Global, value: &Value, field: Field) -> Result<Bytes, FieldFault>
    ensures ok { IfOk result (λ bytes. spec.bytes_of field (view value.now) ≡ Ok bytes) }
    ensures err { IfErr result (λ fault. (fault ≡ FieldFault.OutOfMemory)
        ⊎ (spec.bytes_of field (view value.now) ≡ Err fault)) }
{
    bytes_item(alloc, needed(value, field)?, field)
}

/// A duration (`google.protobuf.Duration` in JSON).
pub fn duration(value: &Value, field: Field) -> Result<Duration, FieldFault>
    ensures { result ≡ spec.duration_of_field field (view value.now) }
{
    duration_item(needed(value, field)?, field)
}
