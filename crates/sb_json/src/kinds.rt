ghost use Rattle.std.specs.Prelude.{◌≡◌, ◌⊎◌, Ok, Err, IfOk, IfErr};
ghost use Rattle.serde_json.specs.View.{view, items_view};
ghost use Rattle.sb_json.specs.Values as spec;

use crate::encoded::base64_bytes;
use crate::numerals::{at_most, numeral};
use crate::{Field, FieldFault};
use sb_model::{Bytes, Duration, read_duration};
use serde_json::Value;
use std::alloc::Global;

/// A value as a whole number from 0 to `most`: a JSON number without fraction and exponent, or a string of
/// `0` or of digits that do not begin with 0. A fault names the field that the value is of, as the list whose
/// item it is.
pub fn whole_item(value: &Value, field: Field, most: u64) -> Result<u64, FieldFault>
    ensures { result ≡ spec.whole_in field most (view value.now) }
{
    let number = match value {
        Value::Number(number) => at_most(number.as_u64(), most),
        Value::String(text) => numeral(text.as_str(), most),
        _ => return Err(FieldFault::WrongKind(field)),
    };
    number.ok_or(FieldFault::Number(field))
}

/// A value as a string, as it stands.
pub fn string_item<'v>(value: &'v Value, field: Field) -> Result<&'v str, FieldFault>
    ensures ok { IfOk result (λ text. spec.string_in field (view value.now) ≡ Ok text.now) }
    ensures err { IfErr result (λ fault. spec.string_in field (view value.now) ≡ Err fault) }
{
    match value {
        Value::String(text) => Ok(text.as_str()),
        _ => Err(FieldFault::WrongKind(field)),
    }
}

/// A value as the items of a list.
pub fn items_item<'v>(value: &'v Value, field: Field) -> Result<&'v [Value], FieldFault>
    ensures ok { IfOk result (λ items. spec.items_in field (view value.now) ≡ Ok (items_view items.now)) }
    ensures err { IfErr result (λ fault. spec.items_in field (view value.now) ≡ Err fault) }
{
    match value {
        Value::Array(items) => Ok(items.as_slice()),
        _ => Err(FieldFault::WrongKind(field)),
    }
}

/// A value as an object, whose fields are read from it. The top value is read so as `Field::Root`.
pub fn object_item<'v>(value: &'v Value, field: Field) -> Result<&'v Value, FieldFault>
    ensures ok { IfOk result (λ object. spec.object_in field (view value.now) ≡ Ok (view object.now)) }
    ensures err { IfErr result (λ fault. spec.object_in field (view value.now) ≡ Err fault) }
{
    match value {
        Value::Object(_) => Ok(value),
        _ => Err(FieldFault::WrongKind(field)),
    }
}

/// A value as the bytes of a string in base64, as `bytes` reads a field.
pub fn bytes_item(alloc: Global, value: &Value, field: Field) -> Result<Bytes, FieldFault>
    ensures ok { IfOk result (λ bytes. spec.bytes_in field (view value.now) ≡ Ok bytes) }
    ensures err { IfErr result (λ fault. (fault ≡ FieldFault.OutOfMemory)
        ⊎ (spec.bytes_in field (view value.now) ≡ Err fault)) }
{
    let text = string_item(value, field)?;
    match base64_bytes(alloc, text.as_bytes())? {
        Some(bytes) => Ok(bytes),
        None => Err(FieldFault::Base64(field)),
    }
}

/// A value as a duration.
pub fn duration_item(value: &Value, field: Field) -> Result<Duration, FieldFault>
    ensures { result ≡ spec.duration_in field (view value.now) }
{
    let text = string_item(value, field)?;
    match read_duration(text.as_bytes()) {
        Ok(duration) => Ok(duration),
        Err(_) => Err(FieldFault::Duration(field)),
    }
}
