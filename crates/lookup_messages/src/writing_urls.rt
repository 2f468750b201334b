ghost use Rattle.std.specs.Prelude.{◌≡◌, All, map, IfOk, encode_utf8_all};
ghost use Rattle.serde_json.specs.Data.{string};
ghost use Rattle.serde_json.specs.View.{view};
ghost use Rattle.sb_members.specs.Ranges.{IsText};
ghost use Rattle.lookup_messages.specs.Writing as spec;

use sb_json::Field;
use sb_members::{put_member, string_value};
use sb_model::{OutOfMemory, Text};
use serde_json::{Map, Value};
use std::alloc::Global;

/// The text of a URL, which may be empty.
fn url_text(alloc: Global, url: &Text) -> Result<Value, OutOfMemory>
    ensures value { IfOk result (λ value. view value ≡ string (encode_utf8_all url.now)) }
    ensures range { IsText url.now }
{
    string_value(alloc, url.as_str())
}

/// An object of a URL alone.
pub(crate) fn url_value(alloc: Global, url: &Text) -> Result<Value, OutOfMemory>
    ensures value { IfOk result (λ value. view value ≡ spec.url_written url.now) }
    ensures range { IfOk result (λ _. IsText url.now) }
{
    let mut members = Map::new(alloc);
    let text = url_text(alloc, url)?;
    put_member(alloc, &mut members, Field::Url, Some(text))?;
    Ok(Value::Object(members))
}

pub(crate) fn url_values(alloc: Global, urls: &[Text]) -> Result<Vec<Value>, OutOfMemory>
    ensures value { IfOk result (λ values. map view values.items ≡ map spec.url_written urls.now) }
    ensures range { IfOk result (λ _. All IsText urls.now) }
{
    let mut values = Vec::with_capacity(alloc, urls.len())?;
    for url in urls {
        values.push(url_value(alloc, url)?)?;
    }
    Ok(values)
}
