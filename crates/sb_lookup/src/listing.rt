ghost use Rattle.std.specs.Prelude.{◌≡◌, map, IfOk};
ghost use Rattle.serde_json.specs.View.{view};
ghost use Rattle.sb_lookup.specs.Lookups.{declared_names, lists_text, name_written, names_written};

use delta_server::declared_lists;
use list_versions::History;
use sb_json::Field;
use sb_members::{list_value, members_are_as_their_values, put_member, string_value};
use sb_model::{Bytes, ListName, OutOfMemory};
use serde_json::{Map, Value};
use std::alloc::Global;

fn name_value(alloc: Global, name: ListName) -> Result<Value, OutOfMemory>
    ensures { IfOk result (λ value. view value ≡ name_written name) }
{
    let mut members = Map::new(alloc);
    let threat = string_value(alloc, name.threat.word())?;
    put_member(alloc, &mut members, Field::ThreatType, Some(threat))?;
    let entry = string_value(alloc, name.entry.word())?;
    put_member(alloc, &mut members, Field::ThreatEntryType, Some(entry))?;
    let platform = string_value(alloc, name.platform.word())?;
    put_member(alloc, &mut members, Field::PlatformType, Some(platform))?;
    Ok(Value::Object(members))
}

fn name_values(alloc: Global, names: &[ListName]) -> Result<Vec<Value>, OutOfMemory>
    ensures { IfOk result (λ values. map view values.items ≡ map name_written names.now) }
{
    let mut values = Vec::with_capacity(alloc, names.len())?;
    for name in names {
        values.push(name_value(alloc, *name)?)?;
    }
    Ok(values)
}

fn names_value(alloc: Global, names: &[ListName]) -> Result<Value, OutOfMemory>
    ensures { IfOk result (λ value. view value ≡ names_written names.now) }
{
    let mut members = Map::new(alloc);
    let values = name_values(alloc, names)?;
    put_member(alloc, &mut members, Field::ThreatLists, list_value(values))?;
    Ok(Value::Object(members))
}

/// Writes the names of the declared lists (`threatLists.list` of the Safe Browsing API, version 4): the compact JSON of an object
/// whose one key is `threatLists`, with an object of three types for each list, in the order of names. If no list is declared,
/// it is `{}`.
pub fn write_lists(alloc: Global, history: &History) -> Result<Bytes, OutOfMemory>
    ensures { IfOk result (λ text. text ≡ lists_text history.now.versions) }
{
    members_are_as_their_values();
    let names = declared_lists(alloc, history)?;
    let value = names_value(alloc, names.as_slice())?;
    let text = value.to_string(alloc)?;
    Ok(Bytes::from_vec(text.into_bytes()))
}
