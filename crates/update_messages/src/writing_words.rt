ghost use Rattle.std.specs.Prelude.{◌≡◌, Some, IfOk, OnOk};
ghost use Rattle.serde_json.specs.Data.{string, no_members};
ghost use Rattle.serde_json.specs.View.{members_view};
ghost use Rattle.sb_json.specs.declared.fields.Field.TheVariants as field;
ghost use Rattle.sb_model.specs.Names.{threat_word, entry_word};
ghost use Rattle.sb_members.specs.Writing.{with_member_if_any};

use sb_json::Field;
use sb_members::{put_member, string_value};
use sb_model::{ListName, OutOfMemory};
use serde_json::{Map, Value};
use std::alloc::Global;

/// Puts a word at its place.
pub(crate) fn put_word(
    alloc: Global,
    members: &mut Map<String, Value>,
    name: Field,
    word: &str,
) -> Result<(), OutOfMemory>
    ensures { OnOk result (members_view members.new.entries
        ≡ with_member_if_any name (Some (string word.now)) (members_view members.old.entries)) }
{
    let value = string_value(alloc, word)?;
    put_member(alloc, members, name, Some(value))
}

/// The last members of each object that names a list: its kinds of threats and of entries.
pub(crate) fn kinds(alloc: Global, name: &ListName) -> Result<Map<String, Value>, OutOfMemory>
    ensures { IfOk result (λ members. members_view members.entries
        ≡ with_member_if_any field.ThreatEntryType (Some (string (entry_word name.now.entry)))
        (with_member_if_any field.ThreatType (Some (string (threat_word name.now.threat))) no_members)) }
{
    let mut members = Map::new(alloc);
    put_word(alloc, &mut members, Field::ThreatType, name.threat.word())?;
    put_word(
        alloc,
        &mut members,
        Field::ThreatEntryType,
        name.entry.word(),
    )?;
    Ok(members)
}
