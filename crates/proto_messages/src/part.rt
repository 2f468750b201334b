ghost use Rattle.std.specs.Prelude.{◌≡◌, ◌<◌, ◌≤◌, [], ◌∷◌, ◌++◌, length, IfOk, IfErr, Ok, Err, IfSome, IfNone};
ghost use Rattle.proto_wire.specs.Given.{given_value, given_field};
ghost use Rattle.proto_wire.specs.Reading.{wire_fields};
ghost use Rattle.proto_messages.specs.Fields.{field_values_at, fields_within};
ghost use Rattle.proto_messages.specs.Parts.{fields_of_part};

use proto_wire::{Field, FieldValue, Fields};
use std::marker::Model;

/// A message, or the message that stands in it under a number, each time that it stands there.
#[derive(Clone, Copy)]
pub(crate) struct Part<'a> {
    pub bytes: &'a [u8],
    pub under: Option<u32>,
}

/// Gives the fields of a part one at a time. A fault ends a message. Contracts see it as the fields that are still to come.
#[derive(Drop)]
struct PartFields<'a> {
    inner: Fields<'a>,
    outer: Fields<'a>,
    /// The number under which messages stand in the outer one.
    under: u32,
}

impl<'a> Model for PartFields<'a> {
    ghost use Rattle.std.specs.Prelude.{List, ◌++◌};
    ghost use Rattle.proto_wire.specs.Wire.{WireField};
    ghost use Rattle.proto_messages.specs.Fields.{fields_within};

    ghost Value = { List WireField };

    ghost view = { λ r. r.inner.items ++ fields_within r.under r.outer.items };
}

/// The bytes of the next message that stands in another under a number.
fn next_message<'a>(outer: &mut Fields<'a>, under: u32) -> Option<&'a [u8]>
    ensures found { IfSome result (λ bytes. fields_within under outer.old.items
        ≡ (wire_fields bytes.now).items ++ fields_within under outer.new.items) }
    ensures fewer { IfSome result (λ _. length outer.new.items < length outer.old.items) }
    ensures end { IfNone result (fields_within under outer.old.items ≡ []) }
{
    while let Ok(Some(field)) = outer.next() {
        if field.number != under {
            continue;
        }
        if let FieldValue::Bytes(bytes) = field.value {
            return Some(bytes);
        }
    }
    None
}

impl<'a> PartFields<'a> {
    fn next(&mut self) -> Option<Field<'a>>
        ensures field { IfSome result (λ field. self.old ≡ given_field field ∷ self.new) }
        ensures end { IfNone result (self.old ≡ []) }
    {
        'messages: loop {
            if let Ok(Some(field)) = self.inner.next() {
                return Some(field);
            }
            match next_message(&mut self.outer, self.under) {
                Some(bytes) => self.inner = Fields::new(bytes),
                None => return None,
            }
        }
    }
}

/// Gives the values of the fields of a part that have a number, one at a time, in order. Contracts see it as the values that
/// are still to come.
#[derive(Drop)]
pub(crate) struct Values<'a> {
    fields: PartFields<'a>,
    number: u32,
}

impl<'a> Model for Values<'a> {
    ghost use Rattle.std.specs.Prelude.{List};
    ghost use Rattle.proto_wire.specs.Wire.{WireValue};
    ghost use Rattle.proto_messages.specs.Fields.{field_values_at};

    ghost Value = { List WireValue };

    ghost view = { λ r. field_values_at r.number r.fields };
}

impl<'a> Values<'a> {
    /// The next value; `None` after the last one.
    pub fn next(&mut self) -> Option<FieldValue<'a>>
        ensures value { IfSome result (λ value. self.old ≡ given_value value ∷ self.new) }
        ensures end { IfNone result (self.old ≡ []) }
    {
        while let Some(field) = self.fields.next() {
            if field.number == self.number {
                return Some(field.value);
            }
        }
        None
    }
}

impl<'a> Part<'a> {
    /// The message of these bytes.
    #[tactic(auto, unfolding(crate::specs::Parts::fields_of_part))]
    pub fn of(bytes: &'a [u8]) -> Part<'a>
        ensures { fields_of_part result ≡ (wire_fields bytes.now).items }
    {
        Part { bytes, under: None }
    }

    /// The fields of the part.
    #[tactic(auto, unfolding(crate::specs::Parts::fields_of_part, proto_wire::specs::Reading::items_from))]
    fn fields(&self) -> PartFields<'a>
        ensures { result ≡ fields_of_part self.now }
    {
        match self.under {
            Some(under) => PartFields {
                inner: Fields::new(&[]),
                outer: Fields::new(self.bytes),
                under,
            },
            None => PartFields {
                inner: Fields::new(self.bytes),
                outer: Fields::new(&[]),
                under: 0,
            },
        }
    }

    /// The values of the fields that have a number.
    pub fn values(&self, number: u32) -> Values<'a>
        ensures { result ≡ field_values_at number (fields_of_part self.now) }
    {
        Values {
            fields: self.fields(),
            number,
        }
    }
}

/// The values of the fields of a message that have a number. No field is without a byte.
#[tactic(auto, using(crate::proofs::FieldFacts::few_values))]
pub(crate) fn values_in(bytes: &[u8], number: u32) -> Values<'_>
    ensures values { result ≡ field_values_at number (wire_fields bytes.now).items }
    ensures few { length result ≤ length bytes.now }
{
    Part::of(bytes).values(number)
}
