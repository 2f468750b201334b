ghost use Rattle.std.specs.Prelude.{◌≡◌, ◌++◌, length, take, codes, OnOk, OnErr};
ghost use Rattle.sb_json.specs.Fields.{label_of};
ghost use Rattle.sb_json.specs.Printed.{field_fault_text, message_cause_text};

use crate::{Field, FieldFault, MessageFault};
use sb_model::{Bytes, OutOfMemory};

fn push_label(text: &mut Bytes, field: Field) -> Result<(), OutOfMemory>
    ensures ok { OnOk result (text.new ≡ text.old ++ label_of field) }
    ensures front { OnErr result (take (length text.old) text.new ≡ text.old) }
{
    text.append(field.label().as_bytes())
}

/// Appends what is wrong, and the field that it is wrong with.
fn push_named(text: &mut Bytes, word: &str, field: Field) -> Result<(), OutOfMemory>
    ensures ok { OnOk result (text.new ≡ text.old ++ (word.now ++ label_of field)) }
    ensures front { OnErr result (take (length text.old) text.new ≡ text.old) }
{
    text.append(word.as_bytes())?;
    push_label(text, field)
}

fn push_field_fault(text: &mut Bytes, fault: FieldFault) -> Result<(), OutOfMemory>
    ensures ok { OnOk result (text.new ≡ text.old ++ field_fault_text fault) }
    ensures front { OnErr result (take (length text.old) text.new ≡ text.old) }
{
    match fault {
        FieldFault::Missing(field) => push_named(text, "missing ", field),
        FieldFault::WrongKind(field) => push_named(text, "wrong-kind ", field),
        FieldFault::Number(field) => push_named(text, "number ", field),
        FieldFault::Base64(field) => push_named(text, "base64 ", field),
        FieldFault::Name(field) => push_named(text, "name ", field),
        FieldFault::Size(field, size) => {
            text.append(b"size ")?;
            text.append_decimal(size)?;
            push_named(text, " ", field)
        }
        FieldFault::Duration(field) => push_named(text, "duration ", field),
        FieldFault::OutOfMemory => Ok(()),
    }
}

/// Appends the printed cause of a fault, as `field missing threatType 2`. Want of memory, which is none of
/// a message's causes, prints nothing. After an `Err` the text begins as it was.
pub fn push_message_cause(text: &mut Bytes, fault: &MessageFault) -> Result<(), OutOfMemory>
    ensures ok { OnOk result (text.new ≡ text.old ++ message_cause_text fault.now) }
    ensures front { OnErr result (take (length text.old) text.new ≡ text.old) }
{
    match fault {
        MessageFault::TooDense(place) => {
            text.append(b"too-dense ")?;
            text.append_decimal(*place)
        }
        MessageFault::NotJson => text.append(b"not-json"),
        MessageFault::Field(fault, item) => {
            text.append(b"field ")?;
            push_field_fault(text, *fault)?;
            text.push(b' ')?;
            text.append_decimal(*item)
        }
        MessageFault::TooManyItems(count) => {
            text.append(b"too-many-items ")?;
            text.append_decimal(*count)
        }
        MessageFault::OutOfMemory => Ok(()),
    }
}
