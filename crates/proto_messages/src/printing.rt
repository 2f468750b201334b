ghost use Rattle.std.specs.Prelude.{◌≡◌, ◌++◌, length, take, codes, decimal, OnOk, OnErr};
ghost use Rattle.sb_json.specs.Fields.{label_of};
ghost use Rattle.proto_messages.specs.Printed as spec;

use crate::{PartFault, ProtoFault};
use proto_wire::WireFault;
use sb_json::{Field, MessageFault, push_message_cause};
use sb_model::{Bytes, OutOfMemory};

/// Appends a word and the place of a field.
fn push_place(page: &mut Bytes, word: &str, place: usize) -> Result<(), OutOfMemory>
    ensures ok { OnOk result (page.new ≡ page.old ++ (word.now ++ decimal place)) }
    ensures front { OnErr result (take (length page.old) page.new ≡ page.old) }
{
    page.append(word.as_bytes())?;
    page.append_decimal(place as u64)
}

fn push_wire_fault(page: &mut Bytes, fault: WireFault) -> Result<(), OutOfMemory>
    ensures ok { OnOk result (page.new ≡ page.old ++ spec.wire_fault_text fault) }
    ensures front { OnErr result (take (length page.old) page.new ≡ page.old) }
{
    match fault {
        WireFault::Cut(place) => push_place(page, "cut ", place),
        WireFault::LongVarint(place) => push_place(page, "long-varint ", place),
        WireFault::WireType(place) => push_place(page, "wire-type ", place),
        WireFault::FieldNumber(place) => push_place(page, "field-number ", place),
    }
}

/// Appends the cause of bytes of a field that are not in the wire form.
fn push_wire(page: &mut Bytes, field: Field, fault: WireFault, item: u64) -> Result<(), OutOfMemory>
    ensures ok { OnOk result (page.new ≡ page.old ++ spec.part_cause_text (PartFault.Wire field fault) item) }
    ensures front { OnErr result (take (length page.old) page.new ≡ page.old) }
{
    page.append(b"wire ")?;
    push_wire_fault(page, fault)?;
    page.push(b' ')?;
    page.append(field.label().as_bytes())?;
    page.push(b' ')?;
    page.append_decimal(item)
}

/// Appends the printed cause of a fault, as `wire cut 12 message 0` or `field size 3 hash 2`. Want of memory, which is none of a
/// message's causes, prints nothing. After an `Err` the page begins as it was.
pub fn push_cause(page: &mut Bytes, fault: &ProtoFault) -> Result<(), OutOfMemory>
    ensures ok { OnOk result (page.new ≡ page.old ++ spec.proto_cause_text fault.now) }
    ensures front { OnErr result (take (length page.old) page.new ≡ page.old) }
{
    match fault {
        ProtoFault::NotBase64 => page.append(b"not-base64"),
        ProtoFault::Part(PartFault::Wire(field, fault), item) => push_wire(
            page, *field, *fault, *item,
        ),
        ProtoFault::Part(PartFault::Field(fault), item) => {
            push_message_cause(page, &MessageFault::Field(*fault, *item))
        }
        ProtoFault::TooManyItems(count) => {
            push_message_cause(page, &MessageFault::TooManyItems(*count))
        }
        ProtoFault::Part(PartFault::OutOfMemory, _) | ProtoFault::OutOfMemory => Ok(()),
    }
}
