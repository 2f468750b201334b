ghost use Rattle.std.specs.Prelude.{◌≡◌};
ghost use Rattle.sb_json.specs.Faults.{fault_in_item};
ghost use Rattle.sb_json.specs.declared.faults.FieldFault.TheVariants.{OutOfMemory as FieldMemory};
ghost use Rattle.sb_json.specs.declared.faults.MessageFault.TheVariants.{OutOfMemory as MessageMemory};

use crate::Field;
use sb_model::OutOfMemory;
use std::error::Error;
use std::fmt;

/// Why a field is not read.
#[derive(Clone, Copy, Debug, PartialEq, Eq, Hash)]
pub enum FieldFault {
    /// 1: it is needed, and absent or null.
    Missing(Field),
    /// 2: it is a value of another kind than its own.
    WrongKind(Field),
    /// 3: it is no whole number, or out of its range.
    Number(Field),
    /// 4: it is not base64 of some bytes.
    Base64(Field),
    /// 5: it is a word that its table has not.
    Name(Field),
    /// 6: it has this many bytes, which it may not.
    Size(Field, u64),
    /// 7: it is no duration.
    Duration(Field),
    /// Memory was refused. It never stands inside another fault: `MessageFault::of` takes it out.
    OutOfMemory,
}

/// Why a text is no message.
#[derive(Clone, Copy, Debug, PartialEq, Eq, Hash)]
pub enum MessageFault {
    /// 0: it is too dense. A text of so many bytes may open 8,192 lists and objects and one more for each 48 bytes, and have
    /// 65,536 values and one more for each 6 bytes. What stands in a string does not count, and the values are counted by
    /// the commas, the colons and the openings. The place is that of the first byte, from 0, with which it has more.
    TooDense(u64),
    /// 1: it is not JSON.
    NotJson,
    /// 2: a field is not read, in the item with this number. Items count from 1, and 0 is outside them.
    Field(FieldFault, u64),
    /// 3: there are this many items, more than there may be.
    TooManyItems(u64),
    /// Memory was refused.
    OutOfMemory,
}

impl MessageFault {
    /// The fault of a message that has this fault of a field in this item. Want of memory is the message's
    /// own.
    pub fn of(fault: FieldFault, item: u64) -> MessageFault
        ensures { result ≡ fault_in_item fault item }
    {
        match fault {
            FieldFault::OutOfMemory => MessageFault::OutOfMemory,
            _ => MessageFault::Field(fault, item),
        }
    }
}

impl fmt::Display for FieldFault {
    fn fmt<W: fmt::Write>(&self, f: &mut fmt::Formatter<W>) -> fmt::Result {
        match self {
            FieldFault::Missing(field) => write!(f, "{field} is missing"),
            FieldFault::WrongKind(field) => write!(f, "{field} is of the wrong kind"),
            FieldFault::Number(field) => write!(f, "{field} is no number in its range"),
            FieldFault::Base64(field) => write!(f, "{field} is not base64"),
            FieldFault::Name(field) => write!(f, "{field} is an unknown name"),
            FieldFault::Size(field, size) => write!(f, "{field} has {size} bytes"),
            FieldFault::Duration(field) => write!(f, "{field} is no duration"),
            FieldFault::OutOfMemory => f.write_str("out of memory"),
        }
    }
}

impl Error for FieldFault {}

impl fmt::Display for MessageFault {
    fn fmt<W: fmt::Write>(&self, f: &mut fmt::Formatter<W>) -> fmt::Result {
        match self {
            MessageFault::TooDense(place) => write!(f, "too dense at byte {place}"),
            MessageFault::NotJson => f.write_str("not JSON"),
            MessageFault::Field(fault, 0) => write!(f, "{fault}"),
            MessageFault::Field(fault, item) => write!(f, "{fault}, in item {item}"),
            MessageFault::TooManyItems(count) => write!(f, "{count} items are too many"),
            MessageFault::OutOfMemory => f.write_str("out of memory"),
        }
    }
}

impl Error for MessageFault {}

impl From<OutOfMemory> for FieldFault {
    ghost from_gives = { λ _ fault. fault ≡ FieldMemory };

    fn from(_refused: OutOfMemory) -> FieldFault {
        FieldFault::OutOfMemory
    }
}

impl From<OutOfMemory> for MessageFault {
    ghost from_gives = { λ _ fault. fault ≡ MessageMemory };

    fn from(_refused: OutOfMemory) -> MessageFault {
        MessageFault::OutOfMemory
    }
}
