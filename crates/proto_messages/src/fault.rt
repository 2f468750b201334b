ghost use Rattle.std.specs.Prelude.{◌≡◌};
ghost use Rattle.proto_messages.specs.Fields.{part_fault_in_item};
ghost use Rattle.proto_messages.specs.declared.fault.PartFault.TheVariants.{OutOfMemory as PartMemory};
ghost use Rattle.proto_messages.specs.declared.fault.ProtoFault.TheVariants.{OutOfMemory as ProtoMemory};

use proto_wire::WireFault;
use sb_json::{Field, FieldFault};
use sb_model::OutOfMemory;
use std::error::Error;
use std::fmt;

/// Why a part of a message is not read.
#[derive(Clone, Copy, Debug, PartialEq, Eq, thiserror::Error)]
pub enum PartFault {
    /// The bytes of this field, which are a message or packed numbers, are not in the wire form.
    #[error("{0}: {1}")]
    Wire(Field, WireFault),
    /// What the form in JSON is refused for too.
    #[error("{0}")]
    Field(FieldFault),
    /// Memory was refused.
    #[error("out of memory")]
    OutOfMemory,
}

/// Why bytes, or the text of a query, are no message.
#[derive(Clone, Copy, Debug, PartialEq, Eq)]
pub enum ProtoFault {
    /// The text of a query is no base64. `message_of_query` alone answers this.
    NotBase64,
    /// A part is not read, in the item with this number. Items count from 1, and 0 is outside them.
    Part(PartFault, u64),
    /// There are this many items, more than there may be.
    TooManyItems(u64),
    /// Memory was refused.
    OutOfMemory,
}

impl fmt::Display for ProtoFault {
    fn fmt<W: fmt::Write>(&self, f: &mut fmt::Formatter<W>) -> fmt::Result {
        match self {
            ProtoFault::NotBase64 => f.write_str("the text is not base64"),
            ProtoFault::Part(fault, 0) => write!(f, "{fault}"),
            ProtoFault::Part(fault, item) => write!(f, "{fault}, in item {item}"),
            ProtoFault::TooManyItems(count) => write!(f, "{count} items are too many"),
            ProtoFault::OutOfMemory => f.write_str("out of memory"),
        }
    }
}

impl Error for ProtoFault {}

impl ProtoFault {
    /// The fault of a message that has this fault in this item. Want of memory is the message's own.
    pub(crate) fn of(fault: PartFault, item: u64) -> ProtoFault
        ensures { result ≡ part_fault_in_item fault item }
    {
        match fault {
            PartFault::OutOfMemory => ProtoFault::OutOfMemory,
            _ => ProtoFault::Part(fault, item),
        }
    }
}

impl From<OutOfMemory> for PartFault {
    ghost from_gives = { λ _ fault. fault ≡ PartMemory };

    fn from(_refused: OutOfMemory) -> PartFault {
        PartFault::OutOfMemory
    }
}

impl From<OutOfMemory> for ProtoFault {
    ghost from_gives = { λ _ fault. fault ≡ ProtoMemory };

    fn from(_refused: OutOfMemory) -> ProtoFault {
        ProtoFault::OutOfMemory
    }
}
