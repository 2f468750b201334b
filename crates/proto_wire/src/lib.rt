//! The wire form of Protocol Buffers (<https://protobuf.dev/programming-guides/encoding>): the fields of
//! a message, read one at a time without memory, and written one way. Which fields a message has is for
//! the crates above.
#![tactic(auto)]

pub use fault::WireFault;
pub use fields::{Field, FieldValue, Fields};
pub use laws::{
    bytes_read_one_way, fields_are_put_together, varints_are_shortest, written_fields_are_read,
};
pub use packed::PackedVarints;
pub use writing::{
    bytes_len, number_len, push_bytes, push_number, push_open, push_varint, varint_len,
};

mod fault;
mod fields;
mod laws;
mod packed;
mod spelling;
mod values;
mod varints;
mod writing;
