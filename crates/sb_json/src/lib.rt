//! Typed fields of JSON messages: each field of a message is read strictly, or refused by a fault that names
//! it.
#![tactic(auto)]

pub use faults::{FieldFault, MessageFault};
pub use fields::Field;
pub use kinds::{bytes_item, duration_item, items_item, object_item, string_item, whole_item};
pub use laws::{encoded_bytes_read_again, written_texts_are_counted};
pub use printing::push_message_cause;
pub use values::{bytes, duration, field, items, object, read_json, string, text, whole};

mod density;
mod encoded;
mod faults;
mod fields;
mod kinds;
mod laws;
mod numerals;
mod printing;
mod values;
