//! What the messages share: rows, each of which reads a field of an object, members that are written of
//! fields, and lists whose items are read one by one.
//!
//! `specs/Rows.antt` says what a row reads, `Lists` what a list is read as and its first fault, `Somes` what
//! it is read as where an item may stand for nothing, `Writing` what is written of a field, and `Laws` that
//! it is read again.
#![tactic(auto)]

pub use laws::{members_are_as_their_values, written_members_read_again};
pub use lists::{ReadItem, read_items, read_list, read_numbered_items};
pub use members::{
    bytes_value, duration_value, encoded_value, list_value, long_value, number_value, object_value,
    put_member, string_value, text_value,
};
pub use rows::{
    bytes_or_empty, check_object, duration_or_zero, entry_type, items_or_none, object_or_null,
    platform_type, text_or_empty, threat_type, whole_or_zero,
};
pub use some_items::{ReadSome, read_some_list, read_some_numbered_items};

mod laws;
mod lists;
mod members;
mod rows;
mod some_items;
