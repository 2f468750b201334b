//! Texts that have a name.
use crate::book::Reader;
use sb_model::{Bytes, Row};
use std::alloc::Global;

/// A text with its name.
#[derive(Drop)]
struct Named {
    name: Bytes,
    text: Bytes,
}

/// The texts that were named so far.
#[derive(Drop)]
pub struct Names {
    named: Row<Named>,
}

impl Names {
    pub fn new(alloc: Global) -> Self {
        Names {
            named: Row::new(alloc),
        }
    }

    /// Names a text. Where several have the name, the last counts.
    pub fn put(&mut self, reader: &mut Reader, name: Bytes, text: Bytes) {
        let done = self.named.push(Named { name, text });
        reader.faults.note(done);
    }

    /// The text of this name.
    pub fn find(&self, name: &[u8]) -> Option<&[u8]> {
        let mut found = None;
        for named in self.named.iter() {
            if named.name.as_slice() == name {
                found = Some(named.text.as_slice());
            }
        }
        found
    }
}
