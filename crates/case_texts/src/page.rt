//! A text that is put together.
use crate::fault::{CaseFault, FirstFault};
use sb_model::Bytes;
use std::alloc::{AllocError, Global};

/// The bytes so far, and the first fault.
#[derive(Drop)]
pub struct Page {
    pub bytes: Bytes,
    pub faults: FirstFault,
}

impl Page {
    pub fn new(alloc: Global) -> Self {
        Page {
            bytes: Bytes::new(alloc),
            faults: FirstFault::none(),
        }
    }

    /// Appends bytes.
    pub fn put(&mut self, piece: &[u8]) {
        let done = self.bytes.append(piece);
        self.faults.note(done);
    }

    /// Appends a number in decimal digits.
    pub fn put_number(&mut self, number: u64) {
        let done = self.bytes.append_decimal(number);
        self.faults.note(done);
    }

    /// Appends a text that was just written.
    pub fn put_text(&mut self, written: Result<String, AllocError>) {
        match written {
            Ok(text) => self.put(text.as_bytes()),
            Err(_) => self.faults.refused(),
        }
    }

    /// The bytes, if there was no fault.
    pub fn into_bytes(self) -> Result<Bytes, CaseFault> {
        let Self { bytes, faults } = self;
        match faults.get() {
            Some(fault) => Err(fault),
            None => Ok(bytes),
        }
    }
}
